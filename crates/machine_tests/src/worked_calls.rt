//! Worked scripts, each with the text of the transcript that its run shows. A table is a text: one that is an array is proved row by
//! row.
ghost use Rattle.store_map.specs.Naming.{IsValid};

use crate::away::AWAY;
use crate::call_answers::ANSWERS;
use crate::patches::{BYTES, MEANWHILE};
use crate::puts::PUTS;
use crate::reads::READS;
use crate::step_losses;
use crate::worked_races::{GIVEN_UP, RACES};
use crate::worked_rebuilds::REBUILDS;
use clay_lanes::LaneCoder;
use script_text::read_script;
use std::alloc::Global;
use std::test::Fail;
use std::thread::Threads;
use store_map::{Script, Transcript};
use store_world::play;
use text_tables::fault_tables::{failed, joined, parts, rows_of};
use text_tables::table_lines::{add_line, unfolded};
use transcript_text::write_transcript;

fn text_of(alloc: Global, transcript: &Transcript) -> Result<Vec<u8>, Fail> {
    Ok(write_transcript(alloc, transcript)?)
}

fn played<R: Threads + Sync + AllocGlobal>(rt: &R, script: Script) -> Result<Vec<u8>, Fail>
    requires { IsValid script }
{
    let transcript = play(rt, rt.alloc(), &LaneCoder, script)?;
    text_of(rt.alloc(), &transcript)
}

// What a run of the script shows.
fn shown<R: Threads + Sync + AllocGlobal>(rt: &R, script: &[u8]) -> Result<Vec<u8>, Fail> {
    match read_script(rt.alloc(), script) {
        Ok(script) => played(rt, script),
        Err(_) => Err(Fail::from("the script is refused")),
    }
}

fn shows<R: Threads + Sync + AllocGlobal>(
    rt: &R,
    script: &[u8],
    wanted: &[u8],
) -> Result<bool, Fail> {
    Ok(shown(rt, script)?.as_slice() == wanted)
}

fn row_shows<R: Threads + Sync + AllocGlobal>(rt: &R, head: &[u8], row: &[u8]) -> Result<(), Fail> {
    let (name, texts) = parts(row)?;
    let (behind, wanted) = parts(texts)?;
    let script = unfolded(rt.alloc(), &joined(rt.alloc(), head, behind, b"")?)?;
    let wanted = unfolded(rt.alloc(), wanted)?;
    if shows(rt, &script, &wanted)? {
        return Ok(());
    }
    Err(failed(name))
}

// Holds what a run of each row's script, with this head before it, shows against the row's transcript. The rows are parted by `|`,
// and a row's name, script and transcript by `>`; there are so many.
fn all_show<R: Threads + Sync + AllocGlobal>(
    rt: &R,
    head: &[u8],
    rows: usize,
    table: &[u8],
) -> Result<(), Fail> {
    for row in &rows_of(rt.alloc(), table, b'|', rows)? {
        row_shows(rt, head, row)?;
    }
    Ok(())
}

// The first lines of most scripts: stripes of 8 bytes, objects of 24 at most, two tries.
const HEAD: &[u8] = b"clay 2\ncode 2 2 1\nsize 24\ntries 2\n";

#[test]
fn calls_end_as_reckoned(rt: HostRuntime) -> Result<(), Fail> {
    all_show(&rt, b"", 6, ANSWERS)?;
    all_show(&rt, b"", 3, RACES)?;
    all_show(&rt, b"", 2, step_losses::REBUILDS)?;
    all_show(&rt, HEAD, 3, step_losses::READS)?;
    all_show(&rt, HEAD, 3, GIVEN_UP)?;
    all_show(&rt, HEAD, 5, AWAY)?;
    all_show(&rt, HEAD, 3, PUTS)?;
    all_show(&rt, HEAD, 2, READS)?;
    all_show(&rt, HEAD, 3, BYTES)?;
    all_show(&rt, HEAD, 5, MEANWHILE)?;
    all_show(&rt, HEAD, 5, REBUILDS)
}

/// A script in which a line of the schedule stands some number of times.
#[derive(Clone, Copy)]
pub struct Repeated<'a> {
    pub name: &'a str,
    pub before: &'a [u8],
    pub line: &'a [u8],
    pub behind: &'a [u8],
}

// The script with its line so many times.
fn script_with(alloc: Global, repeated: Repeated<'_>, times: u32) -> Result<Vec<u8>, Fail> {
    let mut script = unfolded(alloc, repeated.before)?;
    for _ in 0..times {
        add_line(&mut script, repeated.line)?;
    }
    script.extend_from_slice(repeated.behind)?;
    Ok(script)
}

/// Holds what the runs show against the transcript, for each number of times from the first up to the end.
pub fn show_from<R: Threads + Sync + AllocGlobal>(
    rt: &R,
    repeated: Repeated<'_>,
    first: u32,
    end: u32,
    transcript: &[u8],
) -> Result<(), Fail> {
    for times in first..end {
        let script = script_with(rt.alloc(), repeated, times)?;
        if !shows(rt, &script, transcript)? {
            let name = repeated.name;
            return Err(Fail::new(format_args!("{name}, {times} times: not what is wanted")));
        }
    }
    Ok(())
}
