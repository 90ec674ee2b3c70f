//! Runs of scripts in threads, and whether the checker finds their transcripts legal.
ghost use Rattle.std.specs.Prelude.{IfOk};
ghost use Rattle.store_map.specs.Naming.{IsValid};

use crate::gates::TestGate;
use clay_par::ParCoder;
use hist_check::{check, verdict_line};
use script_text::read_script;
use std::alloc::Global;
use std::str;
use std::sync::Wait;
use std::test::Fail;
use std::thread::Threads;
use store_map::{Script, Transcript};
use store_run::run;
use text_tables::counting::Counting;
use text_tables::fault_tables::parts;
use text_tables::table_scripts::repeated;

/// In so many threads each script is run.
pub const WORKERS: [usize; 4] = [1, 2, 4, 16];

// How often in each number of threads: the threads meet otherwise each time.
const ROUNDS: u32 = 10;

/// The script that a text spells.
pub fn script_of(alloc: Global, text: &[u8]) -> Result<Script, Fail>
    ensures { IfOk result IsValid }
{
    match read_script(alloc, text) {
        Ok(script) => Ok(script),
        Err(_) => Err(Fail::from("the script is refused")),
    }
}

/// The transcript of a run of the script in so many threads by this coder, which is of one kind, as the gate is: a whole run is built
/// anew for each.
pub fn transcript_by<R: Threads + Wait + Sync + AllocGlobal>(
    rt: &R,
    text: &[u8],
    workers: usize,
    coder: &Counting<ParCoder>,
    gate: &TestGate<'_>,
) -> Result<Transcript, Fail> {
    if workers == 0 {
        return Err(Fail::from("no workers"));
    }
    let script = script_of(rt.alloc(), text)?;
    Ok(run(rt, rt.alloc(), script, workers, coder, gate)?)
}

// The transcript of a run of the script in so many threads.
fn transcript_of<R: Threads + Wait + Sync + AllocGlobal>(
    rt: &R,
    text: &[u8],
    workers: usize,
    gate: &TestGate<'_>,
) -> Result<Transcript, Fail> {
    transcript_by(rt, text, workers, &Counting::new(ParCoder), gate)
}

// What the checker prints of a legal transcript.
const LEGAL: &[u8] = b"legal\n";

// Fails where the checker's line is another.
fn expect_line(name: &str, line: &[u8]) -> Result<(), Fail> {
    if line == LEGAL {
        return Ok(());
    }
    match str::from_utf8(line) {
        Ok(line) => Err(Fail::new(format_args!("{name}: not legal: {line}"))),
        Err(_) => Err(Fail::from("not legal")),
    }
}

/// Fails where the checker finds the transcript of the script of this name not legal.
pub fn expect_legal(
    alloc: Global,
    name: &str,
    script: &Script,
    transcript: &Transcript,
) -> Result<(), Fail> {
    if transcript.history.len() >= 1 << 30
        || transcript.refused.len() >= 1 << 30
        || transcript.repairs.len() >= 1 << 30
    {
        return Err(Fail::from("too many lines"));
    }
    let verdict = check(alloc, script, transcript)?;
    expect_line(name, &verdict_line(alloc, &verdict)?)
}

/// Runs the script in so many threads, and drops its transcript.
pub fn run_through<R: Threads + Wait + Sync + AllocGlobal>(
    rt: &R,
    text: &[u8],
    workers: usize,
    gate: &TestGate<'_>,
) -> Result<(), Fail> {
    let _transcript = transcript_of(rt, text, workers, gate)?;
    Ok(())
}

// What a round owns is dropped in a function of its own: each `?` of one that owns a transcript drops all of its lists.
fn round_is_legal<R: Threads + Wait + Sync + AllocGlobal>(
    rt: &R,
    name: &str,
    text: &[u8],
    script: &Script,
    workers: usize,
) -> Result<(), Fail> {
    let transcript = transcript_of(rt, text, workers, &TestGate::Nobody)?;
    expect_legal(rt.alloc(), name, script, &transcript)
}

// Runs the script in so many threads some times.
fn rounds_are_legal<R: Threads + Wait + Sync + AllocGlobal>(
    rt: &R,
    name: &str,
    text: &[u8],
    workers: usize,
) -> Result<(), Fail> {
    let script = script_of(rt.alloc(), text)?;
    for _round in 0..ROUNDS {
        round_is_legal(rt, name, text, &script, workers)?;
    }
    Ok(())
}

/// The script of some pieces, which are parted by `|`: `TIMES>LINES` stands for as many times the lines.
pub fn unfolded(alloc: Global, pieces: &[u8]) -> Result<Vec<u8>, Fail> {
    let mut script = Vec::new(alloc);
    for piece in pieces.split(|byte| *byte == b'|') {
        let (times, lines) = parts(piece)?;
        let times = str::from_utf8(times)?.parse()?;
        script = repeated(alloc, &script, lines, times)?;
    }
    Ok(script)
}

/// Runs the script of some pieces in 1, 2, 4 and 16 threads.
pub fn runs_are_legal<R: Threads + Wait + Sync + AllocGlobal>(
    rt: &R,
    name: &str,
    pieces: &[u8],
) -> Result<(), Fail> {
    let script = unfolded(rt.alloc(), pieces)?;
    for workers in WORKERS {
        rounds_are_legal(rt, name, &script, workers)?;
    }
    Ok(())
}
