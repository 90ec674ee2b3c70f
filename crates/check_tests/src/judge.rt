//! What the checker prints of a script and a transcript.
use hist_check::{check, verdict_line};
use script_text::read_script;
use std::alloc::Global;
use std::test::Fail;
use store_map::{Script, Transcript};
use text_tables::fault_tables::{Around, failed, joined, parts, rows_of};
use transcript_read::read_transcript;

/// Two clients that put and read, one that writes, one repairer. Server 1 is emptied once.
pub const SCRIPT: &[u8] = b"\
clay 1
code 2 2 1
tries 2
client
put a hex:00
get a
client
put a hex:0102
delete b
client
write a 0 hex:05
repairer
rebuild a 0 1
rebuild a 0 2
schedule
wipe 1
reap c 1
drain
end
";

/// A transcript stands alone in its row.
pub const ALONE: Around<'static> = Around {
    before: b"",
    behind: b"",
};

/// A row has the first lines of a transcript; these follow, by which the object `a` has two bytes and
/// nothing was taken.
pub const BEFORE_ITS_END: Around<'static> = Around {
    before: b"",
    behind: b"\
L a 2
T 0 0 1 0
T 1 0 1 1
T 2 0 1 0
T 3 0 1 0
end
",
};

fn line_of(alloc: Global, script: &Script, transcript: &Transcript) -> Result<Vec<u8>, Fail> {
    if transcript.history.len() >= 1 << 30
        || transcript.refused.len() >= 1 << 30
        || transcript.repairs.len() >= 1 << 30
    {
        return Err(Fail::from("too many lines"));
    }
    let verdict = check(alloc, script, transcript)?;
    Ok(verdict_line(alloc, &verdict)?)
}

fn judged_by(alloc: Global, script: &Script, text: &[u8]) -> Result<Vec<u8>, Fail> {
    if text.len() >= 1 << 31 {
        return Err(Fail::from("too long"));
    }
    let Ok(transcript) = read_transcript(alloc, text, script.geometry.n()) else {
        return Err(Fail::from("the transcript is refused"));
    };
    line_of(alloc, script, &transcript)
}

/// The line that is printed of a script and a transcript.
fn judged(alloc: Global, script: &[u8], text: &[u8]) -> Result<Vec<u8>, Fail> {
    let Ok(script) = read_script(alloc, script) else {
        return Err(Fail::from("the script is refused"));
    };
    judged_by(alloc, &script, text)
}

fn is_judged(alloc: Global, script: &[u8], around: Around<'_>, row: &[u8]) -> Result<(), Fail> {
    let (wanted, text) = parts(row)?;
    let text = joined(alloc, around.before, text, around.behind)?;
    if judged(alloc, script, &text)?.as_slice() == wanted {
        return Ok(());
    }
    Err(failed(row))
}

/// Holds the line of each row's transcript, with what stands around it, against the one that is wanted, which the row begins with, `>`
/// behind it. The rows are parted by `|`; there are so many.
pub fn are_judged(
    alloc: Global,
    script: &[u8],
    around: Around<'_>,
    rows: usize,
    table: &[u8],
) -> Result<(), Fail> {
    for row in &rows_of(alloc, table, b'|', rows)? {
        is_judged(alloc, script, around, row)?;
    }
    Ok(())
}
