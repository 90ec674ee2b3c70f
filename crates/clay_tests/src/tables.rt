//! Tables of inputs with what a command says of them, each a text: a table that is an array is proved row by row.
use crate::command_runs::run;
use std::str;
use std::sync::Wait;
use std::test::Fail;
use std::thread::Threads;
use text_tables::fault_tables::{Around, joined, parts, rows_of};

/// Nothing stands around an input.
pub const ALONE: Around<'static> = Around {
    before: b"",
    behind: b"",
};

fn row_answers<R: Threads + Wait + Sync + AllocGlobal>(
    rt: &R,
    words: &[&str],
    status: u8,
    around: Around<'_>,
    row: &[u8],
) -> Result<(), Fail> {
    let (text, wanted) = parts(row)?;
    let input = joined(rt.alloc(), around.before, text, around.behind)?;
    let ran = run(rt, words, &input)?;
    if ran.status.number() == status && ran.written.as_slice() == wanted {
        return Ok(());
    }
    let row = str::from_utf8(row)?;
    Err(Fail::new(format_args!("{words:?}: {row}: not what is wanted")))
}

fn section_answers<R: Threads + Wait + Sync + AllocGlobal>(
    rt: &R,
    around: Around<'_>,
    section: &[u8],
) -> Result<(), Fail> {
    let (words, rest) = parts(section)?;
    let (status, rest) = parts(rest)?;
    let (count, rows) = parts(rest)?;
    let status = str::from_utf8(status)?.parse()?;
    let count = str::from_utf8(count)?.parse()?;
    let words: Vec<&str> = str::from_utf8(words)?.split(' ').collect(rt.alloc())?;
    for row in &rows_of(rt.alloc(), rows, b'|', count)? {
        row_answers(rt, &words, status, around, row)?;
    }
    Ok(())
}

/// Holds what commands say of each row's input, with what stands around it, against the row's output. Each section, parted by `#`,
/// has a command's words, its exit status, how many rows there are, and the rows: `>` stands behind each of the first three. Rows are
/// parted by `|`, and a row's input and output by `>`; there are so many sections.
pub fn all_answer<R: Threads + Wait + Sync + AllocGlobal>(
    rt: &R,
    around: Around<'_>,
    sections: usize,
    table: &[u8],
) -> Result<(), Fail> {
    for section in &rows_of(rt.alloc(), table, b'#', sections)? {
        section_answers(rt, around, section)?;
    }
    Ok(())
}
