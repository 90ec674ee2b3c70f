//! Tables of faults, each a text: a table that is an array is proved row by row.

use script_text::read_script;
use std::alloc::Global;
use std::str;
use std::test::Fail;
use transcript_read::read_transcript;

/// What reads a text.
#[derive(Clone, Copy)]
pub enum Reader {
    Script,
    /// Of a transcript with so many servers.
    Transcript(u32),
}

/// What stands around the text of each row.
#[derive(Clone, Copy)]
pub struct Around<'a> {
    pub before: &'a [u8],
    pub behind: &'a [u8],
}

/// The parts of a row before and behind its first `>`: what is wanted, and the text.
pub fn parts(row: &[u8]) -> Result<(&[u8], &[u8]), Fail> {
    let at = row
        .iter()
        .position(|byte| *byte == b'>')
        .ok_or("a row without what is wanted")?;
    Ok((&row[..at], &row[at + 1..]))
}

/// The rows of a table, parted by this byte; there are so many.
pub fn rows_of<'a>(
    alloc: Global,
    table: &'a [u8],
    between: u8,
    rows: usize,
) -> Result<Vec<&'a [u8]>, Fail> {
    let parted: Vec<&[u8]> = table.split(|byte| *byte == between).collect(alloc)?;
    if parted.len() != rows {
        return Err(Fail::from("not so many rows"));
    }
    Ok(parted)
}

/// That the row of this name failed.
pub fn failed(name: &[u8]) -> Fail {
    match str::from_utf8(name) {
        Ok(name) => Fail::new(format_args!("{name}: not what is wanted")),
        Err(_) => Fail::from("a name that is no text"),
    }
}

/// The first fault of the text, as it is printed.
pub fn fault_in(alloc: Global, reader: Reader, text: &[u8]) -> Result<String, Fail> {
    if text.len() >= 1 << 31 {
        return Err(Fail::from("too long"));
    }
    let fault = match reader {
        Reader::Script => read_script(alloc, text).err(),
        Reader::Transcript(servers) => read_transcript(alloc, text, servers).err(),
    };
    match fault {
        Some(fault) => Ok(format!(in alloc; "{fault}")?),
        None => Err(Fail::from("no fault")),
    }
}

/// Three texts, one behind the other.
pub fn joined(alloc: Global, first: &[u8], second: &[u8], third: &[u8]) -> Result<Vec<u8>, Fail> {
    let mut whole = Vec::from_slice(alloc, first)?;
    whole.extend_from_slice(second)?;
    whole.extend_from_slice(third)?;
    Ok(whole)
}

/// Holds what was found against what is wanted. It is a function of its own, since each comparison in a
/// function makes all of that function dearer to prove.
pub fn same(found: &[u8], wanted: &[u8]) -> Result<(), Fail> {
    if found == wanted {
        return Ok(());
    }
    match str::from_utf8(found) {
        Ok(found) => Err(Fail::new(format_args!("found {found}"))),
        Err(_) => Err(Fail::from("found bytes that are no text")),
    }
}

fn has_fault(alloc: Global, reader: Reader, around: Around<'_>, row: &[u8]) -> Result<(), Fail> {
    let (fault, text) = parts(row)?;
    let whole = joined(alloc, around.before, text, around.behind)?;
    let found = fault_in(alloc, reader, &whole)?;
    if found.as_bytes() == fault {
        return Ok(());
    }
    Err(failed(row))
}

/// Holds the text of each row, with what stands around it, against the fault of that row, which is written
/// as it is printed, `>` behind it. The rows are parted by `|`; there are so many.
pub fn have_faults(
    alloc: Global,
    reader: Reader,
    around: Around<'_>,
    rows: usize,
    table: &[u8],
) -> Result<(), Fail> {
    for row in &rows_of(alloc, table, b'|', rows)? {
        has_fault(alloc, reader, around, row)?;
    }
    Ok(())
}
