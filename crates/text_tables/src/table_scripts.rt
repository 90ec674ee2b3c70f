//! Scripts for tests: texts of many lines, and what is read of a text and written again.

use crate::fault_tables::{Around, Reader, have_faults, joined, same};
use script_text::{ScriptFault, read_front, read_script, write_script};
use std::alloc::Global;
use std::test::Fail;
use store_map::Script;

// A code of four servers, whose stripes have 8 bytes.
pub const HEAD: &[u8] = b"clay 1\ncode 2 2 1\n";

/// The text with this line behind it, so many times.
pub fn repeated(alloc: Global, head: &[u8], line: &[u8], times: usize) -> Result<Vec<u8>, Fail> {
    let mut text = Vec::from_slice(alloc, head)?;
    for _ in 0..times {
        text.extend_from_slice(line)?;
    }
    Ok(text)
}

/// The script, where one was read.
pub fn script_of(read: Result<Script, ScriptFault>) -> Result<Script, Fail> {
    match read {
        Ok(script) => Ok(script),
        Err(_) => Err(Fail::from("refused")),
    }
}

/// Holds the head, with each end of a table behind it, against the fault of that row.
pub fn has_faults(alloc: Global, head: &[u8], rows: usize, table: &[u8]) -> Result<(), Fail> {
    let around = Around {
        before: head,
        behind: b"",
    };
    have_faults(alloc, Reader::Script, around, rows, table)
}

// The text of the script with which the text begins, of this length.
fn written_front(alloc: Global, text: &[u8], wanted: usize) -> Result<Vec<u8>, Fail> {
    let (script, length) = read_front(alloc, text).ok().ok_or("refused")?;
    if length != wanted {
        return Err(Fail::from("another length"));
    }
    Ok(write_script(alloc, &script)?)
}

/// Holds a script, with something behind it, against the script alone.
pub fn begins_with(alloc: Global, text: &[u8], behind: &[u8]) -> Result<(), Fail> {
    let longer = joined(alloc, text, behind, b"")?;
    let front = written_front(alloc, &longer, text.len())?;
    same(&front, text)
}
