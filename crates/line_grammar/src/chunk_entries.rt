//! Some of the chunks, read from lines: dashes for missing ones, hexadecimal digits for the others.
ghost use Rattle.std.specs.Prelude.{◌≡◌, ◌≢◌, ◌⊎◌, ◌≤◌, IfOk, IsErrOf, IsTrue, ◌↔◌, ◌∷◌, ◌<◌, drop, slice_range, map, length};
ghost use Rattle.std.specs.Option.{option_map};
ghost use Rattle.line_grammar.specs.ChunkEntries.{lines_of, pieces_of, IsEntry, IsNoEntry, AreEntries, HasNoEntry, AreLong, HasOtherLength, parts_of};
ghost use Rattle.line_grammar.specs.declared.chunk_entries.EntriesFault.TheVariants.{Hex, Length, OutOfMemory};

use crate::stripe_line::line_of;
use hex::FromHexError;
use memchr::memchr;
use std::alloc::{AllocError, Global};
use thiserror::Error;

/// Why lines aren't the chunks of a code.
#[derive(Debug, Drop, Error)]
pub enum EntriesFault {
    #[error("another number of lines, or of bytes in a line")]
    Length,
    #[error("a line that is neither a dash nor an even number of hexadecimal digits")]
    Hex,
    #[error("out of memory")]
    OutOfMemory,
}

impl From<AllocError> for EntriesFault {
    ghost from_gives = { λ _ e. e ≡ OutOfMemory };

    fn from(_: AllocError) -> Self {
        EntriesFault::OutOfMemory
    }
}

// Where the piece that begins at a place ends.
fn end_of_piece(text: &[u8], at: usize) -> usize
    requires { at < length text.now }
    ensures within { (at < result) × (result ≤ length text.now) }
    ensures piece { pieces_of (drop at text.now) ≡ slice_range text.now at result ∷ pieces_of (drop result text.now) }
{
    match memchr(b'\n', &text[at..]) {
        Some(length) => at + length + 1,
        None => text.len(),
    }
}

// The lines of a text.
fn lines_of(alloc: Global, text: &[u8]) -> Result<Vec<&[u8]>, AllocError>
    ensures { IfOk result (λ lines. map (λ line. line.now) lines.items ≡ lines_of text.now) }
{
    let mut lines = Vec::new(alloc);
    let mut at = 0;
    while at < text.len() {
        let end = end_of_piece(text, at);
        lines.push(line_of(&text[at..end]))?;
        at = end;
    }
    Ok(lines)
}

// The chunk that a line spells, or none for a dash.
fn entry_of(alloc: Global, line: &[u8]) -> Result<Option<Vec<u8>>, EntriesFault>
    ensures entry { IfOk result (λ entry. IsEntry line.now (option_map (λ v. v.items) entry)) }
    ensures hex { IsErrOf result Hex → IsNoEntry line.now }
    ensures no_length { IsErrOf result Length → ⊥ }
{
    if line == b"-".as_slice() {
        return Ok(None);
    }
    match hex::decode(alloc, line) {
        Ok(bytes) => Ok(Some(bytes)),
        Err(FromHexError::OutOfMemory) => Err(EntriesFault::OutOfMemory),
        Err(_) => Err(EntriesFault::Hex),
    }
}

// The chunks that the lines spell.
fn entries_of(alloc: Global, lines: &[&[u8]]) -> Result<Vec<Option<Vec<u8>>>, EntriesFault>
    ensures entries { IfOk result (λ entries. AreEntries (map (λ line. line.now) lines.now) (parts_of entries.items)) }
    ensures hex { IsErrOf result Hex → HasNoEntry (map (λ line. line.now) lines.now) }
    ensures no_length { IsErrOf result Length → ⊥ }
{
    let mut entries = Vec::new(alloc);
    for line in lines {
        let entry = entry_of(alloc, line)?;
        let Ok(()) = entries.push(entry) else {
            return Err(EntriesFault::OutOfMemory);
        };
    }
    Ok(entries)
}

// Whether each chunk that is there has so many bytes.
fn are_long(len: usize, entries: &[Option<Vec<u8>>]) -> bool
    ensures { IsTrue result ↔ AreLong len entries.now }
{
    entries.iter().all(|entry| entry.as_ref().is_none_or(|bytes| bytes.len() == len))
}

/// The chunks that the lines of a text spell: `count` lines, and `len` bytes in each chunk that is there.
pub fn read_chunks(
    alloc: Global,
    text: &[u8],
    count: usize,
    len: usize,
) -> Result<Vec<Option<Vec<u8>>>, EntriesFault>
    ensures entries { IfOk result (λ entries. AreEntries (lines_of text.now) (parts_of entries.items)) }
    ensures count { IfOk result (λ entries. length entries.items ≡ count) }
    ensures lengths { IfOk result (λ entries. AreLong len entries.items) }
    ensures hex { IsErrOf result Hex → (length (lines_of text.now) ≡ count) × HasNoEntry (lines_of text.now) }
    ensures other { IsErrOf result Length → (length (lines_of text.now) ≢ count) ⊎ HasOtherLength len (lines_of text.now) }
{
    let lines = lines_of(alloc, text)?;
    if lines.len() != count {
        return Err(EntriesFault::Length);
    }
    let entries = entries_of(alloc, &lines)?;
    if !are_long(len, &entries) {
        return Err(EntriesFault::Length);
    }
    Ok(entries)
}
