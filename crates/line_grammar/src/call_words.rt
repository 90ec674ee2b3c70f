//! A client's call, read from its line.
ghost use Rattle.std.specs.Prelude.{◌≡◌, ◌++◌, codes};
ghost use Rattle.line_grammar.specs.Reads.{ReadsCall, ReadsName};

use crate::content_words::read_content;
use crate::line_fault::FaultKind;
use crate::number::{is_number, small_number};
use crate::split::split_at_first;
use std::alloc::Global;
use store_map::{Call, Name, NameFault, is_name};

const PUT: &[u8] = b"put ";

const WRITE: &[u8] = b"write ";

const GET: &[u8] = b"get ";

const READ: &[u8] = b"read ";

const STAT: &[u8] = b"stat ";

const DELETE: &[u8] = b"delete ";

/// The name that a word is.
pub fn read_name(alloc: Global, word: &[u8]) -> Result<Name, FaultKind>
    ensures { ReadsName word.now result }
{
    match Name::from_bytes(alloc, word) {
        Ok(name) => Ok(name),
        Err(NameFault::Malformed) => Err(FaultKind::Syntax),
        Err(NameFault::OutOfMemory) => Err(FaultKind::OutOfMemory),
    }
}

// The call that `put` and these words spell.
fn read_put(alloc: Global, words: &[u8]) -> Result<Call, FaultKind>
    ensures { ReadsCall (codes "put " ++ words.now) result }
{
    let Some((name, data)) = split_at_first(b' ', words) else {
        return Err(FaultKind::Syntax);
    };
    if !is_name(name) {
        return Err(FaultKind::Syntax);
    }
    let content = read_content(alloc, data)?;
    let name = read_name(alloc, name)?;
    Ok(Call::Put { name, content })
}

// The call that `write` and these words spell.
fn read_write(alloc: Global, words: &[u8]) -> Result<Call, FaultKind>
    ensures { ReadsCall (codes "write " ++ words.now) result }
{
    let Some((name, rest)) = split_at_first(b' ', words) else {
        return Err(FaultKind::Syntax);
    };
    let Some((offset, data)) = split_at_first(b' ', rest) else {
        return Err(FaultKind::Syntax);
    };
    if !is_name(name) {
        return Err(FaultKind::Syntax);
    }
    if !is_number(offset) {
        return Err(FaultKind::Syntax);
    }
    let content = read_content(alloc, data)?;
    let Some(offset) = small_number(offset) else {
        return Err(FaultKind::Limit);
    };
    let name = read_name(alloc, name)?;
    Ok(Call::Write {
        name,
        offset,
        content,
    })
}

// The call that `get` and this word spell.
fn read_get(alloc: Global, word: &[u8]) -> Result<Call, FaultKind>
    ensures { ReadsCall (codes "get " ++ word.now) result }
{
    let name = read_name(alloc, word)?;
    Ok(Call::Get { name })
}

// The call that `stat` and this word spell.
fn read_stat(alloc: Global, word: &[u8]) -> Result<Call, FaultKind>
    ensures { ReadsCall (codes "stat " ++ word.now) result }
{
    let name = read_name(alloc, word)?;
    Ok(Call::Stat { name })
}

// The call that `delete` and this word spell.
fn read_delete(alloc: Global, word: &[u8]) -> Result<Call, FaultKind>
    ensures { ReadsCall (codes "delete " ++ word.now) result }
{
    let name = read_name(alloc, word)?;
    Ok(Call::Delete { name })
}

// The call that `read` and these words spell.
fn read_read(alloc: Global, words: &[u8]) -> Result<Call, FaultKind>
    ensures { ReadsCall (codes "read " ++ words.now) result }
{
    let Some((name, rest)) = split_at_first(b' ', words) else {
        return Err(FaultKind::Syntax);
    };
    let Some((offset, length)) = split_at_first(b' ', rest) else {
        return Err(FaultKind::Syntax);
    };
    if !is_name(name) {
        return Err(FaultKind::Syntax);
    }
    if !is_number(offset) {
        return Err(FaultKind::Syntax);
    }
    if !is_number(length) {
        return Err(FaultKind::Syntax);
    }
    let Some(offset) = small_number(offset) else {
        return Err(FaultKind::Limit);
    };
    let Some(length) = small_number(length) else {
        return Err(FaultKind::Limit);
    };
    let name = read_name(alloc, name)?;
    Ok(Call::ReadAt {
        name,
        offset,
        length,
    })
}

/// The call that a line spells, without its line feed.
pub fn read_call(alloc: Global, line: &[u8]) -> Result<Call, FaultKind>
    ensures { ReadsCall line.now result }
{
    if let Some(words) = line.strip_prefix(PUT) {
        return read_put(alloc, words);
    }
    if let Some(word) = line.strip_prefix(GET) {
        return read_get(alloc, word);
    }
    if let Some(words) = line.strip_prefix(WRITE) {
        return read_write(alloc, words);
    }
    if let Some(words) = line.strip_prefix(READ) {
        return read_read(alloc, words);
    }
    if let Some(word) = line.strip_prefix(STAT) {
        return read_stat(alloc, word);
    }
    match line.strip_prefix(DELETE) {
        Some(word) => read_delete(alloc, word),
        None => Err(FaultKind::Syntax),
    }
}
