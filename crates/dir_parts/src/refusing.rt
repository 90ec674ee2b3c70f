//! What is kept of a client's call, and the reply where the map refuses it.
ghost use Rattle.std.specs.Prelude.{◌≡◌, ◌+◌, IfOk, Some, option_map};
ghost use Rattle.store_core.specs.Note.{Kind as CoreKind, note_of, refusal_of_size, refusal_by};
ghost use Rattle.dir_parts.specs.Events.{reply_in};
ghost use Rattle.dir_parts.specs.Passes.{kind_in};

use crate::history::DirectoryReply;
use crate::passes::{CallKind, CallNote};
use std::alloc::AllocError;
use store_map::{Call, Name};

// A call with this name, offset and count of bytes.
fn note(kind: CallKind, name: &Name, offset: u32, length: u32) -> Result<CallNote, AllocError>
    ensures { IfOk result (λ note. note ≡ record { kind = kind_in kind; name = name.now; offset = offset; length = length }) }
{
    Ok(CallNote {
        kind,
        name: name.copy()?,
        offset,
        length,
    })
}

/// What is kept of a client's call: no bytes.
pub fn note_of(call: &Call) -> Result<CallNote, AllocError>
    ensures { IfOk result (λ note. note ≡ note_of call.now) }
{
    match call {
        Call::Put { name, content } => note(CallKind::Put, name, 0, content.length()),
        Call::Write {
            name,
            offset,
            content,
        } => note(CallKind::Write, name, *offset, content.length()),
        Call::Get { name } => note(CallKind::Get, name, 0, 0),
        Call::ReadAt {
            name,
            offset,
            length,
        } => note(CallKind::ReadAt, name, *offset, *length),
        Call::Stat { name } => note(CallKind::Stat, name, 0, 0),
        Call::Delete { name } => note(CallKind::Delete, name, 0, 0),
    }
}

// Too large for an object of at most `max` bytes.
fn refuse_size(max: u32, count: u64) -> Option<DirectoryReply>
    ensures { option_map reply_in result ≡ refusal_of_size max count }
{
    if u64::from(max) < count {
        return Some(DirectoryReply::TooLarge);
    }
    None
}

// The reply where the map refuses a write to an object of this length.
fn refuse_write(max: u32, offset: u32, count: u32, length: u64) -> Option<DirectoryReply>
    ensures { option_map reply_in result ≡ refusal_by max CoreKind.Write offset count (Some length) }
{
    if length < u64::from(offset) {
        return Some(DirectoryReply::OutRange);
    }
    refuse_size(max, u64::from(offset) + u64::from(count))
}

// The same of a read.
fn refuse_read(max: u32, offset: u32, count: u32, length: u64) -> Option<DirectoryReply>
    ensures { option_map reply_in result ≡ refusal_by max CoreKind.ReadAt offset count (Some length) }
{
    if length < u64::from(offset) {
        return Some(DirectoryReply::OutRange);
    }
    None
}

/// The reply where the map refuses a call, by the length of its object, if there is one.
pub fn refusal(
    max: u32,
    kind: CallKind,
    offset: u32,
    count: u32,
    found: Option<u64>,
) -> Option<DirectoryReply>
    ensures { option_map reply_in result ≡ refusal_by max (kind_in kind) offset count found }
{
    match (kind, found) {
        (CallKind::Put, _) => refuse_size(max, u64::from(count)),
        (_, None) => Some(DirectoryReply::NoSuch),
        (CallKind::Write, Some(length)) => refuse_write(max, offset, count, length),
        (CallKind::ReadAt, Some(length)) => refuse_read(max, offset, count, length),
        (_, Some(_)) => None,
    }
}
