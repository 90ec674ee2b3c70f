//! Names and replies as fields of lines.
ghost use Rattle.std.specs.Prelude.{◌≡◌, ◌≢◌, ◌++◌, codes, IfSome, IfNone};
ghost use Rattle.hex.specs.Hex.{encode_lower, IsBytes};
ghost use Rattle.store_map.specs.Name.{IsName};
ghost use Rattle.transcript_text.specs.Words.{shown_text};
ghost use Rattle.transcript_read.specs.Values.{IsShown};
ghost use Rattle.transcript_read.specs.Reads.{Reads};

use crate::field::{Field, Unread, behind};
use line_grammar::{are_lower_digits, is_text, read_digits};
use std::alloc::Global;
use store_map::{ByteList, ListOf, Name, NameFault, Reply, Shown};

// The bytes that pairs of hexadecimal digits spell.
fn read_bytes(alloc: Global, digits: &[u8]) -> Result<ByteList, Unread>
    ensures { Reads IsBytes encode_lower digits.now result }
{
    if !are_lower_digits(digits) || digits.len() % 2 != 0 {
        return Err(Unread::Syntax);
    }
    match read_digits(alloc, digits) {
        Ok(bytes) => Ok(ListOf::from_vec(bytes)),
        Err(_) => Err(Unread::OutOfMemory),
    }
}

impl Field for Name {
    ghost IsValue = { IsName };

    ghost spelling = { λ name. name };

    fn read(alloc: Global, text: &[u8]) -> Result<Name, Unread> {
        match Name::from_bytes(alloc, text) {
            Ok(name) => Ok(name),
            Err(NameFault::Malformed) => Err(Unread::Syntax),
            Err(NameFault::OutOfMemory) => Err(Unread::OutOfMemory),
        }
    }
}

// What is spelled by one word.
fn shown_named(word: &[u8]) -> Option<Shown>
    ensures some { IfSome result (λ shown. IsShown shown × (word.now ≡ shown_text shown)) }
    ensures none { IfNone result ((word.now ≢ codes "ok") × (word.now ≢ codes "nosuch")
        × (word.now ≢ codes "outrange") × (word.now ≢ codes "toolarge") × (word.now ≢ codes "open")) }
{
    if is_text(word, b"ok") {
        return Some(Shown::Reply(Reply::Done));
    }
    if is_text(word, b"nosuch") {
        return Some(Shown::Reply(Reply::NoSuch));
    }
    if is_text(word, b"outrange") {
        return Some(Shown::Reply(Reply::OutRange));
    }
    if is_text(word, b"toolarge") {
        return Some(Shown::Reply(Reply::TooLarge));
    }
    if is_text(word, b"open") {
        return Some(Shown::Unfinished);
    }
    None
}

impl Field for Shown {
    ghost IsValue = { IsShown };

    ghost spelling = { shown_text };

    fn read(alloc: Global, text: &[u8]) -> Result<Shown, Unread> {
        if let Some(digits) = behind(b"bytes hex:", text) {
            return Ok(Shown::Reply(Reply::Bytes(read_bytes(alloc, digits)?)));
        }
        if let Some(length) = behind(b"length ", text) {
            return Ok(Shown::Reply(Reply::Length(u64::read(alloc, length)?)));
        }
        match shown_named(text) {
            Some(shown) => Ok(shown),
            None => Err(Unread::Syntax),
        }
    }
}
