//! Numbers of 64 and of 32 bits as fields of lines.
ghost use Rattle.std.specs.Prelude.{◌≡◌, ◌≢◌, ◌<◌, ◌^◌, ℕ, decimal, MatchOption};
ghost use Rattle.transcript_read.specs.Values.{IsLong, IsShort};
ghost use Rattle.transcript_read.specs.Reads.{Reads};

use crate::field::{Field, Unread};
use line_grammar::{is_number, read_number};
use std::alloc::Global;

// The number below 2^64 that a word spells.
fn read_long(word: &[u8]) -> Option<u64>
    ensures { MatchOption result ((n : ℕ) → IsLong n → word.now ≢ decimal n)
        (λ n. IsLong n × (word.now ≡ decimal n)) }
{
    if !is_number(word) {
        return None;
    }
    match str::from_utf8(word) {
        Ok(text) => text.parse().ok(),
        Err(_) => None,
    }
}

impl Field for u64 {
    ghost IsValue = { IsLong };

    ghost spelling = { decimal };

    fn read(_: Global, text: &[u8]) -> Result<u64, Unread> {
        match read_long(text) {
            Some(number) => Ok(number),
            None => Err(Unread::Syntax),
        }
    }
}

impl Field for u32 {
    ghost IsValue = { IsShort };

    ghost spelling = { decimal };

    fn read(_: Global, text: &[u8]) -> Result<u32, Unread> {
        match read_number(text) {
            Some(number) => Ok(number),
            None => Err(Unread::Syntax),
        }
    }
}
