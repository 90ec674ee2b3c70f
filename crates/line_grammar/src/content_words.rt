//! The data of a put or a write, read from its word.
ghost use Rattle.std.specs.Prelude.{◌≡◌, ◌≢◌, ◌<◌, ◌∷◌, ◌++◌, [], ℕ, codes, MatchOption};
ghost use Rattle.hex.specs.Hex.{encode_lower};
ghost use Rattle.line_grammar.specs.Reads.{ReadsContent, ReadsRun};

use crate::digits::{are_lower_digits, read_digits};
use crate::line_fault::FaultKind;
use crate::number::{is_number, small_number};
use crate::split::split_at_first;
use std::alloc::Global;
use store_map::{Content, HexBytes, MAX_DATA};

const HEX: &[u8] = b"hex:";

const FILL: &[u8] = b"fill:";

const RAMP: &[u8] = b"ramp:";

// The byte that two lower-case hexadecimal digits spell.
fn read_byte(word: &[u8]) -> Option<u8>
    ensures { MatchOption result ((b : ℕ) → b < 256 → word.now ≢ encode_lower (b ∷ []))
        (λ b. (b < 256) × (word.now ≡ encode_lower (b ∷ []))) }
{
    if word.len() != 2 || !are_lower_digits(word) {
        return None;
    }
    let mut byte = [0];
    match hex::decode_to_slice(word, &mut byte) {
        Ok(()) => Some(byte[0]),
        Err(_) => None,
    }
}

// A byte and a length, parted by a colon.
fn read_run(words: &[u8]) -> Result<(u8, u32), FaultKind>
    ensures { ReadsRun words.now result }
{
    let Some((digits, number)) = split_at_first(b':', words) else {
        return Err(FaultKind::Syntax);
    };
    let Some(byte) = read_byte(digits) else {
        return Err(FaultKind::Syntax);
    };
    if !is_number(number) {
        return Err(FaultKind::Syntax);
    }
    match small_number(number) {
        Some(length) if length <= MAX_DATA => Ok((byte, length)),
        _ => Err(FaultKind::Limit),
    }
}

// The bytes that a word of data writes out.
fn read_hex(alloc: Global, digits: &[u8]) -> Result<Content, FaultKind>
    ensures { ReadsContent (codes "hex:" ++ digits.now) result }
{
    if !are_lower_digits(digits) || digits.len() % 2 != 0 {
        return Err(FaultKind::Syntax);
    }
    if digits.len() > 2 * MAX_DATA as usize {
        return Err(FaultKind::Limit);
    }
    match read_digits(alloc, digits) {
        Ok(bytes) => Ok(Content::Hex(HexBytes::from_vec(bytes))),
        Err(_) => Err(FaultKind::OutOfMemory),
    }
}

// The data of one byte, many times.
fn read_fill(words: &[u8]) -> Result<Content, FaultKind>
    ensures { ReadsContent (codes "fill:" ++ words.now) result }
{
    let (byte, length) = read_run(words)?;
    Ok(Content::Fill { byte, length })
}

// The data of bytes that count up.
fn read_ramp(words: &[u8]) -> Result<Content, FaultKind>
    ensures { ReadsContent (codes "ramp:" ++ words.now) result }
{
    let (first, length) = read_run(words)?;
    Ok(Content::Ramp { first, length })
}

/// The data that a word spells.
pub fn read_content(alloc: Global, word: &[u8]) -> Result<Content, FaultKind>
    ensures { ReadsContent word.now result }
{
    if let Some(digits) = word.strip_prefix(HEX) {
        return read_hex(alloc, digits);
    }
    if let Some(words) = word.strip_prefix(FILL) {
        return read_fill(words);
    }
    match word.strip_prefix(RAMP) {
        Some(words) => read_ramp(words),
        None => Err(FaultKind::Syntax),
    }
}
