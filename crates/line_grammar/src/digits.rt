//! Lower-case hexadecimal digits, and the bytes that they spell.
ghost use Rattle.std.specs.Prelude.{◌≡◌, ◌%◌, ◌↔◌, IsTrue, IfOk, length};
ghost use Rattle.std.specs.List.{AllPass};
ghost use Rattle.hex.specs.Hex.{encode_lower, IsBytes};
ghost use Rattle.line_grammar.specs.Digits.{is_lower_digit};

use std::alloc::{AllocError, Global};

// Whether a byte is a hexadecimal digit, and no letter in upper case.
fn is_lower_digit(byte: u8) -> bool
    ensures { result ≡ is_lower_digit byte }
{
    matches!(byte, b'0'..=b'9' | b'a'..=b'f')
}

/// Whether all bytes of a word are such digits.
pub fn are_lower_digits(word: &[u8]) -> bool
    ensures { IsTrue result ↔ AllPass is_lower_digit word.now }
{
    word.iter().all(|byte| is_lower_digit(*byte))
}

/// The bytes that pairs of digits spell. An error is want of memory.
pub fn read_digits(alloc: Global, digits: &[u8]) -> Result<Vec<u8>, AllocError>
    requires digits { AllPass is_lower_digit digits.now }
    requires even { length digits.now % 2 ≡ 0 }
    ensures bytes { IfOk result (λ bytes. IsBytes bytes.items) }
    ensures spelled { IfOk result (λ bytes. digits.now ≡ encode_lower bytes.items) }
{
    match hex::decode(alloc, digits) {
        Ok(bytes) => Ok(bytes),
        Err(_) => Err(AllocError),
    }
}
