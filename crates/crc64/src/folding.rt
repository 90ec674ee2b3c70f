//! Folding: long slices are made short before the tables sum them. A multiple of the generator has few coefficients, all at whole bytes:
//! the first one, and one at each gap behind it. Where it is added to a message, no remainder changes. So each byte is struck out in
//! turn: the multiple times that byte is added, which changes only the bytes at the gaps behind. What a byte has become when its turn
//! comes is a digit: the message's byte and the digits that stand the gaps before it, summed. The last `SPAN` bytes have no room for
//! the multiple. They are left, and have the message's remainder.
ghost use Rattle.std.specs.Prelude.{◌≡◌, ℕ, ◌+◌, ◌*◌, ◌/◌, ◌%◌, ◌^◌, ◌<◌, ◌≤◌, List, ◌∷◌, length, slice_index, bit_xor};
ghost use Rattle.crc64.specs.Remainder.{after};
ghost use Rattle.crc64.specs.Folding.{span, gaps, entered, HasGathered, HasDigits};

use byteorder::{ByteOrder, LittleEndian};
use std::simd::prelude::*;

/// The widest gap.
pub const SPAN: usize = 480;

/// The most bytes that are folded at once.
pub const TURN: usize = 4096;

/// The fewest bytes for which folding pays.
pub const LEAST: usize = 1536;

// Adds the bytes that stand one gap before.
#[inline(always)]
fn added(sum: u8x32, history: &[u8], gap: usize) -> u8x32
    requires long { length history.now ≡ span + 32 }
    requires gap { gap ≤ span }
    ensures { (gaps : List ℕ) (byte : ℕ → ℕ) → HasGathered gaps byte history.now sum → HasGathered (gap ∷ gaps) byte history.now result }
{
    sum ^ u8x32::from_slice(&history[SPAN - gap..])
}

// Adds the bytes that stand the gaps before.
#[inline(always)]
fn gathered(lanes: u8x32, history: &[u8]) -> u8x32
    requires { length history.now ≡ span + 32 }
    ensures { HasGathered gaps (λ k. slice_index lanes k) history.now result }
{
    let sum = added(lanes, history, 480);
    let sum = added(sum, history, 477);
    let sum = added(sum, history, 470);
    let sum = added(sum, history, 458);
    let sum = added(sum, history, 409);
    let sum = added(sum, history, 360);
    let sum = added(sum, history, 323);
    let sum = added(sum, history, 281);
    let sum = added(sum, history, 275);
    let sum = added(sum, history, 214);
    added(sum, history, 173)
}

// The first bytes, with the register added.
fn first_lanes(start: u64, bytes: &[u8]) -> u8x32
    requires { 32 ≤ length bytes.now }
    ensures { (k : ℕ) → k < 32 → slice_index result k ≡ entered start bytes.now k }
{
    let mut register = [0u8; 32];
    LittleEndian::write_u64(&mut register, start);
    u8x32::from_array(register) ^ u8x32::from_slice(bytes)
}

// Strikes out the bytes at `at`.
#[inline(always)]
fn strike(lanes: u8x32, at: usize, digits: &mut [u8])
    requires { span + at + 32 ≤ length digits.old }
    ensures { (start : ℕ) (bytes : List ℕ) → HasDigits start bytes at digits.old
        → ((k : ℕ) → k < 32 → slice_index lanes k ≡ entered start bytes (at + k))
        → HasDigits start bytes (at + 32) digits.new }
{
    let sum = gathered(lanes, &digits[at..at + SPAN + 32]);
    sum.copy_to_slice(&mut digits[SPAN + at..]);
}

// Strikes out all but the last bytes.
fn strike_all(start: u64, bytes: &[u8], digits: &mut [u8])
    requires whole { length bytes.now % 32 ≡ 0 }
    requires long { span + 32 ≤ length bytes.now }
    requires room { length bytes.now ≤ length digits.old }
    requires blank { (place : ℕ) → slice_index digits.old place ≡ 0 }
    ensures { (count : ℕ) → span + count ≡ length bytes.now → HasDigits start bytes.now count digits.new }
{
    strike(first_lanes(start, bytes), 0, digits);
    let mut at = 32;
    while at < bytes.len() - SPAN {
        strike(u8x32::from_slice(&bytes[at..]), at, digits);
        at += 32;
    }
}

// What is left in the last bytes.
fn leave(bytes: &[u8], digits: &[u8], rest: &mut [u8])
    requires long { span ≤ length bytes.now }
    requires room { length bytes.now + span ≤ length digits.now }
    requires rest { length rest.old ≡ span }
    ensures { (start count : ℕ) → start < 2 ^ 64 → 8 ≤ count → span + count ≡ length bytes.now → HasDigits start bytes.now count digits.now
        → after 0 rest.new ≡ after start bytes.now }
{
    let mut at = 0;
    while at < SPAN {
        let from = bytes.len() - SPAN + at;
        let sum = gathered(
            u8x32::from_slice(&bytes[from..]),
            &digits[from..from + SPAN + 32],
        );
        sum.copy_to_slice(&mut rest[at..]);
        at += 32;
    }
}

// All digits are 0.
fn no_digits() -> [u8; TURN + SPAN]
    ensures long { length result ≡ 4096 + span }
    ensures blank { (place : ℕ) → slice_index result place ≡ 0 }
{
    [0; TURN + SPAN]
}

/// Room for what is left.
pub fn no_rest() -> [u8; SPAN]
    ensures { length result ≡ span }
{
    [0; SPAN]
}

/// Folds bytes behind a register into few, of the same remainder.
pub fn fold(start: u64, bytes: &[u8], rest: &mut [u8])
    requires whole { length bytes.now % 32 ≡ 0 }
    requires long { span + 32 ≤ length bytes.now }
    requires turn { length bytes.now ≤ 4096 }
    requires rest { length rest.old ≡ span }
    ensures sum { after 0 rest.new ≡ after start bytes.now }
    ensures long { length rest.new ≡ span }
{
    let mut digits = no_digits();
    strike_all(start, bytes, &mut digits);
    leave(bytes, &digits, rest);
}
