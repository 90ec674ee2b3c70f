//! The code's crates compared with values from outside; files cut into shares, joined and mended, with shares lost and calls failing.
#![tactic(auto)]

ghost use Rattle.std.specs.Prelude.{◌≡◌, length};

#[cfg(test)]
mod checked_shares;
#[cfg(test)]
mod checksums;
#[cfg(test)]
mod coder_tests;
#[cfg(test)]
mod coupling_tests;
#[cfg(test)]
mod cuts;
#[cfg(test)]
mod decoding;
#[cfg(test)]
mod encoding_tests;
#[cfg(test)]
mod field_tests;
#[cfg(test)]
mod geometry_tests;
#[cfg(test)]
mod header_tests;
#[cfg(test)]
mod interpolation;
#[cfg(test)]
mod joins;
#[cfg(test)]
mod mends;
#[cfg(test)]
mod packed_headers;
#[cfg(test)]
mod placed_bytes;
#[cfg(test)]
mod test_shares;
#[cfg(test)]
mod told_cuts;
#[cfg(test)]
mod worked_blocks;

#[cfg(test)]
use crc64::Crc64;
#[cfg(test)]
use std::alloc::Global;
#[cfg(test)]
use std::fmt::Debug;
#[cfg(test)]
use std::process::Abort;

// Three functions compare, and tell both sides where they differ: an `assert_eq` is proved with all that it prints, so a test calls one.
#[cfg(test)]
fn expect_bytes(rt: &impl Abort, found: &[u8], wanted: &[u8]) {
    assert_eq!(rt; found, wanted);
}

#[cfg(test)]
fn expect_numbers(rt: &impl Abort, found: &[u32], wanted: &[u32]) {
    assert_eq!(rt; found, wanted);
}

#[cfg(test)]
fn expect_same<T: Copy + Debug + PartialEq>(rt: &impl Abort, found: T, wanted: T) {
    assert_eq!(rt; found, wanted);
}

/// A copy of some bytes.
#[cfg(test)]
fn copied(rt: &impl Abort, alloc: Global, bytes: &[u8]) -> Vec<u8>
    ensures { length result.items ≡ length bytes.now }
{
    Vec::from_slice(alloc, bytes).expect(rt, "a copy")
}

#[cfg(test)]
fn new_crc(rt: &impl Abort, alloc: Global) -> Crc64 {
    Crc64::new(alloc).expect(rt, "tables")
}
