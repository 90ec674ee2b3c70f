//! Bytes coupled and crossed, beside `add_scaled`.
ghost use Rattle.std.specs.Prelude.{◌≡◌, length};

use crate::fast_encoding::filled;
use crate::fast_kernels::expect_multiple;
use clay_field::add_scaled;
use clay_kernels::{couple, cross, fifths, halves};
use std::alloc::Global;
use std::process::Abort;

/// Different bytes, of which the first is `first`.
pub fn some_bytes(rt: &impl Abort, alloc: Global, len: usize, first: u8) -> Vec<u8>
    ensures { length result.items ≡ len }
{
    let mut bytes = Vec::with_capacity(alloc, len).expect(rt, "room");
    for i in 0..len {
        bytes.push((i % 256) as u8 ^ first).expect(rt, "room");
    }
    bytes
}

// Five times each coupled byte is the uncoupled one and twice its partner's.
fn check_coupled(rt: &impl Abort, alloc: Global, len: usize) {
    let mut own = some_bytes(rt, alloc, len, 0xA5);
    let partner = some_bytes(rt, alloc, len, 0x3C);
    let mut coupled = filled(rt, alloc, 0, len);
    couple(&fifths(), &own, &partner, &mut coupled);
    add_scaled(&mut own, 2, &partner);
    expect_multiple(rt, alloc, 0, 5, &coupled, &own);
}

// Twice each byte of the partner is the sum of the uncoupled and the coupled one.
fn check_crossed(rt: &impl Abort, alloc: Global, len: usize) {
    let mut uncoupled = some_bytes(rt, alloc, len, 0x53);
    let coupled = some_bytes(rt, alloc, len, 0xC6);
    let mut crossed = filled(rt, alloc, 0, len);
    cross(&halves(), &uncoupled, &coupled, &mut crossed);
    add_scaled(&mut uncoupled, 1, &coupled);
    expect_multiple(rt, alloc, 0, 2, &crossed, &uncoupled);
}

#[test]
fn bytes_of_every_length_are_coupled(rt: HostRuntime) {
    for len in 0..131 {
        check_coupled(&rt, rt.alloc(), len);
        check_crossed(&rt, rt.alloc(), len);
    }
}
