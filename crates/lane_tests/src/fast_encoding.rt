//! Stripes encoded by the fast coder and by the plain one; codes, widths and bytes for all these tests.
ghost use Rattle.std.specs.Prelude.{◌≡◌, length};
ghost use Rattle.clay_grid.specs.Shape.{stripe_length};

use crate::{expect_bytes, expect_same};
use clay_grid::Geometry;
use clay_lanes::{Prepared, encode, parity, parity_into};
use std::alloc::Global;
use std::process::Abort;

/// The code of these numbers.
pub fn code(rt: &impl Abort, k: u32, m: u32, w: u32) -> Geometry {
    Geometry::new(k, m, w).expect(rt, "a code")
}

/// Bytes of one value.
pub fn filled(rt: &impl Abort, alloc: Global, byte: u8, len: usize) -> Vec<u8>
    ensures { length result.items ≡ len }
{
    vec![in alloc; byte; len].expect(rt, "bytes of one value")
}

/// Bytes that repeat only after 256 * 251 of them.
pub fn mixed_bytes(rt: &impl Abort, alloc: Global, count: u32) -> Vec<u8>
    ensures { length result.items ≡ count }
{
    let mut bytes = Vec::with_capacity(alloc, count as usize).expect(rt, "room");
    let mut byte = 1u8;
    for i in 0..count {
        byte = byte.wrapping_mul(29).wrapping_add((i % 251) as u8);
        bytes.push(byte).expect(rt, "room");
    }
    bytes
}

/// The chunks of some stripe, by the fast coder.
pub fn word_of(rt: &impl Abort, alloc: Global, g: Geometry) -> Vec<Vec<u8>> {
    let stripe = mixed_bytes(rt, alloc, g.stripe_len());
    encode(alloc, g, &stripe).expect(rt, "encode")
}

pub fn expect_chunks(rt: &impl Abort, chunks: &[Vec<u8>], expected: &[Vec<u8>]) {
    assert!(rt; chunks.len() == expected.len());
    for (c, chunk) in chunks.iter().enumerate() {
        expect_bytes(rt, chunk, &expected[c]);
    }
}

// Writes the parity chunks over bytes that were there before.
fn check_parity_into(rt: &impl Abort, alloc: Global, g: Geometry, stripe: &[u8], wanted: &[u8])
    requires { length stripe.now ≡ stripe_length g }
{
    let len = g.m() as usize * g.chunk_len() as usize;
    let mut bytes = filled(rt, alloc, 0xa5, len);
    parity_into(alloc, g, stripe, &mut bytes).expect(rt, "parity_into");
    expect_bytes(rt, &bytes, wanted);
}

// Writes them by a code that was prepared.
fn check_prepared(rt: &impl Abort, alloc: Global, g: Geometry, stripe: &[u8], wanted: &[u8])
    requires { length stripe.now ≡ stripe_length g }
{
    let prepared = Prepared::new(alloc, g).expect(rt, "prepare");
    expect_same(rt, prepared.geometry(), g);
    let len = g.m() as usize * g.chunk_len() as usize;
    let mut bytes = filled(rt, alloc, 0xa5, len);
    prepared
        .parity_into(alloc, stripe, &mut bytes)
        .expect(rt, "prepared");
    expect_bytes(rt, &bytes, wanted);
}

// Each call of the fast coder, beside the chunks by the plain one.
fn check_chunks(rt: &impl Abort, alloc: Global, g: Geometry, stripe: &[u8], plain: &[Vec<u8>])
    requires { length stripe.now ≡ stripe_length g }
{
    assert!(rt; plain.len() == g.n() as usize);
    let others = &plain[g.k() as usize..];
    let chunks = encode(alloc, g, stripe).expect(rt, "encode");
    expect_chunks(rt, &chunks, plain);
    let chunks = parity(alloc, g, stripe).expect(rt, "parity");
    expect_chunks(rt, &chunks, others);
    let wanted = others.concat(alloc).expect(rt, "wanted");
    check_parity_into(rt, alloc, g, stripe, &wanted);
    check_prepared(rt, alloc, g, stripe, &wanted);
}

/// Encodes some stripe.
pub fn check_stripe(rt: &impl Abort, alloc: Global, g: Geometry) {
    let stripe = mixed_bytes(rt, alloc, g.stripe_len());
    let plain = clay_encode::encode(alloc, g, &stripe).expect(rt, "plain");
    check_chunks(rt, alloc, g, &stripe, &plain);
}

/// Codes with and without virtual nodes, of up to 1024 layers.
pub const CODES: [(u32, u32); 10] = [
    (2, 2),
    (3, 2),
    (4, 3),
    (5, 5),
    (8, 4),
    (10, 4),
    (2, 8),
    (16, 4),
    (7, 2),
    (9, 6),
];

/// Widths around those of a vector of bytes, and a longer one.
const WIDTHS: [u32; 7] = [1, 15, 16, 17, 63, 64, 1000];

/// Widths around those of one block and of two, and a longer one.
const BLOCK_WIDTHS: [u32; 5] = [4095, 4096, 4097, 8192, 9000];

// Adds a code of each of these widths.
fn add_widths(rt: &impl Abort, all: &mut Vec<Geometry>, k: u32, m: u32, widths: &[u32]) {
    for w in widths {
        all.push(code(rt, k, m, *w)).expect(rt, "room");
    }
}

/// Each code of each width, and a code of each width around those of blocks.
pub fn geometries(rt: &impl Abort, alloc: Global) -> Vec<Geometry> {
    let mut all = Vec::new(alloc);
    for (k, m) in CODES {
        add_widths(rt, &mut all, k, m, &WIDTHS);
    }
    add_widths(rt, &mut all, 3, 2, &BLOCK_WIDTHS);
    all
}

#[test]
fn stripes_are_encoded_alike(rt: HostRuntime) {
    for g in geometries(&rt, rt.alloc()).iter() {
        check_stripe(&rt, rt.alloc(), *g);
    }
    for w in 1..131 {
        check_stripe(&rt, rt.alloc(), code(&rt, 4, 4, w));
    }
    check_stripe(&rt, rt.alloc(), code(&rt, 3, 4, 4099));
}
