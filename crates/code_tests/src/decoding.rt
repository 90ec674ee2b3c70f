//! Codewords that are given back from what is left of them.
ghost use Rattle.std.specs.Prelude.{◌≡◌, ◌<◌, length, IfSome};
ghost use Rattle.clay_grid.specs.Shape.{chunk_count, chunk_length};
ghost use Rattle.clay_model.specs.Left.{AreLong};

use crate::{copied, expect_bytes, expect_same};
use clay_decode::{decode, decode_checked};
use clay_encode::encode;
use clay_grid::Geometry;
use clay_model::{CheckedFault, DecodeFault};
use std::alloc::Global;
use std::process::Abort;

type Word = [[u8; 4]; 4];

const UNPAIRED: Word = [
    [1, 0, 0, 0],
    [0, 0, 0, 0],
    [0x03, 0xa6, 0, 0],
    [0x53, 0, 0, 0],
];

/// layer 0 needs a value of layer 2
const PAIRED: Word = [
    [0, 0, 0, 0],
    [1, 0, 0, 0],
    [0x02, 0xf5, 0x06, 0x51],
    [0xf4, 0, 0xa6, 0],
];

/// no codeword: the last byte is another
const ANOTHER: Word = [
    [1, 0, 0, 0],
    [0, 0, 0, 0],
    [0x03, 0xa6, 0, 0],
    [0x53, 0, 0, 1],
];

fn chunks_of(rt: &impl Abort, alloc: Global, word: &Word) -> Vec<Vec<u8>> {
    let mut chunks = Vec::new(alloc);
    for bytes in word.iter() {
        chunks.push(copied(rt, alloc, bytes)).expect(rt, "room");
    }
    chunks
}

fn part_of(rt: &impl Abort, alloc: Global, chunk: &[u8], missing: bool) -> Option<Vec<u8>>
    ensures { IfSome result (λ v. length v.items ≡ length chunk.now) }
{
    if missing {
        return None;
    }
    Some(copied(rt, alloc, chunk))
}

// What is left of chunks where those of the bits of `missing` are missing.
fn left_of(
    rt: &impl Abort,
    alloc: Global,
    g: Geometry,
    chunks: &[Vec<u8>],
    missing: u32,
) -> Vec<Option<Vec<u8>>>
    ensures count { length result.items ≡ chunk_count g }
    ensures lengths { AreLong (chunk_length g) result.items }
{
    assert!(rt; chunks.len() == g.n() as usize);
    let mut have = Vec::new(alloc);
    for c in 0..g.n() {
        let chunk = &chunks[c as usize];
        assert!(rt; chunk.len() == g.chunk_len() as usize);
        let part = part_of(rt, alloc, chunk, missing >> c & 1 == 1);
        have.push(part).expect(rt, "room");
    }
    have
}

fn expect_chunks(rt: &impl Abort, chunks: &[Vec<u8>], expected: &[Vec<u8>]) {
    assert!(rt; chunks.len() == expected.len());
    for (c, chunk) in chunks.iter().enumerate() {
        expect_bytes(rt, chunk, &expected[c]);
    }
}

// Too few chunks are refused.
fn check_refused(rt: &impl Abort, alloc: Global, g: Geometry, have: &[Option<Vec<u8>>])
    requires count { length have.now ≡ chunk_count g }
    requires lengths { AreLong (chunk_length g) have.now }
{
    let refused = decode(alloc, g, have).err();
    expect_same(rt, refused, Some(DecodeFault::TooFew));
    let refused = decode_checked(alloc, g, have).err();
    expect_same(rt, refused, Some(CheckedFault::TooFew));
}

// The chunks of the codeword come back.
fn check_decoded(
    rt: &impl Abort,
    alloc: Global,
    g: Geometry,
    have: &[Option<Vec<u8>>],
    word: &[Vec<u8>],
)
    requires count { length have.now ≡ chunk_count g }
    requires lengths { AreLong (chunk_length g) have.now }
{
    let chunks = decode(alloc, g, have).expect(rt, "decode");
    expect_chunks(rt, &chunks, word);
    let chunks = decode_checked(alloc, g, have).expect(rt, "decode_checked");
    expect_chunks(rt, &chunks, word);
}

// Decodes what is left after these losses.
fn check_loss(rt: &impl Abort, alloc: Global, g: Geometry, word: &[Vec<u8>], missing: u32) {
    let have = left_of(rt, alloc, g, word, missing);
    if missing.count_ones() > g.m() {
        check_refused(rt, alloc, g, &have);
    } else {
        check_decoded(rt, alloc, g, &have, word);
    }
}

// Decodes what is left after each choice of losses.
fn check_losses(rt: &impl Abort, alloc: Global, g: Geometry, word: &[Vec<u8>]) {
    assert!(rt; g.n() < 8);
    for missing in 0..1u32 << g.n() {
        check_loss(rt, alloc, g, word, missing);
    }
}

#[test]
fn codewords_are_decoded(rt: HostRuntime) {
    let g = Geometry::new(2, 2, 1).expect(&rt, "a code");
    for word in [&UNPAIRED, &PAIRED] {
        let chunks = chunks_of(&rt, rt.alloc(), word);
        check_losses(&rt, rt.alloc(), g, &chunks);
    }
}

/// Bytes that count up to a number, over and over.
pub(crate) fn ramp(rt: &impl Abort, alloc: Global, len: u32, numbers: u8) -> Vec<u8>
    requires { 0 < numbers }
{
    let mut bytes = Vec::with_capacity(alloc, len as usize).expect(rt, "room");
    for i in 0..len {
        bytes
            .push((i % u32::from(numbers)) as u8)
            .expect(rt, "room");
    }
    bytes
}

// Decodes the chunks of a stripe.
fn check_code(rt: &impl Abort, alloc: Global, g: Geometry) {
    let stripe = ramp(rt, alloc, g.stripe_len(), 251);
    assert!(rt; stripe.len() == g.stripe_len() as usize);
    let chunks = encode(alloc, g, &stripe).expect(rt, "encode");
    check_losses(rt, alloc, g, &chunks);
}

#[test]
fn stripes_are_decoded(rt: HostRuntime) {
    for (k, m) in [(3, 2), (4, 3)] {
        let g = Geometry::new(k, m, 2).expect(&rt, "a code");
        check_code(&rt, rt.alloc(), g);
    }
}

// What is left after these losses is of a codeword, or of none.
fn expect_agreement(
    rt: &impl Abort,
    alloc: Global,
    g: Geometry,
    chunks: &[Vec<u8>],
    missing: u32,
    why: Option<CheckedFault>,
) {
    let have = left_of(rt, alloc, g, chunks, missing);
    expect_same(rt, decode_checked(alloc, g, &have).err(), why);
}

#[test]
fn chunks_of_no_codeword_disagree(rt: HostRuntime) {
    let g = Geometry::new(2, 2, 1).expect(&rt, "a code");
    let alloc = rt.alloc();
    let chunks = chunks_of(&rt, alloc, &ANOTHER);
    let disagree = Some(CheckedFault::Disagree);
    expect_agreement(&rt, alloc, g, &chunks, 0b0000, disagree);
    expect_agreement(&rt, alloc, g, &chunks, 0b0001, disagree);
    expect_agreement(&rt, alloc, g, &chunks, 0b0011, None);
    expect_agreement(&rt, alloc, g, &chunks, 0b1000, None);
}
