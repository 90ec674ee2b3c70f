//! Codewords recovered by the fast coder from what is left of them, and chunks that are of none.
ghost use Rattle.std.specs.Prelude.{◌≡◌, length, IfSome};
ghost use Rattle.clay_grid.specs.Shape.{chunk_count, chunk_length};
ghost use Rattle.clay_model.specs.Left.{AreLong};

use crate::fast_encoding::{CODES, code, expect_chunks, filled, geometries, word_of};
use crate::{expect_bytes, expect_same};
use clay_grid::Geometry;
use clay_lanes::{decode, decode_checked, missing, missing_count, missing_into};
use clay_model::{CheckedFault, DecodeFault};
use std::alloc::Global;
use std::process::Abort;

fn part_of(rt: &impl Abort, alloc: Global, chunk: &[u8], gone: bool) -> Option<Vec<u8>>
    ensures { IfSome result (λ v. length v.items ≡ length chunk.now) }
{
    if gone {
        return None;
    }
    Some(Vec::from_slice(alloc, chunk).expect(rt, "a copy"))
}

// What is left of chunks where those of the bits of `gone` are missing.
pub fn left_of(
    rt: &impl Abort,
    alloc: Global,
    g: Geometry,
    chunks: &[Vec<u8>],
    gone: u32,
) -> Vec<Option<Vec<u8>>>
    ensures count { length result.items ≡ chunk_count g }
    ensures lengths { AreLong (chunk_length g) result.items }
{
    assert!(rt; chunks.len() == g.n() as usize && g.n() < 32);
    let mut have = Vec::new(alloc);
    for c in 0..g.n() {
        let chunk = &chunks[c as usize];
        assert!(rt; chunk.len() == g.chunk_len() as usize);
        let part = part_of(rt, alloc, chunk, gone >> c & 1 == 1);
        have.push(part).expect(rt, "room");
    }
    have
}

// The bytes are those that were there before.
fn expect_untouched(rt: &impl Abort, bytes: &[u8]) {
    for byte in bytes {
        expect_same(rt, *byte, 0xa5);
    }
}

/// The missing chunks stand in their places, and other bytes in those of the others.
pub fn expect_places(
    rt: &impl Abort,
    bytes: &[u8],
    len: usize,
    have: &[Option<Vec<u8>>],
    word: &[Vec<u8>],
) {
    assert!(rt; len > 0);
    for (c, piece) in bytes.chunks(len).enumerate() {
        assert!(rt; c < have.len());
        assert!(rt; c < word.len());
        if have[c].is_none() {
            expect_bytes(rt, piece, &word[c]);
        } else {
            expect_untouched(rt, piece);
        }
    }
}

// Writes the missing chunks to their places over bytes that were there before.
fn check_missing_into(
    rt: &impl Abort,
    alloc: Global,
    g: Geometry,
    have: &[Option<Vec<u8>>],
    word: &[Vec<u8>],
)
    requires count { length have.now ≡ chunk_count g }
    requires lengths { AreLong (chunk_length g) have.now }
{
    let len = g.chunk_len() as usize;
    let mut bytes = filled(rt, alloc, 0xa5, g.n() as usize * len);
    missing_into(alloc, g, have, &mut bytes).expect(rt, "missing_into");
    expect_places(rt, &bytes, len, have, word);
}

// Too few chunks are refused.
fn check_refused(rt: &impl Abort, alloc: Global, g: Geometry, have: &[Option<Vec<u8>>])
    requires count { length have.now ≡ chunk_count g }
    requires lengths { AreLong (chunk_length g) have.now }
{
    let refused = missing(alloc, g, have).err();
    expect_same(rt, refused, Some(DecodeFault::TooFew));
    let refused = decode(alloc, g, have).err();
    expect_same(rt, refused, Some(DecodeFault::TooFew));
    let refused = decode_checked(alloc, g, have).err();
    expect_same(rt, refused, Some(CheckedFault::TooFew));
}

// The chunks are those of the word that are missing.
fn expect_lost(rt: &impl Abort, lost: &[Vec<u8>], have: &[Option<Vec<u8>>], word: &[Vec<u8>]) {
    let mut place = 0;
    for (c, chunk) in word.iter().enumerate() {
        assert!(rt; c < have.len());
        if have[c].is_none() {
            assert!(rt; place < lost.len());
            expect_bytes(rt, &lost[place], chunk);
            place += 1;
        }
    }
    assert!(rt; place == lost.len());
}

// The chunks of the codeword come back, and the missing ones alone.
fn check_recovered(
    rt: &impl Abort,
    alloc: Global,
    g: Geometry,
    have: &[Option<Vec<u8>>],
    word: &[Vec<u8>],
)
    requires count { length have.now ≡ chunk_count g }
    requires lengths { AreLong (chunk_length g) have.now }
{
    let chunks = decode(alloc, g, have).expect(rt, "decode");
    expect_chunks(rt, &chunks, word);
    let chunks = decode_checked(alloc, g, have).expect(rt, "decode_checked");
    expect_chunks(rt, &chunks, word);
    let lost = missing(alloc, g, have).expect(rt, "missing");
    expect_lost(rt, &lost, have, word);
    check_missing_into(rt, alloc, g, have, word);
}

// Recovers the chunks of the bits of `gone`.
fn check_loss(rt: &impl Abort, alloc: Global, g: Geometry, word: &[Vec<u8>], gone: u32) {
    let have = left_of(rt, alloc, g, word, gone);
    if missing_count(&have) > g.m() as usize {
        check_refused(rt, alloc, g, &have);
    } else {
        check_recovered(rt, alloc, g, &have, word);
    }
}

// Loses no chunk, the last data chunk, the first parity chunk, as many as there are parity chunks (the
// first data chunks, the first parity chunks, some of each), and one too many.
fn check_losses(rt: &impl Abort, alloc: Global, g: Geometry) {
    let word = word_of(rt, alloc, g);
    assert!(rt; g.n() < 32);
    let (first, last) = (1u32 << g.k(), 1u32 << (g.n() - 1));
    let some = (1u32 << g.m()) - 1;
    let mixed = (some >> 1) << 1 | last;
    for gone in [
        0,
        first >> 1,
        first,
        some,
        some << g.k(),
        mixed,
        some | last,
    ] {
        check_loss(rt, alloc, g, &word, gone);
    }
}

#[test]
fn codes_recover_alike(rt: HostRuntime) {
    for g in geometries(&rt, rt.alloc()).iter() {
        check_losses(&rt, rt.alloc(), *g);
    }
}

// Changes a bit of a chunk.
fn change(rt: &impl Abort, word: &mut [Vec<u8>], changed: usize) {
    assert!(rt; changed < word.len());
    let chunk = &mut word[changed];
    assert!(rt; !chunk.is_empty());
    chunk[0] ^= 1;
}

// Changes a bit of one of the chunks of some stripe, and loses the last one: what is left is more than makes a codeword, and of none.
fn check_change(rt: &impl Abort, alloc: Global, g: Geometry, changed: usize) {
    let mut word = word_of(rt, alloc, g);
    change(rt, &mut word, changed);
    assert!(rt; g.n() < 32);
    let have = left_of(rt, alloc, g, &word, 1 << (g.n() - 1));
    let refused = decode_checked(alloc, g, &have).err();
    expect_same(rt, refused, Some(CheckedFault::Disagree));
}

// A data chunk, and a parity chunk.
#[test]
fn changed_chunks_disagree(rt: HostRuntime) {
    for (k, m) in CODES {
        let g = code(&rt, k, m, 3);
        check_change(&rt, rt.alloc(), g, 0);
        check_change(&rt, rt.alloc(), g, k as usize);
    }
}
