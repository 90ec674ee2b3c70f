//! The coder of several threads beside the other two, also for stripes that threads share.
ghost use Rattle.std.specs.Prelude.{◌≡◌, length};
ghost use Rattle.clay_grid.specs.Shape.{stripe_length};

use crate::expect_bytes;
use crate::fast_coders::{expect_places, left_of};
use crate::fast_coupling::some_bytes;
use crate::fast_encoding::{code, expect_chunks, filled, geometries, mixed_bytes};
use crate::fast_rebuilding::check_rebuild;
use clay_grid::Geometry;
use clay_lanes::{LaneCoder, missing_count};
use clay_model::Coder;
use clay_par::ParCoder;
use clay_repair::PlainCoder;
use std::alloc::Global;
use std::process::Abort;
use std::thread::Threads;

// Writes the parity chunks of a stripe by the coder of several threads over bytes that were there before.
fn check_parity_into<R: Abort + Threads + Sync>(
    rt: &R,
    alloc: Global,
    g: Geometry,
    stripe: &[u8],
    word: &[Vec<u8>],
)
    requires { length stripe.now ≡ stripe_length g }
{
    assert!(rt; word.len() == g.n() as usize);
    let wanted = word[g.k() as usize..].concat(alloc).expect(rt, "wanted");
    let len = g.m() as usize * g.chunk_len() as usize;
    let mut bytes = filled(rt, alloc, 0xa5, len);
    let written = ParCoder.parity_into(rt, alloc, g, stripe, &mut bytes);
    written.expect(rt, "parity_into");
    expect_bytes(rt, &bytes, &wanted);
}

// Writes the chunks of the bits of `gone` by the coder of several threads to their places among other bytes.
fn check_missing_into<R: Abort + Threads + Sync>(
    rt: &R,
    alloc: Global,
    g: Geometry,
    word: &[Vec<u8>],
    gone: u32,
) {
    let have = left_of(rt, alloc, g, word, gone);
    let len = g.chunk_len() as usize;
    let mut bytes = filled(rt, alloc, 0xa5, g.n() as usize * len);
    let written = ParCoder.missing_into(rt, alloc, g, &have, &mut bytes);
    written.expect(rt, "missing_into");
    expect_places(rt, &bytes, len, &have, word);
}

// The chunks of a stripe, of which each coder says the same.
fn encoded<R: Abort + Threads + Sync>(
    rt: &R,
    alloc: Global,
    g: Geometry,
    stripe: &[u8],
) -> Vec<Vec<u8>>
    requires { length stripe.now ≡ stripe_length g }
{
    let word = PlainCoder.encode(rt, alloc, g, stripe).expect(rt, "plain");
    let chunks = LaneCoder.encode(rt, alloc, g, stripe).expect(rt, "lanes");
    expect_chunks(rt, &chunks, &word);
    let chunks = ParCoder.encode(rt, alloc, g, stripe).expect(rt, "threads");
    expect_chunks(rt, &chunks, &word);
    check_parity_into(rt, alloc, g, stripe, &word);
    word
}

// The chunks of some stripe.
fn word_of<R: Abort + Threads + Sync>(rt: &R, alloc: Global, g: Geometry) -> Vec<Vec<u8>> {
    let stripe = mixed_bytes(rt, alloc, g.stripe_len());
    encoded(rt, alloc, g, &stripe)
}

// Recovers the chunks of the bits of `gone`.
fn check_loss<R: Abort + Threads + Sync, C: Coder>(
    rt: &R,
    alloc: Global,
    coder: &C,
    g: Geometry,
    word: &[Vec<u8>],
    gone: u32,
) {
    let have = left_of(rt, alloc, g, word, gone);
    assert!(rt; missing_count(&have) <= g.m() as usize);
    let chunks = coder.recover(rt, alloc, g, &have).expect(rt, "recover");
    expect_chunks(rt, &chunks, word);
}

// The bits of as many chunks as there are parity chunks, among them the last one.
fn mixed_loss(rt: &impl Abort, g: Geometry) -> u32 {
    assert!(rt; g.n() < 32);
    ((1 << g.m()) - 1 >> 1 << 1) | 1 << (g.n() - 1)
}

// Loses no chunk, one, the first column, all parity chunks, and as many of both kinds; rebuilds the first and the last one.
fn check_coder<R: Abort + Threads + Sync, C: Coder>(
    rt: &R,
    alloc: Global,
    coder: &C,
    g: Geometry,
    word: &[Vec<u8>],
) {
    let most = mixed_loss(rt, g);
    assert!(rt; g.n() < 32);
    let column = (1u32 << g.m()) - 1;
    for gone in [0, 1, column, column << g.k(), most] {
        check_loss(rt, alloc, coder, g, word, gone);
    }
    check_rebuild(rt, alloc, coder, g, word, 0);
    check_rebuild(rt, alloc, coder, g, word, g.n() - 1);
}

// Writes missing chunks to their places: none, the first column, and as many of both kinds.
fn check_places<R: Abort + Threads + Sync>(rt: &R, alloc: Global, g: Geometry, word: &[Vec<u8>]) {
    let most = mixed_loss(rt, g);
    assert!(rt; g.n() < 32);
    check_missing_into(rt, alloc, g, word, 0);
    check_missing_into(rt, alloc, g, word, (1u32 << g.m()) - 1);
    check_missing_into(rt, alloc, g, word, most);
}

// Codes some stripe by each coder.
fn check_code<R: Abort + Threads + Sync>(rt: &R, alloc: Global, g: Geometry) {
    let word = word_of(rt, alloc, g);
    check_coder(rt, alloc, &PlainCoder, g, &word);
    check_coder(rt, alloc, &LaneCoder, g, &word);
    check_coder(rt, alloc, &ParCoder, g, &word);
    check_places(rt, alloc, g, &word);
}

#[test]
fn coders_agree(rt: HostRuntime) {
    for g in geometries(&rt, rt.alloc()).iter() {
        check_code(&rt, rt.alloc(), *g);
    }
}

#[test]
fn bytes_that_count_are_coded_alike(rt: HostRuntime) {
    let (alloc, g) = (rt.alloc(), code(&rt, 4, 2, 1000));
    let stripe = some_bytes(&rt, alloc, g.stripe_len() as usize, 0);
    let word = encoded(&rt, alloc, g, &stripe);
    check_coder(&rt, alloc, &LaneCoder, g, &word);
    check_coder(&rt, alloc, &ParCoder, g, &word);
}

// Codes a stripe that threads share: each of these is encoded and recovered by several.
fn check_shared<R: Abort + Threads + Sync>(rt: &R, alloc: Global, g: Geometry) {
    let word = word_of(rt, alloc, g);
    let most = mixed_loss(rt, g);
    check_loss(rt, alloc, &PlainCoder, g, &word, most);
    check_loss(rt, alloc, &LaneCoder, g, &word, most);
    check_coder(rt, alloc, &ParCoder, g, &word);
    check_places(rt, alloc, g, &word);
}

#[test]
fn threads_share_one_range(rt: HostRuntime) {
    check_shared(&rt, rt.alloc(), code(&rt, 16, 4, 1024));
}

// The last range has three positions; and ranges of as many positions as they ever have, and a shorter one.
#[test]
fn threads_share_ranges(rt: HostRuntime) {
    check_shared(&rt, rt.alloc(), code(&rt, 8, 4, 16383));
    check_shared(&rt, rt.alloc(), code(&rt, 8, 2, 32767));
}
