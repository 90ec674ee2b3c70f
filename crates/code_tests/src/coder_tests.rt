//! The coders, over two codewords.
ghost use Rattle.std.specs.Prelude.{◌≡◌, ◌<◌};
ghost use Rattle.clay_grid.specs.Shape.{chunk_count, shape_of};

use crate::{copied, expect_bytes, expect_numbers};
use clay_grid::Geometry;
use clay_lanes::LaneCoder;
use clay_model::Coder;
use clay_par::ParCoder;
use clay_repair::PlainCoder;
use std::alloc::Global;
use std::process::Abort;
use std::thread::Threads;

/// a codeword of two data chunks of four bytes and two parity chunks
type Word = [u8; 16];

const OF_FIRST_CHUNK: Word = [1, 0, 0, 0, 0, 0, 0, 0, 0x03, 0xa6, 0, 0, 0x53, 0, 0, 0];

const OF_SECOND_CHUNK: Word = [
    0, 0, 0, 0, 1, 0, 0, 0, 0x02, 0xf5, 0x06, 0x51, 0xf4, 0, 0xa6, 0,
];

fn expect_word(rt: &impl Abort, chunks: &[Vec<u8>], word: &Word) {
    assert!(rt; chunks.len() == 4);
    for (c, chunk) in chunks.iter().enumerate() {
        expect_bytes(rt, chunk, &word[4 * c..4 * c + 4]);
    }
}

// Encodes the data chunks, and recovers a chunk of either kind.
fn check_word<R: Threads + Sync + Abort, C: Coder>(
    rt: &R,
    alloc: Global,
    coder: &C,
    g: Geometry,
    word: &Word,
)
    requires { g ≡ shape_of 2 2 1 }
{
    let chunks = coder.encode(rt, alloc, g, &word[..8]);
    expect_word(rt, &chunks.expect(rt, "encode"), word);
    let data = copied(rt, alloc, &word[4..8]);
    let parity = copied(rt, alloc, &word[12..]);
    let have = [None, Some(data), None, Some(parity)];
    let chunks = coder.recover(rt, alloc, g, &have);
    expect_word(rt, &chunks.expect(rt, "recover"), word);
}

fn expect_layers(rt: &impl Abort, alloc: Global, g: Geometry, lost: u32, layers: &[u32])
    requires { lost < chunk_count g }
{
    let found = g.repair_layers(alloc, lost).expect(rt, "layers");
    expect_numbers(rt, &found, layers);
}

// Rebuilds a data chunk.
fn check_data_chunk<R: Threads + Sync + Abort, C: Coder>(
    rt: &R,
    alloc: Global,
    coder: &C,
    g: Geometry,
)
    requires { g ≡ shape_of 2 2 1 }
{
    expect_layers(rt, alloc, g, 0, &[0, 1]);
    let data = copied(rt, alloc, &[0, 0]);
    let first = copied(rt, alloc, &[0x03, 0xa6]);
    let second = copied(rt, alloc, &[0x53, 0]);
    let parts = [None, Some(data), Some(first), Some(second)];
    let chunk = coder.rebuild(rt, alloc, g, 0, &parts);
    expect_bytes(rt, &chunk.expect(rt, "rebuild"), &[1, 0, 0, 0]);
}

// Rebuilds a parity chunk, beside a virtual node.
fn check_parity_chunk<R: Threads + Sync + Abort, C: Coder>(rt: &R, alloc: Global, coder: &C) {
    let g = Geometry::new(3, 2, 1).expect(rt, "a code");
    expect_layers(rt, alloc, g, 4, &[1, 3, 5, 7]);
    let zero = copied(rt, alloc, &[0; 4]);
    let one = copied(rt, alloc, &[0; 4]);
    let two = copied(rt, alloc, &[0; 4]);
    let parity = copied(rt, alloc, &[0x55, 0xf7, 0, 0]);
    let parts = [Some(zero), Some(one), Some(two), Some(parity), None];
    let chunk = coder.rebuild(rt, alloc, g, 4, &parts);
    let wanted = [0xa4, 0, 0xf5, 0, 0, 0, 0, 0];
    expect_bytes(rt, &chunk.expect(rt, "rebuild"), &wanted);
}

// Each call of a coder that is known by its bound alone.
fn check_coder<R: Threads + Sync + Abort, C: Coder>(rt: &R, alloc: Global, coder: &C) {
    let g = Geometry::new(2, 2, 1).expect(rt, "a code");
    check_word(rt, alloc, coder, g, &OF_FIRST_CHUNK);
    check_word(rt, alloc, coder, g, &OF_SECOND_CHUNK);
    check_data_chunk(rt, alloc, coder, g);
    check_parity_chunk(rt, alloc, coder);
}

#[test]
fn plain_coder(rt: HostRuntime) {
    check_coder(&rt, rt.alloc(), &PlainCoder);
}

#[test]
fn lane_coder(rt: HostRuntime) {
    check_coder(&rt, rt.alloc(), &LaneCoder);
}

#[test]
fn thread_coder(rt: HostRuntime) {
    check_coder(&rt, rt.alloc(), &ParCoder);
}
