//! Pieces of some runs. The numbers are those of a planner in C that shares nothing with the library.
use crate::expect_same;
use crate::fast_encoding::code;
use clay_grid::Geometry;
use lost_layers::{LostFault, LostPiece, LostRun, lost_count, lost_pieces};
use std::process::Abort;

/// k, m, the lost chunk, from, to; how many subchunks are read
const COUNTS: [[u32; 6]; 7] = [
    [2, 2, 1, 1, 2, 3],
    [2, 2, 0, 0, 4, 6],
    [3, 2, 4, 6, 7, 4],
    [8, 4, 5, 17, 18, 14],
    [8, 4, 5, 0, 64, 176],
    [16, 4, 19, 1000, 1001, 28],
    [10, 4, 0, 200, 201, 16],
];

#[test]
fn counts(rt: HostRuntime) {
    for [k, m, lost, from, to, count] in COUNTS {
        let g = code(&rt, k, m, 1);
        let run = LostRun { lost, from, to };
        expect_same(&rt, lost_count(g, run), Ok(count));
        let pieces = lost_pieces(rt.alloc(), g, run).expect(&rt, "pieces");
        expect_same(&rt, pieces.len(), count as usize);
    }
}

/// of layer 1 of chunk 1
const PIECES: [LostPiece; 3] = [
    LostPiece { chunk: 0, layer: 1 },
    LostPiece { chunk: 0, layer: 3 },
    LostPiece { chunk: 3, layer: 1 },
];

fn expect_pieces(rt: &impl Abort, found: &[LostPiece], wanted: &[LostPiece]) {
    assert_eq!(rt; found, wanted);
}

#[test]
fn pieces_of_one_layer(rt: HostRuntime) {
    let run = LostRun {
        lost: 1,
        from: 1,
        to: 2,
    };
    let pieces = lost_pieces(rt.alloc(), code(&rt, 2, 2, 1), run).expect(&rt, "pieces");
    expect_pieces(&rt, &pieces, &PIECES);
}

// Why a run isn't read of a code with two parity chunks, if it isn't.
fn expect_end(rt: &impl Abort, g: Geometry, lost: u32, from: u32, to: u32, why: Option<LostFault>) {
    expect_same(rt, lost_count(g, LostRun { lost, from, to }).err(), why);
}

#[test]
fn refusals(rt: HostRuntime) {
    let g = code(&rt, 2, 2, 1);
    expect_end(&rt, g, 4, 0, 1, Some(LostFault::NoSuchChunk));
    expect_end(&rt, g, 3, 1, 0, Some(LostFault::NoSuchLayers));
    expect_end(&rt, g, 3, 0, 5, Some(LostFault::NoSuchLayers));
    expect_end(&rt, g, 3, 4, 4, None);
}
