//! Runs that are read while chunks are missing, beside the codewords of the fast coder.
use crate::fast_encoding::{code, filled, word_of};
use crate::lost_reads::{bytes_of, layers};
use crate::missing_counts::present;
use crate::{expect_bytes, expect_same};
use clay_grid::Geometry;
use lost_layers::{LostRun, MissingFault, missing_pieces};
use lost_read::{MissingReadFault, read_missing};
use std::alloc::Global;
use std::process::Abort;

/// k, m, the bytes of a subchunk, the missing chunks by their bits, the lost one, from, to
const READS: [[u32; 7]; 9] = [
    [4, 2, 3, 0b00_0001, 0, 0, 8],
    [4, 2, 3, 0b01_0001, 0, 2, 3],
    [4, 2, 3, 0b00_0011, 1, 1, 7],
    [3, 2, 5, 0b1_0010, 4, 3, 8],
    [8, 4, 67, 0b0001_0010_0000, 5, 21, 22],
    [8, 4, 3, 0b0000_0000_0110, 2, 10, 30],
    [8, 4, 3, 0b0000_0111_1000, 3, 0, 64],
    [8, 4, 3, 0b1001_0010_0001, 0, 56, 57],
    [5, 4, 33, 0b0_1011_0000, 7, 13, 17],
];

// Reads a run of a codeword over bytes that were there before.
fn check_read(
    rt: &impl Abort,
    alloc: Global,
    g: Geometry,
    word: &[Vec<u8>],
    marks: &[bool],
    run: LostRun,
) {
    let wanted = layers(rt, g, word, run);
    let pieces = missing_pieces(alloc, g, run, marks).expect(rt, "pieces");
    let bytes = bytes_of(rt, alloc, g, word, &pieces);
    let mut out = filled(rt, alloc, 0xa5, wanted.len());
    read_missing(alloc, g, run, marks, &bytes, &mut out).expect(rt, "read_missing");
    expect_bytes(rt, &out, wanted);
}

#[test]
fn runs_are_read(rt: HostRuntime) {
    let alloc = rt.alloc();
    for [k, m, w, missing, lost, from, to] in READS {
        let g = code(&rt, k, m, w);
        let word = word_of(&rt, alloc, g);
        let marks = present(&rt, alloc, g.n(), missing);
        check_read(&rt, alloc, g, &word, &marks, LostRun { lost, from, to });
    }
}

// Reads the layers below `to` of chunk 3 of a code with two parity chunks, of which the first chunk is missing, into so many bytes. It is
// refused unless no cause is given. Layer 0 takes five pieces of two bytes.
fn expect_end(
    rt: &impl Abort,
    alloc: Global,
    g: Geometry,
    to: u32,
    pieces: &[&[u8]],
    room: usize,
    why: Option<MissingReadFault>,
) {
    assert!(rt; room <= 3);
    let (lost, from) = (3, 0);
    let present = [false, true, true, true];
    let run = LostRun { lost, from, to };
    let refused = read_missing(alloc, g, run, &present, pieces, &mut [0; 3][..room]).err();
    expect_same(rt, refused, why);
}

const FIVE: [&[u8]; 5] = [b"ab"; 5];

const SHORT: [&[u8]; 5] = [b"ab", b"c", b"ab", b"ab", b"ab"];

#[test]
fn refusals(rt: HostRuntime) {
    let (alloc, g) = (rt.alloc(), code(&rt, 2, 2, 2));
    let layers = Some(MissingReadFault::Run(MissingFault::NoSuchLayers));
    let count = Some(MissingReadFault::PieceCount);
    let length = Some(MissingReadFault::PieceLength);
    let room = Some(MissingReadFault::Room);
    expect_end(&rt, alloc, g, 5, &[], 0, layers);
    expect_end(&rt, alloc, g, 1, &FIVE[1..], 2, count);
    expect_end(&rt, alloc, g, 1, &SHORT, 2, length);
    expect_end(&rt, alloc, g, 1, &FIVE, 3, room);
    expect_end(&rt, alloc, g, 1, &FIVE, 2, None);
    expect_end(&rt, alloc, g, 0, &FIVE, 0, count);
    expect_end(&rt, alloc, g, 0, &[], 1, room);
    expect_end(&rt, alloc, g, 0, &[], 0, None);
}
