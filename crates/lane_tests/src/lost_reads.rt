//! Runs of every chunk of some codes, read from the subchunks that they take.
use crate::fast_encoding::{code, filled, mixed_bytes};
use crate::{expect_bytes, expect_same};
use clay_encode::encode;
use clay_grid::Geometry;
use lost_layers::{LostFault, LostPiece, LostRun, lost_pieces};
use lost_read::{ReadFault, read_lost};
use std::alloc::Global;
use std::process::Abort;

/// Data chunks and parity chunks: with and without virtual nodes, of two to four rows and of two and three columns.
const CODES: [(u32, u32); 6] = [(2, 2), (3, 2), (4, 2), (3, 3), (5, 3), (5, 4)];

// The chunks of some stripe, by the plain coder.
fn word_of(rt: &impl Abort, alloc: Global, g: Geometry) -> Vec<Vec<u8>> {
    let stripe = mixed_bytes(rt, alloc, g.stripe_len());
    encode(alloc, g, &stripe).expect(rt, "encode")
}

// The bytes of a run.
pub fn layers<'a>(rt: &impl Abort, g: Geometry, word: &'a [Vec<u8>], run: LostRun) -> &'a [u8] {
    assert!(rt; (run.lost as usize) < word.len());
    let chunk = &word[run.lost as usize];
    let start = (run.from as usize).saturating_mul(g.w() as usize);
    let end = (run.to as usize).saturating_mul(g.w() as usize);
    assert!(rt; start <= end && end <= chunk.len());
    &chunk[start..end]
}

// The bytes of the pieces, where they stand.
pub fn bytes_of<'a>(
    rt: &impl Abort,
    alloc: Global,
    g: Geometry,
    word: &'a [Vec<u8>],
    pieces: &[LostPiece],
) -> Vec<&'a [u8]> {
    let mut bytes = Vec::new(alloc);
    for piece in pieces {
        let run = LostRun {
            lost: piece.chunk,
            from: piece.layer,
            to: piece.layer.saturating_add(1),
        };
        bytes.push(layers(rt, g, word, run)).expect(rt, "room");
    }
    bytes
}

// Reads a run over bytes that were there before.
fn check_run(rt: &impl Abort, alloc: Global, g: Geometry, word: &[Vec<u8>], run: LostRun) {
    let wanted = layers(rt, g, word, run);
    let pieces = lost_pieces(alloc, g, run).expect(rt, "pieces");
    let bytes = bytes_of(rt, alloc, g, word, &pieces);
    let mut out = filled(rt, alloc, 0xa5, wanted.len());
    read_lost(alloc, g, run, &bytes, &mut out).expect(rt, "read_lost");
    expect_bytes(rt, &out, wanted);
}

// Reads each layer of a chunk alone, all of them, and the runs of some lengths.
fn check_chunk(rt: &impl Abort, alloc: Global, g: Geometry, word: &[Vec<u8>], lost: u32) {
    let count = g.alpha();
    for from in 0..count {
        for length in [1, 2, 5, count] {
            if length <= count - from {
                let to = from + length;
                check_run(rt, alloc, g, word, LostRun { lost, from, to });
            }
        }
    }
}

fn check_code(rt: &impl Abort, alloc: Global, g: Geometry) {
    let word = word_of(rt, alloc, g);
    for lost in 0..g.n() {
        check_chunk(rt, alloc, g, &word, lost);
    }
}

// Of narrow subchunks, and of wide ones.
#[test]
fn runs_are_read(rt: HostRuntime) {
    for (k, m) in CODES {
        check_code(&rt, rt.alloc(), code(&rt, k, m, 3));
    }
    check_code(&rt, rt.alloc(), code(&rt, 2, 2, 67));
}

// Reads a run from layer 1 on into so many bytes, which is refused unless no cause is given.
fn expect_end(
    rt: &impl Abort,
    alloc: Global,
    g: Geometry,
    [lost, to]: [u32; 2],
    pieces: &[&[u8]],
    room: usize,
    why: Option<ReadFault>,
) {
    assert!(rt; room <= 3);
    let run = LostRun { lost, from: 1, to };
    let refused = read_lost(alloc, g, run, pieces, &mut [0; 3][..room]).err();
    expect_same(rt, refused, why);
}

const THREE: [&[u8]; 3] = [b"ab", b"cd", b"ef"];

const SHORT: [&[u8]; 3] = [b"ab", b"c", b"ef"];

#[test]
fn refusals(rt: HostRuntime) {
    let (alloc, g) = (rt.alloc(), code(&rt, 2, 2, 2));
    let chunk = Some(ReadFault::Run(LostFault::NoSuchChunk));
    let layers = Some(ReadFault::Run(LostFault::NoSuchLayers));
    let (count, length) = (Some(ReadFault::PieceCount), Some(ReadFault::PieceLength));
    expect_end(&rt, alloc, g, [4, 2], &THREE, 2, chunk);
    expect_end(&rt, alloc, g, [1, 5], &THREE, 2, layers);
    expect_end(&rt, alloc, g, [1, 2], &[b"ab", b"cd"], 2, count);
    expect_end(&rt, alloc, g, [1, 2], &SHORT, 2, length);
    expect_end(&rt, alloc, g, [1, 2], &THREE, 3, Some(ReadFault::Room));
    expect_end(&rt, alloc, g, [1, 2], &THREE, 2, None);
    expect_end(&rt, alloc, g, [1, 1], &[], 0, None);
}
