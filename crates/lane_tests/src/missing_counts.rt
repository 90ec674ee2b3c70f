//! Pieces without some chunks.
use crate::expect_same;
use crate::fast_encoding::code;
use clay_grid::Geometry;
use lost_layers::{LostRun, MissingFault, missing_count, missing_pieces};
use std::alloc::Global;
use std::process::Abort;

/// k, m, the missing chunks by their bits, the lost one, from, to; how many subchunks are read, which is the least that any choice of
/// unknown nodes takes (checks/lost_layers)
const COUNTS: [[u32; 7]; 7] = [
    [4, 2, 0b0000_0000_0010, 1, 2, 3, 6],
    [4, 2, 0b0000_0001_0001, 0, 0, 1, 20],
    [6, 3, 0b0001_0100_0000, 6, 6, 10, 31],
    [8, 4, 0b0001_0010_0000, 5, 21, 22, 26],
    [8, 4, 0b0000_0000_0110, 2, 37, 38, 14],
    [8, 4, 0b0000_0111_1000, 3, 25, 26, 27],
    [8, 4, 0b1001_0010_0001, 0, 56, 57, 37],
];

/// Marks for so many chunks, of which those with a bit are missing.
pub fn present(rt: &impl Abort, alloc: Global, count: u32, missing: u32) -> Vec<bool> {
    let mut marks = Vec::new(alloc);
    for bit in 0..count.min(32) {
        marks.push(missing >> bit & 1 == 0).expect(rt, "room");
    }
    marks
}

#[test]
fn counts(rt: HostRuntime) {
    for [k, m, missing, lost, from, to, count] in COUNTS {
        let g = code(&rt, k, m, 1);
        let marks = present(&rt, rt.alloc(), g.n(), missing);
        let run = LostRun { lost, from, to };
        expect_same(&rt, missing_count(rt.alloc(), g, run, &marks), Ok(count));
        let pieces = missing_pieces(rt.alloc(), g, run, &marks).expect(&rt, "pieces");
        expect_same(&rt, pieces.len(), count as usize);
    }
}

// Lists the pieces of the first layers of a code with two parity chunks, which is refused unless no cause is given.
fn expect_end(
    rt: &impl Abort,
    alloc: Global,
    g: Geometry,
    lost: u32,
    to: u32,
    present: &[bool],
    why: Option<MissingFault>,
) {
    let run = LostRun { lost, from: 0, to };
    let refused = missing_pieces(alloc, g, run, present).err();
    expect_same(rt, refused, why);
}

#[test]
fn refusals(rt: HostRuntime) {
    let (alloc, g) = (rt.alloc(), code(&rt, 2, 2, 1));
    let all = [true; 5];
    let without_first = [false, true, true, true];
    let (two, one) = ([false, false, true, true], [false, false, false, true]);
    let chunk = Some(MissingFault::NoSuchChunk);
    let layers = Some(MissingFault::NoSuchLayers);
    expect_end(&rt, alloc, g, 4, 1, &all[..4], chunk);
    expect_end(&rt, alloc, g, 3, 5, &all[..4], layers);
    expect_end(&rt, alloc, g, 3, 1, &all, Some(MissingFault::MarkCount));
    expect_end(&rt, alloc, g, 3, 1, &one, Some(MissingFault::TooFew));
    expect_end(&rt, alloc, g, 3, 1, &without_first, None);
    expect_end(&rt, alloc, g, 3, 0, &two, Some(MissingFault::TooFew));
}
