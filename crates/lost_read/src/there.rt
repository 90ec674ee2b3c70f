//! A run of a lost chunk's layers without the chunks that a caller's marks say are missing.
ghost use Rattle.std.specs.Prelude.{◌≡◌, ◌≤◌, ◌↔◌, map, length, IfOk, OnErr, IsTrue, IsFalse};
ghost use Rattle.clay_grid.specs.Shape.{chunk_count};
ghost use Rattle.lost_layers.specs.LostLayers.{IsLostRun};
ghost use Rattle.lost_layers.specs.Without.{Determine};
ghost use Rattle.lost_layers.specs.declared.missing_fault.MissingFault.TheVariants.{TooFew};
ghost use Rattle.lost_read.specs.MissingRead.{FitRun};
ghost use Rattle.lost_read.specs.There.{there_of, gone_with, pieces_with, ReadsWithout};

use crate::missing_read_fault::MissingReadFault;
use crate::missing_reads::read_missing;
use clay_grid::Geometry;
use lost_layers::{LostPiece, LostRun, MissingFault, missing_count, missing_pieces, readable_run};
use std::alloc::Global;

// No code has more chunks. So marks need no memory, and whether there are few enough is known before any is taken.
const MOST_CHUNKS: usize = 24;

// Says of each chunk whether it is there.
fn mark_there(present: &[u8], there: &mut [bool])
    requires { length there.old ≡ length present.now }
    ensures { there.new ≡ there_of present.now }
{
    for (c, mark) in present.iter().enumerate() {
        there[c] = *mark != 0;
    }
}

// Whether too many chunks are missing.
fn is_too_few(fault: MissingFault) -> bool
    ensures { IsTrue result ↔ (fault ≡ TooFew) }
{
    matches!(fault, MissingFault::TooFew)
}

/// Whether few enough chunks are missing.
pub fn are_few(g: Geometry, run: LostRun, present: &[u8]) -> bool
    requires run { IsLostRun g run }
    requires marks { length present.now ≡ chunk_count g }
    ensures { IsTrue result ↔ (gone_with g run present.now ≤ g.parity_count) }
{
    let mut marks = [false; MOST_CHUNKS];
    let there = &mut marks[..present.len()];
    mark_there(present, there);
    match readable_run(g, run, there) {
        Ok(_) => true,
        Err(fault) => !is_too_few(fault),
    }
}

/// How many subchunks of the others determine the run.
pub fn count_without(
    alloc: Global,
    g: Geometry,
    run: LostRun,
    present: &[u8],
) -> Result<u32, MissingFault>
    requires { length present.now ≡ chunk_count g }
    ensures { IfOk result (λ count. count ≡ length (pieces_with g run present.now)) }
{
    let mut marks = [false; MOST_CHUNKS];
    let there = &mut marks[..present.len()];
    mark_there(present, there);
    missing_count(alloc, g, run, there)
}

/// Which these are.
pub fn pieces_without(
    alloc: Global,
    g: Geometry,
    run: LostRun,
    present: &[u8],
) -> Result<Vec<LostPiece>, MissingFault>
    requires { length present.now ≡ chunk_count g }
    ensures listed { IfOk result (λ pieces. pieces.items ≡ pieces_with g run present.now) }
    ensures determine { IfOk result (λ pieces. Determine g run (there_of present.now) pieces.items) }
{
    let mut marks = [false; MOST_CHUNKS];
    let there = &mut marks[..present.len()];
    mark_there(present, there);
    missing_pieces(alloc, g, run, there)
}

/// Writes the run's subchunks from the bytes of these, and says whether there are as many as it takes, and room for its own.
pub fn read_without(
    alloc: Global,
    g: Geometry,
    run: LostRun,
    present: &[u8],
    pieces: &[&[u8]],
    subchunks: &mut [u8],
) -> Result<bool, MissingFault>
    requires { length present.now ≡ chunk_count g }
    ensures fit { IfOk result (λ fits. IsTrue fits ↔ FitRun g run (length (pieces_with g run present.now)) (map (λ piece. piece.now) pieces.now) (length subchunks.old)) }
    ensures read { IfOk result (λ fits. IsTrue fits → ReadsWithout g run present.now (map (λ piece. piece.now) pieces.now) subchunks.new) }
    ensures unfit { IfOk result (λ fits. IsFalse fits → subchunks.new ≡ subchunks.old) }
    ensures kept { OnErr result (subchunks.new ≡ subchunks.old) }
{
    let mut marks = [false; MOST_CHUNKS];
    let there = &mut marks[..present.len()];
    mark_there(present, there);
    match read_missing(alloc, g, run, there, pieces, subchunks) {
        Ok(()) => Ok(true),
        Err(MissingReadFault::Run(fault)) => Err(fault),
        Err(MissingReadFault::PieceCount) => Ok(false),
        Err(MissingReadFault::PieceLength) => Ok(false),
        Err(MissingReadFault::Room) => Ok(false),
    }
}
