//! The pieces of a run, where a caller says which chunks are missing.
ghost use Rattle.std.specs.Prelude.{◌≡◌, length, IfOk, IfErr};
ghost use Rattle.clay_grid.specs.Shape.{chunk_count};
ghost use Rattle.lost_layers.specs.Placing.{IsPlaced};
ghost use Rattle.lost_layers.specs.Without.{gone_count, missing_pieces_of, Determine, IsReadable, IsRefused};

use crate::marked::{MarkedRun, is_gone};
use crate::missing_fault::MissingFault;
use crate::placed::PlacedRun;
use crate::run::{LostPiece, LostRun};
use clay_grid::Geometry;
use std::alloc::Global;

// How many nodes' chunks are missing.
fn count_gone(g: Geometry, run: LostRun, present: &[bool]) -> u32
    requires { length present.now ≡ chunk_count g }
    ensures { result ≡ gone_count g run present.now }
{
    let mut count = 0;
    for node in 0..g.nodes() {
        count += u32::from(is_gone(g, run, present, node));
    }
    count
}

/// The run with its place, if it is one of the code's and few enough chunks are missing.
pub fn readable_run(g: Geometry, run: LostRun, present: &[bool]) -> Result<PlacedRun, MissingFault>
    ensures placed { IfOk result (λ placed. IsPlaced placed × (placed.g ≡ g) × (placed.run ≡ run)) }
    ensures readable { IfOk result (λ placed. IsReadable g run present.now) }
    ensures refused { IfErr result (λ fault. IsRefused g run present.now fault) }
{
    if run.lost >= g.n() {
        return Err(MissingFault::NoSuchChunk);
    }
    if run.to < run.from || run.to > g.alpha() {
        return Err(MissingFault::NoSuchLayers);
    }
    if present.len() != g.n() as usize {
        return Err(MissingFault::MarkCount);
    }
    if count_gone(g, run, present) > g.m() {
        return Err(MissingFault::TooFew);
    }
    Ok(PlacedRun::new(g, run))
}

/// Few subchunks that determine the layers of the run, of chunks that are there: by rising chunk, and of a chunk by rising layer.
///
/// `present` has a mark for each chunk, `false` where it is missing. That of the lost one doesn't count.
pub fn missing_pieces(
    alloc: Global,
    g: Geometry,
    run: LostRun,
    present: &[bool],
) -> Result<Vec<LostPiece>, MissingFault>
    ensures readable { IfOk result (λ pieces. IsReadable g run present.now) }
    ensures listed { IfOk result (λ pieces. pieces.items ≡ missing_pieces_of g run present.now) }
    ensures determine { IfOk result (λ pieces. Determine g run present.now pieces.items) }
    ensures refused { IfErr result (λ fault. IsRefused g run present.now fault) }
{
    let placed = readable_run(g, run, present)?;
    if run.from == run.to {
        return Ok(Vec::new(alloc));
    }
    let marked = MarkedRun::new(alloc, &placed, present)?;
    let pieces = marked.solved().pieces(alloc)?;
    Ok(pieces)
}

/// How many subchunks `missing_pieces` lists.
pub fn missing_count(
    alloc: Global,
    g: Geometry,
    run: LostRun,
    present: &[bool],
) -> Result<u32, MissingFault>
    ensures readable { IfOk result (λ count. IsReadable g run present.now) }
    ensures count { IfOk result (λ count. count ≡ length (missing_pieces_of g run present.now)) }
    ensures refused { IfErr result (λ fault. IsRefused g run present.now fault) }
{
    let placed = readable_run(g, run, present)?;
    if run.from == run.to {
        return Ok(0);
    }
    let marked = MarkedRun::new(alloc, &placed, present)?;
    Ok(marked.solved().count())
}
