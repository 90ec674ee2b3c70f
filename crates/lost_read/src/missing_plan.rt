//! What a run is read with.
ghost use Rattle.std.specs.Prelude.{◌≡◌, [], ◌∷◌, IfOk};
ghost use Rattle.clay_grid.specs.Shape.{layer_count};
ghost use Rattle.lost_layers.specs.ErasedPieces.{pieces_of};
ghost use Rattle.lost_layers.specs.ErasedRuns.{solved_of, IsSolvedRun};
ghost use Rattle.lost_read.specs.MissingPlan.{AreRanks, IsMissingReadPlan};

use crate::read_places::places_of;
use clay_kernels::{Products, fifths, halves, zeros};
use generator_matrix::{Generator, generator_of};
use lane_repair::erased_points;
use lost_layers::{LostPiece, SolvedRun};
use std::alloc::{AllocError, Global};

/// What a run is read with.
#[derive(Drop)]
pub(crate) struct MissingReadPlan {
    /// For each subchunk, chunk by chunk, its place among the pieces, and 0 where it is none of them.
    pub(crate) places: Vec<usize>,
    /// The unknown nodes, rising.
    pub(crate) points: Vec<u8>,
    /// The factors of every node in the values of these nodes.
    pub(crate) generator: Generator,
    /// The layers, by rising score.
    pub(crate) order: Vec<u32>,
    /// For each layer, and behind the last one, how many of those below it are solved.
    pub(crate) ranks: Vec<u32>,
    /// A subchunk of a virtual node.
    pub(crate) zeros: Vec<u8>,
    /// The products of the inverses of 2 and of 5.
    pub(crate) halves: Products,
    pub(crate) fifths: Products,
}

// The rank of the first layer, with room for those of so many more.
fn first_rank(alloc: Global, count: u32) -> Result<Vec<u32>, AllocError>
    ensures { IfOk result (λ v. v.items ≡ 0 ∷ []) }
{
    let mut ranks = Vec::with_capacity(alloc, count as usize + 1)?;
    ranks.push(0)?;
    Ok(ranks)
}

// For each layer, and behind the last one, how many of those below it are solved.
fn ranks_of(alloc: Global, run: &SolvedRun<'_>) -> Result<Vec<u32>, AllocError>
    requires { IsSolvedRun run.now }
    ensures { IfOk result (λ v. AreRanks (solved_of run.now) (layer_count run.now.placed.g) v.items) }
{
    let alpha = run.placed.g.alpha();
    let mut ranks = first_rank(alloc, alpha)?;
    let mut count = 0;
    for layer in 0..alpha {
        count += u32::from(run.is_solved(layer));
        ranks.push(count)?;
    }
    Ok(ranks)
}

impl MissingReadPlan {
    /// The plan for a run that takes these pieces.
    pub(crate) fn new(
        alloc: Global,
        run: &SolvedRun<'_>,
        list: &[LostPiece],
    ) -> Result<MissingReadPlan, AllocError>
        requires run { IsSolvedRun run.now }
        requires list { list.now ≡ pieces_of (solved_of run.now) }
        ensures { IfOk result (λ plan. IsMissingReadPlan (solved_of run.now) plan) }
    {
        let g = run.placed.g;
        let places = places_of(alloc, g, list)?;
        let points = erased_points(alloc, run.unknown)?;
        let generator = generator_of(alloc, g, &points)?;
        let order = g.layers_by_score(alloc, run.unknown)?;
        let ranks = ranks_of(alloc, run)?;
        let zeros = zeros(alloc, g.w() as usize)?;
        Ok(MissingReadPlan {
            places,
            points,
            generator,
            order,
            ranks,
            zeros,
            halves: halves(),
            fifths: fifths(),
        })
    }
}
