//! A run of the code with marks of its own, where a caller says which chunks are missing.
ghost use Rattle.std.specs.Prelude.{◌≡◌, ◌<◌, length, IfOk};
ghost use Rattle.clay_grid.specs.Shape.{chunk_count, node_count};
ghost use Rattle.lost_layers.specs.Placing.{IsPlaced};
ghost use Rattle.lost_layers.specs.ErasedRuns.{solved_of, marked_of, IsSolvedRun, IsMarkedRun};
ghost use Rattle.lost_layers.specs.Without.{is_there, is_gone, gone_nodes, without, IsReadable};

use crate::erased::ErasedRun;
use crate::pieces_of_missing::{SolvedRun, solved_layers};
use crate::placed::PlacedRun;
use crate::run::LostRun;
use crate::unknown::unknown_nodes;
use clay_grid::Geometry;
use std::alloc::{AllocError, Global};

/// A run of the code with its place, and its marks for the nodes and for the layers.
#[derive(Drop)]
pub struct MarkedRun {
    placed: PlacedRun,
    missing: Vec<bool>,
    unknown: Vec<bool>,
    solved: Vec<bool>,
}

// Whether a chunk is there.
fn is_there(run: LostRun, present: &[bool], chunk: u32) -> bool
    requires { chunk < length present.now }
    ensures { result ≡ is_there run present.now chunk }
{
    chunk != run.lost && present[chunk as usize]
}

// Whether the chunk of a node is missing.
pub(crate) fn is_gone(g: Geometry, run: LostRun, present: &[bool], node: u32) -> bool
    requires node { node < node_count g }
    requires marks { length present.now ≡ chunk_count g }
    ensures { result ≡ is_gone g run present.now node }
{
    let Some(chunk) = g.chunk_of_node(node) else {
        return false;
    };
    !is_there(run, present, chunk)
}

// For each node, whether its chunk is missing.
fn mark_gone(
    alloc: Global,
    g: Geometry,
    run: LostRun,
    present: &[bool],
) -> Result<Vec<bool>, AllocError>
    requires { length present.now ≡ chunk_count g }
    ensures { IfOk result (λ marks. marks.items ≡ gone_nodes g run present.now) }
{
    let mut marks = Vec::with_capacity(alloc, g.nodes() as usize)?;
    for node in 0..g.nodes() {
        marks.push(is_gone(g, run, present, node))?;
    }
    Ok(marks)
}

impl MarkedRun {
    /// The marks for a run that isn't empty.
    pub fn new(alloc: Global, placed: &PlacedRun, present: &[bool]) -> Result<MarkedRun, AllocError>
        requires placed { IsPlaced placed.now }
        requires readable { IsReadable placed.now.g placed.now.run present.now }
        requires some { placed.now.run.from < placed.now.run.to }
        ensures marked { IfOk result (λ run. IsMarkedRun run) }
        ensures without { IfOk result (λ run. marked_of run ≡ without placed.now.g placed.now.run present.now) }
    {
        let missing = mark_gone(alloc, placed.g, placed.run, present)?;
        let unknown = unknown_nodes(alloc, placed, &missing)?;
        let erased = ErasedRun {
            placed: *placed,
            missing: &missing,
            unknown: &unknown,
        };
        let solved = solved_layers(alloc, &erased)?;
        Ok(MarkedRun {
            placed: *placed,
            missing,
            unknown,
            solved,
        })
    }

    /// The run, and which layers are solved for it.
    pub fn solved(&self) -> SolvedRun<'_>
        requires { IsMarkedRun self.now }
        ensures run { IsSolvedRun result }
        ensures erased { solved_of result ≡ marked_of self.now }
    {
        SolvedRun {
            placed: self.placed,
            missing: &self.missing,
            unknown: &self.unknown,
            solved: &self.solved,
        }
    }
}
