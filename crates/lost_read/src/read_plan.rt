//! What a run is read with.
ghost use Rattle.std.specs.Prelude.{◌≡◌, ℕ, ◌*◌, ◌<◌, length, IfOk, slice_index_or, true, false};
ghost use Rattle.clay_grid.specs.Shape.{chunk_count, node_count, layer_count};
ghost use Rattle.lost_layers.specs.LostLayers.{is_wanted, is_solved, is_unknown};
ghost use Rattle.lost_layers.specs.Placing.{IsPlaced};
ghost use Rattle.lost_read.specs.Plan.{ArePlacesOf, IsReadPlan};

use crate::read_places::places_of;
use clay_kernels::{Products, halves, zeros};
use clay_model::partner_of;
use generator_matrix::{Generator, generator_of};
use lane_repair::erased_points;
use lost_layers::{PlacedRun, pieces_of_run};
use std::alloc::{AllocError, Global};

/// What a run is read with.
#[derive(Drop)]
pub(crate) struct ReadPlan {
    pub(crate) placed: PlacedRun,
    /// For each subchunk, chunk by chunk, its place among the pieces, and 0 where it is none of them.
    pub(crate) places: Vec<usize>,
    /// For each node, whether its value is solved for in the layers that are solved.
    pub(crate) erased: Vec<bool>,
    /// These nodes, rising.
    pub(crate) points: Vec<u8>,
    /// The factors of every node in the values of these nodes.
    pub(crate) generator: Generator,
    /// A subchunk of a virtual node.
    pub(crate) zeros: Vec<u8>,
    /// The products of the inverse of 2.
    pub(crate) halves: Products,
}

// For each subchunk its place among the pieces of a run.
fn places_for(alloc: Global, placed: &PlacedRun) -> Result<Vec<usize>, AllocError>
    requires { IsPlaced placed.now }
    ensures len { IfOk result (λ v. length v.items ≡ chunk_count placed.now.g * layer_count placed.now.g) }
    ensures places { IfOk result (λ v. ArePlacesOf placed.now v.items) }
{
    let pieces = pieces_of_run(alloc, placed)?;
    places_of(alloc, placed.g, &pieces)
}

// A layer that is solved for a wanted one.
fn layer_for(placed: &PlacedRun, z: u32) -> u32
    requires placed { IsPlaced placed.now }
    requires layer { z < layer_count placed.now.g }
    requires wanted { is_wanted placed.now.run z ≡ true }
    ensures solved { is_solved placed.now.g placed.now.run result ≡ true }
    ensures within { result < layer_count placed.now.g }
{
    if placed.is_solved(z) {
        return z;
    }
    partner_of(placed.g, placed.node, z).layer
}

// For each node, whether its value in the layer is solved for.
fn erased_nodes(alloc: Global, placed: &PlacedRun, layer: u32) -> Result<Vec<bool>, AllocError>
    requires placed { IsPlaced placed.now }
    requires layer { layer < layer_count placed.now.g }
    ensures len { IfOk result (λ v. length v.items ≡ node_count placed.now.g) }
    ensures value { IfOk result (λ v. (i : ℕ) → i < node_count placed.now.g →
        slice_index_or v.items i false ≡ is_unknown placed.now.g placed.now.run layer i) }
{
    let mut erased = Vec::with_capacity(alloc, placed.g.nodes() as usize)?;
    for node in 0..placed.g.nodes() {
        erased.push(placed.is_unknown(layer, node))?;
    }
    Ok(erased)
}

impl ReadPlan {
    /// The plan for a run that isn't empty.
    pub(crate) fn new(alloc: Global, placed: PlacedRun) -> Result<ReadPlan, AllocError>
        requires placed { IsPlaced placed }
        requires some { placed.run.from < placed.run.to }
        ensures { IfOk result (λ plan. IsReadPlan plan × (plan.placed ≡ placed)) }
    {
        let g = placed.g;
        let zeros = zeros(alloc, g.w() as usize)?;
        let places = places_for(alloc, &placed)?;
        let erased = erased_nodes(alloc, &placed, layer_for(&placed, placed.run.from))?;
        let points = erased_points(alloc, &erased)?;
        let generator = generator_of(alloc, g, &points)?;
        Ok(ReadPlan {
            placed,
            places,
            erased,
            points,
            generator,
            zeros,
            halves: halves(),
        })
    }
}
