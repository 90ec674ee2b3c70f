//! What a call of decoding works with.
ghost use Rattle.std.specs.Prelude.{◌≡◌, ℕ, ◌<◌, ◌≤◌, length, IfOk, slice_index_or, false, count_by, is_none};
ghost use Rattle.clay_grid.specs.Shape.{chunk_count, node_count, chunk_length};
ghost use Rattle.clay_model.specs.Left.{AreLong};
ghost use Rattle.lane_repair.specs.Views.{pieces_of, HasRoom};
ghost use Rattle.clay_lanes.specs.Present.{is_gone};
ghost use Rattle.clay_lanes.specs.Recovered.{IsPlanFor, IsLanePlan};

use clay_grid::Geometry;
use clay_kernels::{Products, fifths, zeros};
use generator_matrix::{Generator, generator_of};
use lane_repair::{ChunkView, erased_points};
use std::alloc::{AllocError, Global};

/// The erased nodes, which are those of the missing chunks, and the order of the layers.
#[derive(Drop)]
pub struct DecodePlan {
    /// For each node, whether it is erased.
    pub erased: Vec<bool>,
    /// The erased nodes, rising.
    pub points: Vec<u8>,
    /// The factors of every node in the values of the erased nodes.
    pub generator: Generator,
    /// The layers in the order in which they are solved.
    pub layers: Vec<u32>,
    /// A subchunk of a virtual node.
    pub zeros: Vec<u8>,
    /// The products of the inverse of 5.
    pub fifths: Products,
}

// Whether the chunk of a node is missing. That of a virtual node never is.
fn is_missing(g: Geometry, have: ChunkView<'_>, node: u32) -> bool
    requires count { length (pieces_of have) ≡ chunk_count g }
    requires room { HasRoom have }
    requires node { node < node_count g }
    ensures { result ≡ is_gone g (pieces_of have.entry) node }
{
    match g.chunk_of_node(node) {
        Some(chunk) => have.get(chunk as usize).is_none(),
        None => false,
    }
}

// For each node, whether its chunk is missing.
fn erased_nodes(alloc: Global, g: Geometry, have: ChunkView<'_>) -> Result<Vec<bool>, AllocError>
    requires count { length (pieces_of have) ≡ chunk_count g }
    requires room { HasRoom have }
    ensures len { IfOk result (λ v. length v.items ≡ node_count g) }
    ensures value { IfOk result (λ v. (i : ℕ) → i < node_count g →
        slice_index_or v.items i false ≡ is_gone g (pieces_of have.entry) i) }
{
    let mut erased = Vec::with_capacity(alloc, g.nodes() as usize)?;
    for node in 0..g.nodes() {
        erased.push(is_missing(g, have, node))?;
    }
    Ok(erased)
}

/// The plan for what a view shows, of which no more is missing than there are parity chunks.
pub fn plan_of(alloc: Global, g: Geometry, have: ChunkView<'_>) -> Result<DecodePlan, AllocError>
    requires count { length (pieces_of have) ≡ chunk_count g }
    requires room { HasRoom have }
    requires few { count_by is_none (pieces_of have) ≤ g.parity_count }
    ensures { IfOk result (λ plan. IsPlanFor g (is_gone g (pieces_of have.entry)) plan) }
{
    let zeros = zeros(alloc, g.w() as usize)?;
    let erased = erased_nodes(alloc, g, have)?;
    let points = erased_points(alloc, &erased)?;
    let generator = generator_of(alloc, g, &points)?;
    let layers = g.layers_by_score(alloc, &erased)?;
    Ok(DecodePlan {
        erased,
        points,
        generator,
        layers,
        zeros,
        fifths: fifths(),
    })
}

/// The plan for chunks of which no more are missing than there are parity chunks.
pub fn make_plan(
    alloc: Global,
    g: Geometry,
    have: &[Option<Vec<u8>>],
) -> Result<DecodePlan, AllocError>
    requires count { length have.now ≡ chunk_count g }
    requires lengths { AreLong (chunk_length g) have.now }
    requires few { count_by is_none have.now ≤ g.parity_count }
    ensures { IfOk result (λ plan. IsLanePlan g have.now plan) }
{
    plan_of(alloc, g, ChunkView::Apart(have))
}
