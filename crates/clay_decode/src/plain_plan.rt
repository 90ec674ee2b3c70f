//! What a call of decoding works with.
ghost use Rattle.std.specs.Prelude.{◌≡◌, ℕ, ◌<◌, ◌≤◌, length, IfOk, slice_index_or, false, count_by, is_none, replicate};
ghost use Rattle.clay_grid.specs.Shape.{Shape, chunk_count, node_count, chunk_length};
ghost use Rattle.clay_model.specs.Erased.{erased_below};
ghost use Rattle.clay_model.specs.Left.{AreLeft};
ghost use Rattle.code_laws.specs.Solved.{is_erased};
ghost use Rattle.clay_decode.specs.Plan.{IsPlan};

use clay_grid::Geometry;
use clay_scalar::Solver;
use std::alloc::{AllocError, Global};

/// The erased nodes, which are those of the missing chunks, and the order of the layers.
#[derive(Drop)]
pub struct PlainDecodePlan {
    /// For each node, whether it is erased.
    pub erased: Vec<bool>,
    /// The erased nodes, rising.
    pub points: Vec<u8>,
    /// The interpolation over the erased nodes.
    pub solver: Solver,
    /// The layers in the order in which they are solved.
    pub layers: Vec<u32>,
    /// A subchunk of a virtual node.
    pub zeros: Vec<u8>,
}

// Whether the chunk of a node is missing. That of a virtual node never is.
fn is_missing(g: Geometry, have: &[Option<Vec<u8>>], node: u32) -> bool
    requires count { length have.now ≡ chunk_count g }
    requires node { node < node_count g }
    ensures { result ≡ is_erased g have.now node }
{
    match g.chunk_of_node(node) {
        Some(chunk) => have[chunk as usize].is_none(),
        None => false,
    }
}

// For each node, whether its chunk is missing.
fn erased_nodes(
    alloc: Global,
    g: Geometry,
    have: &[Option<Vec<u8>>],
) -> Result<Vec<bool>, AllocError>
    requires { length have.now ≡ chunk_count g }
    ensures len { IfOk result (λ v. length v.items ≡ node_count g) }
    ensures value { IfOk result (λ v. (i : ℕ) → i < node_count g →
        slice_index_or v.items i false ≡ is_erased g have.now i) }
{
    let mut erased = Vec::with_capacity(alloc, g.nodes() as usize)?;
    for node in 0..g.nodes() {
        erased.push(is_missing(g, have, node))?;
    }
    Ok(erased)
}

// The numbers of the erased nodes, rising.
fn erased_points(alloc: Global, erased: &[bool]) -> Result<Vec<u8>, AllocError>
    requires { length erased.now ≤ 256 }
    ensures { IfOk result (λ v. v.items ≡ erased_below erased.now (length erased.now)) }
{
    let mut points = Vec::new(alloc);
    for (node, missing) in erased.iter().enumerate() {
        if *missing {
            points.push(node as u8)?;
        }
    }
    Ok(points)
}

/// The plan for chunks of which no more are missing than there are parity chunks.
pub fn make_plan(
    alloc: Global,
    g: Geometry,
    have: &[Option<Vec<u8>>],
) -> Result<PlainDecodePlan, AllocError>
    requires { AreLeft g have.now }
    ensures { IfOk result (IsPlan g have.now) }
{
    let zeros = clay_encode::zeros(alloc, g.w() as usize)?;
    let erased = erased_nodes(alloc, g, have)?;
    let points = erased_points(alloc, &erased)?;
    let solver = Solver::new(alloc, &points)?;
    let layers = g.layers_by_score(alloc, &erased)?;
    Ok(PlainDecodePlan {
        erased,
        points,
        solver,
        layers,
        zeros,
    })
}
