//! What a call of repair works with.
ghost use Rattle.std.specs.Prelude.{◌≡◌, ℕ, ◌+◌, ◌*◌, ◌/◌, ◌%◌, ◌<◌, ◌≤◌, length, IfOk, eqb, slice_index, slice_index_or, false, replicate};
ghost use Rattle.std.specs.List.{range_with_len};
ghost use Rattle.clay_grid.specs.Shape.{chunk_count, row_count, column_count, node_count, layer_count};
ghost use Rattle.clay_grid.specs.Layers.{layer_of};
ghost use Rattle.clay_grid.specs.Repair.{layers_with_digit};
ghost use Rattle.clay_repair.specs.Plan.{IsPlan};

use clay_grid::Geometry;
use clay_scalar::Solver;
use std::alloc::{AllocError, Global};

/// The place of the lost node, and the layers that are read.
#[derive(Drop)]
pub struct PlainRepairPlan {
    /// The lost chunk.
    pub lost: u32,
    /// The row of its node.
    pub row: u32,
    /// The column of its node, of which each node is solved.
    pub column: u32,
    /// For each node, whether it stands in that column.
    pub erased: Vec<bool>,
    /// The interpolation over the nodes of that column.
    pub solver: Solver,
    /// The layers that are read, rising.
    pub layers: Vec<u32>,
    /// A subchunk of a virtual node.
    pub zeros: Vec<u8>,
}

/// The place of a layer among the layers that have its digit of column `y`.
pub fn place_of(g: Geometry, y: u32, z: u32) -> u32
    requires column { y < column_count g }
    requires layer { z < layer_count g }
    ensures within { result < length (layers_with_digit g y (slice_index (layer_of g z) y)) }
    ensures place { slice_index (layers_with_digit g y (slice_index (layer_of g z) y)) result ≡ z }
{
    // the number of the layer without that digit
    let stride = g.stride(y);
    z / stride / g.q() * stride + z % stride
}

// For each node, whether it stands in a column.
fn column_nodes(alloc: Global, g: Geometry, column: u32) -> Result<Vec<bool>, AllocError>
    ensures len { IfOk result (λ v. length v.items ≡ node_count g) }
    ensures value { IfOk result (λ v. (i : ℕ) → i < node_count g →
        slice_index_or v.items i false ≡ eqb (i / row_count g) column) }
{
    let mut nodes = Vec::with_capacity(alloc, g.nodes() as usize)?;
    for node in 0..g.nodes() {
        nodes.push(node / g.q() == column)?;
    }
    Ok(nodes)
}

// The numbers of the nodes of a column, rising.
fn column_points(alloc: Global, g: Geometry, column: u32) -> Result<Vec<u8>, AllocError>
    requires { column < column_count g }
    ensures { IfOk result (λ v. v.items ≡ range_with_len (column * row_count g) (row_count g)) }
{
    let mut points = Vec::with_capacity(alloc, g.q() as usize)?;
    for x in 0..g.q() {
        points.push((column * g.q() + x) as u8)?;
    }
    Ok(points)
}

/// The plan for a lost chunk.
pub fn make_plan(alloc: Global, g: Geometry, lost: u32) -> Result<PlainRepairPlan, AllocError>
    requires { lost < chunk_count g }
    ensures plan { IfOk result (IsPlan g) }
    ensures lost { IfOk result (λ plan. plan.lost ≡ lost) }
{
    let (row, column) = g.place(g.node_of_chunk(lost));
    let zeros = clay_encode::zeros(alloc, g.w() as usize)?;
    let erased = column_nodes(alloc, g, column)?;
    let points = column_points(alloc, g, column)?;
    let solver = Solver::new(alloc, &points)?;
    let layers = g.repair_layers(alloc, lost)?;
    Ok(PlainRepairPlan {
        lost,
        row,
        column,
        erased,
        solver,
        layers,
        zeros,
    })
}
