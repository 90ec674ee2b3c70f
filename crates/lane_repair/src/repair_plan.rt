//! What a call of repair works with.
ghost use Rattle.std.specs.Prelude.{◌≡◌, ℕ, ◌+◌, ◌*◌, ◌/◌, ◌%◌, ◌<◌, ◌≤◌, length, IfOk, eqb, slice_index, slice_index_or, false};
ghost use Rattle.clay_grid.specs.Shape.{chunk_count, row_count, column_count, node_count, layer_count};
ghost use Rattle.clay_grid.specs.Layers.{layer_of};
ghost use Rattle.clay_grid.specs.Limits.{IsGeometry};
ghost use Rattle.clay_grid.specs.Repair.{layers_with_digit};
ghost use Rattle.generator_matrix.specs.Generated.{IsGeneratorOf};
ghost use Rattle.lane_repair.specs.Repaired.{IsRepairPlan, column_nodes};

use clay_grid::Geometry;
use clay_kernels::{Products, halves, zeros};
use generator_matrix::{Generator, generator_of};
use std::alloc::{AllocError, Global};

/// The place of the lost node, the factors of its column, and the layers that are read.
#[derive(Drop)]
pub struct RepairPlan {
    /// The lost chunk.
    pub lost: u32,
    /// The row of its node.
    pub row: u32,
    /// The column of its node, of which each node is solved.
    pub column: u32,
    /// For each node, whether it stands in that column.
    pub erased: Vec<bool>,
    /// The factors of every node in the values of that column.
    pub generator: Generator,
    /// The layers that are read, rising.
    pub layers: Vec<u32>,
    /// A subchunk of a virtual node.
    pub zeros: Vec<u8>,
    /// The products of the inverse of 2.
    pub halves: Products,
}

/// The place of a layer among the layers that have its digit of column `y`.
pub fn layer_place(g: Geometry, y: u32, z: u32) -> u32
    requires column { y < column_count g }
    requires layer { z < layer_count g }
    ensures within { result < length (layers_with_digit g y (slice_index (layer_of g z) y)) }
    ensures place { slice_index (layers_with_digit g y (slice_index (layer_of g z) y)) result ≡ z }
{
    // the number of the layer without that digit
    let stride = g.stride(y);
    z / stride / g.q() * stride + z % stride
}

// For each node, whether it stands in a column.
fn stand_in_column(alloc: Global, g: Geometry, column: u32) -> Result<Vec<bool>, AllocError>
    ensures len { IfOk result (λ v. length v.items ≡ node_count g) }
    ensures value { IfOk result (λ v. (i : ℕ) → i < node_count g →
        slice_index_or v.items i false ≡ eqb (i / row_count g) column) }
{
    let mut nodes = Vec::with_capacity(alloc, g.nodes() as usize)?;
    for node in 0..g.nodes() {
        nodes.push(node / g.q() == column)?;
    }
    Ok(nodes)
}

// The numbers of the nodes of a column, rising.
fn column_points(alloc: Global, g: Geometry, column: u32) -> Result<Vec<u8>, AllocError>
    requires { column < column_count g }
    ensures { IfOk result (λ v. v.items ≡ column_nodes g column) }
{
    let mut points = Vec::with_capacity(alloc, g.q() as usize)?;
    for x in 0..g.q() {
        points.push((column * g.q() + x) as u8)?;
    }
    Ok(points)
}

// The factors of every node in the values of a column.
fn column_generator(alloc: Global, g: Geometry, column: u32) -> Result<Generator, AllocError>
    requires geometry { IsGeometry g }
    requires column { column < column_count g }
    ensures { IfOk result (λ made. IsGeneratorOf g (column_nodes g column) made.unknown made.each) }
{
    let points = column_points(alloc, g, column)?;
    generator_of(alloc, g, &points)
}

/// The plan for a lost chunk.
pub fn make_repair_plan(alloc: Global, g: Geometry, lost: u32) -> Result<RepairPlan, AllocError>
    requires { lost < chunk_count g }
    ensures plan { IfOk result (λ plan. IsRepairPlan g plan) }
    ensures lost { IfOk result (λ plan. plan.lost ≡ lost) }
{
    let (row, column) = g.place(g.node_of_chunk(lost));
    let zeros = zeros(alloc, g.w() as usize)?;
    let erased = stand_in_column(alloc, g, column)?;
    let layers = g.repair_layers(alloc, lost)?;
    let generator = column_generator(alloc, g, column)?;
    Ok(RepairPlan {
        lost,
        row,
        column,
        erased,
        generator,
        layers,
        zeros,
        halves: halves(),
    })
}
