//! The uncoupled values: those that the stripe gives, and those of the last column.
ghost use Rattle.std.specs.Prelude.{◌≡◌, ℕ, ◌+◌, ◌*◌, ◌^◌, ◌<◌, slice_index, length, IfOk, OnOk, replicate, false, nat_lt, not, slice_index_or};
ghost use Rattle.clay_grid.specs.Shape.{row_count, node_count, layer_count, stripe_length};
ghost use Rattle.clay_grid.specs.Layers.{layer_of};
ghost use Rattle.clay_grid.specs.Limits.{IsGeometry};
ghost use Rattle.code_laws.specs.Columns.{data_byte, uncoupled_value, first_parity, HoldsUncoupled, IsLastColumn, IsSolved};

use clay_grid::Geometry;
use clay_model::uncouple;
use clay_scalar::{Solver, syndromes};
use std::alloc::{AllocError, Global};

/// Bytes that are all 0.
pub fn zeros(alloc: Global, count: usize) -> Result<Vec<u8>, AllocError>
    ensures { IfOk result (λ v. v.items ≡ replicate count 0) }
{
    vec![in alloc; 0u8; count]
}

// The node in row 0 of the last column.
fn first_parity_node(g: Geometry) -> u32
    ensures value { result ≡ first_parity g }
    ensures geometry { IsGeometry g }
{
    g.nodes() - g.q()
}

// Subchunk `z` of a node outside the last column. `zeros` has `w` bytes.
fn piece<'a>(g: Geometry, stripe: &'a [u8], zeros: &'a [u8], node: u32, z: u32) -> &'a [u8]
    requires whole { length stripe.now ≡ stripe_length g }
    requires empty { zeros.now ≡ replicate g.width 0 }
    requires layer { z < layer_count g }
    ensures geometry { IsGeometry g }
    ensures len { length result.now ≡ g.width }
    ensures bytes { (b : ℕ) → b < g.width → slice_index result.now b ≡ data_byte g stripe.now b node z }
{
    if node < g.k() {
        let w = g.w() as usize;
        let at = (node as usize * g.alpha() as usize + z as usize) * w;
        &stripe[at..at + w]
    } else {
        // the chunk of a virtual node
        zeros
    }
}

// Writes the uncoupled value of a node outside the last column in layer `z`.
fn uncouple_node(g: Geometry, stripe: &[u8], zeros: &[u8], node: u32, z: u32, out: &mut [u8])
    requires whole { length stripe.now ≡ stripe_length g }
    requires empty { zeros.now ≡ replicate g.width 0 }
    requires data { node < first_parity g }
    requires layer { z < layer_count g }
    requires out_len { length out.old ≡ g.width }
    ensures { (b : ℕ) → b < g.width →
        slice_index out.new b ≡ uncoupled_value g stripe.now b node (layer_of g z) }
{
    let (x, y) = g.place(node);
    let partner = g.partner(x, y, z);
    let own = piece(g, stripe, zeros, node, z);
    if partner.x == x {
        out.copy_from_slice(own);
    } else {
        let other = piece(g, stripe, zeros, y * g.q() + partner.x, partner.z);
        uncouple(own, other, out);
    }
}

// Writes the uncoupled values of all nodes outside the last column in layer `z`.
fn uncouple_layer(g: Geometry, stripe: &[u8], zeros: &[u8], z: u32, layer: &mut [u8])
    requires whole { length stripe.now ≡ stripe_length g }
    requires empty { zeros.now ≡ replicate g.width 0 }
    requires in_layers { z < layer_count g }
    requires layer_len { length layer.old ≡ node_count g * g.width }
    ensures { HoldsUncoupled g stripe.now z (first_parity g) layer.new }
{
    let w = g.w() as usize;
    for node in 0..first_parity_node(g) {
        let at = node as usize * w;
        uncouple_node(g, stripe, zeros, node, z, &mut layer[at..at + w]);
    }
}

// The points of the last column.
fn last_points(alloc: Global, g: Geometry) -> Result<Vec<u8>, AllocError>
    ensures len { IfOk result (λ v. length v.items ≡ g.parity_count) }
    ensures value { IfOk result (λ v. (e : ℕ) → e < g.parity_count → slice_index v.items e ≡ first_parity g + e) }
{
    let first = first_parity_node(g);
    let mut points = Vec::new(alloc);
    for x in 0..g.m() {
        points.push((first + x) as u8)?;
    }
    Ok(points)
}

// For each node, whether it stands in the last column.
fn last_nodes(alloc: Global, g: Geometry) -> Result<Vec<bool>, AllocError>
    ensures len { IfOk result (λ v. length v.items ≡ node_count g) }
    ensures value { IfOk result (λ v. (i : ℕ) → i < node_count g → slice_index_or v.items i false ≡ not (nat_lt i (first_parity g))) }
{
    let first = first_parity_node(g);
    let mut nodes = Vec::new(alloc);
    for i in 0..g.nodes() {
        nodes.push(i >= first)?;
    }
    Ok(nodes)
}

/// A solver over the points of the last column, and the nodes that the sums leave out.
#[derive(Drop)]
struct LastColumn {
    solver: Solver,
    erased: Vec<bool>,
}

// What the last column is solved with, for all layers.
fn last_column(alloc: Global, g: Geometry) -> Result<LastColumn, AllocError>
    ensures { IfOk result (λ last. IsLastColumn g last.solver last.erased.items) }
{
    let points = last_points(alloc, g)?;
    let solver = Solver::new(alloc, &points)?;
    let erased = last_nodes(alloc, g)?;
    Ok(LastColumn { solver, erased })
}

// Writes the uncoupled values of the last column in each layer, with room for one layer and for its sums.
fn solve_layers(
    g: Geometry,
    stripe: &[u8],
    zeros: &[u8],
    last: &LastColumn,
    layer: &mut [u8],
    sums: &mut [u8],
    column: &mut [u8],
)
    requires whole { length stripe.now ≡ stripe_length g }
    requires empty { zeros.now ≡ replicate g.width 0 }
    requires last_column { IsLastColumn g last.now.solver last.now.erased.items }
    requires layer_len { length layer.old ≡ node_count g * g.width }
    requires sums_len { length sums.old ≡ g.parity_count * g.width }
    requires column_len { length column.old ≡ layer_count g * (row_count g * g.width) }
    ensures bytes { (i : ℕ) → slice_index column.new i < 2 ^ 8 }
    ensures value { (n : ℕ) → n < layer_count g → IsSolved g stripe.now n column.new }
{
    let w = g.w() as usize;
    let part = g.m() as usize * w;
    for z in 0..g.alpha() {
        uncouple_layer(g, stripe, zeros, z, layer);
        syndromes(g, layer, &last.erased, g.m(), sums);
        let at = z as usize * part;
        last.solver.solve(w, sums, &mut column[at..at + part]);
    }
}

// The same, with rooms that it allocates.
fn solve_in_rooms(
    alloc: Global,
    g: Geometry,
    stripe: &[u8],
    last: &LastColumn,
    column: &mut [u8],
) -> Result<(), AllocError>
    requires whole { length stripe.now ≡ stripe_length g }
    requires last_column { IsLastColumn g last.now.solver last.now.erased.items }
    requires column_len { length column.old ≡ layer_count g * (row_count g * g.width) }
    ensures bytes { OnOk result ((i : ℕ) → slice_index column.new i < 2 ^ 8) }
    ensures value { OnOk result ((n : ℕ) → n < layer_count g → IsSolved g stripe.now n column.new) }
{
    let w = g.w() as usize;
    let no_bytes = zeros(alloc, w)?;
    let mut layer = zeros(alloc, g.nodes() as usize * w)?;
    let mut sums = zeros(alloc, g.m() as usize * w)?;
    solve_layers(g, stripe, &no_bytes, last, &mut layer, &mut sums, column);
    Ok(())
}

/// The uncoupled values of the last column, layer after layer: `w` bytes for each of its `q` rows.
pub fn solve_last_column(alloc: Global, g: Geometry, stripe: &[u8]) -> Result<Vec<u8>, AllocError>
    requires { length stripe.now ≡ stripe_length g }
    ensures len { IfOk result (λ v. length v.items ≡ layer_count g * (row_count g * g.width)) }
    ensures bytes { IfOk result (λ v. (i : ℕ) → slice_index v.items i < 2 ^ 8) }
    ensures value { IfOk result (λ v. (n : ℕ) → n < layer_count g → IsSolved g stripe.now n v.items) }
{
    let part = g.m() as usize * g.w() as usize;
    let mut column = zeros(alloc, g.alpha() as usize * part)?;
    let last = last_column(alloc, g)?;
    solve_in_rooms(alloc, g, stripe, &last, &mut column)?;
    Ok(column)
}
