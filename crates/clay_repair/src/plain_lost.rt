//! The lost chunk, from parts of the others.
ghost use Rattle.std.specs.Prelude.{◌≡◌, ◌≢◌, ℕ, ◌+◌, ◌*◌, ◌/◌, ◌<◌, ◌≤◌, length, IfOk, OnOk};
ghost use Rattle.clay_grid.specs.Shape.{row_count, node_count, node_of_chunk, chunk_length};
ghost use Rattle.clay_model.specs.RepairParts.{AreParts, IsRebuilt};
ghost use Rattle.code_laws.specs.Rebuilt.{IsReadFor, IsCoupled, IsUncoupled, HoldsOthers, HoldsColumn, HoldsSubchunk, HoldsRow, with_digit};
ghost use Rattle.clay_repair.specs.Plan.{IsPlan};

use crate::plain_repair_plan::{PlainRepairPlan, make_plan, place_of};
use clay_encode::zeros;
use clay_grid::Geometry;
use clay_model::{cross, partner_of, uncouple};
use clay_scalar::syndromes;
use std::alloc::{AllocError, Global};

// A subchunk of a node other than the lost one, in a layer that is read.
fn piece<'a>(
    g: Geometry,
    parts: &'a [Option<Vec<u8>>],
    plan: &'a PlainRepairPlan,
    node: u32,
    z: u32,
) -> &'a [u8]
    requires plan { IsPlan g plan.now }
    requires parts { AreParts g plan.now.lost parts.now }
    requires node { node < node_count g }
    requires other { node ≢ node_of_chunk g plan.now.lost }
    requires read { IsReadFor g plan.now.lost z }
    ensures len { length result.now ≡ g.width }
    ensures value { IsCoupled g plan.now.lost parts.now node z result.now }
{
    let w = g.w() as usize;
    let at = place_of(g, plan.column, z) as usize * w;
    match g.chunk_of_node(node) {
        Some(chunk) => match &parts[chunk as usize] {
            Some(bytes) => &bytes[at..at + w],
            None => &plan.zeros,
        },
        None => &plan.zeros,
    }
}

// Writes the uncoupled value of a node outside the lost node's column, whose partner stands in a layer that is read too.
fn uncouple_node(
    g: Geometry,
    parts: &[Option<Vec<u8>>],
    plan: &PlainRepairPlan,
    node: u32,
    z: u32,
    out: &mut [u8],
)
    requires plan { IsPlan g plan.now }
    requires parts { AreParts g plan.now.lost parts.now }
    requires node { node < node_count g }
    requires column { node / row_count g ≢ plan.now.column }
    requires read { IsReadFor g plan.now.lost z }
    requires out_len { length out.old ≡ g.width }
    ensures { IsUncoupled g plan.now.lost parts.now node z out.new }
{
    let own = piece(g, parts, plan, node, z);
    let partner = partner_of(g, node, z);
    if partner.node == node {
        out.copy_from_slice(own);
    } else {
        uncouple(own, piece(g, parts, plan, partner.node, partner.layer), out);
    }
}

// Writes the uncoupled values of the nodes outside the lost node's column.
fn uncouple_layer(
    g: Geometry,
    parts: &[Option<Vec<u8>>],
    plan: &PlainRepairPlan,
    z: u32,
    layer: &mut [u8],
)
    requires plan { IsPlan g plan.now }
    requires parts { AreParts g plan.now.lost parts.now }
    requires read { IsReadFor g plan.now.lost z }
    requires layer_len { length layer.old ≡ node_count g * g.width }
    ensures { HoldsOthers g plan.now.lost parts.now plan.now.erased.items z (node_count g) layer.new }
{
    let w = g.w() as usize;
    for node in 0..g.nodes() {
        if !plan.erased[node as usize] {
            let at = node as usize * w;
            uncouple_node(g, parts, plan, node, z, &mut layer[at..at + w]);
        }
    }
}

// Writes the uncoupled values of the lost node's column, with room for a layer and for its sums.
fn solve_column(
    g: Geometry,
    parts: &[Option<Vec<u8>>],
    plan: &PlainRepairPlan,
    z: u32,
    layer: &mut [u8],
    sums: &mut [u8],
    column: &mut [u8],
)
    requires plan { IsPlan g plan.now }
    requires parts { AreParts g plan.now.lost parts.now }
    requires read { IsReadFor g plan.now.lost z }
    requires layer_len { length layer.old ≡ node_count g * g.width }
    requires sums_len { length sums.old ≡ row_count g * g.width }
    requires column_len { length column.old ≡ row_count g * g.width }
    ensures { HoldsColumn g plan.now.lost parts.now z column.new }
{
    uncouple_layer(g, parts, plan, z, layer);
    syndromes(g, layer, &plan.erased, g.q(), sums);
    plan.solver.solve(g.w() as usize, sums, column);
}

// Writes the lost chunk's subchunk in the layer that has the digit `x` of its column and differs from layer `z` nowhere else, from the
// uncoupled value of row `x` of that column in layer `z`.
fn write_subchunk(
    g: Geometry,
    parts: &[Option<Vec<u8>>],
    plan: &PlainRepairPlan,
    z: u32,
    x: u32,
    own: &[u8],
    out: &mut [u8],
)
    requires plan { IsPlan g plan.now }
    requires parts { AreParts g plan.now.lost parts.now }
    requires read { IsReadFor g plan.now.lost z }
    requires row { x < row_count g }
    requires own_len { length own.now ≡ g.width }
    requires own { IsUncoupled g plan.now.lost parts.now (plan.now.column * row_count g + x) z own.now }
    requires out_len { length out.old ≡ g.width }
    ensures { IsCoupled g plan.now.lost parts.now (node_of_chunk g plan.now.lost) (with_digit g plan.now.lost z x) out.new }
{
    if x == plan.row {
        out.copy_from_slice(own);
    } else {
        // the lost node is the partner of the one in row x
        cross(own, piece(g, parts, plan, plan.column * g.q() + x, z), out);
    }
}

// Writes the lost chunk's subchunks in the layers that differ from layer `z` at most in the digit of its column.
fn write_row(
    g: Geometry,
    parts: &[Option<Vec<u8>>],
    plan: &PlainRepairPlan,
    z: u32,
    column: &[u8],
    chunk: &mut [u8],
)
    requires plan { IsPlan g plan.now }
    requires parts { AreParts g plan.now.lost parts.now }
    requires read { IsReadFor g plan.now.lost z }
    requires column_len { length column.now ≡ row_count g * g.width }
    requires column { HoldsColumn g plan.now.lost parts.now z column.now }
    requires chunk_len { length chunk.old ≡ chunk_length g }
    ensures written { HoldsRow g plan.now.lost parts.now z (row_count g) chunk.new }
    ensures kept { (n : ℕ) → HoldsSubchunk g plan.now.lost parts.now chunk.old n → HoldsSubchunk g plan.now.lost parts.now chunk.new n }
{
    let w = g.w() as usize;
    for x in 0..g.q() {
        let from = x as usize * w;
        let at = g.partner(x, plan.column, z).z as usize * w;
        write_subchunk(
            g,
            parts,
            plan,
            z,
            x,
            &column[from..from + w],
            &mut chunk[at..at + w],
        );
    }
}

// Writes the lost chunk, with room for a layer, for its sums and for a column.
fn write_chunk(
    g: Geometry,
    parts: &[Option<Vec<u8>>],
    plan: &PlainRepairPlan,
    layer: &mut [u8],
    sums: &mut [u8],
    column: &mut [u8],
    chunk: &mut [u8],
)
    requires plan { IsPlan g plan.now }
    requires parts { AreParts g plan.now.lost parts.now }
    requires layer_len { length layer.old ≡ node_count g * g.width }
    requires sums_len { length sums.old ≡ row_count g * g.width }
    requires column_len { length column.old ≡ row_count g * g.width }
    requires chunk_len { length chunk.old ≡ chunk_length g }
    ensures { IsRebuilt g plan.now.lost parts.now chunk.new }
{
    for z in &plan.layers {
        solve_column(g, parts, plan, *z, layer, sums, column);
        write_row(g, parts, plan, *z, column, chunk);
    }
}

// The same, with rooms that it allocates.
fn write_in_rooms(
    alloc: Global,
    g: Geometry,
    parts: &[Option<Vec<u8>>],
    plan: &PlainRepairPlan,
    chunk: &mut [u8],
) -> Result<(), AllocError>
    requires plan { IsPlan g plan.now }
    requires parts { AreParts g plan.now.lost parts.now }
    requires chunk_len { length chunk.old ≡ chunk_length g }
    ensures { OnOk result (IsRebuilt g plan.now.lost parts.now chunk.new) }
{
    let w = g.w() as usize;
    let mut layer = zeros(alloc, g.nodes() as usize * w)?;
    let mut sums = zeros(alloc, g.q() as usize * w)?;
    let mut column = zeros(alloc, g.q() as usize * w)?;
    write_chunk(g, parts, plan, &mut layer, &mut sums, &mut column, chunk);
    Ok(())
}

/// The lost chunk of the codeword whose other chunks have these parts, where one does.
///
/// `parts` has an entry for each chunk: `None` for the lost one, and for each other one its subchunks of the layers of
/// `g.repair_layers(alloc, lost)`, one after another: one in `m` of its bytes. Where no codeword has these parts, the answer is some bytes
/// of a chunk's length. The only error is want of memory.
pub fn rebuild(
    alloc: Global,
    g: Geometry,
    lost: u32,
    parts: &[Option<Vec<u8>>],
) -> Result<Vec<u8>, AllocError>
    requires { AreParts g lost parts.now }
    ensures { IfOk result (λ chunk. IsRebuilt g lost parts.now chunk.items) }
{
    let mut chunk = zeros(alloc, g.alpha() as usize * g.w() as usize)?;
    let plan = make_plan(alloc, g, lost)?;
    write_in_rooms(alloc, g, parts, &plan, &mut chunk)?;
    Ok(chunk)
}
