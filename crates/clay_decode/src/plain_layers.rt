//! The uncoupled values of the erased nodes, layer by layer.
ghost use Rattle.std.specs.Prelude.{◌≡◌, ℕ, ◌+◌, ◌*◌, ◌/◌, ◌%◌, ◌<◌, ◌≤◌, length, IfOk, slice_index, slice_index_or, slice_set, true, false, Contains};
ghost use Rattle.clay_grid.specs.Shape.{Shape, row_count, node_count, layer_count};
ghost use Rattle.clay_grid.specs.Layers.{layer_of};
ghost use Rattle.code_laws.specs.Solved.{IsCoupled, IsUncoupled, HoldsPresent, HoldsLayer};
ghost use Rattle.clay_decode.specs.Plan.{IsPlan, HasPieces, AreSolved, AreLowerSolved};

use crate::plain_plan::PlainDecodePlan;
use clay_encode::zeros;
use clay_grid::Geometry;
use clay_model::{partner_of, uncouple, uncouple_from};
use clay_scalar::syndromes;
use std::alloc::{AllocError, Global};

/// Subchunk `z` of a node that is not erased.
pub fn piece<'a>(
    g: Geometry,
    have: &'a [Option<Vec<u8>>],
    plan: &'a PlainDecodePlan,
    node: u32,
    z: u32,
) -> &'a [u8]
    requires plan { IsPlan g have.now plan.now }
    requires node { node < node_count g }
    requires there { slice_index_or plan.now.erased.items node false ≡ false }
    requires layer { z < layer_count g }
    ensures len { length result.now ≡ g.width }
    ensures value { IsCoupled g have.now node z result.now }
{
    let w = g.w() as usize;
    let at = z as usize * w;
    match g.chunk_of_node(node) {
        Some(chunk) => match &have[chunk as usize] {
            Some(bytes) => &bytes[at..at + w],
            None => &plan.zeros,
        },
        None => &plan.zeros,
    }
}

// The place of an erased node among them.
fn place_of(points: &[u8], node: u32) -> usize
    requires { Contains points.now node }
    ensures within { result < length points.now }
    ensures place { slice_index points.now result ≡ node }
{
    for (place, point) in points.iter().enumerate() {
        if u32::from(*point) == node {
            return place;
        }
    }
    unreachable!()
}

/// The uncoupled value of an erased node in a layer that is solved.
pub fn solved_piece<'a>(
    g: Geometry,
    have: &[Option<Vec<u8>>],
    plan: &PlainDecodePlan,
    solved: &'a [u8],
    node: u32,
    z: u32,
) -> &'a [u8]
    requires plan { IsPlan g have.now plan.now }
    requires solved_len { HasPieces g plan.now solved.now }
    requires node { node < node_count g }
    requires erased { slice_index_or plan.now.erased.items node false ≡ true }
    requires layer { z < layer_count g }
    requires holds { HoldsLayer g have.now plan.now.points.items z solved.now }
    ensures len { length result.now ≡ g.width }
    ensures value { IsUncoupled g have.now node z result.now }
{
    let w = g.w() as usize;
    let at = (z as usize * plan.points.len() + place_of(&plan.points, node)) * w;
    &solved[at..at + w]
}

// Writes the uncoupled value of a node that is not erased in layer `z`, where the layers of lower score are solved.
fn uncouple_node(
    g: Geometry,
    have: &[Option<Vec<u8>>],
    plan: &PlainDecodePlan,
    solved: &[u8],
    node: u32,
    z: u32,
    out: &mut [u8],
)
    requires plan { IsPlan g have.now plan.now }
    requires solved_len { HasPieces g plan.now solved.now }
    requires lower { AreLowerSolved g have.now plan.now z solved.now }
    requires node { node < node_count g }
    requires there { slice_index_or plan.now.erased.items node false ≡ false }
    requires layer { z < layer_count g }
    requires out_len { length out.old ≡ g.width }
    ensures { IsUncoupled g have.now node z out.new }
{
    let own = piece(g, have, plan, node, z);
    let partner = partner_of(g, node, z);
    if partner.node == node {
        out.copy_from_slice(own);
    } else if plan.erased[partner.node as usize] {
        // the partner's layer has a score one less
        uncouple_from(
            own,
            solved_piece(g, have, plan, solved, partner.node, partner.layer),
            out,
        );
    } else {
        uncouple(own, piece(g, have, plan, partner.node, partner.layer), out);
    }
}

// Writes the uncoupled values of the nodes that are not erased in layer `z`, where the layers of lower score are solved.
fn uncouple_layer(
    g: Geometry,
    have: &[Option<Vec<u8>>],
    plan: &PlainDecodePlan,
    solved: &[u8],
    z: u32,
    layer: &mut [u8],
)
    requires plan { IsPlan g have.now plan.now }
    requires solved_len { HasPieces g plan.now solved.now }
    requires lower { AreLowerSolved g have.now plan.now z solved.now }
    requires layer { z < layer_count g }
    requires layer_len { length layer.old ≡ node_count g * g.width }
    ensures { HoldsPresent g have.now plan.now.erased.items z (node_count g) layer.new }
{
    let w = g.w() as usize;
    for node in 0..g.nodes() {
        if !plan.erased[node as usize] {
            let at = node as usize * w;
            uncouple_node(g, have, plan, solved, node, z, &mut layer[at..at + w]);
        }
    }
}

// Writes the uncoupled values of the erased nodes in each layer, with room for one layer and for its sums.
fn solve_layers(
    g: Geometry,
    have: &[Option<Vec<u8>>],
    plan: &PlainDecodePlan,
    layer: &mut [u8],
    sums: &mut [u8],
    solved: &mut [u8],
)
    requires plan { IsPlan g have.now plan.now }
    requires layer_len { length layer.old ≡ node_count g * g.width }
    requires sums_len { length sums.old ≡ length plan.now.points.items * g.width }
    requires solved_len { HasPieces g plan.now solved.old }
    ensures { (n : ℕ) → n < layer_count g → HoldsLayer g have.now plan.now.points.items n solved.new }
{
    let w = g.w() as usize;
    let count = plan.points.len();
    let part = count * w;
    for z in &plan.layers {
        uncouple_layer(g, have, plan, solved, *z, layer);
        syndromes(g, layer, &plan.erased, count as u32, sums);
        let at = *z as usize * part;
        plan.solver.solve(w, sums, &mut solved[at..at + part]);
    }
}

/// The uncoupled values of the erased nodes: in each layer a piece for each of them.
pub fn solved_values(
    alloc: Global,
    g: Geometry,
    have: &[Option<Vec<u8>>],
    plan: &PlainDecodePlan,
) -> Result<Vec<u8>, AllocError>
    requires plan { IsPlan g have.now plan.now }
    ensures { IfOk result (λ v. AreSolved g have.now plan.now v.items) }
{
    if plan.points.is_empty() {
        return Ok(Vec::new(alloc));
    }
    let w = g.w() as usize;
    let part = plan.points.len() * w;
    let mut layer = zeros(alloc, g.nodes() as usize * w)?;
    let mut sums = zeros(alloc, part)?;
    let mut solved = zeros(alloc, g.alpha() as usize * part)?;
    solve_layers(g, have, plan, &mut layer, &mut sums, &mut solved);
    Ok(solved)
}
