//! The uncoupled values of the erased nodes, layer by layer.
ghost use Rattle.std.specs.Prelude.{◌≡◌, ℕ, ◌+◌, ◌*◌, ◌/◌, ◌%◌, ◌^◌, ◌<◌, ◌≤◌, length, IfOk, OnOk, slice_index, slice_index_or, true, false, Contains, ◌≢◌};
ghost use Rattle.clay_grid.specs.Shape.{node_count, layer_count};
ghost use Rattle.clay_grid.specs.Layers.{layer_of};
ghost use Rattle.clay_model.specs.Partners.{ArePartners};
ghost use Rattle.clay_aloof.specs.Known.{node_bytes, IsKnown};
ghost use Rattle.clay_aloof.specs.Ordered.{AreOrdered, IsPlanOf};
ghost use Rattle.clay_aloof.specs.Solved.{HasPlaces, IsPlan, IsIn, IsUncoupled, AddsNode, AddsLayer, HoldsRows, HoldsLayer, HoldsLower, AreSolved, HasNoneTwice};

use crate::known::{Known, piece};
use crate::partner_tables::Partners;
use clay_grid::Geometry;
use clay_kernels::{uncouple, uncouple_from, zeros};
use clay_model::Subchunk;
use generator_matrix::{Generator, generator_of};
use lane_repair::erased_points;
use std::alloc::{AllocError, Global};

/// What layers are solved with.
#[derive(Drop)]
pub struct Plan {
    /// For each node, whether it is erased.
    pub erased: Vec<bool>,
    /// The erased nodes, rising.
    pub points: Vec<u8>,
    /// The factors of every node in the values of the erased nodes.
    pub generator: Generator,
    /// The layers to solve, each after those that it needs.
    pub layers: Vec<u32>,
    /// For each of these layers its place among them.
    pub slots: Vec<u32>,
    /// The partners of all subchunks.
    pub partners: Partners,
}

/// For each layer its place among these, and 0 where it is none of them.
pub fn places_of(alloc: Global, g: Geometry, layers: &[u32]) -> Result<Vec<u32>, AllocError>
    requires few { length layers.now ≤ layer_count g }
    requires in_layers { (i : ℕ) → i < length layers.now → slice_index layers.now i < layer_count g }
    requires apart { HasNoneTwice layers.now }
    ensures len { IfOk result (λ v. length v.items ≡ layer_count g) }
    ensures places { IfOk result (λ v. HasPlaces layers.now (length layers.now) v.items) }
{
    let mut places = vec![in alloc; 0u32; g.alpha() as usize]?;
    write_places(layers, &mut places);
    Ok(places)
}

// Writes each layer's place among them.
fn write_places(layers: &[u32], places: &mut [u32])
    requires in_layers { (i : ℕ) → i < length layers.now → slice_index layers.now i < length places.old }
    requires apart { HasNoneTwice layers.now }
    requires zeros { (n : ℕ) → slice_index places.old n ≡ 0 }
    requires few { length layers.now < 2 ^ 32 }
    ensures { HasPlaces layers.now (length layers.now) places.new }
{
    for (i, z) in layers.iter().enumerate() {
        places[*z as usize] = i as u32;
    }
}

/// The plan that solves these nodes in these layers.
pub(crate) fn plan_of(
    alloc: Global,
    g: Geometry,
    erased: Vec<bool>,
    layers: Vec<u32>,
) -> Result<Plan, AllocError>
    requires { AreOrdered g erased.items layers.items }
    ensures { IfOk result (IsPlanOf g erased.items layers.items) }
{
    let points = erased_points(alloc, &erased)?;
    let slots = places_of(alloc, g, &layers)?;
    let generator = generator_of(alloc, g, &points)?;
    let partners = Partners::new(alloc, g)?;
    Ok(Plan {
        erased,
        points,
        generator,
        layers,
        slots,
        partners,
    })
}

/// The subchunk with which subchunk `z` of a node is coupled, which is that subchunk itself where it is not paired.
pub fn partner_of(g: Geometry, plan: &Plan, node: u32, z: u32) -> Subchunk
    requires plan { IsPlan g plan.now }
    requires node { node < node_count g }
    requires layer { z < layer_count g }
    ensures partners { ArePartners g node z result.node result.layer }
    ensures in_grid { result.node < node_count g }
    ensures in_layers { result.layer < layer_count g }
{
    plan.partners.of(node, z)
}

// The place of an erased node among them.
fn place_of(points: &[u8], node: u32) -> usize
    requires { Contains points.now node }
    ensures within { result < length points.now }
    ensures place { slice_index points.now result ≡ node }
{
    for (place, point) in points.iter().enumerate() {
        if u32::from(*point) == node {
            return place;
        }
    }
    unreachable!()
}

/// The uncoupled value of an erased node in a layer that is solved.
pub fn solved_piece<'a>(
    g: Geometry,
    plan: &Plan,
    known: &Known<'_>,
    solved: &'a [u8],
    node: u32,
    z: u32,
) -> &'a [u8]
    requires plan { IsPlan g plan.now }
    requires node { node < node_count g }
    requires erased { slice_index_or plan.now.erased.items node false ≡ true }
    requires layer { z < layer_count g }
    requires holds { HoldsLayer g plan.now (node_bytes g known.now) z solved.now }
    ensures len { length result.now ≡ g.width }
    ensures value { IsUncoupled g plan.now (node_bytes g known.now) node z result.now }
{
    let w = g.w() as usize;
    let slot = plan.slots[z as usize] as usize;
    let at = (slot * plan.points.len() + place_of(&plan.points, node)) * w;
    &solved[at..at + w]
}

// Writes the uncoupled value of a node that is not erased in layer `z`, where another node is its partner and the layers that go before it
// are solved.
fn uncouple_node(
    g: Geometry,
    plan: &Plan,
    known: &Known<'_>,
    solved: &[u8],
    node: u32,
    z: u32,
    partner: Subchunk,
    out: &mut [u8],
)
    requires plan { IsPlan g plan.now }
    requires known { IsKnown g known.now }
    requires lower { HoldsLower g plan.now (node_bytes g known.now) z solved.now }
    requires node { node < node_count g }
    requires there { slice_index_or plan.now.erased.items node false ≡ false }
    requires layer { z < layer_count g }
    requires listed { IsIn plan.now.layers.items z }
    requires partners { ArePartners g node z partner.node partner.layer }
    requires in_grid { partner.node < node_count g }
    requires in_layers { partner.layer < layer_count g }
    requires other { partner.node ≢ node }
    requires out_len { length out.old ≡ g.width }
    ensures { IsUncoupled g plan.now (node_bytes g known.now) node z out.new }
{
    let own = piece(g, known, node, z);
    if plan.erased[partner.node as usize] {
        // the partner's layer has a score one less
        uncouple_from(
            own,
            solved_piece(g, plan, known, solved, partner.node, partner.layer),
            out,
        );
    } else {
        uncouple(own, piece(g, known, partner.node, partner.layer), out);
    }
}

// Adds to the rows of the erased nodes what a node that is not erased adds in layer `z`, where the layers that go before it are solved, with
// room for its value.
fn add_node(
    g: Geometry,
    plan: &Plan,
    known: &Known<'_>,
    solved: &[u8],
    node: u32,
    z: u32,
    value: &mut [u8],
    rows: &mut [u8],
)
    requires plan { IsPlan g plan.now }
    requires known { IsKnown g known.now }
    requires lower { HoldsLower g plan.now (node_bytes g known.now) z solved.now }
    requires node { node < node_count g }
    requires there { slice_index_or plan.now.erased.items node false ≡ false }
    requires layer { z < layer_count g }
    requires listed { IsIn plan.now.layers.items z }
    requires value_len { length value.old ≡ g.width }
    requires rows_len { length rows.old ≡ length plan.now.points.items * g.width }
    ensures { AddsNode g plan.now (node_bytes g known.now) z node rows.old rows.new }
{
    let partner = partner_of(g, plan, node, z);
    if partner.node == node {
        let own = piece(g, known, node, z);
        plan.generator.add(node as usize, own, rows);
    } else {
        uncouple_node(g, plan, known, solved, node, z, partner, value);
        plan.generator.add(node as usize, value, rows);
    }
}

// Writes the uncoupled values of the erased nodes in layer `z`, a row for each, where the layers that go before it are solved, with room for
// the value of a node.
fn solve_layer(
    g: Geometry,
    plan: &Plan,
    known: &Known<'_>,
    solved: &[u8],
    z: u32,
    value: &mut [u8],
    rows: &mut [u8],
)
    requires plan { IsPlan g plan.now }
    requires known { IsKnown g known.now }
    requires lower { HoldsLower g plan.now (node_bytes g known.now) z solved.now }
    requires layer { z < layer_count g }
    requires listed { IsIn plan.now.layers.items z }
    requires value_len { length value.old ≡ g.width }
    requires rows_len { length rows.old ≡ length plan.now.points.items * g.width }
    ensures { HoldsRows g plan.now (node_bytes g known.now) z rows.new }
{
    rows.fill(0);
    for node in 0..g.nodes() {
        if !plan.erased[node as usize] {
            add_node(g, plan, known, solved, node, z, value, rows);
        }
    }
}

// Adds the uncoupled values of the erased nodes in layer `z` to those of the layers that go before it, with room for the value of a node.
fn add_layer(
    g: Geometry,
    plan: &Plan,
    known: &Known<'_>,
    z: u32,
    value: &mut [u8],
    solved: &mut Vec<u8>,
) -> Result<(), AllocError>
    requires plan { IsPlan g plan.now }
    requires known { IsKnown g known.now }
    requires lower { HoldsLower g plan.now (node_bytes g known.now) z solved.old.items }
    requires layer { z < layer_count g }
    requires listed { IsIn plan.now.layers.items z }
    requires value_len { length value.old ≡ g.width }
    ensures { OnOk result (AddsLayer g plan.now (node_bytes g known.now) z solved.old.items solved.new.items) }
{
    let start = solved.len();
    solved.resize(start + plan.points.len() * g.w() as usize, 0)?;
    let (lower, rows) = solved.split_at_mut(start);
    solve_layer(g, plan, known, lower, z, value, rows);
    Ok(())
}

// Adds the uncoupled values of the erased nodes in each of the plan's layers, with room for the value of a node.
fn add_layers(
    g: Geometry,
    plan: &Plan,
    known: &Known<'_>,
    value: &mut [u8],
    solved: &mut Vec<u8>,
) -> Result<(), AllocError>
    requires plan { IsPlan g plan.now }
    requires known { IsKnown g known.now }
    requires value_len { length value.old ≡ g.width }
    requires empty { length solved.old.items ≡ 0 }
    ensures { OnOk result (AreSolved g plan.now (node_bytes g known.now) solved.new.items) }
{
    for z in &plan.layers {
        add_layer(g, plan, known, *z, value, solved)?;
    }
    Ok(())
}

/// The uncoupled values of the erased nodes: in each of the plan's layers, in their order, a piece for each of them.
pub fn solved_values(
    alloc: Global,
    g: Geometry,
    plan: &Plan,
    known: &Known<'_>,
) -> Result<Vec<u8>, AllocError>
    requires plan { IsPlan g plan.now }
    requires known { IsKnown g known.now }
    ensures { IfOk result (λ v. AreSolved g plan.now (node_bytes g known.now) v.items) }
{
    let w = g.w() as usize;
    let mut value = zeros(alloc, w)?;
    let mut solved = Vec::with_capacity(alloc, plan.layers.len() * (plan.points.len() * w))?;
    add_layers(g, plan, known, &mut value, &mut solved)?;
    Ok(solved)
}
