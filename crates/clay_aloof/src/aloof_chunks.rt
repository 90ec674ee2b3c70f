//! The codeword of a stripe.
ghost use Rattle.std.specs.Prelude.{◌≡◌, ℕ, ◌+◌, ◌*◌, ◌/◌, ◌%◌, ◌<◌, ◌≤◌, length, IfOk, OnOk, OnErr, slice_index, slice_index_or, true, false, cond, nat_lt, not, Some, None};
ghost use Rattle.clay_field.specs.Coupling.{determinant_inverse};
ghost use Rattle.clay_grid.specs.Shape.{Shape, node_count, layer_count, chunk_length};
ghost use Rattle.clay_model.specs.Chunks.{contents};
ghost use Rattle.clay_model.specs.Erased.{erased_below};
ghost use Rattle.clay_aloof.specs.Shape.{AloofShape, all_chunks, rows_of, grid_of, stripe_bytes, node_of};
ghost use Rattle.clay_aloof.specs.Code.{Codes};
ghost use Rattle.clay_aloof.specs.Known.{node_bytes, IsKnown};
ghost use Rattle.clay_aloof.specs.Solved.{IsPlan, IsIn, IsCoupled, AreSolved, HoldsSubchunks};
ghost use Rattle.clay_aloof.specs.Recovered.{IsWholePlan};
ghost use Rattle.clay_aloof.specs.Encoded.{IsParityPlan, AreStripeTables, IsSpread, HoldsParity, chunks_in, chunks_of};

use crate::aloof_geometry::AloofGeometry;
use crate::known::{Known, Source, Tables, piece};
use crate::layer_solving::{Plan, partner_of, plan_of, solved_piece, solved_values};
use clay_grid::Geometry;
use clay_kernels::{Products, couple, fifths, uncouple, zeros};
use std::alloc::{AllocError, Global};

// For each node, whether a parity chunk stands for it: the last nodes.
fn parity_nodes(alloc: Global, g: AloofGeometry) -> Result<Vec<bool>, AllocError>
    ensures len { IfOk result (λ v. length v.items ≡ node_count (grid_of g)) }
    ensures value { IfOk result (λ v. (i : ℕ) → i < node_count (grid_of g) →
        slice_index_or v.items i false ≡ not (nat_lt i (node_of g g.data_count))) }
    ensures count { IfOk result (λ v. length (erased_below v.items (node_count (grid_of g))) ≡ g.parity_count) }
{
    let k = g.k();
    let first = g.node_of_chunk(k);
    let grid = g.grid();
    let mut nodes = Vec::new(alloc);
    for node in 0..grid.nodes() {
        nodes.push(node >= first)?;
    }
    Ok(nodes)
}

/// The plan that solves these nodes in all layers, by rising score.
pub fn whole_plan(alloc: Global, g: AloofGeometry, erased: Vec<bool>) -> Result<Plan, AllocError>
    requires nodes { length erased.items ≡ node_count (grid_of g) }
    requires few { length (erased_below erased.items (node_count (grid_of g))) ≤ g.parity_count }
    ensures { IfOk result (IsWholePlan g erased.items) }
{
    let grid = g.grid();
    let layers = grid.layers_by_score(alloc, &erased)?;
    plan_of(alloc, grid, erased, layers)
}

// The plan of an encoding, which erases the parity chunks. They may stand in several columns, so the layers are solved by rising score.
fn parity_plan(alloc: Global, g: AloofGeometry) -> Result<Plan, AllocError>
    ensures { IfOk result (IsParityPlan g) }
{
    let erased = parity_nodes(alloc, g)?;
    let plan = whole_plan(alloc, g, erased)?;
    Ok(plan)
}

// The chunk of a node, where that is a data chunk.
fn data_chunk(g: AloofGeometry, node: u32) -> Option<u32>
    ensures { result ≡ cond (nat_lt node g.data_count) (Some node) None }
{
    if node < g.k() { Some(node) } else { None }
}

// For each node its chunk, where that is a data chunk.
fn data_chunks(alloc: Global, g: AloofGeometry) -> Result<Vec<Option<u32>>, AllocError>
    ensures len { IfOk result (λ v. length v.items ≡ node_count (grid_of g)) }
    ensures value { IfOk result (λ v. (i : ℕ) → i < node_count (grid_of g) →
        slice_index_or v.items i None ≡ cond (nat_lt i g.data_count) (Some i) None) }
{
    let grid = g.grid();
    let mut chunks = Vec::new(alloc);
    for node in 0..grid.nodes() {
        chunks.push(data_chunk(g, node))?;
    }
    Ok(chunks)
}

/// The numbers below `count`.
pub fn numbers(alloc: Global, count: u32) -> Result<Vec<u32>, AllocError>
    ensures len { IfOk result (λ v. length v.items ≡ count) }
    ensures value { IfOk result (λ v. (i : ℕ) → i < count → slice_index v.items i ≡ i) }
{
    let mut numbers = Vec::new(alloc);
    for number in 0..count {
        numbers.push(number)?;
    }
    Ok(numbers)
}

// For each node its chunk, where that is a data chunk, and each layer at its own place.
fn stripe_tables(alloc: Global, g: AloofGeometry) -> Result<Tables, AllocError>
    ensures { IfOk result (AreStripeTables g) }
{
    let grid = g.grid();
    let chunks = data_chunks(alloc, g)?;
    let places = numbers(alloc, grid.alpha())?;
    let zeros = zeros(alloc, grid.w() as usize)?;
    Ok(Tables {
        chunks,
        places,
        zeros,
    })
}

// What a stripe tells of the nodes: whole data chunks.
fn known_stripe<'a>(g: AloofGeometry, stripe: &'a [u8], tables: &'a Tables) -> Known<'a>
    requires stripe { length stripe.now ≡ stripe_bytes g }
    requires tables { AreStripeTables g tables.now }
    ensures known { IsKnown (grid_of g) result }
    ensures spread { IsSpread g stripe.now (node_bytes (grid_of g) result) }
{
    Known {
        source: Source::Whole(stripe),
        tables,
    }
}

// Writes subchunk `z` of an erased node.
fn couple_piece(
    g: Geometry,
    plan: &Plan,
    fifths: &Products,
    known: &Known<'_>,
    solved: &[u8],
    node: u32,
    z: u32,
    out: &mut [u8],
)
    requires plan { IsPlan g plan.now }
    requires fifths { fifths.now ≡ determinant_inverse }
    requires all { (n : ℕ) → n < layer_count g → IsIn plan.now.layers.items n }
    requires known { IsKnown g known.now }
    requires solved { AreSolved g plan.now (node_bytes g known.now) solved.now }
    requires node { node < node_count g }
    requires erased { slice_index_or plan.now.erased.items node false ≡ true }
    requires layer { z < layer_count g }
    requires out_len { length out.old ≡ g.width }
    ensures { IsCoupled g plan.now (node_bytes g known.now) node z out.new }
{
    let own = solved_piece(g, plan, known, solved, node, z);
    let partner = partner_of(g, plan, node, z);
    if partner.node == node {
        out.copy_from_slice(own);
    } else if plan.erased[partner.node as usize] {
        couple(
            fifths,
            own,
            solved_piece(g, plan, known, solved, partner.node, partner.layer),
            out,
        );
    } else {
        // the uncoupled value is the coupled one plus twice the partner's, so the coupled one is the uncoupled one plus the same
        uncouple(own, piece(g, known, partner.node, partner.layer), out);
    }
}

/// Writes the chunk of an erased node.
pub fn couple_chunk(
    g: Geometry,
    plan: &Plan,
    known: &Known<'_>,
    solved: &[u8],
    node: u32,
    chunk: &mut [u8],
)
    requires plan { IsPlan g plan.now }
    requires all { (n : ℕ) → n < layer_count g → IsIn plan.now.layers.items n }
    requires known { IsKnown g known.now }
    requires solved { AreSolved g plan.now (node_bytes g known.now) solved.now }
    requires node { node < node_count g }
    requires erased { slice_index_or plan.now.erased.items node false ≡ true }
    requires chunk_len { length chunk.old ≡ chunk_length g }
    ensures { HoldsSubchunks g plan.now (node_bytes g known.now) node (layer_count g) chunk.new }
{
    let w = g.w() as usize;
    let fifths = fifths();
    for z in 0..g.alpha() {
        let at = z as usize * w;
        let out = &mut chunk[at..at + w];
        couple_piece(g, plan, &fifths, known, solved, node, z, out);
    }
}

// Writes the parity chunks, one behind another, from the layers that are solved.
fn couple_chunks(g: AloofGeometry, plan: &Plan, known: &Known<'_>, solved: &[u8], parity: &mut [u8])
    requires plan { IsParityPlan g plan.now }
    requires known { IsKnown (grid_of g) known.now }
    requires solved { AreSolved (grid_of g) plan.now (node_bytes (grid_of g) known.now) solved.now }
    requires parity { length parity.old ≡ g.parity_count * chunk_length (grid_of g) }
    ensures { HoldsParity g plan.now (node_bytes (grid_of g) known.now) g.parity_count parity.new }
{
    let len = g.chunk_len() as usize;
    for place in 0..g.m() {
        let at = place as usize * len;
        let out = &mut parity[at..at + len];
        couple_parity(g, plan, known, solved, g.k() + place, out);
    }
}

// Writes a parity chunk.
fn couple_parity(
    g: AloofGeometry,
    plan: &Plan,
    known: &Known<'_>,
    solved: &[u8],
    c: u32,
    chunk: &mut [u8],
)
    requires plan { IsParityPlan g plan.now }
    requires known { IsKnown (grid_of g) known.now }
    requires solved { AreSolved (grid_of g) plan.now (node_bytes (grid_of g) known.now) solved.now }
    requires parity { g.data_count ≤ c }
    requires chunk { c < all_chunks g }
    requires chunk_len { length chunk.old ≡ chunk_length (grid_of g) }
    ensures { HoldsSubchunks (grid_of g) plan.now (node_bytes (grid_of g) known.now) (node_of g c) (layer_count (grid_of g)) chunk.new }
{
    let node = g.node_of_chunk(c);
    couple_chunk(g.grid(), plan, known, solved, node, chunk);
}

// Writes the parity chunks by their plan.
fn parity_by(
    alloc: Global,
    g: AloofGeometry,
    stripe: &[u8],
    plan: &Plan,
    parity: &mut [u8],
) -> Result<(), AllocError>
    requires stripe { length stripe.now ≡ stripe_bytes g }
    requires plan { IsParityPlan g plan.now }
    requires parity { length parity.old ≡ g.parity_count * chunk_length (grid_of g) }
    ensures parity { OnOk result (Codes g stripe.now (chunks_of g stripe.now parity.new)) }
    ensures kept { OnErr result (parity.new ≡ parity.old) }
{
    let tables = stripe_tables(alloc, g)?;
    let known = known_stripe(g, stripe, &tables);
    let solved = solved_values(alloc, g.grid(), plan, &known)?;
    couple_chunks(g, plan, &known, &solved, parity);
    Ok(())
}

/// Writes the parity chunks of a stripe's codeword, one behind another. `parity` has room for just them; what it held before doesn't matter,
/// and it stays as it is where memory is wanting.
///
/// It erases the parity chunks and solves the layers by rising score.
pub fn parity_into(
    alloc: Global,
    g: AloofGeometry,
    stripe: &[u8],
    parity: &mut [u8],
) -> Result<(), AllocError>
    requires stripe { length stripe.now ≡ stripe_bytes g }
    requires parity { length parity.old ≡ g.parity_count * chunk_length (grid_of g) }
    ensures parity { OnOk result (Codes g stripe.now (chunks_of g stripe.now parity.new)) }
    ensures kept { OnErr result (parity.new ≡ parity.old) }
{
    let plan = parity_plan(alloc, g)?;
    parity_by(alloc, g, stripe, &plan, parity)
}

// Copies of the first `count` chunks of `len` bytes that stand one behind another.
fn split(alloc: Global, count: u32, len: usize, bytes: &[u8]) -> Result<Vec<Vec<u8>>, AllocError>
    requires { length bytes.now ≡ count * len }
    ensures { IfOk result (λ v. contents v.items ≡ chunks_in count len bytes.now) }
{
    let mut chunks = Vec::with_capacity(alloc, count as usize)?;
    for c in 0..count as usize {
        let at = c * len;
        chunks.push(Vec::from_slice(alloc, &bytes[at..at + len])?)?;
    }
    Ok(chunks)
}

/// The chunks of a stripe's codeword: `k` data chunks, which joined are the stripe, then `m` parity chunks. The only error is want of memory.
pub fn encode(alloc: Global, g: AloofGeometry, stripe: &[u8]) -> Result<Vec<Vec<u8>>, AllocError>
    requires { length stripe.now ≡ stripe_bytes g }
    ensures { IfOk result (λ chunks. Codes g stripe.now (contents chunks.items)) }
{
    let len = g.chunk_len() as usize;
    let mut parity = zeros(alloc, g.m() as usize * len)?;
    parity_into(alloc, g, stripe, &mut parity)?;
    let mut chunks = split(alloc, g.k(), len, stripe)?;
    let mut others = split(alloc, g.m(), len, &parity)?;
    chunks.append(&mut others)?;
    Ok(chunks)
}
