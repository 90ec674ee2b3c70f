//! The chunks, from the values that are found.
ghost use Rattle.std.specs.Prelude.{◌≡◌, ◌+◌, ◌*◌, ◌<◌, ◌≤◌, ◌↔◌, length, IfOk, IfSome, IsErrOf, All, slice_index_or, true, false, count_by, is_none, None, Some};
ghost use Rattle.clay_grid.specs.Shape.{Shape, chunk_count, node_count, layer_count, chunk_length, node_of_chunk};
ghost use Rattle.clay_model.specs.Code.{AgreesWith};
ghost use Rattle.clay_model.specs.Chunks.{contents};
ghost use Rattle.clay_model.specs.Left.{parts, AreLong, AreLeft, AreTooFew, IsRecoveredChunk, AreRecovered};
ghost use Rattle.code_laws.specs.Solved.{IsCoupled, HoldsSubchunks};
ghost use Rattle.clay_decode.specs.Plan.{IsPlan, AreSolved};

use crate::plain_layers::{piece, solved_piece, solved_values};
use crate::plain_plan::{PlainDecodePlan, make_plan};
use clay_encode::zeros;
use clay_grid::Geometry;
use clay_model::{DecodeFault, couple, partner_of, uncouple};
use std::alloc::{AllocError, Global};

// Writes subchunk `z` of an erased node.
fn couple_piece(
    g: Geometry,
    have: &[Option<Vec<u8>>],
    plan: &PlainDecodePlan,
    solved: &[u8],
    node: u32,
    z: u32,
    out: &mut [u8],
)
    requires plan { IsPlan g have.now plan.now }
    requires solved { AreSolved g have.now plan.now solved.now }
    requires node { node < node_count g }
    requires erased { slice_index_or plan.now.erased.items node false ≡ true }
    requires layer { z < layer_count g }
    requires out_len { length out.old ≡ g.width }
    ensures { IsCoupled g have.now node z out.new }
{
    let own = solved_piece(g, have, plan, solved, node, z);
    let partner = partner_of(g, node, z);
    if partner.node == node {
        out.copy_from_slice(own);
    } else if plan.erased[partner.node as usize] {
        couple(
            own,
            solved_piece(g, have, plan, solved, partner.node, partner.layer),
            out,
        );
    } else {
        // the uncoupled value is the coupled one plus twice the partner's, so the coupled one is the uncoupled one plus the same
        uncouple(own, piece(g, have, plan, partner.node, partner.layer), out);
    }
}

// Writes the chunk of an erased node.
fn couple_chunk(
    g: Geometry,
    have: &[Option<Vec<u8>>],
    plan: &PlainDecodePlan,
    solved: &[u8],
    node: u32,
    chunk: &mut [u8],
)
    requires plan { IsPlan g have.now plan.now }
    requires solved { AreSolved g have.now plan.now solved.now }
    requires node { node < node_count g }
    requires erased { slice_index_or plan.now.erased.items node false ≡ true }
    requires chunk_len { length chunk.old ≡ chunk_length g }
    ensures { HoldsSubchunks g have.now node (layer_count g) chunk.new }
{
    let w = g.w() as usize;
    for z in 0..g.alpha() {
        let at = z as usize * w;
        couple_piece(g, have, plan, solved, node, z, &mut chunk[at..at + w]);
    }
}

// A chunk that is missing.
fn missing_chunk(
    alloc: Global,
    g: Geometry,
    have: &[Option<Vec<u8>>],
    plan: &PlainDecodePlan,
    solved: &[u8],
    c: u32,
) -> Result<Vec<u8>, AllocError>
    requires plan { IsPlan g have.now plan.now }
    requires solved { AreSolved g have.now plan.now solved.now }
    requires chunk { c < chunk_count g }
    requires missing { slice_index_or have.now c None ≡ None }
    ensures len { IfOk result (λ v. length v.items ≡ chunk_length g) }
    ensures value { IfOk result (λ v. IsRecoveredChunk g have.now c v.items) }
{
    let node = g.node_of_chunk(c);
    let mut chunk = zeros(alloc, g.alpha() as usize * g.w() as usize)?;
    couple_chunk(g, have, plan, solved, node, &mut chunk);
    Ok(chunk)
}

// A chunk, which is copied where it is there.
fn chunk(
    alloc: Global,
    g: Geometry,
    have: &[Option<Vec<u8>>],
    plan: &PlainDecodePlan,
    solved: &[u8],
    c: u32,
) -> Result<Vec<u8>, AllocError>
    requires plan { IsPlan g have.now plan.now }
    requires solved { AreSolved g have.now plan.now solved.now }
    requires chunk { c < chunk_count g }
    ensures len { IfOk result (λ v. length v.items ≡ chunk_length g) }
    ensures kept { IfOk result (λ v. IfSome (slice_index_or have.now c None) (λ w. v.items ≡ w.items)) }
    ensures value { IfOk result (λ v. IsRecoveredChunk g have.now c v.items) }
{
    match &have[c as usize] {
        Some(bytes) => bytes.clone(),
        None => missing_chunk(alloc, g, have, plan, solved, c),
    }
}

// All chunks, from the values of the erased nodes.
fn all_chunks(
    alloc: Global,
    g: Geometry,
    have: &[Option<Vec<u8>>],
    plan: &PlainDecodePlan,
    solved: &[u8],
) -> Result<Vec<Vec<u8>>, AllocError>
    requires plan { IsPlan g have.now plan.now }
    requires solved { AreSolved g have.now plan.now solved.now }
    ensures kept { IfOk result (λ chunks. AgreesWith (parts have.now) (contents chunks.items)) }
    ensures recovered { IfOk result (λ chunks. AreRecovered g have.now (contents chunks.items)) }
{
    let mut chunks = Vec::with_capacity(alloc, g.n() as usize)?;
    for c in 0..g.n() {
        chunks.push(chunk(alloc, g, have, plan, solved, c)?)?;
    }
    Ok(chunks)
}

/// The chunks, of which no more are missing than there are parity chunks.
pub fn recover(
    alloc: Global,
    g: Geometry,
    have: &[Option<Vec<u8>>],
) -> Result<Vec<Vec<u8>>, AllocError>
    requires { AreLeft g have.now }
    ensures kept { IfOk result (λ chunks. AgreesWith (parts have.now) (contents chunks.items)) }
    ensures recovered { IfOk result (λ chunks. AreRecovered g have.now (contents chunks.items)) }
{
    let plan = make_plan(alloc, g, have)?;
    let solved = solved_values(alloc, g, have, &plan)?;
    all_chunks(alloc, g, have, &plan, &solved)
}

/// The number of chunks that are missing.
pub fn missing_count(have: &[Option<Vec<u8>>]) -> usize
    ensures { result ≡ count_by is_none have.now }
{
    have.iter().filter(|chunk| chunk.is_none()).count()
}

/// The chunks of the codeword that agrees with the chunks that are there, where one does. The chunks that are there stay as they are in
/// any case.
///
/// `have` has an entry for each chunk, `None` for a missing one. Where no codeword agrees, the missing ones are some bytes:
/// `decode_checked` tells.
pub fn decode(
    alloc: Global,
    g: Geometry,
    have: &[Option<Vec<u8>>],
) -> Result<Vec<Vec<u8>>, DecodeFault>
    requires count { length have.now ≡ chunk_count g }
    requires lengths { AreLong (chunk_length g) have.now }
    ensures too_few { IsErrOf result DecodeFault.TooFew ↔ AreTooFew g have.now }
    ensures kept { IfOk result (λ chunks. AgreesWith (parts have.now) (contents chunks.items)) }
    ensures recovered { IfOk result (λ chunks. AreRecovered g have.now (contents chunks.items)) }
{
    if missing_count(have) > g.m() as usize {
        return Err(DecodeFault::TooFew);
    }
    Ok(recover(alloc, g, have)?)
}
