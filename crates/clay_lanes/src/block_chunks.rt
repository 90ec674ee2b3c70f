//! The missing chunks, a block of bytes of each subchunk after another.
ghost use Rattle.std.specs.Prelude.{◌≡◌, ℕ, ◌+◌, ◌*◌, ◌<◌, ◌≤◌, ◌↔◌, length, min, IfOk, OnOk, IsErrOf, All, get_or, slice_index_or, true, false, count_by, is_none, None};
ghost use Rattle.clay_grid.specs.Shape.{chunk_count, node_count, layer_count, chunk_length};
ghost use Rattle.clay_model.specs.Code.{AgreesWith};
ghost use Rattle.clay_model.specs.Chunks.{contents};
ghost use Rattle.clay_model.specs.Left.{parts, AreLong, AreTooFew};
ghost use Rattle.clay_model.specs.Left.{AreLeft, AreRecovered};
ghost use Rattle.lane_repair.specs.Views.{pieces_of};
ghost use Rattle.clay_lanes.specs.Recovered.{IsLanePlan, HoldsByteOf, KeepsBytes, HoldsLayersOf, HaveLength, missing_of, AreMissing};
ghost use Rattle.clay_lanes.specs.Blocks.{IsBlock, rows_length, solved_length, row_bytes, solved_bytes, IsCoupledIn, HoldsLayersIn, HoldsChunkIn, KeepsBytesIn, HoldsChunksIn, KeepsChunksIn};

use crate::block::{Block, Rooms};
use crate::recovery_plan::{DecodePlan, make_plan};
use clay_grid::Geometry;
use clay_kernels::{BLOCK, couple, uncouple, zeros};
use clay_model::{DecodeFault, partner_of};
use lane_repair::ChunkView;
use std::alloc::{AllocError, Global};

impl<'a> Block<'a> {
    // Writes the block's bytes of subchunk `z` of an erased node.
    fn couple_piece(&self, solved: &[u8], node: u32, z: u32, out: &mut [u8])
        requires block { IsBlock self.now }
        requires solved_len { length solved.now ≡ solved_length self.now }
        requires holds { HoldsLayersIn self.now solved.now }
        requires node { node < node_count self.now.g }
        requires erased { slice_index_or self.now.plan.now.erased.items node false ≡ true }
        requires layer { z < layer_count self.now.g }
        requires out_len { length out.old ≡ self.now.len }
        ensures { IsCoupledIn self.now node z out.new }
    {
        let own = self.solved_piece(solved, node, z);
        let partner = partner_of(self.g, node, z);
        if partner.node == node {
            out.copy_from_slice(own);
        } else if self.plan.erased[partner.node as usize] {
            let theirs = self.solved_piece(solved, partner.node, partner.layer);
            couple(&self.plan.fifths, own, theirs, out);
        } else {
            // the uncoupled value is the coupled one plus twice the partner's, so the coupled one is the uncoupled one plus the same
            uncouple(own, self.piece(partner.node, partner.layer), out);
        }
    }

    /// Writes the block's bytes of each subchunk of a missing chunk.
    pub fn couple_chunk(&self, solved: &[u8], c: u32, chunk: &mut [u8])
        requires block { IsBlock self.now }
        requires solved_len { length solved.now ≡ solved_length self.now }
        requires holds { HoldsLayersIn self.now solved.now }
        requires chunk { c < chunk_count self.now.g }
        requires missing { get_or (pieces_of self.now.have) c None ≡ None }
        requires chunk_len { length chunk.old ≡ chunk_length self.now.g }
        ensures written { HoldsChunkIn self.now c chunk.new }
        ensures kept { KeepsBytesIn self.now c chunk.old chunk.new }
    {
        let node = self.g.node_of_chunk(c);
        let w = self.g.w() as usize;
        for z in 0..self.g.alpha() {
            let start = z as usize * w + self.at;
            let out = &mut chunk[start..start + self.len];
            self.couple_piece(solved, node, z, out);
        }
    }

    // Writes the block's bytes of each subchunk of the missing chunks.
    fn couple_chunks(&self, solved: &[u8], lost: &[u32], chunks: &mut [Vec<u8>])
        requires block { IsBlock self.now }
        requires solved_len { length solved.now ≡ solved_length self.now }
        requires holds { HoldsLayersIn self.now solved.now }
        requires lost { lost.now ≡ missing_of (pieces_of self.now.have) }
        requires chunk_count { length chunks.old ≡ length lost.now }
        requires chunk_len { HaveLength (length chunks.old) (chunk_length self.now.g) (contents chunks.old) }
        ensures chunk_len { HaveLength (length chunks.old) (chunk_length self.now.g) (contents chunks.new) }
        ensures written { HoldsChunksIn self.now lost.now (contents chunks.new) }
        ensures kept { KeepsChunksIn self.now lost.now (contents chunks.old) (contents chunks.new) }
    {
        for (i, c) in lost.iter().enumerate() {
            self.couple_chunk(solved, *c, &mut chunks[i]);
        }
    }

    // Writes the block's bytes of each subchunk of the missing chunks, with room for one node's values, for the erased nodes' in one layer,
    // and for those in all layers.
    fn recover(
        &self,
        lost: &[u32],
        values: &mut [u8],
        rows: &mut [u8],
        solved: &mut [u8],
        chunks: &mut [Vec<u8>],
    )
        requires block { IsBlock self.now }
        requires values_len { length values.old ≡ self.now.len }
        requires rows_len { length rows.old ≡ rows_length self.now }
        requires solved_len { length solved.old ≡ solved_length self.now }
        requires lost { lost.now ≡ missing_of (pieces_of self.now.have) }
        requires chunk_count { length chunks.old ≡ length lost.now }
        requires chunk_len { HaveLength (length chunks.old) (chunk_length self.now.g) (contents chunks.old) }
        ensures chunk_len { HaveLength (length chunks.old) (chunk_length self.now.g) (contents chunks.new) }
        ensures written { HoldsChunksIn self.now lost.now (contents chunks.new) }
        ensures kept { KeepsChunksIn self.now lost.now (contents chunks.old) (contents chunks.new) }
    {
        self.solve(values, rows, solved);
        self.couple_chunks(solved, lost, chunks);
    }

    // The same, by parts of at most 4096 positions one after another, with room for one of these.
    fn recover_parts(
        &self,
        lost: &[u32],
        values: &mut [u8],
        rows: &mut [u8],
        solved: &mut [u8],
        chunks: &mut [Vec<u8>],
    )
        requires block { IsBlock self.now }
        requires values_len { length values.old ≡ min self.now.len 4096 }
        requires rows_len { length rows.old ≡ row_bytes self.now (min self.now.len 4096) }
        requires solved_len { length solved.old ≡ solved_bytes self.now (min self.now.len 4096) }
        requires lost { lost.now ≡ missing_of (pieces_of self.now.have) }
        requires chunk_count { length chunks.old ≡ length lost.now }
        requires chunk_len { HaveLength (length chunks.old) (chunk_length self.now.g) (contents chunks.old) }
        ensures chunk_len { HaveLength (length chunks.old) (chunk_length self.now.g) (contents chunks.new) }
        ensures written { HoldsChunksIn self.now lost.now (contents chunks.new) }
    {
        let layers = self.g.alpha() as usize;
        let mut from = 0;
        while from < self.len {
            let len = BLOCK.min(self.len - from);
            let part = self.plan.points.len() * len;
            let block = Block {
                g: self.g,
                have: self.have,
                plan: self.plan,
                at: self.at + from,
                len,
            };
            block.recover(
                lost,
                &mut values[..len],
                &mut rows[..part],
                &mut solved[..layers * part],
                chunks,
            );
            from += len;
        }
    }

    // The same, with rooms that it allocates.
    fn recover_in_rooms(
        &self,
        alloc: Global,
        lost: &[u32],
        chunks: &mut [Vec<u8>],
    ) -> Result<(), AllocError>
        requires block { IsBlock self.now }
        requires lost { lost.now ≡ missing_of (pieces_of self.now.have) }
        requires chunk_count { length chunks.old ≡ length lost.now }
        requires chunk_len { HaveLength (length chunks.old) (chunk_length self.now.g) (contents chunks.old) }
        ensures chunk_len { OnOk result (HaveLength (length chunks.old) (chunk_length self.now.g) (contents chunks.new)) }
        ensures written { OnOk result (HoldsChunksIn self.now lost.now (contents chunks.new)) }
    {
        let mut rooms = Rooms::new(alloc, self.g, self.plan, BLOCK.min(self.len))?;
        self.recover_parts(
            lost,
            &mut rooms.values,
            &mut rooms.rows,
            &mut rooms.solved,
            chunks,
        );
        Ok(())
    }
}

/// Writes the bytes from `at` on of each subchunk of a missing chunk, as many as `len`.
pub fn couple_chunk(
    g: Geometry,
    have: &[Option<Vec<u8>>],
    plan: &DecodePlan,
    solved: &[u8],
    c: u32,
    at: usize,
    len: usize,
    chunk: &mut [u8],
)
    requires plan { IsLanePlan g have.now plan.now }
    requires solved_len { length solved.now ≡ layer_count g * (length plan.now.points.items * len) }
    requires holds { HoldsLayersOf g have.now plan.now at len solved.now }
    requires chunk { c < chunk_count g }
    requires missing { slice_index_or have.now c None ≡ None }
    requires within { at + len ≤ g.width }
    requires chunk_len { length chunk.old ≡ chunk_length g }
    ensures written { (z b : ℕ) → z < layer_count g → b < len →
        HoldsByteOf g have.now c chunk.new (z * g.width + (at + b)) }
    ensures kept { KeepsBytes g have.now c chunk.old chunk.new }
{
    let block = Block {
        g,
        have: ChunkView::Apart(have),
        plan,
        at,
        len,
    };
    block.couple_chunk(solved, c, chunk);
}

// The numbers of the missing chunks, rising.
fn missing_numbers(alloc: Global, have: &[Option<Vec<u8>>]) -> Result<Vec<u32>, AllocError>
    requires { length have.now ≤ 256 }
    ensures { IfOk result (λ v. v.items ≡ missing_of have.now) }
{
    let mut numbers = Vec::new(alloc);
    for (c, part) in have.iter().enumerate() {
        if part.is_none() {
            numbers.push(c as u32)?;
        }
    }
    Ok(numbers)
}

// As many chunks of `len` zeros.
fn zero_chunks(alloc: Global, count: usize, len: usize) -> Result<Vec<Vec<u8>>, AllocError>
    ensures count { IfOk result (λ v. length v.items ≡ count) }
    ensures lengths { IfOk result (λ v. HaveLength count len (contents v.items)) }
{
    let mut chunks = Vec::with_capacity(alloc, count)?;
    for _ in 0..count {
        chunks.push(zeros(alloc, len)?)?;
    }
    Ok(chunks)
}

// Writes the missing chunks, which are no more than there are parity chunks. `lost` has their numbers.
fn write_missing(
    alloc: Global,
    g: Geometry,
    have: &[Option<Vec<u8>>],
    lost: &[u32],
    chunks: &mut [Vec<u8>],
) -> Result<(), AllocError>
    requires count { length have.now ≡ chunk_count g }
    requires lengths { AreLong (chunk_length g) have.now }
    requires few { count_by is_none have.now ≤ g.parity_count }
    requires lost { lost.now ≡ missing_of have.now }
    requires chunk_count { length chunks.old ≡ length lost.now }
    requires chunk_len { HaveLength (length chunks.old) (chunk_length g) (contents chunks.old) }
    ensures { OnOk result (AreMissing g have.now (contents chunks.new)) }
{
    let plan = make_plan(alloc, g, have)?;
    let block = Block {
        g,
        have: ChunkView::Apart(have),
        plan: &plan,
        at: 0,
        len: g.w() as usize,
    };
    block.recover_in_rooms(alloc, lost, chunks)
}

// The missing chunks, which are no more than there are parity chunks.
fn recover_missing(
    alloc: Global,
    g: Geometry,
    have: &[Option<Vec<u8>>],
) -> Result<Vec<Vec<u8>>, AllocError>
    requires count { length have.now ≡ chunk_count g }
    requires lengths { AreLong (chunk_length g) have.now }
    requires few { count_by is_none have.now ≤ g.parity_count }
    ensures { IfOk result (λ chunks. AreMissing g have.now (contents chunks.items)) }
{
    let lost = missing_numbers(alloc, have)?;
    if lost.is_empty() {
        return Ok(Vec::new(alloc));
    }
    let mut chunks = zero_chunks(alloc, lost.len(), g.chunk_len() as usize)?;
    write_missing(alloc, g, have, &lost, &mut chunks)?;
    Ok(chunks)
}

/// The number of chunks that are missing.
pub fn missing_count(have: &[Option<Vec<u8>>]) -> usize
    ensures { result ≡ count_by is_none have.now }
{
    have.iter().filter(|chunk| chunk.is_none()).count()
}

/// The missing chunks, by rising number, of the codeword that agrees with the chunks that are there, where one does.
///
/// `have` has an entry for each chunk, `None` for a missing one. Where no codeword agrees, the answer is some bytes. Nothing that is there
/// is copied.
pub fn missing(
    alloc: Global,
    g: Geometry,
    have: &[Option<Vec<u8>>],
) -> Result<Vec<Vec<u8>>, DecodeFault>
    requires count { length have.now ≡ chunk_count g }
    requires lengths { AreLong (chunk_length g) have.now }
    ensures too_few { IsErrOf result DecodeFault.TooFew ↔ AreTooFew g have.now }
    ensures chunks { IfOk result (λ chunks. AreMissing g have.now (contents chunks.items)) }
{
    if missing_count(have) > g.m() as usize {
        return Err(DecodeFault::TooFew);
    }
    Ok(recover_missing(alloc, g, have)?)
}

// All chunks, from the missing ones by rising number: a copy of each that is there goes between them.
fn with_present(
    alloc: Global,
    g: Geometry,
    have: &[Option<Vec<u8>>],
    missing: Vec<Vec<u8>>,
) -> Result<Vec<Vec<u8>>, AllocError>
    requires count { length have.now ≡ chunk_count g }
    requires lengths { AreLong (chunk_length g) have.now }
    requires missing { AreMissing g have.now (contents missing.items) }
    ensures kept { IfOk result (λ chunks. AgreesWith (parts have.now) (contents chunks.items)) }
    ensures recovered { IfOk result (λ chunks. AreRecovered g have.now (contents chunks.items)) }
{
    let mut chunks = missing;
    for (c, part) in have.iter().enumerate() {
        if let Some(bytes) = part {
            chunks.insert(c, Vec::from_slice(alloc, bytes)?)?;
        }
    }
    Ok(chunks)
}

/// The chunks of the codeword that agrees with the chunks that are there, of which no more are missing than there are parity chunks.
pub fn recover(
    alloc: Global,
    g: Geometry,
    have: &[Option<Vec<u8>>],
) -> Result<Vec<Vec<u8>>, AllocError>
    requires { AreLeft g have.now }
    ensures kept { IfOk result (λ chunks. AgreesWith (parts have.now) (contents chunks.items)) }
    ensures recovered { IfOk result (λ chunks. AreRecovered g have.now (contents chunks.items)) }
{
    let missing = recover_missing(alloc, g, have)?;
    with_present(alloc, g, have, missing)
}

/// The chunks of the codeword that agrees with the chunks that are there, where one does. The chunks that are there stay as they are in
/// any case.
///
/// `have` has an entry for each chunk, `None` for a missing one. Where no codeword agrees, the missing ones are some bytes.
pub fn decode(
    alloc: Global,
    g: Geometry,
    have: &[Option<Vec<u8>>],
) -> Result<Vec<Vec<u8>>, DecodeFault>
    requires count { length have.now ≡ chunk_count g }
    requires lengths { AreLong (chunk_length g) have.now }
    ensures too_few { IsErrOf result DecodeFault.TooFew ↔ AreTooFew g have.now }
    ensures kept { IfOk result (λ chunks. AgreesWith (parts have.now) (contents chunks.items)) }
    ensures recovered { IfOk result (λ chunks. AreRecovered g have.now (contents chunks.items)) }
{
    if missing_count(have) > g.m() as usize {
        return Err(DecodeFault::TooFew);
    }
    Ok(recover(alloc, g, have)?)
}
