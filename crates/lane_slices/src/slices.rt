//! The missing chunks, a block of bytes of each subchunk after another.
ghost use Rattle.std.specs.Prelude.{◌≡◌, ◌*◌, ◌<◌, ◌≤◌, map, length, min, get_or, IfOk, OnOk, OnErr, count_by, is_none, None};
ghost use Rattle.clay_grid.specs.Shape.{chunk_count, chunk_length};
ghost use Rattle.lane_repair.specs.Views.{pieces_of, HasRoom};
ghost use Rattle.clay_lanes.specs.Present.{AreChunks};
ghost use Rattle.clay_lanes.specs.Recovered.{HaveLength, missing_of};
ghost use Rattle.clay_lanes.specs.Blocks.{IsBlock, rows_length, solved_length, row_bytes, solved_bytes, HoldsLayersIn, HoldsChunksIn, KeepsChunksIn};
ghost use Rattle.lane_slices.specs.Slices.{AreWritten};

use clay_grid::Geometry;
use clay_kernels::BLOCK;
use clay_lanes::{Block, ChunkView, Rooms, plan_of};
use std::alloc::{AllocError, Global};

// Whether a view shows nothing of a chunk.
fn is_missing(have: ChunkView<'_>, c: u32) -> bool
    requires room { HasRoom have }
    requires number { c < length (pieces_of have) }
    ensures { result ≡ is_none (get_or (pieces_of have.entry) c None) }
{
    have.get(c as usize).is_none()
}

// The numbers of the missing chunks, rising.
fn missing_numbers(alloc: Global, g: Geometry, have: ChunkView<'_>) -> Result<Vec<u32>, AllocError>
    requires room { HasRoom have }
    requires count { length (pieces_of have) ≡ chunk_count g }
    ensures { IfOk result (λ v. v.items ≡ missing_of (pieces_of have.entry)) }
{
    let mut numbers = Vec::new(alloc);
    for c in 0..g.n() {
        if is_missing(have, c) {
            numbers.push(c)?;
        }
    }
    Ok(numbers)
}

// Writes the block's bytes of each subchunk of the missing chunks.
fn couple_slices(block: &Block<'_>, solved: &[u8], lost: &[u32], slices: &mut [&mut [u8]])
    requires block { IsBlock block.now }
    requires solved_len { length solved.now ≡ solved_length block.now }
    requires holds { HoldsLayersIn block.now solved.now }
    requires lost { lost.now ≡ missing_of (pieces_of block.now.have) }
    requires count { length slices.old ≡ length lost.now }
    requires lengths { HaveLength (length slices.old) (chunk_length block.now.g) (map (λ slice. slice.now) slices.old) }
    ensures lengths { HaveLength (length slices.old) (chunk_length block.now.g) (map (λ slice. slice.now) slices.new) }
    ensures written { HoldsChunksIn block.now lost.now (map (λ slice. slice.now) slices.new) }
    ensures kept { KeepsChunksIn block.now lost.now (map (λ slice. slice.now) slices.old) (map (λ slice. slice.now) slices.new) }
{
    for (i, c) in lost.iter().enumerate() {
        block.couple_chunk(solved, *c, slices[i]);
    }
}

// Writes the block's bytes of each subchunk of the missing chunks, with room for one node's values, for the erased nodes' in one layer,
// and for those in all layers.
fn recover_block(
    block: &Block<'_>,
    lost: &[u32],
    values: &mut [u8],
    rows: &mut [u8],
    solved: &mut [u8],
    slices: &mut [&mut [u8]],
)
    requires block { IsBlock block.now }
    requires values_len { length values.old ≡ block.now.len }
    requires rows_len { length rows.old ≡ rows_length block.now }
    requires solved_len { length solved.old ≡ solved_length block.now }
    requires lost { lost.now ≡ missing_of (pieces_of block.now.have) }
    requires count { length slices.old ≡ length lost.now }
    requires lengths { HaveLength (length slices.old) (chunk_length block.now.g) (map (λ slice. slice.now) slices.old) }
    ensures lengths { HaveLength (length slices.old) (chunk_length block.now.g) (map (λ slice. slice.now) slices.new) }
    ensures written { HoldsChunksIn block.now lost.now (map (λ slice. slice.now) slices.new) }
    ensures kept { KeepsChunksIn block.now lost.now (map (λ slice. slice.now) slices.old) (map (λ slice. slice.now) slices.new) }
{
    block.solve(values, rows, solved);
    couple_slices(block, solved, lost, slices);
}

// The same, by parts of at most 4096 positions one after another, with room for one of these.
fn recover_parts(
    whole: &Block<'_>,
    lost: &[u32],
    values: &mut [u8],
    rows: &mut [u8],
    solved: &mut [u8],
    slices: &mut [&mut [u8]],
)
    requires block { IsBlock whole.now }
    requires values_len { length values.old ≡ min whole.now.len 4096 }
    requires rows_len { length rows.old ≡ row_bytes whole.now (min whole.now.len 4096) }
    requires solved_len { length solved.old ≡ solved_bytes whole.now (min whole.now.len 4096) }
    requires lost { lost.now ≡ missing_of (pieces_of whole.now.have) }
    requires count { length slices.old ≡ length lost.now }
    requires lengths { HaveLength (length slices.old) (chunk_length whole.now.g) (map (λ slice. slice.now) slices.old) }
    ensures lengths { HaveLength (length slices.old) (chunk_length whole.now.g) (map (λ slice. slice.now) slices.new) }
    ensures written { HoldsChunksIn whole.now lost.now (map (λ slice. slice.now) slices.new) }
{
    let layers = whole.g.alpha() as usize;
    let mut from = 0;
    while from < whole.len {
        let len = BLOCK.min(whole.len - from);
        let part = whole.plan.points.len() * len;
        let block = Block {
            g: whole.g,
            have: whole.have,
            plan: whole.plan,
            at: whole.at + from,
            len,
        };
        recover_block(
            &block,
            lost,
            &mut values[..len],
            &mut rows[..part],
            &mut solved[..layers * part],
            slices,
        );
        from += len;
    }
}

// The same, with rooms that it allocates.
fn recover_in_rooms(
    alloc: Global,
    whole: &Block<'_>,
    lost: &[u32],
    slices: &mut [&mut [u8]],
) -> Result<(), AllocError>
    requires block { IsBlock whole.now }
    requires lost { lost.now ≡ missing_of (pieces_of whole.now.have) }
    requires count { length slices.old ≡ length lost.now }
    requires lengths { HaveLength (length slices.old) (chunk_length whole.now.g) (map (λ slice. slice.now) slices.old) }
    ensures lengths { OnOk result (HaveLength (length slices.old) (chunk_length whole.now.g) (map (λ slice. slice.now) slices.new)) }
    ensures written { OnOk result (HoldsChunksIn whole.now lost.now (map (λ slice. slice.now) slices.new)) }
    ensures kept { OnErr result (slices.new ≡ slices.old) }
{
    let mut rooms = Rooms::new(alloc, whole.g, whole.plan, BLOCK.min(whole.len))?;
    recover_parts(
        whole,
        lost,
        &mut rooms.values,
        &mut rooms.rows,
        &mut rooms.solved,
        slices,
    );
    Ok(())
}

/// Writes the missing chunks of the codeword that has the chunks which a view shows, where one does: each to a slice of its own, by rising
/// number.
///
/// No more are missing than there are parity chunks. What is there is read where it stands. Where no codeword has it, some bytes are
/// written. What the slices held before doesn't matter, and they stay as they are after an error.
pub fn recover_slices(
    alloc: Global,
    g: Geometry,
    have: ChunkView<'_>,
    slices: &mut [&mut [u8]],
) -> Result<(), AllocError>
    requires chunks { AreChunks g (pieces_of have) }
    requires room { HasRoom have }
    requires few { count_by is_none (pieces_of have) ≤ g.parity_count }
    requires count { length slices.old ≡ length (missing_of (pieces_of have)) }
    requires lengths { HaveLength (length slices.old) (chunk_length g) (map (λ slice. slice.now) slices.old) }
    ensures written { OnOk result (AreWritten g (pieces_of have.entry) (map (λ slice. slice.now) slices.new)) }
    ensures kept { OnErr result (slices.new ≡ slices.old) }
{
    let lost = missing_numbers(alloc, g, have)?;
    if lost.is_empty() {
        return Ok(());
    }
    let plan = plan_of(alloc, g, have)?;
    let block = Block {
        g,
        have,
        plan: &plan,
        at: 0,
        len: g.w() as usize,
    };
    recover_in_rooms(alloc, &block, &lost, slices)
}
