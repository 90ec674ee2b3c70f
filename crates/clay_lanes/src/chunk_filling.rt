//! The missing chunks, written to their places among all chunks, which stand one behind another.
ghost use Rattle.std.specs.Prelude.{◌≡◌, ℕ, ◌+◌, ◌*◌, ◌<◌, ◌≤◌, ◌↔◌, length, min, get_or, IfOk, IsErrOf, OnOk, OnErr, true, count_by, is_none, cond, Some, None};
ghost use Rattle.clay_grid.specs.Shape.{chunk_count, layer_count, chunk_length};
ghost use Rattle.clay_model.specs.Left.{AreLong, AreTooFew};
ghost use Rattle.lane_repair.specs.Views.{pieces_of, HasRoom, laid_pieces, EndWithin};
ghost use Rattle.clay_lanes.specs.Present.{AreChunks, is_gone, chunks_left};
ghost use Rattle.clay_lanes.specs.Recovered.{IsPlanFor};
ghost use Rattle.clay_lanes.specs.Places.{AreFilled, AreFilledFrom, chunks_length};
ghost use Rattle.clay_lanes.specs.Standing.{starts_left, left_count, is_left_gone, left_pieces, pieces_around, IsRoom, IsRoomAround, StandInPlace};
ghost use Rattle.clay_lanes.specs.Fillings.{IsPlanned, pieces_in, around_in, IsFilling, filling_rows, filling_layers, SolvesLayers, IsByteOf, FillsPlace, FillsPlaces, KeepsOthers};

use crate::block::{Block, Rooms};
use crate::block_chunks::missing_count;
use crate::recovery_plan::{DecodePlan, make_plan, plan_of};
use clay_grid::Geometry;
use clay_kernels::BLOCK;
use clay_model::DecodeFault;
use lane_repair::ChunkView;
use std::alloc::{AllocError, Global};

/// Where the chunks that are there stand, while the missing ones of all are written.
#[derive(Clone, Copy)]
pub(crate) enum Left<'a> {
    /// Apart from all, a vector for each.
    Apart(&'a [Option<Vec<u8>>]),
    /// Among all, from these places on.
    Among(&'a [Option<usize>]),
}

/// The missing ones of all chunks, at `len` byte positions of each subchunk, from `at` on.
#[derive(Clone, Copy)]
pub(crate) struct Filling<'a> {
    pub(crate) g: Geometry,
    pub(crate) left: Left<'a>,
    /// The plan of the missing chunks.
    pub(crate) plan: &'a DecodePlan,
    pub(crate) at: usize,
    pub(crate) len: usize,
}

// Whether no vector is there for a chunk.
fn is_apart_gone(have: &[Option<Vec<u8>>], c: usize) -> bool
    requires { c < length have.now }
    ensures { result ≡ is_none (get_or have.now c None) }
{
    have[c].is_none()
}

// Whether a chunk has no place.
fn is_among_gone(starts: &[Option<usize>], c: usize) -> bool
    requires { c < length starts.now }
    ensures { result ≡ is_none (get_or starts.now c None) }
{
    starts[c].is_none()
}

impl<'a> Left<'a> {
    // Whether a chunk is missing.
    fn is_gone(&self, c: usize) -> bool
        requires { c < left_count self.now }
        ensures { result ≡ is_left_gone self.now c }
    {
        match *self {
            Left::Apart(have) => is_apart_gone(have, c),
            Left::Among(starts) => is_among_gone(starts, c),
        }
    }
}

// The chunks that are there, of all chunks of `len` bytes.
fn all_left<'a>(left: Left<'a>, chunks: &'a [u8], len: usize) -> ChunkView<'a>
    ensures pieces { pieces_of result ≡ left_pieces left.entry chunks.now len }
    ensures room { IsRoom left.entry chunks.now len → HasRoom result }
{
    match left {
        Left::Apart(have) => ChunkView::Apart(have),
        Left::Among(starts) => ChunkView::Laid {
            bytes: chunks,
            starts,
            len,
        },
    }
}

// The same without a missing one: the chunks before it, and those after it.
fn left_around<'a>(left: Left<'a>, before: &'a [u8], after: &'a [u8], len: usize) -> ChunkView<'a>
    ensures pieces { pieces_of result ≡ pieces_around left.entry before.now after.now len }
    ensures room { IsRoomAround left.entry before.now after.now len → HasRoom result }
{
    match left {
        Left::Apart(have) => ChunkView::Apart(have),
        Left::Among(starts) => ChunkView::Around {
            before,
            after,
            starts,
            len,
        },
    }
}

impl<'a> Filling<'a> {
    // Writes the uncoupled values of the missing chunks' nodes in each layer, with room for those of a node and for those of one layer.
    fn solve(&self, values: &mut [u8], rows: &mut [u8], solved: &mut [u8], chunks: &[u8])
        requires filling { IsFilling self.now chunks.now }
        requires values_len { length values.old ≡ self.now.len }
        requires rows_len { length rows.old ≡ filling_rows self.now self.now.len }
        requires solved_len { length solved.old ≡ filling_layers self.now self.now.len }
        ensures { SolvesLayers self.now (pieces_in self.now chunks.now) solved.new }
    {
        let block = Block {
            g: self.g,
            have: all_left(self.left, chunks, self.g.chunk_len() as usize),
            plan: self.plan,
            at: self.at,
            len: self.len,
        };
        block.solve(values, rows, solved);
    }

    // Writes the block's bytes of each subchunk of a missing chunk, which stands between these.
    fn couple(&self, solved: &[u8], c: u32, before: &[u8], chunk: &mut [u8], after: &[u8])
        requires chunk { c < chunk_count self.now.g }
        requires planned { IsPlanned self.now (around_in self.now before.now after.now) }
        requires room { IsRoomAround self.now.left before.now after.now (chunk_length self.now.g) }
        requires solved_len { length solved.now ≡ filling_layers self.now self.now.len }
        requires holds { SolvesLayers self.now (around_in self.now before.now after.now) solved.now }
        requires missing { get_or (around_in self.now before.now after.now) c None ≡ None }
        requires chunk_len { length chunk.old ≡ chunk_length self.now.g }
        ensures written { (z b : ℕ) → z < layer_count self.now.g → b < self.now.len →
            IsByteOf self.now (around_in self.now before.now after.now) c chunk.new (z * self.now.g.width + (self.now.at + b)) }
        ensures kept { (p : ℕ) → IsByteOf self.now (around_in self.now before.now after.now) c chunk.old p →
            IsByteOf self.now (around_in self.now before.now after.now) c chunk.new p }
    {
        let block = Block {
            g: self.g,
            have: left_around(self.left, before, after, self.g.chunk_len() as usize),
            plan: self.plan,
            at: self.at,
            len: self.len,
        };
        block.couple_chunk(solved, c, chunk);
    }

    // Writes the block's bytes of each subchunk of a chunk to its place, if it is missing.
    fn fill_chunk(&self, solved: &[u8], c: u32, chunks: &mut [u8])
        requires filling { IsFilling self.now chunks.old }
        requires solved_len { length solved.now ≡ filling_layers self.now self.now.len }
        requires holds { SolvesLayers self.now (pieces_in self.now chunks.old) solved.now }
        requires chunk { c < chunk_count self.now.g }
        ensures written { is_none (get_or (pieces_in self.now chunks.old) c None) ≡ true → FillsPlace self.now (pieces_in self.now chunks.old) c chunks.new }
        ensures kept { KeepsOthers self.now (pieces_in self.now chunks.old) chunks.old chunks.new }
    {
        if !self.left.is_gone(c as usize) {
            return;
        }
        let len = self.g.chunk_len() as usize;
        let (before, rest) = chunks.split_at_mut(c as usize * len);
        let (chunk, after) = rest.split_at_mut(len);
        self.couple(solved, c, before, chunk, after);
    }

    // Writes the block's bytes of each subchunk of the missing chunks to their places.
    fn fill_chunks(&self, solved: &[u8], chunks: &mut [u8])
        requires filling { IsFilling self.now chunks.old }
        requires solved_len { length solved.now ≡ filling_layers self.now self.now.len }
        requires holds { SolvesLayers self.now (pieces_in self.now chunks.old) solved.now }
        ensures written { FillsPlaces self.now (pieces_in self.now chunks.old) chunks.new }
        ensures kept { KeepsOthers self.now (pieces_in self.now chunks.old) chunks.old chunks.new }
    {
        for c in 0..self.g.n() {
            self.fill_chunk(solved, c, chunks);
        }
    }

    // The same, with room for the values of a node and for those of the missing chunks' nodes, in one layer and in all.
    fn fill(&self, values: &mut [u8], rows: &mut [u8], solved: &mut [u8], chunks: &mut [u8])
        requires filling { IsFilling self.now chunks.old }
        requires values_len { length values.old ≡ self.now.len }
        requires rows_len { length rows.old ≡ filling_rows self.now self.now.len }
        requires solved_len { length solved.old ≡ filling_layers self.now self.now.len }
        ensures written { FillsPlaces self.now (pieces_in self.now chunks.old) chunks.new }
        ensures kept { KeepsOthers self.now (pieces_in self.now chunks.old) chunks.old chunks.new }
    {
        self.solve(values, rows, solved, chunks);
        self.fill_chunks(solved, chunks);
    }

    // The same, by parts of at most 4096 positions one after another, with room for one of these.
    fn fill_parts(&self, values: &mut [u8], rows: &mut [u8], solved: &mut [u8], chunks: &mut [u8])
        requires filling { IsFilling self.now chunks.old }
        requires values_len { length values.old ≡ min self.now.len 4096 }
        requires rows_len { length rows.old ≡ filling_rows self.now (min self.now.len 4096) }
        requires solved_len { length solved.old ≡ filling_layers self.now (min self.now.len 4096) }
        ensures written { FillsPlaces self.now (pieces_in self.now chunks.old) chunks.new }
        ensures kept { KeepsOthers self.now (pieces_in self.now chunks.old) chunks.old chunks.new }
    {
        let layers = self.g.alpha() as usize;
        let mut from = 0;
        while from < self.len {
            let len = BLOCK.min(self.len - from);
            let part = self.plan.points.len() * len;
            let filling = Filling {
                g: self.g,
                left: self.left,
                plan: self.plan,
                at: self.at + from,
                len,
            };
            filling.fill(
                &mut values[..len],
                &mut rows[..part],
                &mut solved[..layers * part],
                chunks,
            );
            from += len;
        }
    }
}

// Writes the missing chunks to their places, with a plan of them.
fn fill_all(
    alloc: Global,
    g: Geometry,
    left: Left<'_>,
    plan: &DecodePlan,
    chunks: &mut [u8],
) -> Result<(), AllocError>
    requires plan { IsPlanFor g (is_gone g (left_pieces left chunks.old (chunk_length g))) plan.now }
    requires left { AreChunks g (left_pieces left chunks.old (chunk_length g)) }
    requires places { StandInPlace g left }
    requires chunks_len { length chunks.old ≡ chunks_length g }
    ensures filled { OnOk result (AreFilledFrom g (left_pieces left.entry chunks.old (chunk_length g)) chunks.old chunks.new) }
    ensures kept { OnErr result (chunks.new ≡ chunks.old) }
{
    if plan.points.is_empty() {
        return Ok(());
    }
    let filling = Filling {
        g,
        left,
        plan,
        at: 0,
        len: g.w() as usize,
    };
    let mut rooms = Rooms::new(alloc, g, plan, BLOCK.min(filling.len))?;
    filling.fill_parts(
        &mut rooms.values,
        &mut rooms.rows,
        &mut rooms.solved,
        chunks,
    );
    Ok(())
}

// The missing chunks of what stands apart, which are no more than there are parity chunks, written to their places.
fn fill_missing(
    alloc: Global,
    g: Geometry,
    have: &[Option<Vec<u8>>],
    chunks: &mut [u8],
) -> Result<(), AllocError>
    requires count { length have.now ≡ chunk_count g }
    requires lengths { AreLong (chunk_length g) have.now }
    requires few { count_by is_none have.now ≤ g.parity_count }
    requires chunks_len { length chunks.old ≡ chunks_length g }
    ensures filled { OnOk result (AreFilled g have.now chunks.old chunks.new) }
    ensures kept { OnErr result (chunks.new ≡ chunks.old) }
{
    let plan = make_plan(alloc, g, have)?;
    fill_all(alloc, g, Left::Apart(have), &plan, chunks)?;
    Ok(())
}

/// Writes the missing chunks of the codeword that agrees with the chunks that are there, where one does, to their places among all chunks,
/// which stand one behind another.
///
/// `have` has an entry for each chunk, `None` for a missing one. Where no codeword agrees, some bytes are written. What stood in the places of
/// the missing ones doesn't matter; all other bytes stay, and after an error all.
pub fn missing_into(
    alloc: Global,
    g: Geometry,
    have: &[Option<Vec<u8>>],
    chunks: &mut [u8],
) -> Result<(), DecodeFault>
    requires count { length have.now ≡ chunk_count g }
    requires lengths { AreLong (chunk_length g) have.now }
    requires chunks_len { length chunks.old ≡ chunk_count g * chunk_length g }
    ensures too_few { IsErrOf result DecodeFault.TooFew ↔ AreTooFew g have.now }
    ensures filled { OnOk result (AreFilled g have.now chunks.old chunks.new) }
    ensures kept { OnErr result (chunks.new ≡ chunks.old) }
{
    let count = missing_count(have);
    if count > g.m() as usize {
        return Err(DecodeFault::TooFew);
    }
    if count == 0 {
        return Ok(());
    }
    fill_missing(alloc, g, have, chunks)?;
    Ok(())
}

// Where a chunk that isn't missing begins.
fn chunk_start(gone: bool, c: u32, len: u32) -> Option<usize>
    ensures { result ≡ cond gone None (Some (c * len)) }
{
    if gone {
        return None;
    }
    Some(c as usize * len as usize)
}

// Where each chunk that isn't missing begins.
fn chunk_starts(
    alloc: Global,
    g: Geometry,
    missing: &[bool],
) -> Result<Vec<Option<usize>>, AllocError>
    requires { length missing.now ≡ chunk_count g }
    ensures { IfOk result (λ starts. starts.items ≡ starts_left g missing.now (chunk_count g)) }
{
    let len = g.chunk_len();
    let mut starts = Vec::with_capacity(alloc, g.n() as usize)?;
    for c in 0..g.n() {
        starts.push(chunk_start(missing[c as usize], c, len))?;
    }
    Ok(starts)
}

// The plan of the missing ones of all chunks.
fn plan_among(
    alloc: Global,
    g: Geometry,
    starts: &[Option<usize>],
    chunks: &[u8],
) -> Result<DecodePlan, AllocError>
    requires count { length starts.now ≡ chunk_count g }
    requires few { count_by is_none starts.now ≤ g.parity_count }
    requires room { EndWithin chunks.now starts.now (chunk_length g) }
    ensures { IfOk result (λ plan. IsPlanFor g (is_gone g (laid_pieces chunks.now starts.now (chunk_length g))) plan) }
{
    let view = ChunkView::Laid {
        bytes: chunks,
        starts,
        len: g.chunk_len() as usize,
    };
    plan_of(alloc, g, view)
}

/// Writes the missing ones of all chunks, which stand one behind another, from the others, which are read where they stand.
///
/// Where the others aren't those of a codeword, some bytes are written. What stood in the places of the missing ones doesn't matter; all
/// other bytes stay, and after an error all.
pub fn recover_into(
    alloc: Global,
    g: Geometry,
    missing: &[bool],
    chunks: &mut [u8],
) -> Result<(), AllocError>
    requires count { length missing.now ≡ chunk_count g }
    requires few { count_by (λ gone. gone) missing.now ≤ g.parity_count }
    requires chunks_len { length chunks.old ≡ chunk_count g * chunk_length g }
    ensures filled { OnOk result (AreFilledFrom g (chunks_left g missing.now chunks.old) chunks.old chunks.new) }
    ensures kept { OnErr result (chunks.new ≡ chunks.old) }
{
    let starts = chunk_starts(alloc, g, missing)?;
    let plan = plan_among(alloc, g, &starts, chunks)?;
    fill_all(alloc, g, Left::Among(&starts), &plan, chunks)?;
    Ok(())
}
