//! The chunks from what is left of them: by ranges of byte positions, or by layers of one score where subchunks are short, and then by
//! chunks.
ghost use Rattle.std.specs.Prelude.{◌≡◌, ℕ, ◌+◌, ◌*◌, ◌/◌, ◌<◌, ◌≤◌, ◌↔◌, length, slice_index_or, None, IfOk, OnOk, OnErr, IsErrOf, All};
ghost use Rattle.clay_grid.specs.Shape.{chunk_count, layer_count, chunk_length};
ghost use Rattle.clay_model.specs.Chunks.{contents};
ghost use Rattle.clay_model.specs.Left.{AreLong, AreTooFew};
ghost use Rattle.clay_model.specs.Left.{AreLeft, AreRecovered};
ghost use Rattle.clay_lanes.specs.Recovered.{IsLanePlan, HoldsByteOf, KeepsBytes};
ghost use Rattle.clay_lanes.specs.Places.{AreFilled};
ghost use Rattle.clay_par.specs.Ranges.{HasRoom, SamePlace};
ghost use Rattle.clay_par.specs.Solved.{HoldsLayers, AreSolved, IsChunk, IsFilled};

use crate::made::all_made;
use crate::ranges::{Range, make_range, make_ranges};
use crate::scores::solve_by_scores;
use clay_grid::Geometry;
use clay_kernels::{BLOCK, zeros};
use clay_lanes::{DecodePlan, couple_chunk, make_plan, missing_count, solve_layers};
use clay_model::DecodeFault;
use rayon::prelude::*;
use std::alloc::{AllocError, Global};
use std::thread::Threads;

// Writes the erased nodes' uncoupled values in a range. Where no chunk is missing there are none.
fn solve(g: Geometry, have: &[Option<Vec<u8>>], plan: &DecodePlan, range: &mut Range)
    requires plan { IsLanePlan g have.now plan.now }
    requires room { HasRoom g (length plan.now.points.items) (layer_count g) range.old }
    ensures place { SamePlace range.old range.new }
    ensures solved { HoldsLayers g have.now plan.now range.new }
{
    if plan.points.is_empty() {
        return;
    }
    solve_layers(
        g,
        have,
        plan,
        range.at,
        &mut range.values,
        &mut range.rows,
        &mut range.solved,
    );
}

// Writes the erased nodes' uncoupled values in all ranges.
fn solve_all<R: Threads + Sync>(
    rt: &R,
    g: Geometry,
    have: &[Option<Vec<u8>>],
    plan: &DecodePlan,
    ranges: &mut [Range],
)
    requires plan { IsLanePlan g have.now plan.now }
    requires room { All (HasRoom g (length plan.now.points.items) (layer_count g)) ranges.old }
    ensures places { (i : ℕ) (d : _) → i < length ranges.old → SamePlace (slice_index_or ranges.old i d) (slice_index_or ranges.new i d) }
    ensures solved { All (HoldsLayers g have.now plan.now) ranges.new }
{
    par_for_each_mut(rt, ranges, |_, range| solve(g, have, plan, range));
}

// Writes the bytes of a missing chunk that lie in a range.
fn write_range(
    g: Geometry,
    have: &[Option<Vec<u8>>],
    plan: &DecodePlan,
    range: &Range,
    c: u32,
    chunk: &mut [u8],
)
    requires plan { IsLanePlan g have.now plan.now }
    requires range { HoldsLayers g have.now plan.now range.now }
    requires chunk { c < chunk_count g }
    requires missing { slice_index_or have.now c None ≡ None }
    requires chunk_len { length chunk.old ≡ chunk_length g }
    ensures written { (z b : ℕ) → z < layer_count g → b < length range.now.values.items →
        HoldsByteOf g have.now c chunk.new (z * g.width + (range.now.at + b)) }
    ensures kept { KeepsBytes g have.now c chunk.old chunk.new }
{
    couple_chunk(
        g,
        have,
        plan,
        &range.solved,
        c,
        range.at,
        range.values.len(),
        chunk,
    );
}

// Writes a missing chunk from the values in the ranges.
fn write_chunk(
    g: Geometry,
    have: &[Option<Vec<u8>>],
    plan: &DecodePlan,
    ranges: &[Range],
    c: u32,
    chunk: &mut [u8],
)
    requires plan { IsLanePlan g have.now plan.now }
    requires ranges { AreSolved g have.now plan.now ranges.now }
    requires chunk { c < chunk_count g }
    requires missing { slice_index_or have.now c None ≡ None }
    requires chunk_len { length chunk.old ≡ chunk_length g }
    ensures { (z b : ℕ) → z < layer_count g → b < g.width →
        HoldsByteOf g have.now c chunk.new (z * g.width + b) }
{
    for range in ranges {
        write_range(g, have, plan, range, c, chunk);
    }
}

// A missing chunk, from the values in the ranges.
fn missing_chunk(
    alloc: Global,
    g: Geometry,
    have: &[Option<Vec<u8>>],
    plan: &DecodePlan,
    ranges: &[Range],
    c: u32,
) -> Result<Vec<u8>, AllocError>
    requires plan { IsLanePlan g have.now plan.now }
    requires ranges { AreSolved g have.now plan.now ranges.now }
    requires chunk { c < chunk_count g }
    requires missing { slice_index_or have.now c None ≡ None }
    ensures { IfOk result (λ v. IsChunk g have.now c v.items) }
{
    let mut chunk = zeros(alloc, g.chunk_len() as usize)?;
    write_chunk(g, have, plan, ranges, c, &mut chunk);
    Ok(chunk)
}

// A chunk, which is copied where it is there.
fn chunk(
    alloc: Global,
    g: Geometry,
    have: &[Option<Vec<u8>>],
    plan: &DecodePlan,
    ranges: &[Range],
    c: usize,
) -> Result<Vec<u8>, AllocError>
    requires plan { IsLanePlan g have.now plan.now }
    requires ranges { AreSolved g have.now plan.now ranges.now }
    requires chunk { c < chunk_count g }
    ensures { IfOk result (λ v. IsChunk g have.now c v.items) }
{
    match &have[c] {
        Some(bytes) => bytes.clone(),
        None => missing_chunk(alloc, g, have, plan, ranges, c as u32),
    }
}

// Each chunk, or that memory ran out.
fn each_chunk<R: Threads + Sync>(
    rt: &R,
    alloc: Global,
    g: Geometry,
    have: &[Option<Vec<u8>>],
    plan: &DecodePlan,
    ranges: &[Range],
) -> Result<Vec<Result<Vec<u8>, AllocError>>, AllocError>
    requires plan { IsLanePlan g have.now plan.now }
    requires ranges { AreSolved g have.now plan.now ranges.now }
    ensures count { IfOk result (λ chunks. length chunks.items ≡ chunk_count g) }
    ensures each { IfOk result (λ chunks. (c : ℕ) (d : _) → c < chunk_count g →
        IfOk (slice_index_or chunks.items c d) (λ chunk. IsChunk g have.now c chunk.items)) }
{
    (0..g.n() as usize)
        .into_par_iter()
        .with_min_len(1)
        .map(
            |c: usize| -> Result<Vec<u8>, AllocError>
                requires { IsLanePlan g have.now plan.now × AreSolved g have.now plan.now ranges.now × (c < chunk_count g) }
                ensures { IfOk result (λ v. IsChunk g have.entry.now c v.items) }
            { chunk(alloc, g, have, plan, ranges, c) },
        )
        .collect(rt, alloc)
}

// All chunks, from the values in the ranges.
fn chunks<R: Threads + Sync>(
    rt: &R,
    alloc: Global,
    g: Geometry,
    have: &[Option<Vec<u8>>],
    plan: &DecodePlan,
    ranges: &[Range],
) -> Result<Vec<Vec<u8>>, AllocError>
    requires plan { IsLanePlan g have.now plan.now }
    requires ranges { AreSolved g have.now plan.now ranges.now }
    ensures { IfOk result (λ chunks. AreRecovered g have.now (contents chunks.items)) }
{
    let made = each_chunk(rt, alloc, g, have, plan, ranges)?;
    all_made(alloc, made)
}

// Writes the erased nodes' uncoupled values in a range, in threads.
fn solve_shared<R: Threads + Sync>(
    rt: &R,
    alloc: Global,
    g: Geometry,
    have: &[Option<Vec<u8>>],
    plan: &DecodePlan,
    range: &mut Range,
) -> Result<(), AllocError>
    requires plan { IsLanePlan g have.now plan.now }
    requires short { length range.old.values.items ≤ 4096 }
    requires some { 0 < length range.old.values.items }
    requires room { HasRoom g (length plan.now.points.items) (layer_count g) range.old }
    ensures place { IfOk result (λ _. SamePlace range.old range.new) }
    ensures solved { IfOk result (λ _. HoldsLayers g have.now plan.now range.new) }
{
    if plan.points.is_empty() {
        return Ok(());
    }
    let len = range.values.len();
    solve_by_scores(rt, alloc, g, have, plan, range.at, len, &mut range.solved)
}

// One range of all positions, with the erased nodes' uncoupled values.
fn solved_range<R: Threads + Sync>(
    rt: &R,
    alloc: Global,
    g: Geometry,
    have: &[Option<Vec<u8>>],
    plan: &DecodePlan,
) -> Result<Vec<Range>, AllocError>
    requires plan { IsLanePlan g have.now plan.now }
    requires short { g.width ≤ 4096 }
    ensures { IfOk result (λ ranges. AreSolved g have.now plan.now ranges.items) }
{
    let nodes = plan.points.len();
    let mut range = make_range(alloc, g, nodes, g.alpha() as usize, 0, g.w() as usize)?;
    solve_shared(rt, alloc, g, have, plan, &mut range)?;
    let mut ranges = Vec::new(alloc);
    ranges.push(range)?;
    Ok(ranges)
}

// The ranges of all positions, with the erased nodes' uncoupled values. Short subchunks are one range, in which threads share the layers.
fn solved_ranges<R: Threads + Sync>(
    rt: &R,
    alloc: Global,
    g: Geometry,
    have: &[Option<Vec<u8>>],
    plan: &DecodePlan,
) -> Result<Vec<Range>, AllocError>
    requires { IsLanePlan g have.now plan.now }
    ensures { IfOk result (λ ranges. AreSolved g have.now plan.now ranges.items) }
{
    if g.w() as usize <= BLOCK {
        return solved_range(rt, alloc, g, have, plan);
    }
    let mut ranges = make_ranges(alloc, g, plan.points.len(), g.alpha() as usize)?;
    solve_all(rt, g, have, plan, &mut ranges);
    Ok(ranges)
}

/// The chunks of the codeword that agrees with the chunks that are there, of which no more are missing than there are parity chunks.
pub fn recover<R: Threads + Sync>(
    rt: &R,
    alloc: Global,
    g: Geometry,
    have: &[Option<Vec<u8>>],
) -> Result<Vec<Vec<u8>>, AllocError>
    requires { AreLeft g have.now }
    ensures { IfOk result (λ chunks. AreRecovered g have.now (contents chunks.items)) }
{
    let plan = make_plan(alloc, g, have)?;
    let ranges = solved_ranges(rt, alloc, g, have, &plan)?;
    chunks(rt, alloc, g, have, &plan, &ranges)
}

// Writes a chunk, if it is missing.
fn fill_chunk(
    g: Geometry,
    have: &[Option<Vec<u8>>],
    plan: &DecodePlan,
    ranges: &[Range],
    c: usize,
    chunk: &mut [u8],
)
    requires plan { IsLanePlan g have.now plan.now }
    requires ranges { AreSolved g have.now plan.now ranges.now }
    requires chunk { c < chunk_count g }
    requires chunk_len { length chunk.old ≡ chunk_length g }
    ensures { IsFilled g have.now c chunk.old chunk.new }
{
    match &have[c] {
        Some(_) => {}
        None => write_chunk(g, have, plan, ranges, c as u32, chunk),
    }
}

// Writes the chunk that begins at `start` among all chunks, if it is missing.
fn fill_at(
    g: Geometry,
    have: &[Option<Vec<u8>>],
    plan: &DecodePlan,
    ranges: &[Range],
    start: usize,
    chunk: &mut [u8],
)
    requires plan { IsLanePlan g have.now plan.now }
    requires ranges { AreSolved g have.now plan.now ranges.now }
    requires start { start < chunk_count g * chunk_length g }
    requires chunk_len { length chunk.old ≡ chunk_length g }
    ensures { IsFilled g have.now (start / chunk_length g) chunk.old chunk.new }
{
    let c = start / g.chunk_len() as usize;
    fill_chunk(g, have, plan, ranges, c, chunk);
}

// Writes the missing chunks to their places among all chunks, from the values in the ranges.
fn fill_all<R: Threads + Sync>(
    rt: &R,
    g: Geometry,
    have: &[Option<Vec<u8>>],
    plan: &DecodePlan,
    ranges: &[Range],
    chunks: &mut [u8],
)
    requires plan { IsLanePlan g have.now plan.now }
    requires ranges { AreSolved g have.now plan.now ranges.now }
    requires chunks_len { length chunks.old ≡ chunk_count g * chunk_length g }
    ensures { AreFilled g have.now chunks.old chunks.new }
{
    let len = g.chunk_len() as usize;
    par_chunks_mut_for_each(
        rt,
        chunks,
        len,
        |start: usize, chunk: &mut [u8]|
            requires { IsLanePlan g have.now plan.now × AreSolved g have.now plan.now ranges.now × (start < chunk_count g * chunk_length g) × (length chunk.old ≡ chunk_length g) }
            ensures { IsFilled g have.entry.now (start / chunk_length g) chunk.old chunk.new }
        { fill_at(g, have, plan, ranges, start, chunk) },
    );
}

// Writes the missing chunks, which are no more than there are parity chunks, to their places among all chunks.
fn fill_missing<R: Threads + Sync>(
    rt: &R,
    alloc: Global,
    g: Geometry,
    have: &[Option<Vec<u8>>],
    chunks: &mut [u8],
) -> Result<(), AllocError>
    requires left { AreLeft g have.now }
    requires chunks_len { length chunks.old ≡ chunk_count g * chunk_length g }
    ensures filled { OnOk result (AreFilled g have.now chunks.old chunks.new) }
    ensures kept { OnErr result (chunks.new ≡ chunks.old) }
{
    let plan = make_plan(alloc, g, have)?;
    let ranges = solved_ranges(rt, alloc, g, have, &plan)?;
    fill_all(rt, g, have, &plan, &ranges, chunks);
    Ok(())
}

/// Writes the missing chunks of the codeword that agrees with the chunks that are there, where one does, to their places among all chunks,
/// which stand one behind another.
pub fn missing_into<R: Threads + Sync>(
    rt: &R,
    alloc: Global,
    g: Geometry,
    have: &[Option<Vec<u8>>],
    chunks: &mut [u8],
) -> Result<(), DecodeFault>
    requires count { length have.now ≡ chunk_count g }
    requires lengths { AreLong (chunk_length g) have.now }
    requires chunks_len { length chunks.old ≡ chunk_count g * chunk_length g }
    ensures too_few { IsErrOf result DecodeFault.TooFew ↔ AreTooFew g have.now }
    ensures filled { OnOk result (AreFilled g have.now chunks.old chunks.new) }
    ensures kept { OnErr result (chunks.new ≡ chunks.old) }
{
    let count = missing_count(have);
    if count > g.m() as usize {
        return Err(DecodeFault::TooFew);
    }
    if count == 0 {
        return Ok(());
    }
    fill_missing(rt, alloc, g, have, chunks)?;
    Ok(())
}
