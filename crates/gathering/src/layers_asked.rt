//! Lists of layers, by which parts of chunks are asked for.
ghost use Rattle.std.specs.Prelude.{◌≡◌, ◌<◌, All, IfOk};
ghost use Rattle.clay_grid.specs.Shape.{layer_count};
ghost use Rattle.clay_grid.specs.Repair.{all_layers, layers_in_range};
ghost use Rattle.store_core.specs.GatheringParts.{chunks_in_range, layers_for};
ghost use Rattle.store_core.specs.Told.{Seen};
ghost use Rattle.run_laws.specs.StageAfter.{wanted_layers};
ghost use Rattle.gathering.specs.Aims.{aim_of};

use crate::aim::CourseAim;
use clay_grid::Geometry;
use std::alloc::{AllocError, Global};

#[tactic(auto, using(crate::proofs::Layered::range_push))]
pub(crate) fn all_layers(alloc: Global, g: Geometry) -> Result<Vec<u32>, AllocError>
    ensures layers { IfOk result (λ layers. layers.items ≡ all_layers g) }
{
    let mut layers = Vec::with_capacity(alloc, g.alpha() as usize)?;
    for z in 0..g.alpha() {
        layers.push(z)?;
    }
    Ok(layers)
}

// The layers with one of a chunk's bytes from start up to end.
#[tactic(auto, using(crate::proofs::Layered::range_pass, crate::proofs::Layered::range_fail))]
fn layers_in_range(alloc: Global, g: Geometry, start: u32, end: u32) -> Result<Vec<u32>, AllocError>
    ensures layers { IfOk result (λ layers. layers.items ≡ layers_in_range g start end) }
{
    let mut layers = Vec::new(alloc);
    let width = u64::from(g.w());
    for z in 0..g.alpha() {
        let from = u64::from(z) * width;
        if u64::from(start).max(from) < u64::from(end).min(from + width) {
            layers.push(z)?;
        }
    }
    Ok(layers)
}

// Those of a data chunk with one of a stripe's bytes from start up to end.
fn layers_for(
    alloc: Global,
    g: Geometry,
    start: u32,
    end: u32,
    chunk: u32,
) -> Result<Vec<u32>, AllocError>
    ensures layers { IfOk result (λ layers. layers.items ≡ layers_for g start end chunk) }
{
    let first = u64::from(chunk) * u64::from(g.chunk_len());
    let before = u32::try_from(first).unwrap_or(u32::MAX);
    layers_in_range(
        alloc,
        g,
        start.saturating_sub(before),
        end.saturating_sub(before),
    )
}

/// The layers of a server's chunk with wanted bytes. To make a chunk anew none are wanted.
pub(crate) fn wanted_layers(
    alloc: Global,
    g: Geometry,
    aim: CourseAim,
    server: u32,
) -> Result<Vec<u32>, AllocError>
    ensures layers { (seen : Seen) → IfOk result (λ layers. layers.items ≡ wanted_layers g (aim_of seen aim) server) }
{
    match aim {
        CourseAim::Range { start, end } => layers_for(alloc, g, start, end, server),
        CourseAim::Chunk { .. } => Ok(Vec::new(alloc)),
    }
}

/// The data chunks with one of a stripe's bytes from start up to end.
#[tactic(auto, using(crate::proofs::Layered::range_pass, crate::proofs::Layered::range_fail))]
pub(crate) fn chunks_in_range(
    alloc: Global,
    g: Geometry,
    start: u32,
    end: u32,
) -> Result<Vec<u32>, AllocError>
    ensures chunks { IfOk result (λ chunks. chunks.items ≡ chunks_in_range g start end) }
{
    let mut chunks = Vec::new(alloc);
    let width = u64::from(g.chunk_len());
    for z in 0..g.k() {
        let from = u64::from(z) * width;
        if u64::from(start).max(from) < u64::from(end).min(from + width) {
            chunks.push(z)?;
        }
    }
    Ok(chunks)
}
