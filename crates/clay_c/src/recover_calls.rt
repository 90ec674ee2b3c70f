//! Parity and missing chunks, written to a caller's bytes.
ghost use Rattle.std.specs.Prelude.{◌≡◌, ℕ, ◌*◌, ◌<◌, ◌≤◌, map, length, slice_index, slice_index_or, eqb, false, IfOk, OnOk, OnErr};
ghost use Rattle.clay_grid.specs.Shape.{chunk_count, chunk_length, stripe_length};
ghost use Rattle.clay_c.specs.Calls.{MakesParity, lost_count, Recovers};
ghost use Rattle.clay_c.specs.Apart.{ChunkSlicesFit, RecoversApart};

use crate::marks::marked_starts;
use clay_grid::Geometry;
use clay_lanes::{ChunkView, parity_into, recover_into};
use lane_slices::recover_slices;
use std::alloc::{AllocError, Global};

/// Writes the parity chunks of a stripe, one behind another.
pub fn write_parity(
    alloc: Global,
    g: Geometry,
    stripe: &[u8],
    parity: &mut [u8],
) -> Result<(), AllocError>
    requires stripe { length stripe.now ≡ stripe_length g }
    requires parity { length parity.old ≡ g.parity_count * chunk_length g }
    ensures written { OnOk result (MakesParity g stripe.now parity.new) }
    ensures kept { OnErr result (parity.new ≡ parity.old) }
{
    parity_into(alloc, g, stripe, parity)?;
    Ok(())
}

/// How many chunks are missing, where `present` has a byte for each, which is 0 for a missing one.
pub fn missing_count(present: &[u8]) -> usize
    ensures { result ≡ lost_count present.now }
{
    present.iter().filter(|mark| **mark == 0).count()
}

/// For each chunk, whether it is missing.
pub fn missing_marks(alloc: Global, present: &[u8]) -> Result<Vec<bool>, AllocError>
    ensures len { IfOk result (λ v. length v.items ≡ length present.now) }
    ensures value { IfOk result (λ v. (c : ℕ) → c < length present.now → slice_index_or v.items c false ≡ eqb (slice_index present.now c) 0) }
{
    let mut missing = Vec::with_capacity(alloc, present.len())?;
    for mark in present {
        missing.push(*mark == 0)?;
    }
    Ok(missing)
}

/// Writes the missing ones of all chunks, which stand one behind another, from the others.
pub fn write_missing(
    alloc: Global,
    g: Geometry,
    present: &[u8],
    chunks: &mut [u8],
) -> Result<(), AllocError>
    requires marks { length present.now ≡ chunk_count g }
    requires chunks { length chunks.old ≡ chunk_count g * chunk_length g }
    requires few { lost_count present.now ≤ g.parity_count }
    ensures written { OnOk result (Recovers g present.now chunks.old chunks.new) }
    ensures kept { OnErr result (chunks.new ≡ chunks.old) }
{
    let missing = missing_marks(alloc, present)?;
    recover_into(alloc, g, &missing, chunks)?;
    Ok(())
}

/// Writes the missing chunks, each to a slice of its own, from the others, which are slices too.
pub fn write_missing_apart(
    alloc: Global,
    g: Geometry,
    present: &[u8],
    chunks: &[&[u8]],
    missing: &mut [&mut [u8]],
) -> Result<(), AllocError>
    requires fit { ChunkSlicesFit g present.now (map (λ chunk. chunk.now) chunks.now) (map (λ room. room.now) missing.old) }
    requires few { lost_count present.now ≤ g.parity_count }
    ensures written { OnOk result (RecoversApart g present.now (map (λ chunk. chunk.now) chunks.now) (map (λ room. room.now) missing.new)) }
    ensures kept { OnErr result (missing.new ≡ missing.old) }
{
    // a slice is found by its place, so the places are starts of pieces of length 1
    let places = marked_starts(alloc, present, 1)?;
    let view = ChunkView::Slices {
        pieces: chunks,
        places: &places,
    };
    recover_slices(alloc, g, view, missing)?;
    Ok(())
}
