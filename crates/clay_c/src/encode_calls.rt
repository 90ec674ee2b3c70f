//! Parity chunks, each written to a slice of its own.
ghost use Rattle.std.specs.Prelude.{◌≡◌, ℕ, ◌^◌, ◌<◌, ◌++◌, [], map, length, slice_index, slice_index_or, IfOk, OnOk, OnErr};
ghost use Rattle.clay_grid.specs.Shape.{chunk_count};
ghost use Rattle.clay_grid.specs.Limits.{IsGeometry};
ghost use Rattle.clay_model.specs.Code.{IsCodeword};
ghost use Rattle.clay_c.specs.Apart.{DataSlicesFit, data_marks};

use crate::recover_calls::write_missing_apart;
use clay_grid::Geometry;
use std::alloc::{AllocError, Global};

// The numbers of a slice are bytes. It does nothing when it runs.
fn keeps_bytes(slice: &[u8])
    ensures { (p : ℕ) → slice_index slice.now p < 2 ^ 8 }
{}

// The same of all slices.
fn are_bytes(slices: &[&[u8]])
    ensures { (c p : ℕ) → slice_index (slice_index_or (map (λ slice. slice.now) slices.now) c []) p < 2 ^ 8 }
{
    for slice in slices {
        keeps_bytes(slice);
    }
}

// A mark for each data chunk, and 0 for each parity chunk.
fn marks_of_data(alloc: Global, g: Geometry) -> Result<Vec<u8>, AllocError>
    ensures marks { IfOk result (λ marks. marks.items ≡ data_marks g (chunk_count g)) }
    ensures geometry { IfOk result (λ _. IsGeometry g) }
{
    let k = g.k();
    let mut marks = Vec::with_capacity(alloc, g.n() as usize)?;
    for c in 0..g.n() {
        marks.push(u8::from(c < k))?;
    }
    Ok(marks)
}

/// Writes the parity chunks of the codeword that has these data chunks.
pub fn write_parity_apart(
    alloc: Global,
    g: Geometry,
    chunks: &[&[u8]],
    parity: &mut [&mut [u8]],
) -> Result<(), AllocError>
    requires fit { DataSlicesFit g (map (λ chunk. chunk.now) chunks.now) (map (λ room. room.now) parity.old) }
    ensures written { OnOk result (IsCodeword g (map (λ chunk. chunk.now) chunks.now ++ map (λ room. room.now) parity.new)) }
    ensures kept { OnErr result (parity.new ≡ parity.old) }
{
    are_bytes(chunks);
    let marks = marks_of_data(alloc, g)?;
    // the parity chunks are what is missing
    write_missing_apart(alloc, g, &marks, chunks, parity)?;
    Ok(())
}
