//! The calls for callers whose chunks or parts stand apart, each a slice of its own.
ghost use Rattle.std.specs.Prelude.{◌≡◌, ◌≢◌, ◌+◌, ◌<◌, ◌↔◌, ◌++◌, map, length, All, IsTrue};
ghost use Rattle.clay_grid.specs.Shape.{shape_of, chunk_length};
ghost use Rattle.clay_grid.specs.Limits.{IsGeometry};
ghost use Rattle.clay_model.specs.Code.{IsCodeword};
ghost use Rattle.clay_model.specs.RepairParts.{part_length};
ghost use Rattle.clay_c.specs.Status.{done, bad_geometry, bad_length, bad_chunk, too_few, out_of_memory, EndsByLength, EndsByChunk};
ghost use Rattle.clay_c.specs.Calls.{lost_count};
ghost use Rattle.clay_c.specs.Apart.{HaveBytes, PartSlicesFit, RebuildsApart, ChunkSlicesFit, RecoversApart, DataSlicesFit};

use crate::c_status::{BAD_CHUNK, BAD_GEOMETRY, BAD_LENGTH, DONE, OUT_OF_MEMORY, TOO_FEW};
use crate::encode_calls::write_parity_apart;
use crate::geometry;
use crate::rebuild_calls::{part_len, write_rebuilt_apart};
use crate::recover_calls::{missing_count, write_missing_apart};
use clay_grid::Geometry;
use std::alloc::Global;

// Whether each slice has so many bytes.
fn are_long(slices: &[&[u8]], len: usize) -> bool
    ensures { IsTrue result ↔ All (λ slice. length slice.now ≡ len) slices.now }
{
    slices.iter().all(|slice| slice.len() == len)
}

// Whether these are so many slices of so many bytes.
fn are_slices(slices: &[&[u8]], count: usize, len: u32) -> bool
    ensures { IsTrue result ↔ ((length (map (λ slice. slice.now) slices.now) ≡ count) × HaveBytes len (map (λ slice. slice.now) slices.now)) }
{
    if slices.len() != count {
        return false;
    }
    are_long(slices, len as usize)
}

// Whether these are parts of all but one chunk, and there is room for that one.
fn parts_fit(g: Geometry, parts: &[&[u8]], chunk: &[u8]) -> bool
    ensures { IsTrue result ↔ PartSlicesFit g (map (λ part. part.now) parts.now) chunk.now }
{
    if chunk.len() != g.chunk_len() as usize {
        return false;
    }
    are_slices(parts, g.n() as usize - 1, part_len(g))
}

// Whether each has room for so many bytes.
fn have_room(rooms: &[&mut [u8]], len: usize) -> bool
    ensures { IsTrue result ↔ All (λ room. length room.now ≡ len) rooms.now }
{
    rooms.iter().all(|room| room.len() == len)
}

// Whether there is room in so many slices for so many bytes each.
fn are_rooms(rooms: &[&mut [u8]], count: usize, len: u32) -> bool
    ensures { IsTrue result ↔ ((length (map (λ room. room.now) rooms.now) ≡ count) × HaveBytes len (map (λ room. room.now) rooms.now)) }
{
    if rooms.len() != count {
        return false;
    }
    have_room(rooms, len as usize)
}

// Whether these are the chunks that are there, and there is room for the others.
fn chunks_fit(g: Geometry, present: &[u8], chunks: &[&[u8]], missing: &[&mut [u8]]) -> bool
    ensures { IsTrue result ↔ ChunkSlicesFit g present.now (map (λ chunk. chunk.now) chunks.now) (map (λ room. room.now) missing.now) }
{
    let lost = missing_count(present);
    let all = g.n() as usize;
    if present.len() != all {
        return false;
    }
    if !are_slices(chunks, all.saturating_sub(lost), g.chunk_len()) {
        return false;
    }
    are_rooms(missing, lost, g.chunk_len())
}

// Whether these are the data chunks, and there is room for the parity chunks.
fn data_fits(g: Geometry, chunks: &[&[u8]], parity: &[&mut [u8]]) -> bool
    ensures { IsTrue result ↔ DataSlicesFit g (map (λ chunk. chunk.now) chunks.now) (map (λ room. room.now) parity.now) }
{
    if !are_slices(chunks, g.k() as usize, g.chunk_len()) {
        return false;
    }
    are_rooms(parity, g.m() as usize, g.chunk_len())
}

/// Writes the parity chunks of a stripe, each to a slice of its own. `chunks` has the data chunks, each a slice of its own, and `parity` a
/// slice for each parity chunk.
///
/// Ends with `BAD_GEOMETRY`, `BAD_LENGTH` or `OUT_OF_MEMORY` otherwise, tested in this order.
#[unsafe(no_mangle)]
pub extern "C" fn clay_encode_chunks(
    alloc: Global,
    k: u32,
    m: u32,
    w: u32,
    chunks: &[&[u8]],
    parity: &mut [&mut [u8]],
) -> u32
    ensures geometry { (result ≡ bad_geometry) ↔ (IsGeometry (shape_of k m w) → ⊥) }
    ensures length { (result ≡ bad_length) ↔ (IsGeometry (shape_of k m w)
        × (DataSlicesFit (shape_of k m w) (map (λ chunk. chunk.now) chunks.now) (map (λ room. room.now) parity.old) → ⊥)) }
    ensures other { EndsByLength result }
    ensures encoded { result ≡ done → IsCodeword (shape_of k m w) (map (λ chunk. chunk.now) chunks.now ++ map (λ room. room.now) parity.new) }
    ensures kept { result ≢ done → parity.new ≡ parity.old }
{
    let Some(g) = geometry(k, m, w) else {
        return BAD_GEOMETRY;
    };
    if !data_fits(g, chunks, parity) {
        return BAD_LENGTH;
    }
    match write_parity_apart(alloc, g, chunks, parity) {
        Ok(()) => DONE,
        Err(_) => OUT_OF_MEMORY,
    }
}

/// Writes the missing chunks, each to a slice of its own. `present` has a byte for each chunk, 0 where it is missing. `chunks` has those that
/// are there by rising number, each a slice of its own, and `missing` a slice for each other one by rising number.
///
/// Ends with `BAD_GEOMETRY`, `BAD_LENGTH`, `TOO_FEW` or `OUT_OF_MEMORY` otherwise, tested in this order.
#[unsafe(no_mangle)]
pub extern "C" fn clay_recover_chunks(
    alloc: Global,
    k: u32,
    m: u32,
    w: u32,
    present: &[u8],
    chunks: &[&[u8]],
    missing: &mut [&mut [u8]],
) -> u32
    ensures geometry { (result ≡ bad_geometry) ↔ (IsGeometry (shape_of k m w) → ⊥) }
    ensures length { (result ≡ bad_length) ↔ (IsGeometry (shape_of k m w)
        × (ChunkSlicesFit (shape_of k m w) present.now (map (λ chunk. chunk.now) chunks.now) (map (λ room. room.now) missing.old) → ⊥)) }
    ensures few { (result ≡ too_few) ↔ (IsGeometry (shape_of k m w)
        × ChunkSlicesFit (shape_of k m w) present.now (map (λ chunk. chunk.now) chunks.now) (map (λ room. room.now) missing.old)
        × (m < lost_count present.now)) }
    ensures other { result ≢ bad_geometry → result ≢ bad_length → result ≢ too_few → result ≢ done → result ≡ out_of_memory }
    ensures recovered { result ≡ done → RecoversApart (shape_of k m w) present.now (map (λ chunk. chunk.now) chunks.now) (map (λ room. room.now) missing.new) }
    ensures kept { result ≢ done → missing.new ≡ missing.old }
{
    let Some(g) = geometry(k, m, w) else {
        return BAD_GEOMETRY;
    };
    if !chunks_fit(g, present, chunks, missing) {
        return BAD_LENGTH;
    }
    if missing_count(present) > g.m() as usize {
        return TOO_FEW;
    }
    match write_missing_apart(alloc, g, present, chunks, missing) {
        Ok(()) => DONE,
        Err(_) => OUT_OF_MEMORY,
    }
}

/// Writes a lost chunk, from the parts of the others by rising number, each a slice of its own. A part has the chunk's subchunks of the
/// repair layers.
///
/// Ends with `BAD_GEOMETRY`, `BAD_CHUNK`, `BAD_LENGTH` or `OUT_OF_MEMORY` otherwise, tested in this order.
#[unsafe(no_mangle)]
pub extern "C" fn clay_rebuild_chunks(
    alloc: Global,
    k: u32,
    m: u32,
    w: u32,
    lost: u32,
    parts: &[&[u8]],
    chunk: &mut [u8],
) -> u32
    ensures geometry { (result ≡ bad_geometry) ↔ (IsGeometry (shape_of k m w) → ⊥) }
    ensures chunk { (result ≡ bad_chunk) ↔ (IsGeometry (shape_of k m w) × (lost < k + m → ⊥)) }
    ensures length { (result ≡ bad_length) ↔ (IsGeometry (shape_of k m w) × (lost < k + m)
        × (PartSlicesFit (shape_of k m w) (map (λ part. part.now) parts.now) chunk.old → ⊥)) }
    ensures other { EndsByChunk result }
    ensures rebuilt { result ≡ done → RebuildsApart (shape_of k m w) lost (map (λ part. part.now) parts.now) chunk.new }
    ensures kept { result ≢ done → chunk.new ≡ chunk.old }
{
    let Some(g) = geometry(k, m, w) else {
        return BAD_GEOMETRY;
    };
    if lost >= g.n() {
        return BAD_CHUNK;
    }
    if !parts_fit(g, parts, chunk) {
        return BAD_LENGTH;
    }
    match write_rebuilt_apart(alloc, g, lost, parts, chunk) {
        Ok(()) => DONE,
        Err(_) => OUT_OF_MEMORY,
    }
}
