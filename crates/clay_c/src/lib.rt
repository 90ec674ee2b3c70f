//! Clay codes for callers in C, as `include/clay.h` declares them. Each call tests the numbers and lengths that it is given, and writes
//! nothing where it doesn't end with `DONE`.
#![tactic(auto)]

ghost use Rattle.std.specs.Prelude.{◌≡◌, ◌≢◌, ◌+◌, ◌<◌, ◌↔◌, MatchOption, IsTrue};
ghost use Rattle.clay_grid.specs.Shape.{shape_of};
ghost use Rattle.clay_grid.specs.Limits.{IsGeometry};
ghost use Rattle.clay_grid.specs.Repair.{repair_layers_of};
ghost use Rattle.clay_c.specs.Status.{done, bad_geometry, bad_length, bad_chunk, too_few, out_of_memory, EndsByLength, EndsByChunk};
ghost use Rattle.clay_c.specs.Calls.{HasNumbers, LayersFit, ParityFits, MakesParity, ChunksFit, lost_count, Recovers, PartsFit, Rebuilds};

mod aloof;
mod c_status;
mod calls_apart;
mod encode_calls;
mod helper_calls;
mod laid;
mod lost_calls;
mod marks;
mod piece_starts;
mod rebuild_calls;
mod recover_calls;
mod without;

use crate::c_status::{BAD_CHUNK, BAD_GEOMETRY, BAD_LENGTH, DONE, OUT_OF_MEMORY, TOO_FEW};
use crate::rebuild_calls::{part_len, write_rebuilt};
use crate::recover_calls::{missing_count, write_missing, write_parity};
pub use calls_apart::{clay_encode_chunks, clay_rebuild_chunks, clay_recover_chunks};
use clay_grid::Geometry;
pub use helper_calls::{
    clay_geometry_with_helpers, clay_parity_with_helpers, clay_rebuild_with_helpers,
    clay_recover_with_helpers, clay_repair_layers_with_helpers,
};
pub use lost_calls::{clay_lost_count, clay_lost_pieces, clay_read_lost};
use std::alloc::Global;
pub use without::{clay_missing_count, clay_missing_pieces, clay_read_missing};

/// The numbers of a code, as C sees them. Lengths are in bytes.
#[repr(C)]
#[derive(Clone, Copy, Debug, PartialEq, Eq)]
pub struct ClayNumbers {
    /// Data chunks and parity chunks.
    pub chunks: u32,
    /// The rows of the grid of nodes.
    pub rows: u32,
    /// The columns of the grid.
    pub columns: u32,
    /// Nodes that no chunk stands for.
    pub virtual_nodes: u32,
    /// The layers, and so the subchunks of a chunk.
    pub layers: u32,
    pub chunk_len: u32,
    /// The data chunks alone.
    pub stripe_len: u32,
    /// What a rebuild reads of each other chunk.
    pub part_len: u32,
}

// The geometry with these numbers, where there is one.
fn geometry(k: u32, m: u32, w: u32) -> Option<Geometry>
    ensures { MatchOption result (IsGeometry (shape_of k m w) → ⊥) (λ g. (g ≡ shape_of k m w) × IsGeometry (shape_of k m w)) }
{
    Geometry::new(k, m, w).ok()
}

// Whether these are a stripe, and room for its parity chunks.
fn parity_fits(g: Geometry, stripe: &[u8], parity: &[u8]) -> bool
    ensures { IsTrue result ↔ ParityFits g stripe.now parity.now }
{
    if stripe.len() != g.stripe_len() as usize {
        return false;
    }
    parity.len() == g.m() as usize * g.chunk_len() as usize
}

// Whether these are a mark for each chunk, and as many chunks.
fn chunks_fit(g: Geometry, present: &[u8], chunks: &[u8]) -> bool
    ensures { IsTrue result ↔ ChunksFit g present.now chunks.now }
{
    if present.len() != g.n() as usize {
        return false;
    }
    chunks.len() == g.n() as usize * g.chunk_len() as usize
}

// Whether these are parts of all but one chunk, and room for that one.
fn parts_fit(g: Geometry, parts: &[u8], chunk: &[u8]) -> bool
    ensures { IsTrue result ↔ PartsFit g parts.now chunk.now }
{
    let others = g.n() as usize - 1;
    if parts.len() != others * part_len(g) as usize {
        return false;
    }
    chunk.len() == g.chunk_len() as usize
}

/// Writes the numbers of the code of `k` data chunks, `m` parity chunks and subchunks of `w` bytes, or ends with `BAD_GEOMETRY`.
#[unsafe(no_mangle)]
pub extern "C" fn clay_geometry(k: u32, m: u32, w: u32, numbers: &mut ClayNumbers) -> u32
    ensures geometry { (result ≡ bad_geometry) ↔ (IsGeometry (shape_of k m w) → ⊥) }
    ensures other { result ≢ bad_geometry → result ≡ done }
    ensures numbers { result ≡ done → HasNumbers (shape_of k m w) numbers.new }
    ensures kept { result ≢ done → numbers.new ≡ numbers.old }
{
    let Some(g) = geometry(k, m, w) else {
        return BAD_GEOMETRY;
    };
    *numbers = ClayNumbers {
        chunks: g.n(),
        rows: g.q(),
        columns: g.t(),
        virtual_nodes: g.nu(),
        layers: g.alpha(),
        chunk_len: g.chunk_len(),
        stripe_len: g.stripe_len(),
        part_len: part_len(g),
    };
    DONE
}

/// Writes the layers whose subchunks a rebuild of a lost chunk reads, rising. `layers` has room for just them, the `m`th part of all.
///
/// Ends with `BAD_GEOMETRY`, `BAD_CHUNK`, `BAD_LENGTH` or `OUT_OF_MEMORY` otherwise, tested in this order.
#[unsafe(no_mangle)]
pub extern "C" fn clay_repair_layers(
    alloc: Global,
    k: u32,
    m: u32,
    w: u32,
    lost: u32,
    layers: &mut [u32],
) -> u32
    ensures geometry { (result ≡ bad_geometry) ↔ (IsGeometry (shape_of k m w) → ⊥) }
    ensures chunk { (result ≡ bad_chunk) ↔ (IsGeometry (shape_of k m w) × (lost < k + m → ⊥)) }
    ensures length { (result ≡ bad_length) ↔ (IsGeometry (shape_of k m w) × (lost < k + m) × (LayersFit (shape_of k m w) layers.old → ⊥)) }
    ensures other { EndsByChunk result }
    ensures layers { result ≡ done → layers.new ≡ repair_layers_of (shape_of k m w) lost }
    ensures kept { result ≢ done → layers.new ≡ layers.old }
{
    let Some(g) = geometry(k, m, w) else {
        return BAD_GEOMETRY;
    };
    if lost >= g.n() {
        return BAD_CHUNK;
    }
    if layers.len() != g.stride(0) as usize {
        return BAD_LENGTH;
    }
    let Ok(read) = g.repair_layers(alloc, lost) else {
        return OUT_OF_MEMORY;
    };
    layers.copy_from_slice(&read);
    DONE
}

/// Writes the parity chunks of a stripe, one behind another: `stripe` has the bytes of the data chunks, `parity` those of the parity chunks.
///
/// Ends with `BAD_GEOMETRY`, `BAD_LENGTH` or `OUT_OF_MEMORY` otherwise, tested in this order.
#[unsafe(no_mangle)]
pub extern "C" fn clay_parity(
    alloc: Global,
    k: u32,
    m: u32,
    w: u32,
    stripe: &[u8],
    parity: &mut [u8],
) -> u32
    ensures geometry { (result ≡ bad_geometry) ↔ (IsGeometry (shape_of k m w) → ⊥) }
    ensures length { (result ≡ bad_length) ↔ (IsGeometry (shape_of k m w) × (ParityFits (shape_of k m w) stripe.now parity.old → ⊥)) }
    ensures other { EndsByLength result }
    ensures parity { result ≡ done → MakesParity (shape_of k m w) stripe.now parity.new }
    ensures kept { result ≢ done → parity.new ≡ parity.old }
{
    let Some(g) = geometry(k, m, w) else {
        return BAD_GEOMETRY;
    };
    if !parity_fits(g, stripe, parity) {
        return BAD_LENGTH;
    }
    match write_parity(alloc, g, stripe, parity) {
        Ok(()) => DONE,
        Err(_) => OUT_OF_MEMORY,
    }
}

/// Writes the missing ones of all chunks, which stand one behind another, and leaves the others as they are. `present` has a byte for each
/// chunk, 0 where it is missing.
///
/// Ends with `BAD_GEOMETRY`, `BAD_LENGTH`, `TOO_FEW` or `OUT_OF_MEMORY` otherwise, tested in this order.
#[unsafe(no_mangle)]
pub extern "C" fn clay_recover(
    alloc: Global,
    k: u32,
    m: u32,
    w: u32,
    present: &[u8],
    chunks: &mut [u8],
) -> u32
    ensures geometry { (result ≡ bad_geometry) ↔ (IsGeometry (shape_of k m w) → ⊥) }
    ensures length { (result ≡ bad_length) ↔ (IsGeometry (shape_of k m w) × (ChunksFit (shape_of k m w) present.now chunks.old → ⊥)) }
    ensures few { (result ≡ too_few) ↔ (IsGeometry (shape_of k m w) × ChunksFit (shape_of k m w) present.now chunks.old × (m < lost_count present.now)) }
    ensures other { result ≢ bad_geometry → result ≢ bad_length → result ≢ too_few → result ≢ done → result ≡ out_of_memory }
    ensures recovered { result ≡ done → Recovers (shape_of k m w) present.now chunks.old chunks.new }
    ensures kept { result ≢ done → chunks.new ≡ chunks.old }
{
    let Some(g) = geometry(k, m, w) else {
        return BAD_GEOMETRY;
    };
    if !chunks_fit(g, present, chunks) {
        return BAD_LENGTH;
    }
    if missing_count(present) > g.m() as usize {
        return TOO_FEW;
    }
    match write_missing(alloc, g, present, chunks) {
        Ok(()) => DONE,
        Err(_) => OUT_OF_MEMORY,
    }
}

/// Writes the lost chunk, from the parts of the others by rising number, one behind another. A part has the chunk's subchunks of the repair
/// layers.
///
/// Ends with `BAD_GEOMETRY`, `BAD_CHUNK`, `BAD_LENGTH` or `OUT_OF_MEMORY` otherwise, tested in this order.
#[unsafe(no_mangle)]
pub extern "C" fn clay_rebuild(
    alloc: Global,
    k: u32,
    m: u32,
    w: u32,
    lost: u32,
    parts: &[u8],
    chunk: &mut [u8],
) -> u32
    ensures geometry { (result ≡ bad_geometry) ↔ (IsGeometry (shape_of k m w) → ⊥) }
    ensures chunk { (result ≡ bad_chunk) ↔ (IsGeometry (shape_of k m w) × (lost < k + m → ⊥)) }
    ensures length { (result ≡ bad_length) ↔ (IsGeometry (shape_of k m w) × (lost < k + m) × (PartsFit (shape_of k m w) parts.now chunk.old → ⊥)) }
    ensures other { EndsByChunk result }
    ensures rebuilt { result ≡ done → Rebuilds (shape_of k m w) lost parts.now chunk.new }
    ensures kept { result ≢ done → chunk.new ≡ chunk.old }
{
    let Some(g) = geometry(k, m, w) else {
        return BAD_GEOMETRY;
    };
    if lost >= g.n() {
        return BAD_CHUNK;
    }
    if !parts_fit(g, parts, chunk) {
        return BAD_LENGTH;
    }
    match write_rebuilt(alloc, g, lost, parts, chunk) {
        Ok(()) => DONE,
        Err(_) => OUT_OF_MEMORY,
    }
}
