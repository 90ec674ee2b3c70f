//! The calls for codes of which a rebuild has fewer helpers than there are other chunks.
ghost use Rattle.std.specs.Prelude.{◌≡◌, ◌≢◌, ◌+◌, ◌<◌, ◌↔◌, MatchOption, IsTrue};
ghost use Rattle.clay_aloof.specs.Shape.{aloof_of};
ghost use Rattle.clay_aloof.specs.Limits.{IsAloof};
ghost use Rattle.clay_aloof.specs.Repair.{aloof_layers_of};
ghost use Rattle.clay_c.specs.Status.{done, bad_geometry, bad_length, bad_chunk, out_of_memory, bad_helpers, too_few, EndsByLength, EndsByChunk};
ghost use Rattle.clay_c.specs.Helpers.{HasAloofNumbers, AloofLayersFit, AloofParityFits, MakesAloofParity, MarksFit, MarkedPartsFit, RebuildsAloof};
ghost use Rattle.clay_c.specs.Missing.{AloofChunksFit, RecoversAloof};
ghost use Rattle.clay_c.specs.Calls.{lost_count};

use crate::ClayNumbers;
use crate::aloof::{write_missing, write_parity, write_rebuilt};
use crate::c_status::{
    BAD_CHUNK, BAD_GEOMETRY, BAD_HELPERS, BAD_LENGTH, DONE, OUT_OF_MEMORY, TOO_FEW,
};
use crate::marks::marks_fit;
use crate::recover_calls::missing_count;
use clay_aloof::{AloofGeometry, aloof_layers};
use std::alloc::Global;

// The geometry with these numbers, where there is one.
fn geometry(k: u32, m: u32, d: u32, w: u32) -> Option<AloofGeometry>
    ensures { MatchOption result (IsAloof (aloof_of k m d w) → ⊥) (λ g. (g ≡ aloof_of k m d w) × IsAloof (aloof_of k m d w)) }
{
    AloofGeometry::new(k, m, d, w).ok()
}

// Whether these are a stripe, and room for its parity chunks.
fn parity_fits(g: AloofGeometry, stripe: &[u8], parity: &[u8]) -> bool
    ensures { IsTrue result ↔ AloofParityFits g stripe.now parity.now }
{
    if stripe.len() != g.stripe_len() as usize {
        return false;
    }
    parity.len() == g.m() as usize * g.chunk_len() as usize
}

// Whether these are a mark for each chunk, and as many chunks.
fn chunks_fit(g: AloofGeometry, present: &[u8], chunks: &[u8]) -> bool
    ensures { IsTrue result ↔ AloofChunksFit g present.now chunks.now }
{
    if present.len() != g.n() as usize {
        return false;
    }
    chunks.len() == g.n() as usize * g.chunk_len() as usize
}

// Whether these are a mark for each chunk, a part for each helper, and room for a chunk.
fn parts_fit(g: AloofGeometry, helpers: &[u8], parts: &[u8], chunk: &[u8]) -> bool
    ensures { IsTrue result ↔ MarkedPartsFit g helpers.now parts.now chunk.now }
{
    if helpers.len() != g.n() as usize {
        return false;
    }
    if parts.len() != g.d() as usize * g.part_len() as usize {
        return false;
    }
    chunk.len() == g.chunk_len() as usize
}

/// Writes the numbers of the code of `k` data chunks, `m` parity chunks, `d` helpers of a rebuild and subchunks of `w` bytes, or ends with
/// `BAD_GEOMETRY`.
#[unsafe(no_mangle)]
pub extern "C" fn clay_geometry_with_helpers(
    k: u32,
    m: u32,
    d: u32,
    w: u32,
    numbers: &mut ClayNumbers,
) -> u32
    ensures geometry { (result ≡ bad_geometry) ↔ (IsAloof (aloof_of k m d w) → ⊥) }
    ensures other { result ≢ bad_geometry → result ≡ done }
    ensures numbers { result ≡ done → HasAloofNumbers (aloof_of k m d w) numbers.new }
    ensures kept { result ≢ done → numbers.new ≡ numbers.old }
{
    let Some(g) = geometry(k, m, d, w) else {
        return BAD_GEOMETRY;
    };
    let grid = g.grid();
    *numbers = ClayNumbers {
        chunks: g.n(),
        rows: grid.q(),
        columns: grid.t(),
        virtual_nodes: grid.nu(),
        layers: grid.alpha(),
        chunk_len: g.chunk_len(),
        stripe_len: g.stripe_len(),
        part_len: g.part_len(),
    };
    DONE
}

/// Writes the parity chunks of a stripe, one behind another: `stripe` has the bytes of the data chunks, `parity` those of the parity chunks.
///
/// Ends with `BAD_GEOMETRY`, `BAD_LENGTH` or `OUT_OF_MEMORY` otherwise, tested in this order.
#[unsafe(no_mangle)]
pub extern "C" fn clay_parity_with_helpers(
    alloc: Global,
    k: u32,
    m: u32,
    d: u32,
    w: u32,
    stripe: &[u8],
    parity: &mut [u8],
) -> u32
    ensures geometry { (result ≡ bad_geometry) ↔ (IsAloof (aloof_of k m d w) → ⊥) }
    ensures length { (result ≡ bad_length) ↔ (IsAloof (aloof_of k m d w) × (AloofParityFits (aloof_of k m d w) stripe.now parity.old → ⊥)) }
    ensures other { EndsByLength result }
    ensures parity { result ≡ done → MakesAloofParity (aloof_of k m d w) stripe.now parity.new }
    ensures kept { result ≢ done → parity.new ≡ parity.old }
{
    let Some(g) = geometry(k, m, d, w) else {
        return BAD_GEOMETRY;
    };
    if !parity_fits(g, stripe, parity) {
        return BAD_LENGTH;
    }
    match write_parity(alloc, g, stripe, parity) {
        Ok(()) => DONE,
        Err(_) => OUT_OF_MEMORY,
    }
}

/// Writes the missing ones of all chunks, which stand one behind another, and leaves the others as they are. `present` has a byte for each
/// chunk, 0 where it is missing.
///
/// Ends with `BAD_GEOMETRY`, `BAD_LENGTH`, `TOO_FEW` or `OUT_OF_MEMORY` otherwise, tested in this order.
#[unsafe(no_mangle)]
pub extern "C" fn clay_recover_with_helpers(
    alloc: Global,
    k: u32,
    m: u32,
    d: u32,
    w: u32,
    present: &[u8],
    chunks: &mut [u8],
) -> u32
    ensures geometry { (result ≡ bad_geometry) ↔ (IsAloof (aloof_of k m d w) → ⊥) }
    ensures length { (result ≡ bad_length) ↔ (IsAloof (aloof_of k m d w) × (AloofChunksFit (aloof_of k m d w) present.now chunks.old → ⊥)) }
    ensures few { (result ≡ too_few) ↔ (IsAloof (aloof_of k m d w) × AloofChunksFit (aloof_of k m d w) present.now chunks.old × (m < lost_count present.now)) }
    ensures other { result ≢ bad_geometry → result ≢ bad_length → result ≢ too_few → result ≢ done → result ≡ out_of_memory }
    ensures recovered { result ≡ done → RecoversAloof (aloof_of k m d w) present.now chunks.old chunks.new }
    ensures kept { result ≢ done → chunks.new ≡ chunks.old }
{
    let Some(g) = geometry(k, m, d, w) else {
        return BAD_GEOMETRY;
    };
    if !chunks_fit(g, present, chunks) {
        return BAD_LENGTH;
    }
    if missing_count(present) > g.m() as usize {
        return TOO_FEW;
    }
    match write_missing(alloc, g, present, chunks) {
        Ok(()) => DONE,
        Err(_) => OUT_OF_MEMORY,
    }
}

/// Writes the layers whose subchunks a rebuild of a lost chunk reads from each helper, rising. `layers` has room for just them.
///
/// Ends with `BAD_GEOMETRY`, `BAD_CHUNK`, `BAD_LENGTH` or `OUT_OF_MEMORY` otherwise, tested in this order.
#[unsafe(no_mangle)]
pub extern "C" fn clay_repair_layers_with_helpers(
    alloc: Global,
    k: u32,
    m: u32,
    d: u32,
    w: u32,
    lost: u32,
    layers: &mut [u32],
) -> u32
    ensures geometry { (result ≡ bad_geometry) ↔ (IsAloof (aloof_of k m d w) → ⊥) }
    ensures chunk { (result ≡ bad_chunk) ↔ (IsAloof (aloof_of k m d w) × (lost < k + m → ⊥)) }
    ensures length { (result ≡ bad_length) ↔ (IsAloof (aloof_of k m d w) × (lost < k + m) × (AloofLayersFit (aloof_of k m d w) layers.old → ⊥)) }
    ensures other { EndsByChunk result }
    ensures layers { result ≡ done → layers.new ≡ aloof_layers_of (aloof_of k m d w) lost }
    ensures kept { result ≢ done → layers.new ≡ layers.old }
{
    let Some(g) = geometry(k, m, d, w) else {
        return BAD_GEOMETRY;
    };
    if lost >= g.n() {
        return BAD_CHUNK;
    }
    if layers.len() != g.grid().stride(0) as usize {
        return BAD_LENGTH;
    }
    let Ok(read) = aloof_layers(alloc, g, lost) else {
        return OUT_OF_MEMORY;
    };
    layers.copy_from_slice(&read);
    DONE
}

/// Writes the lost chunk, from the parts of `d` helpers by rising number, one behind another. A part has the chunk's subchunks of the repair
/// layers. `helpers` has a byte for each chunk, 0 where it doesn't help: each other chunk of the lost one's column does.
///
/// Ends with `BAD_GEOMETRY`, `BAD_CHUNK`, `BAD_LENGTH`, `BAD_HELPERS` or `OUT_OF_MEMORY` otherwise, tested in this order.
#[unsafe(no_mangle)]
pub extern "C" fn clay_rebuild_with_helpers(
    alloc: Global,
    k: u32,
    m: u32,
    d: u32,
    w: u32,
    lost: u32,
    helpers: &[u8],
    parts: &[u8],
    chunk: &mut [u8],
) -> u32
    ensures geometry { (result ≡ bad_geometry) ↔ (IsAloof (aloof_of k m d w) → ⊥) }
    ensures number { (result ≡ bad_chunk) ↔ (IsAloof (aloof_of k m d w) × (lost < k + m → ⊥)) }
    ensures length { (result ≡ bad_length) ↔ (IsAloof (aloof_of k m d w) × (lost < k + m) × (MarkedPartsFit (aloof_of k m d w) helpers.now parts.now chunk.old → ⊥)) }
    ensures unfit { (result ≡ bad_helpers) ↔ (IsAloof (aloof_of k m d w) × (lost < k + m) × MarkedPartsFit (aloof_of k m d w) helpers.now parts.now chunk.old
        × (MarksFit (aloof_of k m d w) lost helpers.now → ⊥)) }
    ensures other { result ≢ bad_geometry → result ≢ bad_chunk → result ≢ bad_length → result ≢ bad_helpers → result ≢ done → result ≡ out_of_memory }
    ensures rebuilt { result ≡ done → RebuildsAloof (aloof_of k m d w) lost helpers.now parts.now chunk.new }
    ensures kept { result ≢ done → chunk.new ≡ chunk.old }
{
    let Some(g) = geometry(k, m, d, w) else {
        return BAD_GEOMETRY;
    };
    if lost >= g.n() {
        return BAD_CHUNK;
    }
    if !parts_fit(g, helpers, parts, chunk) {
        return BAD_LENGTH;
    }
    if !marks_fit(g, lost, helpers) {
        return BAD_HELPERS;
    }
    match write_rebuilt(alloc, g, lost, helpers, parts, chunk) {
        Ok(()) => DONE,
        Err(_) => OUT_OF_MEMORY,
    }
}
