//! The calls that read some layers of a lost chunk, while other chunks are missing too.
ghost use Rattle.std.specs.Prelude.{◌≡◌, ◌≢◌, ◌+◌, ◌<◌, ◌≤◌, ◌↔◌, map, length};
ghost use Rattle.clay_grid.specs.Shape.{shape_of};
ghost use Rattle.clay_grid.specs.Limits.{IsGeometry};
ghost use Rattle.lost_layers.specs.Without.{Determine};
ghost use Rattle.clay_c.specs.Status.{done, bad_geometry, bad_length, bad_chunk, too_few, out_of_memory, bad_layer, EndsByMarks};
ghost use Rattle.clay_c.specs.Lost.{run_of, AreLayers};
ghost use Rattle.lost_read.specs.There.{there_of, gone_with, pieces_with, ReadsWithout};
ghost use Rattle.clay_c.specs.Without.{ListFits, BytesFit};

use crate::c_status::{
    BAD_CHUNK, BAD_GEOMETRY, BAD_LAYER, BAD_LENGTH, DONE, OUT_OF_MEMORY, TOO_FEW,
};
use crate::geometry;
use crate::lost_calls::are_layers;
use lost_layers::{LostPiece, LostRun};
use lost_read::{are_few, count_without, pieces_without, read_without};
use std::alloc::Global;

/// Writes how many subchunks of chunks that are there determine the layers `from..to` of a lost chunk. `present` has a byte for each chunk,
/// 0 where it is missing. That of the lost one doesn't count.
///
/// Ends with `BAD_GEOMETRY`, `BAD_CHUNK`, `BAD_LAYER`, `BAD_LENGTH`, `TOO_FEW` or `OUT_OF_MEMORY` otherwise, tested in this order.
#[unsafe(no_mangle)]
pub extern "C" fn clay_missing_count(
    alloc: Global,
    k: u32,
    m: u32,
    w: u32,
    lost: u32,
    from: u32,
    to: u32,
    present: &[u8],
    count: &mut u32,
) -> u32
    ensures geometry { (result ≡ bad_geometry) ↔ (IsGeometry (shape_of k m w) → ⊥) }
    ensures chunk { (result ≡ bad_chunk) ↔ (IsGeometry (shape_of k m w) × (lost < k + m → ⊥)) }
    ensures layer { (result ≡ bad_layer) ↔ (IsGeometry (shape_of k m w) × (lost < k + m) × (AreLayers (shape_of k m w) from to → ⊥)) }
    ensures length { (result ≡ bad_length) ↔ (IsGeometry (shape_of k m w) × (lost < k + m) × AreLayers (shape_of k m w) from to
        × (length present.now ≢ k + m)) }
    ensures few { (result ≡ too_few) ↔ (IsGeometry (shape_of k m w) × (lost < k + m) × AreLayers (shape_of k m w) from to
        × (length present.now ≡ k + m) × (m < gone_with (shape_of k m w) (run_of lost from to) present.now)) }
    ensures memory { result ≡ out_of_memory → IsGeometry (shape_of k m w) × (lost < k + m) × AreLayers (shape_of k m w) from to
        × (length present.now ≡ k + m) × (gone_with (shape_of k m w) (run_of lost from to) present.now ≤ m) }
    ensures other { EndsByMarks result }
    ensures count { result ≡ done → count.new ≡ length (pieces_with (shape_of k m w) (run_of lost from to) present.now) }
    ensures kept { result ≢ done → count.new ≡ count.old }
{
    let Some(g) = geometry(k, m, w) else {
        return BAD_GEOMETRY;
    };
    if lost >= g.n() {
        return BAD_CHUNK;
    }
    if !are_layers(g, from, to) {
        return BAD_LAYER;
    }
    if present.len() != g.n() as usize {
        return BAD_LENGTH;
    }
    let run = LostRun { lost, from, to };
    if !are_few(g, run, present) {
        return TOO_FEW;
    }
    let Ok(counted) = count_without(alloc, g, run, present) else {
        return OUT_OF_MEMORY;
    };
    *count = counted;
    DONE
}

/// Writes which these subchunks are: by rising chunk, and of a chunk by rising layer. `pieces` has room for just them.
///
/// Ends with `BAD_GEOMETRY`, `BAD_CHUNK`, `BAD_LAYER`, `BAD_LENGTH` of `present`, `TOO_FEW`, `OUT_OF_MEMORY` or `BAD_LENGTH` of `pieces`
/// otherwise, tested in this order.
#[unsafe(no_mangle)]
pub extern "C" fn clay_missing_pieces(
    alloc: Global,
    k: u32,
    m: u32,
    w: u32,
    lost: u32,
    from: u32,
    to: u32,
    present: &[u8],
    pieces: &mut [LostPiece],
) -> u32
    ensures geometry { (result ≡ bad_geometry) ↔ (IsGeometry (shape_of k m w) → ⊥) }
    ensures chunk { (result ≡ bad_chunk) ↔ (IsGeometry (shape_of k m w) × (lost < k + m → ⊥)) }
    ensures layer { (result ≡ bad_layer) ↔ (IsGeometry (shape_of k m w) × (lost < k + m) × (AreLayers (shape_of k m w) from to → ⊥)) }
    ensures length { (result ≡ bad_length) ↔ (IsGeometry (shape_of k m w) × (lost < k + m) × AreLayers (shape_of k m w) from to
        × (ListFits (shape_of k m w) (run_of lost from to) present.now pieces.old → ⊥) × (result ≢ out_of_memory)) }
    ensures few { (result ≡ too_few) ↔ (IsGeometry (shape_of k m w) × (lost < k + m) × AreLayers (shape_of k m w) from to
        × (length present.now ≡ k + m) × (m < gone_with (shape_of k m w) (run_of lost from to) present.now)) }
    ensures memory { result ≡ out_of_memory → IsGeometry (shape_of k m w) × (lost < k + m) × AreLayers (shape_of k m w) from to
        × (length present.now ≡ k + m) × (gone_with (shape_of k m w) (run_of lost from to) present.now ≤ m) }
    ensures other { EndsByMarks result }
    ensures pieces { result ≡ done → pieces.new ≡ pieces_with (shape_of k m w) (run_of lost from to) present.now }
    ensures determine { result ≡ done → Determine (shape_of k m w) (run_of lost from to) (there_of present.now) pieces.new }
    ensures kept { result ≢ done → pieces.new ≡ pieces.old }
{
    let Some(g) = geometry(k, m, w) else {
        return BAD_GEOMETRY;
    };
    if lost >= g.n() {
        return BAD_CHUNK;
    }
    if !are_layers(g, from, to) {
        return BAD_LAYER;
    }
    if present.len() != g.n() as usize {
        return BAD_LENGTH;
    }
    let run = LostRun { lost, from, to };
    if !are_few(g, run, present) {
        return TOO_FEW;
    }
    let Ok(read) = pieces_without(alloc, g, run, present) else {
        return OUT_OF_MEMORY;
    };
    if pieces.len() != read.len() {
        return BAD_LENGTH;
    }
    pieces.copy_from_slice(&read);
    DONE
}

/// Writes the layers `from..to` of a lost chunk, one behind another, from the bytes of these subchunks, each a slice of its own, in the
/// order of `clay_missing_pieces`.
///
/// Ends with `BAD_GEOMETRY`, `BAD_CHUNK`, `BAD_LAYER`, `BAD_LENGTH` of `present`, `TOO_FEW`, or `OUT_OF_MEMORY` or another `BAD_LENGTH`
/// otherwise, tested in this order.
#[unsafe(no_mangle)]
pub extern "C" fn clay_read_missing(
    alloc: Global,
    k: u32,
    m: u32,
    w: u32,
    lost: u32,
    from: u32,
    to: u32,
    present: &[u8],
    pieces: &[&[u8]],
    subchunks: &mut [u8],
) -> u32
    ensures geometry { (result ≡ bad_geometry) ↔ (IsGeometry (shape_of k m w) → ⊥) }
    ensures chunk { (result ≡ bad_chunk) ↔ (IsGeometry (shape_of k m w) × (lost < k + m → ⊥)) }
    ensures layer { (result ≡ bad_layer) ↔ (IsGeometry (shape_of k m w) × (lost < k + m) × (AreLayers (shape_of k m w) from to → ⊥)) }
    ensures length { (result ≡ bad_length) ↔ (IsGeometry (shape_of k m w) × (lost < k + m) × AreLayers (shape_of k m w) from to
        × (BytesFit (shape_of k m w) (run_of lost from to) present.now (map (λ piece. piece.now) pieces.now) subchunks.old → ⊥) × (result ≢ out_of_memory)) }
    ensures few { (result ≡ too_few) ↔ (IsGeometry (shape_of k m w) × (lost < k + m) × AreLayers (shape_of k m w) from to
        × (length present.now ≡ k + m) × (m < gone_with (shape_of k m w) (run_of lost from to) present.now)) }
    ensures memory { result ≡ out_of_memory → IsGeometry (shape_of k m w) × (lost < k + m) × AreLayers (shape_of k m w) from to
        × (length present.now ≡ k + m) × (gone_with (shape_of k m w) (run_of lost from to) present.now ≤ m) }
    ensures other { EndsByMarks result }
    ensures read { result ≡ done → ReadsWithout (shape_of k m w) (run_of lost from to) present.now (map (λ piece. piece.now) pieces.now) subchunks.new }
    ensures kept { result ≢ done → subchunks.new ≡ subchunks.old }
{
    let Some(g) = geometry(k, m, w) else {
        return BAD_GEOMETRY;
    };
    if lost >= g.n() {
        return BAD_CHUNK;
    }
    if !are_layers(g, from, to) {
        return BAD_LAYER;
    }
    if present.len() != g.n() as usize {
        return BAD_LENGTH;
    }
    let run = LostRun { lost, from, to };
    if !are_few(g, run, present) {
        return TOO_FEW;
    }
    let Ok(fits) = read_without(alloc, g, run, present, pieces, subchunks) else {
        return OUT_OF_MEMORY;
    };
    if !fits {
        return BAD_LENGTH;
    }
    DONE
}
