//! The calls that read some layers of a lost chunk, while all other chunks are there.
ghost use Rattle.std.specs.Prelude.{◌≡◌, ◌≢◌, ◌+◌, ◌<◌, ◌≤◌, ◌↔◌, IsTrue};
ghost use Rattle.clay_grid.specs.Shape.{shape_of};
ghost use Rattle.clay_grid.specs.Limits.{IsGeometry};
ghost use Rattle.lost_layers.specs.LostPieces.{lost_pieces_of};
ghost use Rattle.clay_c.specs.Status.{done, bad_geometry, bad_length, bad_chunk, bad_layer, EndsByLayer};
ghost use Rattle.clay_c.specs.Lost.{run_of, AreLayers, piece_count, LostPiecesFit, LostBytesFit, ReadsLost};

use crate::c_status::{BAD_CHUNK, BAD_GEOMETRY, BAD_LAYER, BAD_LENGTH, DONE, OUT_OF_MEMORY};
use crate::geometry;
use crate::laid::write_run;
use clay_grid::Geometry;
use lost_layers::{LostPiece, LostRun, PlacedRun, count_of_run, pieces_of_run};
use std::alloc::Global;

/// Whether a chunk has these layers.
pub fn are_layers(g: Geometry, from: u32, to: u32) -> bool
    ensures { IsTrue result ↔ AreLayers g from to }
{
    if from > to {
        return false;
    }
    to <= g.alpha()
}

// Whether these are as many subchunks as the run takes, and room for its own.
fn bytes_fit(g: Geometry, run: LostRun, count: u32, pieces: &[u8], subchunks: &[u8]) -> bool
    requires run { run.from ≤ run.to }
    requires count { count ≡ piece_count g run }
    ensures { IsTrue result ↔ LostBytesFit g run pieces.now subchunks.now }
{
    if pieces.len() != count as usize * g.w() as usize {
        return false;
    }
    subchunks.len() == (run.to - run.from) as usize * g.w() as usize
}

/// Writes how many subchunks of other chunks determine the layers `from..to` of a lost chunk.
///
/// Ends with `BAD_GEOMETRY`, `BAD_CHUNK` or `BAD_LAYER` otherwise, tested in this order.
#[unsafe(no_mangle)]
pub extern "C" fn clay_lost_count(
    k: u32,
    m: u32,
    w: u32,
    lost: u32,
    from: u32,
    to: u32,
    count: &mut u32,
) -> u32
    ensures geometry { (result ≡ bad_geometry) ↔ (IsGeometry (shape_of k m w) → ⊥) }
    ensures chunk { (result ≡ bad_chunk) ↔ (IsGeometry (shape_of k m w) × (lost < k + m → ⊥)) }
    ensures layer { (result ≡ bad_layer) ↔ (IsGeometry (shape_of k m w) × (lost < k + m) × (AreLayers (shape_of k m w) from to → ⊥)) }
    ensures other { result ≢ bad_geometry → result ≢ bad_chunk → result ≢ bad_layer → result ≡ done }
    ensures count { result ≡ done → count.new ≡ piece_count (shape_of k m w) (run_of lost from to) }
    ensures kept { result ≢ done → count.new ≡ count.old }
{
    let Some(g) = geometry(k, m, w) else {
        return BAD_GEOMETRY;
    };
    if lost >= g.n() {
        return BAD_CHUNK;
    }
    if !are_layers(g, from, to) {
        return BAD_LAYER;
    }
    *count = count_of_run(&PlacedRun::new(g, LostRun { lost, from, to }));
    DONE
}

/// Writes which subchunks of other chunks determine the layers `from..to` of a lost chunk: by rising chunk, and of a chunk by rising layer.
/// `pieces` has room for just them.
///
/// Ends with `BAD_GEOMETRY`, `BAD_CHUNK`, `BAD_LAYER`, `BAD_LENGTH` or `OUT_OF_MEMORY` otherwise, tested in this order.
#[unsafe(no_mangle)]
pub extern "C" fn clay_lost_pieces(
    alloc: Global,
    k: u32,
    m: u32,
    w: u32,
    lost: u32,
    from: u32,
    to: u32,
    pieces: &mut [LostPiece],
) -> u32
    ensures geometry { (result ≡ bad_geometry) ↔ (IsGeometry (shape_of k m w) → ⊥) }
    ensures chunk { (result ≡ bad_chunk) ↔ (IsGeometry (shape_of k m w) × (lost < k + m → ⊥)) }
    ensures layer { (result ≡ bad_layer) ↔ (IsGeometry (shape_of k m w) × (lost < k + m) × (AreLayers (shape_of k m w) from to → ⊥)) }
    ensures length { (result ≡ bad_length) ↔ (IsGeometry (shape_of k m w) × (lost < k + m) × AreLayers (shape_of k m w) from to
        × (LostPiecesFit (shape_of k m w) (run_of lost from to) pieces.old → ⊥)) }
    ensures other { EndsByLayer result }
    ensures pieces { result ≡ done → pieces.new ≡ lost_pieces_of (shape_of k m w) (run_of lost from to) }
    ensures kept { result ≢ done → pieces.new ≡ pieces.old }
{
    let Some(g) = geometry(k, m, w) else {
        return BAD_GEOMETRY;
    };
    if lost >= g.n() {
        return BAD_CHUNK;
    }
    if !are_layers(g, from, to) {
        return BAD_LAYER;
    }
    let placed = PlacedRun::new(g, LostRun { lost, from, to });
    if pieces.len() != count_of_run(&placed) as usize {
        return BAD_LENGTH;
    }
    let Ok(read) = pieces_of_run(alloc, &placed) else {
        return OUT_OF_MEMORY;
    };
    pieces.copy_from_slice(&read);
    DONE
}

/// Writes the layers `from..to` of a lost chunk, one behind another, from the subchunks that `clay_lost_pieces` lists. These stand one
/// behind another in its order, and are read where they stand.
///
/// Ends with `BAD_GEOMETRY`, `BAD_CHUNK`, `BAD_LAYER`, `BAD_LENGTH` or `OUT_OF_MEMORY` otherwise, tested in this order.
#[unsafe(no_mangle)]
pub extern "C" fn clay_read_lost(
    alloc: Global,
    k: u32,
    m: u32,
    w: u32,
    lost: u32,
    from: u32,
    to: u32,
    pieces: &[u8],
    subchunks: &mut [u8],
) -> u32
    ensures geometry { (result ≡ bad_geometry) ↔ (IsGeometry (shape_of k m w) → ⊥) }
    ensures chunk { (result ≡ bad_chunk) ↔ (IsGeometry (shape_of k m w) × (lost < k + m → ⊥)) }
    ensures layer { (result ≡ bad_layer) ↔ (IsGeometry (shape_of k m w) × (lost < k + m) × (AreLayers (shape_of k m w) from to → ⊥)) }
    ensures length { (result ≡ bad_length) ↔ (IsGeometry (shape_of k m w) × (lost < k + m) × AreLayers (shape_of k m w) from to
        × (LostBytesFit (shape_of k m w) (run_of lost from to) pieces.now subchunks.old → ⊥)) }
    ensures other { EndsByLayer result }
    ensures read { result ≡ done → ReadsLost (shape_of k m w) (run_of lost from to) pieces.now subchunks.new }
    ensures kept { result ≢ done → subchunks.new ≡ subchunks.old }
{
    let Some(g) = geometry(k, m, w) else {
        return BAD_GEOMETRY;
    };
    if lost >= g.n() {
        return BAD_CHUNK;
    }
    if !are_layers(g, from, to) {
        return BAD_LAYER;
    }
    let run = LostRun { lost, from, to };
    let placed = PlacedRun::new(g, run);
    let count = count_of_run(&placed);
    if !bytes_fit(g, run, count, pieces, subchunks) {
        return BAD_LENGTH;
    }
    match write_run(alloc, &placed, count, pieces, subchunks) {
        Ok(()) => DONE,
        Err(_) => OUT_OF_MEMORY,
    }
}
