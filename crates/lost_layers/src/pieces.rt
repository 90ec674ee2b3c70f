//! The pieces of a run, and how many there are.
ghost use Rattle.std.specs.Prelude.{◌≡◌, ℕ, ◌+◌, ◌*◌, ◌<◌, ◌≤◌, ◌++◌, map, length, IfOk, IfErr, OnOk};
ghost use Rattle.clay_grid.specs.Shape.{chunk_count, layer_count};
ghost use Rattle.lost_layers.specs.LostLayers.{IsLostRun};
ghost use Rattle.lost_layers.specs.LostPieces.{lost_layers_of, lost_pieces_of, piece_at};
ghost use Rattle.lost_layers.specs.Refused.{IsRefused};
ghost use Rattle.lost_layers.specs.Placing.{IsPlaced};

use crate::lost_fault::LostFault;
use crate::placed::PlacedRun;
use crate::run::{LostPiece, LostRun};
use clay_grid::Geometry;
use std::alloc::{AllocError, Global};

// The run with its place, if it is one of the code's.
fn checked(g: Geometry, run: LostRun) -> Result<PlacedRun, LostFault>
    ensures placed { IfOk result (λ placed. IsPlaced placed × (placed.g ≡ g) × (placed.run ≡ run)) }
    ensures refused { IfErr result (λ fault. IsRefused g run fault) }
{
    if run.lost >= g.n() {
        return Err(LostFault::NoSuchChunk);
    }
    if run.to < run.from || run.to > g.alpha() {
        return Err(LostFault::NoSuchLayers);
    }
    Ok(PlacedRun::new(g, run))
}

// How many subchunks of a chunk are read.
fn count_of_chunk(placed: &PlacedRun, chunk: u32) -> u32
    requires placed { IsPlaced placed.now }
    requires chunk { chunk < chunk_count placed.now.g }
    ensures count { result ≡ length (lost_layers_of placed.now.g placed.now.run chunk) }
    ensures within { result ≤ layer_count placed.now.g }
{
    let node = placed.g.node_of_chunk(chunk);
    let mut count = 0;
    for layer in 0..placed.g.alpha() {
        count += u32::from(placed.is_piece(node, layer));
    }
    count
}

/// How many subchunks are read for a run of the code.
pub fn count_of_run(placed: &PlacedRun) -> u32
    requires { IsPlaced placed.now }
    ensures count { result ≡ length (lost_pieces_of placed.now.g placed.now.run) }
    ensures within { result ≤ chunk_count placed.now.g * 1024 }
{
    let mut count = 0;
    for chunk in 0..placed.g.n() {
        count += count_of_chunk(placed, chunk);
    }
    count
}

// Appends the subchunks of a chunk that are read.
fn push_chunk(placed: &PlacedRun, chunk: u32, pieces: &mut Vec<LostPiece>) -> Result<(), AllocError>
    requires placed { IsPlaced placed.now }
    requires chunk { chunk < chunk_count placed.now.g }
    ensures { OnOk result (pieces.new.items
        ≡ pieces.old.items ++ map (piece_at chunk) (lost_layers_of placed.now.g placed.now.run chunk)) }
{
    let node = placed.g.node_of_chunk(chunk);
    for layer in 0..placed.g.alpha() {
        if placed.is_piece(node, layer) {
            pieces.push(LostPiece { chunk, layer })?;
        }
    }
    Ok(())
}

/// The subchunks that are read for a run of the code, as `lost_pieces` lists them.
pub fn pieces_of_run(alloc: Global, placed: &PlacedRun) -> Result<Vec<LostPiece>, AllocError>
    requires { IsPlaced placed.now }
    ensures { IfOk result (λ pieces. pieces.items ≡ lost_pieces_of placed.now.g placed.now.run) }
{
    let mut pieces = Vec::new(alloc);
    for chunk in 0..placed.g.n() {
        push_chunk(placed, chunk, &mut pieces)?;
    }
    Ok(pieces)
}

/// The subchunks that determine the layers of the run, while all other chunks are there: by rising chunk, and of a chunk by rising
/// layer.
pub fn lost_pieces(alloc: Global, g: Geometry, run: LostRun) -> Result<Vec<LostPiece>, LostFault>
    ensures pieces { IfOk result (λ pieces. IsLostRun g run × (pieces.items ≡ lost_pieces_of g run)) }
    ensures refused { IfErr result (λ fault. IsRefused g run fault) }
{
    let placed = checked(g, run)?;
    let pieces = pieces_of_run(alloc, &placed)?;
    Ok(pieces)
}

/// How many subchunks `lost_pieces` lists.
pub fn lost_count(g: Geometry, run: LostRun) -> Result<u32, LostFault>
    ensures count { IfOk result (λ count. IsLostRun g run × (count ≡ length (lost_pieces_of g run))) }
    ensures refused { IfErr result (λ fault. IsRefused g run fault) }
{
    let placed = checked(g, run)?;
    Ok(count_of_run(&placed))
}
