//! The pieces of a run.
ghost use Rattle.std.specs.Prelude.{◌≡◌, ℕ, ◌<◌, ◌≤◌, ◌++◌, length, map, IfOk, OnOk};
ghost use Rattle.clay_grid.specs.Shape.{chunk_count, node_count, layer_count};
ghost use Rattle.lost_layers.specs.LostPieces.{piece_at};
ghost use Rattle.lost_layers.specs.Erased.{is_missing, is_unknown};
ghost use Rattle.lost_layers.specs.ErasedLayers.{is_solved};
ghost use Rattle.lost_layers.specs.ErasedPieces.{is_used, is_piece, layers_read, pieces_of};
ghost use Rattle.lost_layers.specs.ErasedRuns.{erased_of, solved_of, IsErasedRun, AreSolved, IsSolvedRun};

use crate::erased::{ErasedRun, partner_in};
use crate::placed::PlacedRun;
use crate::run::LostPiece;
use std::alloc::{AllocError, Global};

/// A run, and for each layer whether it is solved for it.
#[derive(Clone, Copy)]
pub struct SolvedRun<'a> {
    pub placed: PlacedRun,
    /// For each node, whether its chunk is missing.
    pub missing: &'a [bool],
    /// For each node, whether its values count as unknown.
    pub unknown: &'a [bool],
    /// For each layer, whether its uncoupled values are solved for.
    pub solved: &'a [bool],
}

// For each layer, whether it is solved.
pub(crate) fn solved_layers(alloc: Global, erased: &ErasedRun<'_>) -> Result<Vec<bool>, AllocError>
    requires { IsErasedRun erased.now }
    ensures { IfOk result (λ solved. AreSolved (erased_of erased.now) (layer_count erased.now.placed.g) solved.items) }
{
    let mut solved = Vec::with_capacity(alloc, erased.placed.g.alpha() as usize)?;
    for layer in 0..erased.placed.g.alpha() {
        solved.push(erased.is_solved(layer))?;
    }
    Ok(solved)
}

impl<'a> SolvedRun<'a> {
    /// Whether the node's chunk is missing.
    pub fn is_missing(&self, node: u32) -> bool
        requires run { IsSolvedRun self.now }
        requires node { node < node_count self.now.placed.g }
        ensures { result ≡ is_missing (solved_of self.now) node }
    {
        self.missing[node as usize]
    }

    /// Whether the node's values count as unknown.
    pub fn is_unknown(&self, node: u32) -> bool
        requires run { IsSolvedRun self.now }
        requires node { node < node_count self.now.placed.g }
        ensures { result ≡ is_unknown (solved_of self.now) node }
    {
        self.unknown[node as usize]
    }

    /// Whether the uncoupled values of the layer are solved for.
    pub fn is_solved(&self, layer: u32) -> bool
        requires run { IsSolvedRun self.now }
        requires layer { layer < layer_count self.now.placed.g }
        ensures { result ≡ is_solved (solved_of self.now) layer }
    {
        self.solved[layer as usize]
    }

    // Whether the node's value in the layer isn't unknown, and is used.
    fn is_used(&self, node: u32, layer: u32) -> bool
        requires run { IsSolvedRun self.now }
        requires node { node < node_count self.now.placed.g }
        requires layer { layer < layer_count self.now.placed.g }
        ensures { result ≡ is_used (solved_of self.now) node layer }
    {
        !self.is_unknown(node) && self.is_solved(layer)
    }

    // Whether the node's subchunk of the layer is read.
    fn is_piece(&self, node: u32, layer: u32) -> bool
        requires run { IsSolvedRun self.now }
        requires node { node < node_count self.now.placed.g }
        requires layer { layer < layer_count self.now.placed.g }
        ensures { result ≡ is_piece (solved_of self.now) node layer }
    {
        let placed = self.placed;
        let partner = partner_in(self.placed.g, node, layer);
        !self.is_unknown(node)
            && (self.is_used(node, layer) || self.is_used(partner.node, partner.layer))
            || !self.is_missing(node)
                && partner.node == placed.node
                && partner.layer >= placed.run.from
                && partner.layer < placed.run.to
    }

    // Appends the subchunks of a chunk that are read.
    fn push_chunk(&self, chunk: u32, pieces: &mut Vec<LostPiece>) -> Result<(), AllocError>
        requires run { IsSolvedRun self.now }
        requires chunk { chunk < chunk_count self.now.placed.g }
        ensures { OnOk result (pieces.new.items
            ≡ pieces.old.items ++ map (piece_at chunk) (layers_read (solved_of self.now) chunk)) }
    {
        let g = self.placed.g;
        let node = g.node_of_chunk(chunk);
        for layer in 0..g.alpha() {
            if self.is_piece(node, layer) {
                pieces.push(LostPiece { chunk, layer })?;
            }
        }
        Ok(())
    }

    // How many subchunks of a chunk are read.
    fn count_of_chunk(&self, chunk: u32) -> u32
        requires run { IsSolvedRun self.now }
        requires chunk { chunk < chunk_count self.now.placed.g }
        ensures count { result ≡ length (layers_read (solved_of self.now) chunk) }
        ensures within { result ≤ layer_count self.now.placed.g }
    {
        let g = self.placed.g;
        let node = g.node_of_chunk(chunk);
        let mut count = 0;
        for layer in 0..g.alpha() {
            count += u32::from(self.is_piece(node, layer));
        }
        count
    }

    /// How many subchunks are read.
    pub fn count(&self) -> u32
        requires { IsSolvedRun self.now }
        ensures { result ≡ length (pieces_of (solved_of self.now)) }
    {
        let mut count = 0;
        for chunk in 0..self.placed.g.n() {
            count += self.count_of_chunk(chunk);
        }
        count
    }

    /// The subchunks that are read: by rising chunk, and of a chunk by rising layer.
    pub fn pieces(&self, alloc: Global) -> Result<Vec<LostPiece>, AllocError>
        requires { IsSolvedRun self.now }
        ensures { IfOk result (λ pieces. pieces.items ≡ pieces_of (solved_of self.now)) }
    {
        let mut pieces = Vec::new(alloc);
        for chunk in 0..self.placed.g.n() {
            self.push_chunk(chunk, &mut pieces)?;
        }
        Ok(pieces)
    }
}
