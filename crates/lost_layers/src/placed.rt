//! The rule by which subchunks are read.
ghost use Rattle.std.specs.Prelude.{◌≡◌, ℕ, ◌<◌, ◌≤◌, not, ◌||◌, ◌&&◌, nat_eq};
ghost use Rattle.clay_grid.specs.Shape.{row_count, node_count, layer_count};
ghost use Rattle.clay_grid.specs.Score.{count_below};
ghost use Rattle.lost_layers.specs.LostLayers.{IsLostRun, is_wanted, layer_with, partner_node, partner_layer, lost_node, lost_column, is_unpaired, is_solved, further_node, is_unknown};
ghost use Rattle.lost_layers.specs.LostPieces.{is_made, is_piece};
ghost use Rattle.lost_layers.specs.Placing.{IsPlaced};

use crate::run::LostRun;
use clay_grid::Geometry;
use clay_model::{Subchunk, partner_of};

/// A run, with the place of the lost chunk's node.
#[derive(Clone, Copy)]
pub struct PlacedRun {
    pub g: Geometry,
    pub run: LostRun,
    pub node: u32,
    pub row: u32,
    pub column: u32,
}

impl PlacedRun {
    /// A run of the code, with its place.
    pub fn new(g: Geometry, run: LostRun) -> PlacedRun
        requires { IsLostRun g run }
        ensures placed { IsPlaced result }
        ensures geometry { result.g ≡ g }
        ensures run { result.run ≡ run }
    {
        let node = g.node_of_chunk(run.lost);
        let (row, column) = g.place(node);
        PlacedRun {
            g,
            run,
            node,
            row,
            column,
        }
    }

    // Whether the layer is one of the run.
    pub(crate) fn is_wanted(&self, layer: u32) -> bool
        ensures { result ≡ is_wanted self.now.run layer }
    {
        layer >= self.run.from && layer < self.run.to
    }

    // Whether the lost node is unpaired in the layer.
    pub(crate) fn is_unpaired(&self, layer: u32) -> bool
        requires placed { IsPlaced self.now }
        requires layer { layer < layer_count self.now.g }
        ensures { result ≡ is_unpaired self.now.g self.now.run layer }
    {
        self.g.digit(layer, self.column) == self.row
    }

    // Whether a layer is wanted that differs from this one at most in the digit of the lost node's column.
    fn has_wanted(&self, layer: u32) -> bool
        requires placed { IsPlaced self.now }
        requires layer { layer < layer_count self.now.g }
        ensures { result ≡ not (nat_eq (count_below (row_count self.now.g) (λ x. is_wanted self.now.run
            (layer_with self.now.g layer (lost_column self.now.g self.now.run) x))) 0) }
    {
        for x in 0..self.g.q() {
            if self.is_wanted(self.g.partner(x, self.column, layer).z) {
                return true;
            }
        }
        false
    }

    /// Whether the uncoupled values of the layer are solved for.
    pub fn is_solved(&self, layer: u32) -> bool
        requires placed { IsPlaced self.now }
        requires layer { layer < layer_count self.now.g }
        ensures { result ≡ is_solved self.now.g self.now.run layer }
    {
        if self.run.to == self.run.from + 1 {
            return layer == self.run.from;
        }
        self.is_unpaired(layer) && self.has_wanted(layer)
    }

    // The node that is unknown beside paired ones of the last column.
    fn further_node(&self, layer: u32) -> u32
        requires placed { IsPlaced self.now }
        requires layer { layer < layer_count self.now.g }
        ensures { result ≡ further_node self.now.g self.now.run layer }
    {
        if self.column + 1 != self.g.t() {
            return self.node;
        }
        if self.g.digit(layer, 0) == 0 { 1 } else { 0 }
    }

    /// Whether the node's value in the layer is one of those that the others' sums tell.
    pub fn is_unknown(&self, layer: u32, node: u32) -> bool
        requires placed { IsPlaced self.now }
        requires layer { layer < layer_count self.now.g }
        requires node { node < node_count self.now.g }
        ensures { result ≡ is_unknown self.now.g self.now.run layer node }
    {
        let (row, column) = self.g.place(node);
        if self.is_unpaired(layer) {
            return column == self.column;
        }
        if node == self.further_node(layer) {
            return true;
        }
        column + 1 == self.g.t() && row != self.g.digit(layer, column)
    }

    // Whether the node's value in the layer is made of its subchunk there and that one's partner.
    fn is_made(&self, node: u32, layer: u32) -> bool
        requires placed { IsPlaced self.now }
        requires layer { layer < layer_count self.now.g }
        requires node { node < node_count self.now.g }
        ensures { result ≡ is_made self.now.g self.now.run node layer }
    {
        self.is_solved(layer) && !self.is_unknown(layer, node)
    }

    // Whether the partner of a subchunk is one that is read or wanted because of it.
    fn serves(&self, partner: Subchunk) -> bool
        requires placed { IsPlaced self.now }
        requires layer { partner.layer < layer_count self.now.g }
        requires node { partner.node < node_count self.now.g }
        ensures { result ≡ (is_made self.now.g self.now.run partner.node partner.layer
            || (nat_eq partner.node (lost_node self.now.g self.now.run) && is_wanted self.now.run partner.layer)) }
    {
        self.is_made(partner.node, partner.layer)
            || partner.node == self.node && self.is_wanted(partner.layer)
    }

    // Whether the node's subchunk of the layer is read.
    pub(crate) fn is_piece(&self, node: u32, layer: u32) -> bool
        requires placed { IsPlaced self.now }
        requires layer { layer < layer_count self.now.g }
        requires node { node < node_count self.now.g }
        ensures { result ≡ is_piece self.now.g self.now.run node layer }
    {
        if node == self.node {
            return false;
        }
        self.is_made(node, layer) || self.serves(partner_of(self.g, node, layer))
    }
}
