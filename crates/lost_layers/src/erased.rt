//! A run of a lost chunk's layers while other chunks are missing too, and which layers are solved for it.
ghost use Rattle.std.specs.Prelude.{◌≡◌, ℕ, ◌<◌, ◌≤◌};
ghost use Rattle.clay_grid.specs.Shape.{column_count, node_count, layer_count};
ghost use Rattle.lost_layers.specs.LostLayers.{unpaired_node, partner_node, partner_layer};
ghost use Rattle.lost_layers.specs.Erased.{is_missing, is_unknown};
ghost use Rattle.lost_layers.specs.ErasedLayers.{digit_serves, serves, is_solved_for, is_solved};
ghost use Rattle.lost_layers.specs.ErasedRuns.{erased_of, IsErasedRun};

use crate::placed::PlacedRun;
use clay_grid::Geometry;
use clay_model::{Subchunk, partner_of};

/// A run of the code with its place, and marks for the nodes.
#[derive(Clone, Copy)]
pub(crate) struct ErasedRun<'a> {
    pub placed: PlacedRun,
    /// For each node, whether its chunk is missing. The lost one is.
    pub missing: &'a [bool],
    /// For each node, whether its values count as unknown in every layer: those of missing chunks, and more up to as many as there are
    /// parity chunks. Any choice of them will do. It decides how much is read.
    pub unknown: &'a [bool],
}

// The node of a column that is unpaired in a layer.
pub(crate) fn unpaired_in(g: Geometry, column: u32, layer: u32) -> u32
    requires column { column < column_count g }
    requires layer { layer < layer_count g }
    ensures node { result ≡ unpaired_node g column layer }
    ensures within { result < node_count g }
{
    column * g.q() + g.digit(layer, column)
}

// The subchunk with which a node's is coupled.
pub(crate) fn partner_in(g: Geometry, node: u32, layer: u32) -> Subchunk
    requires node { node < node_count g }
    requires layer { layer < layer_count g }
    ensures node { result.node ≡ partner_node g node layer }
    ensures layer { result.layer ≡ partner_layer g node layer }
    ensures in_grid { result.node < node_count g }
    ensures in_layers { result.layer < layer_count g }
{
    partner_of(g, node, layer)
}

impl<'a> ErasedRun<'a> {
    // Whether the node's chunk is missing.
    fn is_missing(&self, node: u32) -> bool
        requires run { IsErasedRun self.now }
        requires node { node < node_count self.now.placed.g }
        ensures { result ≡ is_missing (erased_of self.now) node }
    {
        self.missing[node as usize]
    }

    // Whether the node's values count as unknown.
    fn is_unknown(&self, node: u32) -> bool
        requires run { IsErasedRun self.now }
        requires node { node < node_count self.now.placed.g }
        ensures { result ≡ is_unknown (erased_of self.now) node }
    {
        self.unknown[node as usize]
    }

    // Whether a layer's digit is that of a wanted one, or leads from an unknown node to a known one.
    fn digit_serves(&self, wanted: u32, layer: u32, column: u32) -> bool
        requires run { IsErasedRun self.now }
        requires wanted { wanted < layer_count self.now.placed.g }
        requires layer { layer < layer_count self.now.placed.g }
        requires column { column < column_count self.now.placed.g }
        ensures { result ≡ digit_serves (erased_of self.now) wanted layer column }
    {
        let g = self.placed.g;
        g.digit(layer, column) == g.digit(wanted, column)
            || self.is_unknown(unpaired_in(g, column, wanted))
                && !self.is_unknown(unpaired_in(g, column, layer))
    }

    // Whether each digit of a layer serves a wanted one.
    fn serves(&self, wanted: u32, layer: u32) -> bool
        requires run { IsErasedRun self.now }
        requires wanted { wanted < layer_count self.now.placed.g }
        requires layer { layer < layer_count self.now.placed.g }
        ensures { result ≡ serves (erased_of self.now) wanted layer }
    {
        for column in 0..self.placed.g.t() {
            if !self.digit_serves(wanted, layer, column) {
                return false;
            }
        }
        true
    }

    // Whether a layer is solved for a wanted subchunk: the subchunk's own value is taken, or its partner's, or both.
    fn is_solved_for(&self, wanted: u32, layer: u32) -> bool
        requires run { IsErasedRun self.now }
        requires wanted { wanted < layer_count self.now.placed.g }
        requires layer { layer < layer_count self.now.placed.g }
        ensures { result ≡ is_solved_for (erased_of self.now) wanted layer }
    {
        let mate = partner_in(self.placed.g, self.placed.node, wanted);
        let is_unknown = self.is_unknown(mate.node);
        (self.is_missing(mate.node) || !is_unknown) && self.serves(wanted, layer)
            || is_unknown && self.serves(mate.layer, layer)
    }

    /// Whether the uncoupled values of the layer are solved for.
    pub fn is_solved(&self, layer: u32) -> bool
        requires run { IsErasedRun self.now }
        requires layer { layer < layer_count self.now.placed.g }
        ensures { result ≡ is_solved (erased_of self.now) layer }
    {
        let run = self.placed.run;
        for place in 0..run.to - run.from {
            if self.is_solved_for(run.from + place, layer) {
                return true;
            }
        }
        false
    }
}
