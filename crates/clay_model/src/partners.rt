//! Subchunks that are coupled, by the numbers of their nodes and layers.
ghost use Rattle.std.specs.Prelude.{◌<◌};
ghost use Rattle.clay_grid.specs.Shape.{node_count, layer_count};
ghost use Rattle.clay_model.specs.Partners.{ArePartners};

use clay_grid::Geometry;

/// A subchunk, by the numbers of its node and its layer.
#[derive(Clone, Copy)]
pub struct Subchunk {
    pub node: u32,
    pub layer: u32,
}

/// The subchunk with which subchunk `z` of a node is coupled, which is that subchunk itself where it is not paired.
pub fn partner_of(g: Geometry, node: u32, z: u32) -> Subchunk
    requires node { node < node_count g }
    requires layer { z < layer_count g }
    ensures partners { ArePartners g node z result.node result.layer }
    ensures in_grid { result.node < node_count g }
    ensures in_layers { result.layer < layer_count g }
{
    let (x, y) = g.place(node);
    let partner = g.partner(x, y, z);
    Subchunk {
        node: y * g.q() + partner.x,
        layer: partner.z,
    }
}
