//! The geometry of a Clay code: the grid of nodes, the layers, and the pairs of coupled vertices
//! (Vajha et al., "Clay Codes: Moulding MDS Codes to Yield an MSR Code", USENIX FAST 2018,
//! section 3), with `d = n - 1` helpers and shortening by virtual nodes.
#![tactic(auto)]

mod geometry;
mod geometry_fault;
mod laws_of_the_grid;

pub use geometry::{Geometry, Vertex};
pub use geometry_fault::BadGeometry;
pub use laws_of_the_grid::{fault_law, layer_laws, limit_law, partner_law, repair_law, score_law};
