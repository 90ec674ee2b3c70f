//! A block of byte positions of a layer that is read in a repair.

use crate::repair_plan::RepairPlan;
use crate::view::ChunkView;
use clay_grid::Geometry;

/// What is read of layer `z` at `len` byte positions of each subchunk, from `at` on.
#[derive(Clone, Copy)]
pub(crate) struct ReadBlock<'a> {
    pub(crate) g: Geometry,
    /// The subchunks that are read of the chunks other than the lost one.
    pub(crate) parts: ChunkView<'a>,
    /// The plan for the lost one.
    pub(crate) plan: &'a RepairPlan,
    pub(crate) z: u32,
    pub(crate) at: usize,
    pub(crate) len: usize,
}
