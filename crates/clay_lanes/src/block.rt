//! A block of byte positions of the chunks that are there.
ghost use Rattle.std.specs.Prelude.{◌≡◌, ◌*◌, ◌≤◌, length, IfOk};
ghost use Rattle.clay_grid.specs.Shape.{layer_count};

use crate::recovery_plan::DecodePlan;
use clay_grid::Geometry;
use clay_kernels::zeros;
use lane_repair::ChunkView;
use std::alloc::{AllocError, Global};

/// What is read at `len` byte positions of each subchunk, from `at` on.
#[derive(Clone, Copy)]
pub struct Block<'a> {
    pub g: Geometry,
    /// The chunks that are there.
    pub have: ChunkView<'a>,
    /// The plan of the missing ones.
    pub plan: &'a DecodePlan,
    pub at: usize,
    pub len: usize,
}

/// Rooms for the values that a block is solved with.
#[derive(Drop)]
pub struct Rooms {
    /// For those of one node.
    pub values: Vec<u8>,
    /// For those of the erased nodes in one layer.
    pub rows: Vec<u8>,
    /// For those of the erased nodes in all layers.
    pub solved: Vec<u8>,
}

impl Rooms {
    /// The rooms for a block of `len` byte positions.
    pub fn new(
        alloc: Global,
        g: Geometry,
        plan: &DecodePlan,
        len: usize,
    ) -> Result<Rooms, AllocError>
        requires few { length plan.now.points.items ≤ g.parity_count }
        requires within { len ≤ g.width }
        ensures values_len { IfOk result (λ rooms. length rooms.values.items ≡ len) }
        ensures rows_len { IfOk result (λ rooms. length rooms.rows.items ≡ length plan.now.points.items * len) }
        ensures solved_len { IfOk result (λ rooms. length rooms.solved.items ≡ layer_count g * (length plan.now.points.items * len)) }
    {
        let part = plan.points.len() * len;
        let values = zeros(alloc, len)?;
        let rows = zeros(alloc, part)?;
        let solved = zeros(alloc, g.alpha() as usize * part)?;
        Ok(Rooms {
            values,
            rows,
            solved,
        })
    }
}
