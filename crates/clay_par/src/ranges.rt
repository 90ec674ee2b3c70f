//! Ranges of byte positions.
ghost use Rattle.std.specs.Prelude.{◌≡◌, ℕ, ◌+◌, ◌-◌, ◌*◌, ◌<◌, ◌≤◌, length, IfOk};
ghost use Rattle.clay_grid.specs.Shape.{layer_count};
ghost use Rattle.clay_par.specs.Ranges.{HasRoom, AreRanges};

use clay_grid::Geometry;
use clay_kernels::{BLOCK, zeros};
use std::alloc::{AllocError, Global};

/// The fewest byte positions of a range.
const FEWEST: usize = 1024;

/// Byte positions of every subchunk: the uncoupled values of some nodes there, layer by layer, and room for one node's and one layer's.
#[derive(Drop)]
pub struct Range {
    pub at: usize,
    pub values: Vec<u8>,
    pub rows: Vec<u8>,
    pub solved: Vec<u8>,
}

// How many positions each range has, but for the last one.
fn range_len(g: Geometry) -> usize
    ensures { 0 < result }
{
    (g.w() as usize / 4).clamp(FEWEST, BLOCK)
}

/// The range of `len` positions from `at` on, with room for the values of so many nodes and layers.
pub fn make_range(
    alloc: Global,
    g: Geometry,
    nodes: usize,
    layers: usize,
    at: usize,
    len: usize,
) -> Result<Range, AllocError>
    requires few { nodes ≤ g.parity_count }
    requires layers { layers ≤ layer_count g }
    requires within { at + len ≤ g.width }
    ensures room { IfOk result (HasRoom g nodes layers) }
    ensures at { IfOk result (λ range. range.at ≡ at) }
    ensures len { IfOk result (λ range. length range.values.items ≡ len) }
{
    let part = nodes * len;
    let values = zeros(alloc, len)?;
    let rows = zeros(alloc, part)?;
    let solved = zeros(alloc, layers * part)?;
    Ok(Range {
        at,
        values,
        rows,
        solved,
    })
}

/// The ranges of all positions.
pub fn make_ranges(
    alloc: Global,
    g: Geometry,
    nodes: usize,
    layers: usize,
) -> Result<Vec<Range>, AllocError>
    requires few { nodes ≤ g.parity_count }
    requires layers { layers ≤ layer_count g }
    ensures { IfOk result (λ ranges. AreRanges g nodes layers ranges.items) }
{
    let w = g.w() as usize;
    let most = range_len(g);
    let mut ranges = Vec::new(alloc);
    let mut at = 0;
    while at < w {
        let len = most.min(w - at);
        ranges.push(make_range(alloc, g, nodes, layers, at, len)?)?;
        at += len;
    }
    Ok(ranges)
}
