//! A lost chunk, written to a caller's bytes.
ghost use Rattle.std.specs.Prelude.{◌≡◌, ◌-◌, ◌*◌, ◌^◌, ◌<◌, eqb, map, length, IfOk, OnOk, OnErr};
ghost use Rattle.clay_grid.specs.Shape.{chunk_count, chunk_length};
ghost use Rattle.clay_model.specs.RepairParts.{part_length};
ghost use Rattle.clay_c.specs.Calls.{place_among_others, Rebuilds};
ghost use Rattle.clay_c.specs.Pieces.{starts_of};
ghost use Rattle.clay_c.specs.Apart.{PartSlicesFit, RebuildsApart};

use crate::piece_starts::piece_start;
use clay_grid::Geometry;
use clay_lanes::{ChunkView, rebuild_into};
use std::alloc::{AllocError, Global};

/// The bytes of a part, which has the repair layers alone.
pub fn part_len(g: Geometry) -> u32
    ensures { result ≡ part_length g }
{
    g.stride(0) * g.w()
}

// The place of a chunk among all but the lost one.
fn place_among_others(lost: u32, c: u32) -> usize
    ensures value { result ≡ place_among_others lost c }
    ensures below { result < 2 ^ 32 }
{
    let place = if c < lost { c } else { c.saturating_sub(1) };
    place as usize
}

// Where the part of each chunk but the lost one starts, where parts have this length.
fn part_starts(
    alloc: Global,
    g: Geometry,
    lost: u32,
    len: u32,
) -> Result<Vec<Option<usize>>, AllocError>
    ensures { IfOk result (λ starts. starts.items ≡ starts_of (λ c. eqb c lost) (place_among_others lost) len (chunk_count g)) }
{
    let mut starts = Vec::with_capacity(alloc, g.n() as usize)?;
    for c in 0..g.n() {
        let place = place_among_others(lost, c);
        starts.push(piece_start(c == lost, place, len))?;
    }
    Ok(starts)
}

/// Writes the lost chunk, from the parts of the others by rising number, one behind another.
pub fn write_rebuilt(
    alloc: Global,
    g: Geometry,
    lost: u32,
    bytes: &[u8],
    chunk: &mut [u8],
) -> Result<(), AllocError>
    requires chunk { lost < chunk_count g }
    requires bytes { length bytes.now ≡ (chunk_count g - 1) * part_length g }
    requires chunk_len { length chunk.old ≡ chunk_length g }
    ensures written { OnOk result (Rebuilds g lost bytes.now chunk.new) }
    ensures kept { OnErr result (chunk.new ≡ chunk.old) }
{
    let len = part_len(g);
    let starts = part_starts(alloc, g, lost, len)?;
    let parts = ChunkView::Laid {
        bytes,
        starts: &starts,
        len: len as usize,
    };
    rebuild_into(alloc, g, lost, parts, chunk)?;
    Ok(())
}

/// The same from parts that are slices of their own.
pub fn write_rebuilt_apart(
    alloc: Global,
    g: Geometry,
    lost: u32,
    parts: &[&[u8]],
    chunk: &mut [u8],
) -> Result<(), AllocError>
    requires chunk { lost < chunk_count g }
    requires fit { PartSlicesFit g (map (λ part. part.now) parts.now) chunk.old }
    ensures written { OnOk result (RebuildsApart g lost (map (λ part. part.now) parts.now) chunk.new) }
    ensures kept { OnErr result (chunk.new ≡ chunk.old) }
{
    // a slice is found by its place, so the places are starts of pieces of length 1
    let places = part_starts(alloc, g, lost, 1)?;
    let view = ChunkView::Slices {
        pieces: parts,
        places: &places,
    };
    rebuild_into(alloc, g, lost, view, chunk)?;
    Ok(())
}
