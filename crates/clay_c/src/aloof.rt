//! Parity chunks, missing chunks and a lost chunk of a code with fewer helpers, written to a caller's bytes.
ghost use Rattle.std.specs.Prelude.{◌≡◌, ◌*◌, ◌<◌, ◌≤◌, length, IfOk, OnOk, OnErr};
ghost use Rattle.clay_grid.specs.Shape.{chunk_length};
ghost use Rattle.clay_aloof.specs.Shape.{all_chunks, grid_of, stripe_bytes};
ghost use Rattle.clay_c.specs.Helpers.{MakesAloofParity, MarksFit, MarkedPartsFit, RebuildsAloof};
ghost use Rattle.clay_c.specs.Missing.{AloofChunksFit, RecoversAloof};
ghost use Rattle.clay_c.specs.Calls.{lost_count};

use crate::marks::marked_starts;
use crate::recover_calls::missing_marks;
use aloof_recovery::recover_into;
use clay_aloof::{AloofGeometry, parity_into, rebuild_into};
use clay_lanes::ChunkView;
use std::alloc::{AllocError, Global};

/// Writes the parity chunks of a stripe, one behind another.
pub fn write_parity(
    alloc: Global,
    g: AloofGeometry,
    stripe: &[u8],
    parity: &mut [u8],
) -> Result<(), AllocError>
    requires stripe { length stripe.now ≡ stripe_bytes g }
    requires parity { length parity.old ≡ g.parity_count * chunk_length (grid_of g) }
    ensures written { OnOk result (MakesAloofParity g stripe.now parity.new) }
    ensures kept { OnErr result (parity.new ≡ parity.old) }
{
    parity_into(alloc, g, stripe, parity)?;
    Ok(())
}

/// Writes the missing ones of all chunks, which stand one behind another, from the others.
pub fn write_missing(
    alloc: Global,
    g: AloofGeometry,
    present: &[u8],
    chunks: &mut [u8],
) -> Result<(), AllocError>
    requires lengths { AloofChunksFit g present.now chunks.old }
    requires few { lost_count present.now ≤ g.parity_count }
    ensures written { OnOk result (RecoversAloof g present.now chunks.old chunks.new) }
    ensures kept { OnErr result (chunks.new ≡ chunks.old) }
{
    let missing = missing_marks(alloc, present)?;
    recover_into(alloc, g, &missing, chunks)?;
    Ok(())
}

/// Writes the lost chunk, from the parts of the chunks with a mark by rising number, one behind another.
pub fn write_rebuilt(
    alloc: Global,
    g: AloofGeometry,
    lost: u32,
    marks: &[u8],
    bytes: &[u8],
    chunk: &mut [u8],
) -> Result<(), AllocError>
    requires lost { lost < all_chunks g }
    requires lengths { MarkedPartsFit g marks.now bytes.now chunk.old }
    requires marks { MarksFit g lost marks.now }
    ensures written { OnOk result (RebuildsAloof g lost marks.now bytes.now chunk.new) }
    ensures kept { OnErr result (chunk.new ≡ chunk.old) }
{
    let len = g.part_len();
    let starts = marked_starts(alloc, marks, len)?;
    let parts = ChunkView::Laid {
        bytes,
        starts: &starts,
        len: len as usize,
    };
    rebuild_into(alloc, g, lost, parts, chunk)?;
    Ok(())
}
