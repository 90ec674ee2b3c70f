//! Layers of a lost chunk, from pieces that stand one behind another in a caller's bytes.
ghost use Rattle.std.specs.Prelude.{◌≡◌, ◌*◌, ◌≤◌, map, length, IfOk, OnOk, OnErr};
ghost use Rattle.lost_layers.specs.Placing.{IsPlaced};
ghost use Rattle.clay_c.specs.Lost.{LostBytesFit, piece_count, pieces_cut, ReadsLost};

use lost_layers::PlacedRun;
use lost_read::read_pieces;
use std::alloc::{AllocError, Global};

// The pieces of `len` bytes, where they stand.
fn pieces_in<'a>(
    alloc: Global,
    bytes: &'a [u8],
    len: usize,
    count: usize,
) -> Result<Vec<&'a [u8]>, AllocError>
    requires { count * len ≤ length bytes.now }
    ensures { IfOk result (λ pieces. map (λ piece. piece.now) pieces.items ≡ pieces_cut len bytes.now count) }
{
    let mut pieces = Vec::with_capacity(alloc, count)?;
    for place in 0..count {
        let start = place * len;
        pieces.push(&bytes[start..start + len])?;
    }
    Ok(pieces)
}

/// Writes the subchunks of a run, from as many pieces as it takes.
pub fn write_run(
    alloc: Global,
    placed: &PlacedRun,
    count: u32,
    bytes: &[u8],
    subchunks: &mut [u8],
) -> Result<(), AllocError>
    requires placed { IsPlaced placed.now }
    requires count { count ≡ piece_count placed.now.g placed.now.run }
    requires lengths { LostBytesFit placed.now.g placed.now.run bytes.now subchunks.old }
    ensures written { OnOk result (ReadsLost placed.now.g placed.now.run bytes.now subchunks.new) }
    ensures kept { OnErr result (subchunks.new ≡ subchunks.old) }
{
    let pieces = pieces_in(alloc, bytes, placed.g.w() as usize, count as usize)?;
    read_pieces(alloc, placed, &pieces, subchunks)?;
    Ok(())
}
