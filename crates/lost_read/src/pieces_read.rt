//! Layers of a lost chunk from the pieces.
ghost use Rattle.std.specs.Prelude.{◌≡◌, length, map, IfOk, IfErr, OnOk, OnErr};
ghost use Rattle.lost_layers.specs.Placing.{IsPlaced};
ghost use Rattle.lost_read.specs.Plan.{IsReadPlan};
ghost use Rattle.lost_read.specs.Read.{IsReadable, IsReadFrom};
ghost use Rattle.lost_read.specs.Refused.{IsReadRefused};

use crate::read_fault::ReadFault;
use crate::read_places::are_subchunks;
use crate::read_plan::ReadPlan;
use crate::reading::Reading;
use clay_grid::Geometry;
use clay_kernels::zeros;
use lost_layers::{LostRun, PlacedRun, lost_count};
use std::alloc::{AllocError, Global};

// The run with its place, where these are its pieces and there is room for it.
fn checked(g: Geometry, run: LostRun, pieces: &[&[u8]], room: usize) -> Result<PlacedRun, ReadFault>
    ensures placed { IfOk result (λ placed. IsPlaced placed × (placed.g ≡ g) × (placed.run ≡ run)) }
    ensures readable { IfOk result (λ placed. IsReadable g run (map (λ piece. piece.now) pieces.now) room) }
    ensures refused { IfErr result (λ fault. IsReadRefused g run (map (λ piece. piece.now) pieces.now) room fault) }
{
    let count = lost_count(g, run)?;
    if pieces.len() != count as usize {
        return Err(ReadFault::PieceCount);
    }
    if !are_subchunks(g, pieces) {
        return Err(ReadFault::PieceLength);
    }
    if room != ((run.to - run.from) * g.w()) as usize {
        return Err(ReadFault::Room);
    }
    Ok(PlacedRun::new(g, run))
}

// Writes the layers of a run by its plan.
fn read_by(
    alloc: Global,
    plan: &ReadPlan,
    pieces: &[&[u8]],
    out: &mut [u8],
) -> Result<(), AllocError>
    requires plan { IsReadPlan plan.now }
    requires readable { IsReadable plan.now.placed.g plan.now.placed.run (map (λ piece. piece.now) pieces.now) (length out.old) }
    ensures read { OnOk result (IsReadFrom plan.now.placed.g plan.now.placed.run (map (λ piece. piece.now) pieces.now) out.new) }
    ensures kept { OnErr result (out.new ≡ out.old) }
{
    let w = plan.placed.g.w() as usize;
    let mut value = zeros(alloc, w)?;
    let mut sum = zeros(alloc, w)?;
    let reading = Reading { plan, pieces };
    reading.write_run(&mut value, &mut sum, out);
    Ok(())
}

/// Writes the layers of a run of the code: the bytes of the lost chunk of the codeword that has these pieces, where one does.
///
/// `pieces` has the bytes of each subchunk that `pieces_of_run` lists, in its order. Where no codeword has these pieces, some bytes are
/// written.
pub fn read_pieces(
    alloc: Global,
    placed: &PlacedRun,
    pieces: &[&[u8]],
    out: &mut [u8],
) -> Result<(), AllocError>
    requires placed { IsPlaced placed.now }
    requires readable { IsReadable placed.now.g placed.now.run (map (λ piece. piece.now) pieces.now) (length out.old) }
    ensures read { OnOk result (IsReadFrom placed.now.g placed.now.run (map (λ piece. piece.now) pieces.now) out.new) }
    ensures kept { OnErr result (out.new ≡ out.old) }
{
    if placed.run.from == placed.run.to {
        return Ok(());
    }
    let plan = ReadPlan::new(alloc, *placed)?;
    read_by(alloc, &plan, pieces, out)
}

/// Writes the layers of a run, as `read_pieces` does, if it is one of the code's, these are its pieces and there is room for it.
pub fn read_lost(
    alloc: Global,
    g: Geometry,
    run: LostRun,
    pieces: &[&[u8]],
    out: &mut [u8],
) -> Result<(), ReadFault>
    ensures readable { OnOk result (IsReadable g run (map (λ piece. piece.now) pieces.now) (length out.old)) }
    ensures read { OnOk result (IsReadFrom g run (map (λ piece. piece.now) pieces.now) out.new) }
    ensures refused { IfErr result (λ fault. IsReadRefused g run (map (λ piece. piece.now) pieces.now) (length out.old) fault) }
    ensures kept { OnErr result (out.new ≡ out.old) }
{
    let placed = checked(g, run, pieces, out.len())?;
    read_pieces(alloc, &placed, pieces, out)?;
    Ok(())
}
