//! Layers of a lost chunk from the pieces.
ghost use Rattle.std.specs.Prelude.{◌≡◌, ◌<◌, ◌≤◌, length, map, IfErr, OnOk, OnErr};
ghost use Rattle.lost_layers.specs.Placing.{IsPlaced};
ghost use Rattle.lost_layers.specs.Without.{IsReadable};
ghost use Rattle.lost_layers.specs.ErasedPieces.{pieces_of};
ghost use Rattle.lost_layers.specs.ErasedRuns.{solved_of, IsSolvedRun};
ghost use Rattle.lost_read.specs.MissingRead.{FitRun, FitErased, IsReadableFrom, IsReadFrom, IsRunFrom};
ghost use Rattle.lost_read.specs.MissingRefused.{IsMisfit, IsUnread, IsReadRefused};

use crate::missing_plan::MissingReadPlan;
use crate::missing_read_fault::MissingReadFault;
use crate::missing_reading::Reading;
use crate::read_places::are_subchunks;
use clay_grid::Geometry;
use lost_layers::{LostPiece, LostRun, MarkedRun, PlacedRun, SolvedRun, readable_run};
use std::alloc::{AllocError, Global};

// Whether there are so many pieces, each as long as a subchunk, and room for the run.
fn checked(
    g: Geometry,
    run: LostRun,
    count: usize,
    pieces: &[&[u8]],
    room: usize,
) -> Result<(), MissingReadFault>
    requires { run.from ≤ run.to }
    ensures fit { OnOk result (FitRun g run count (map (λ piece. piece.now) pieces.now) room) }
    ensures misfit { IfErr result (λ fault. IsMisfit g run count (map (λ piece. piece.now) pieces.now) room fault) }
{
    if pieces.len() != count {
        return Err(MissingReadFault::PieceCount);
    }
    if !are_subchunks(g, pieces) {
        return Err(MissingReadFault::PieceLength);
    }
    if room != (run.to - run.from) as usize * g.w() as usize {
        return Err(MissingReadFault::Room);
    }
    Ok(())
}

// Writes the layers of a run from its pieces.
fn read_listed(
    alloc: Global,
    run: &SolvedRun<'_>,
    list: &[LostPiece],
    pieces: &[&[u8]],
    out: &mut [u8],
) -> Result<(), AllocError>
    requires run { IsSolvedRun run.now }
    requires list { list.now ≡ pieces_of (solved_of run.now) }
    requires fit { FitRun run.now.placed.g run.now.placed.run (length list.now) (map (λ piece. piece.now) pieces.now) (length out.old) }
    ensures read { OnOk result (IsRunFrom (solved_of run.now) (map (λ piece. piece.now) pieces.now) out.new) }
    ensures kept { OnErr result (out.new ≡ out.old) }
{
    let plan = MissingReadPlan::new(alloc, run, list)?;
    let reading = Reading {
        run,
        plan: &plan,
        pieces,
    };
    reading.read(alloc, out)
}

// Writes the layers of a run, if these are its pieces and there is room for it.
fn read_solved(
    alloc: Global,
    run: &SolvedRun<'_>,
    pieces: &[&[u8]],
    out: &mut [u8],
) -> Result<(), MissingReadFault>
    requires { IsSolvedRun run.now }
    ensures fit { OnOk result (FitErased (solved_of run.now) (map (λ piece. piece.now) pieces.now) (length out.old)) }
    ensures read { OnOk result (IsRunFrom (solved_of run.now) (map (λ piece. piece.now) pieces.now) out.new) }
    ensures unread { IfErr result (IsUnread (solved_of run.now) (map (λ piece. piece.now) pieces.now) (length out.old)) }
    ensures kept { OnErr result (out.new ≡ out.old) }
{
    let list = run.pieces(alloc)?;
    checked(run.placed.g, run.placed.run, list.len(), pieces, out.len())?;
    read_listed(alloc, run, &list, pieces, out)?;
    Ok(())
}

// Reads a run that isn't empty.
fn read_some(
    alloc: Global,
    placed: &PlacedRun,
    present: &[bool],
    pieces: &[&[u8]],
    out: &mut [u8],
) -> Result<(), MissingReadFault>
    requires placed { IsPlaced placed.now }
    requires readable { IsReadable placed.now.g placed.now.run present.now }
    requires some { placed.now.run.from < placed.now.run.to }
    ensures readable { OnOk result (IsReadableFrom placed.now.g placed.now.run present.now (map (λ piece. piece.now) pieces.now) (length out.old)) }
    ensures read { OnOk result (IsReadFrom placed.now.g placed.now.run present.now (map (λ piece. piece.now) pieces.now) out.new) }
    ensures refused { IfErr result (λ fault. IsReadRefused placed.now.g placed.now.run present.now (map (λ piece. piece.now) pieces.now) (length out.old) fault) }
    ensures kept { OnErr result (out.new ≡ out.old) }
{
    let marked = MarkedRun::new(alloc, placed, present)?;
    let run = marked.solved();
    read_solved(alloc, &run, pieces, out)?;
    Ok(())
}

/// Writes the layers of a run, one after another: the bytes of the lost chunk of the codeword that has these pieces, where one does.
///
/// `present` has a mark for each chunk, as for `missing_pieces`, and `pieces` the bytes of each subchunk that it lists, in its order. Where
/// no codeword has these pieces, some bytes are written.
pub fn read_missing(
    alloc: Global,
    g: Geometry,
    run: LostRun,
    present: &[bool],
    pieces: &[&[u8]],
    out: &mut [u8],
) -> Result<(), MissingReadFault>
    ensures readable { OnOk result (IsReadableFrom g run present.now (map (λ piece. piece.now) pieces.now) (length out.old)) }
    ensures read { OnOk result (IsReadFrom g run present.now (map (λ piece. piece.now) pieces.now) out.new) }
    ensures refused { IfErr result (λ fault. IsReadRefused g run present.now (map (λ piece. piece.now) pieces.now) (length out.old) fault) }
    ensures kept { OnErr result (out.new ≡ out.old) }
{
    let placed = readable_run(g, run, present)?;
    if run.from == run.to {
        checked(g, run, 0, pieces, out.len())?;
        return Ok(());
    }
    read_some(alloc, &placed, present, pieces, out)
}
