//! What a rebuild does between two steps: it makes its gathering, and later its chunk.
ghost use Rattle.std.specs.Prelude.{◌≡◌, ◌<◌, Some, length, replicate, IfOk};
ghost use Rattle.clay_grid.specs.Shape.{chunk_count};
ghost use Rattle.run_laws.specs.Stage.{Aim};
ghost use Rattle.stripe_stamps.specs.SeenStripes.{seen_in};
ghost use Rattle.gathering.specs.Gathers.{new_gather, need_of as need_of_gather};
ghost use Rattle.call_steps.specs.Steps.{need_of, coded};
ghost use Rattle.gathering.specs.Aims.{target_of};
ghost use Rattle.repairer.specs.Parts.{IsPinned, IsChunkMade};
ghost use Rattle.repairer.specs.Standing.{stage_of};

use crate::repair_call::RepairCall;
use crate::stage::RepairStage;
use call_steps::{Need, RepairOutcome};
use clay_model::Coder;
use gathering::Gather;
use read_ledger::Takes;
use std::alloc::AllocError;
use std::thread::Threads;
use stripe_dir::Seen;
use version_seal::{Opening, SealedChunk};

// The gathering of the server's chunk, and the takes of its call.
fn gathering_of(opening: &Opening, seen: Seen, server: u32) -> Result<(Gather, Takes), AllocError>
    requires pinned { IsPinned opening.now seen }
    requires below { server < chunk_count opening.now.geometry }
    ensures gather { IfOk result (λ made. made.0 ≡ new_gather seen.stamp opening.now.geometry (Aim.Chunk (seen_in seen) server)) }
    ensures takes { IfOk result (λ made. made.1 ≡ replicate (chunk_count opening.now.geometry) 0) }
{
    let alloc = *seen.placed.allocator();
    let geometry = opening.geometry();
    let gather = Gather::chunk(alloc, geometry, seen, server)?;
    let takes = Takes::new(alloc, geometry.n())?;
    Ok((gather, takes))
}

// The server's chunk, of a gathering that has all its parts.
#[tactic(auto, using(crate::proofs::Beginning::gives_chunk))]
fn chunk_of<R: Threads + Sync, C: Coder>(
    rt: &R,
    coder: &C,
    gather: Gather,
    opening: &Opening,
    server: u32,
) -> Result<SealedChunk, AllocError>
    requires code { gather.course.geometry ≡ opening.now.geometry }
    requires target { target_of gather.course.aim ≡ Some server }
    requires ready { need_of_gather gather ≡ Need.Coder }
    requires below { server < chunk_count opening.now.geometry }
    ensures { IfOk result (IsChunkMade opening.now gather server) }
{
    let mut bytes = Vec::new(gather.allocator());
    let stamp = gather.stamp().copy();
    gather.on_coder(rt, coder, &mut bytes)?;
    Ok(SealedChunk::new(opening.geometry(), stamp, server, bytes))
}

impl<'a> RepairCall<'a> {
    // Makes the gathering.
    pub(crate) fn begin(&mut self)
        requires stage { stage_of self.old.state.at ≡ RepairStage.Gathering }
        requires need { need_of self.old ≡ Need.Coder }
        ensures { self.new ≡ coded self.new.coding self.old }
    {
        let Some(seen) = self.seen.take() else {
            unreachable!()
        };
        let made = gathering_of(&self.opening, seen, self.rebuild.server);
        self.due = false;
        match made {
            Ok((gather, takes)) => {
                self.gather = Some(gather);
                self.takes = Some(takes);
                self.coding = false;
            }
            Err(_) => {
                self.coding = true;
                self.outcome = RepairOutcome::NoMemory;
                self.stage = RepairStage::Ending;
            }
        }
    }

    // Makes the chunk.
    pub(crate) fn make<R: Threads + Sync, C: Coder>(&mut self, rt: &R, coder: &C)
        requires stage { stage_of self.old.state.at ≡ RepairStage.Confirming }
        requires need { need_of self.old ≡ Need.Coder }
        ensures { self.new ≡ coded self.new.coding self.old }
    {
        let Some(gather) = self.gather.take() else {
            unreachable!()
        };
        let made = chunk_of(rt, coder, gather, &self.opening, self.rebuild.server);
        self.due = false;
        match made {
            Ok(chunk) => {
                self.chunk = Some(chunk);
                self.coding = false;
            }
            Err(_) => {
                self.coding = true;
                self.outcome = RepairOutcome::NoMemory;
                self.stage = RepairStage::Ending;
            }
        }
    }
}
