//! What a call does between two steps.
ghost use Rattle.std.specs.Prelude.{◌≡◌, ◌<◌, true, false, length, vec_capacity, OnOk, OnErr};
ghost use Rattle.stripe_stamps.specs.Sealed.{Sealed};
ghost use Rattle.call_steps.specs.Steps.{coded, need_of};
ghost use Rattle.client_patch.specs.Holds.{IsOfCall};
ghost use Rattle.client_patch.specs.Known.{KnowsOld};
ghost use Rattle.client_patch.specs.Patches.{is_drawing};
ghost use Rattle.client_patch.specs.LookAfter.{IsFresh, IsBegun};

use crate::bytes::{bytes_of, stripe_bytes};
use crate::patch::PatchCall;
use crate::patch_stage::PatchStage;
use call_steps::{Change, Need, Outcome};
use clay_grid::Geometry;
use clay_model::Coder;
use gather_parts::{PartGatherings, Progress};
use std::alloc::{AllocError, Global};
use std::thread::Threads;
use store_map::Call;
use write_course::Writing;

// Takes room for one change more and begins to gather.
fn begin_gathering<R: Threads + Sync, C: Coder>(
    rt: &R,
    coder: &C,
    changes: &mut Vec<Change>,
    gatherings: &mut PartGatherings,
) -> Result<(), AllocError>
    requires { IsFresh gatherings.old }
    ensures begun { OnOk result (IsBegun gatherings.old gatherings.new) }
    ensures book { gatherings.new.book ≡ gatherings.old.book }
    ensures takes { gatherings.new.takes ≡ gatherings.old.takes }
    ensures changes { changes.new.items ≡ changes.old.items }
    ensures room { OnOk result (length changes.new.items < vec_capacity changes.new) }
{
    changes.reserve(1)?;
    if matches!(gatherings.progress(), Progress::Due) {
        return gatherings.on_coder(rt, coder);
    }
    Ok(())
}

// Makes the chunks of the version at work.
fn encode<R: Threads + Sync, C: Coder>(
    rt: &R,
    coder: &C,
    alloc: Global,
    geometry: Geometry,
    call: &Call,
    size: u64,
    kept: &[u8],
    writing: &mut Writing,
) -> Result<(), AllocError>
    requires draws { is_drawing call.now ≡ true }
    requires code { geometry ≡ writing.old.book.geometry }
    requires its { IsOfCall writing.old.book call.now size kept.now writing.old }
    requires due { writing.old.due ≡ true }
    ensures ok { OnOk result (writing.new ≡ record writing.old { due = false }) }
    ensures err { OnErr result (writing.new ≡ writing.old) }
{
    // That a version is at work is needed below.
    let _due = writing.due();
    let Some(stripe) = writing.stripe_at_work() else {
        unreachable!()
    };
    let (offset, content) = bytes_of(call);
    let bytes = stripe_bytes(alloc, geometry, size, offset, content, kept, stripe)?;
    writing.encode(rt, coder, &bytes)
}

impl<'a> PatchCall<'a> {
    /// What is due before the next step: memory for one try more and for the next stripe's questions,
    /// the old bytes of a stripe that has come, or the chunks of the version at work. It makes no step.
    /// Afterwards the call tells whether memory was wanting in it.
    pub fn on_coder<R: Threads + Sync, C: Coder>(&mut self, rt: &R, coder: &C)
        requires { need_of self.old.call ≡ Need.Coder }
        ensures coded { self.new.call ≡ coded self.new.call.coding self.old.call }
        ensures written { self.new.written ≡ self.old.written }
        ensures knows { (d : Sealed) → KnowsOld d self.old → KnowsOld d self.new }
    {
        match self.stage {
            PatchStage::Looked => {
                match begin_gathering(rt, coder, &mut self.changes, &mut self.gatherings) {
                    Ok(()) => {
                        self.coding = false;
                        self.stage = PatchStage::Gathering;
                    }
                    Err(_) => {
                        self.coding = true;
                        self.outcome = Outcome::NoMemory;
                        self.stage = PatchStage::Ending;
                    }
                }
            }
            PatchStage::Gathering => match self.gatherings.on_coder(rt, coder) {
                Ok(()) => self.coding = false,
                Err(_) => {
                    self.coding = true;
                    self.outcome = Outcome::NoMemory;
                    self.stage = PatchStage::Ending;
                }
            },
            _ => {
                // That a version is at work is needed below.
                let _due = self.writing.due();
                let geometry = self.opening.geometry();
                let kept = self.gatherings.bytes();
                let encoded = encode(
                    rt,
                    coder,
                    self.alloc,
                    geometry,
                    self.call,
                    self.size,
                    kept,
                    &mut self.writing,
                );
                self.coding = encoded.is_err();
                if self.coding {
                    self.writing.hear_short();
                }
            }
        }
    }
}
