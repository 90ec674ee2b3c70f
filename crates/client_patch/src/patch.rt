//! A put, a write or a delete as a machine of steps: a put is a write that keeps no old bytes.
ghost use Rattle.std.specs.Prelude.{◌≡◌, ◌<◌, ◌≤◌, true};
ghost use Rattle.std.specs.Option.{option_map};
ghost use Rattle.clay_grid.specs.Shape.{chunk_count};
ghost use Rattle.store_core.specs.Note.{Kind};
ghost use Rattle.store_core.specs.Act.{Act as CoreAct, Outcome as CoreOutcome};
ghost use Rattle.store_core.specs.Agreement.{ActorToken};
ghost use Rattle.run_laws.specs.State.{Sequel, State};
ghost use Rattle.chunk_server.specs.Core.{core_of};
ghost use Rattle.call_steps.specs.Steps.{IsServerBelow, LeadsToAtServer, need_of, HoldsItsPass, IsDueInPass, MayMakeNext};
ghost use Rattle.stripe_stamps.specs.Sealed.{Sealed};
ghost use Rattle.call_steps.specs.CallOf.{act_of, taken_of, HasTakenNothing};
ghost use Rattle.call_steps.specs.Acts.{act_now};
ghost use Rattle.call_steps.specs.Hearing.{IsToldHere};
ghost use Rattle.call_steps.specs.Outcomes.{outcome_of};
ghost use Rattle.call_steps.specs.Callers.{IsClient, IsOfScript};
ghost use Rattle.call_steps.specs.Ends.{point_ended, point_of, finished_of};
ghost use Rattle.gather_parts.specs.States.{state_in};
ghost use Rattle.gather_parts.specs.Progress.{progress_of};
ghost use Rattle.client_patch.specs.Holds.{IsUngathered};
ghost use Rattle.client_patch.specs.Known.{KnowsOld};
ghost use Rattle.client_patch.specs.Patches.{is_patch, is_put, is_change, first_patch};

use crate::patch_stage::PatchStage;
use call_steps::{Act, Change, DirectoryAct, Need, Outcome, ServerAnswer};
use chunk_server::Server;
use dir_tickets::Ticket;
use gather_parts::{Gathered, PartGatherings};
use read_ledger::Takes;
use std::alloc::Global;
use std::marker::Model;
use store_map::{Actor, Call, Point, Reply};
use stripe_dir::Seat;
use version_seal::Opening;
use write_course::Writing;

/// A client's write or delete in work, or its put. It has to be finished or abandoned.
pub struct PatchCall<'a> {
    pub(crate) alloc: Global,
    pub(crate) stage: PatchStage,
    pub(crate) ticket: Ticket,
    pub(crate) actor: Actor,
    pub(crate) call: &'a Call,
    pub(crate) number: u32,
    // how often a write is tried
    pub(crate) tries: u32,
    pub(crate) opening: Opening,
    // of its object at the last look, in bytes
    pub(crate) size: u64,
    pub(crate) gatherings: PartGatherings,
    // of no versions until some are drawn
    pub(crate) writing: Writing,
    // one for each try that found its object changed
    pub(crate) changes: Vec<Change>,
    // how it has ended, where neither gatherings nor writing nor changes say it
    pub(crate) outcome: Outcome,
    pub(crate) coding: bool,
    pub(crate) step: bool,
}

impl<'a> Model for PatchCall<'a> {
    ghost use Rattle.client_patch.specs.Patches.{PatchOf};

    ghost Value = { PatchOf };

    ghost use Rattle.client_patch.specs.Inside.{patch_in, IsPatch};

    ghost view = { patch_in };

    ghost invariant = { IsPatch };
}

// The point of a call that was answered ok.
fn point_of_outcome(outcome: &Outcome) -> Option<Point>
    ensures { option_map (λ point. point.0) result ≡ point_ended (outcome_of outcome.now) }
{
    match outcome {
        Outcome::Answered {
            point,
            reply: Reply::Done,
        } => Some(*point),
        _ => None,
    }
}

// How gatherings have ended without their bytes, and what the call took.
fn outcome_of_gatherings(gatherings: PartGatherings) -> (Outcome, Option<Takes>)
    requires { IsUngathered (progress_of gatherings) }
    ensures outcome { finished_of (state_in gatherings Sequel.Draw) ≡ State.Finished (outcome_of result.0) }
    ensures takes { result.1 ≡ taken_of gatherings.takes }
{
    let (gathered, takes) = gatherings.finish();
    match gathered {
        Gathered::TooMany { stripe, missing } => (Outcome::Unavailable { stripe, missing }, takes),
        Gathered::Short => (Outcome::NoMemory, takes),
        Gathered::Bytes(_bytes) => unreachable!(),
    }
}

impl<'a> PatchCall<'a> {
    /// A write or a delete of a client that is in no call, under an unused number. In a book with a
    /// script it is the script's call of that number. It takes no memory.
    pub fn new(
        alloc: Global,
        seat: Seat,
        actor: Actor,
        number: u32,
        call: &'a Call,
        opening: Opening,
        tries: u32,
    ) -> PatchCall<'a>
        requires patch { is_patch call.now ≡ true }
        requires client { IsClient actor }
        requires own { seat.actor ≡ actor }
        requires unused { seat.unused ≤ number }
        requires tries { 0 < tries }
        requires script { IsOfScript opening actor number call.now }
        ensures { result ≡ first_patch opening tries seat number call.now }
    {
        PatchCall::begin(alloc, seat, actor, number, call, opening, tries)
    }

    /// The same, of a put too.
    pub fn begin(
        alloc: Global,
        seat: Seat,
        actor: Actor,
        number: u32,
        call: &'a Call,
        opening: Opening,
        tries: u32,
    ) -> PatchCall<'a>
        requires change { is_change call.now ≡ true }
        requires client { IsClient actor }
        requires own { seat.actor ≡ actor }
        requires unused { seat.unused ≤ number }
        requires tries { 0 < tries }
        requires script { IsOfScript opening actor number call.now }
        ensures { result ≡ first_patch opening tries seat number call.now }
    {
        let gatherings = PartGatherings::new(alloc, opening.copy());
        let writing = Writing::new(alloc, opening.copy(), 0, Vec::new(alloc));
        PatchCall {
            alloc,
            stage: PatchStage::Looking,
            ticket: Ticket::new(seat),
            actor,
            call,
            number,
            tries,
            opening,
            size: 0,
            gatherings,
            writing,
            changes: Vec::new(alloc),
            outcome: Outcome::NoMemory,
            coding: false,
            step: false,
        }
    }

    /// What a put keeps. It does nothing when it runs.
    #[tactic(auto, using(crate::proofs::Puts::kind_so, crate::proofs::Puts::takes_nothing, crate::proofs::Puts::ends_so))]
    pub fn keeps(&self)
        ensures kind { is_put self.now.written ≡ true → self.now.call.job.note.kind ≡ Kind.Put }
        ensures nothing { is_put self.now.written ≡ true → HasTakenNothing self.now.call }
        ensures ended { (outcome : CoreOutcome) → is_put self.now.written ≡ true →
            act_of self.now.call ≡ CoreAct.Finish outcome → self.now.call.state.at ≡ State.Finished outcome }
    {
        let _ = &self.alloc;
    }

    /// Where the call has to go on.
    #[tactic(auto, using(crate::proofs::Making::may))]
    pub fn need(&self) -> Need
        ensures need { result ≡ need_of self.now.call }
        ensures in_pass { IsDueInPass self.now.call }
        ensures pass { HoldsItsPass self.now.call }
        ensures may { MayMakeNext self.now.call }
        ensures below { IsServerBelow (chunk_count self.now.call.book.geometry) result }
    {
        // That a commit has whole rows is needed below.
        self.writing.keeps();
        match self.stage {
            PatchStage::Looking if self.changes.len() >= self.tries as usize => Need::Finished,
            PatchStage::Looking | PatchStage::Ending => Need::Directory,
            PatchStage::Looked => Need::Coder,
            PatchStage::Gathering => self.gatherings.need(),
            PatchStage::Writing => self.writing.need(),
            PatchStage::Ungathered | PatchStage::GivenUp | PatchStage::Finished => Need::Finished,
        }
    }

    /// What the call does next.
    #[tactic(auto, using(crate::proofs::Acting::looks, crate::proofs::Acting::tried, crate::proofs::Acting::ends, crate::proofs::Acting::ungathered, crate::proofs::Acting::given_up, crate::proofs::Acting::finished,))]
    pub fn act(&self) -> Act
        ensures { result ≡ act_now self.now.call }
    {
        match self.stage {
            PatchStage::Looking if self.changes.len() >= self.tries as usize => Act::Finished,
            PatchStage::Looking => Act::Directory(DirectoryAct::Look),
            PatchStage::Ending => Act::Directory(DirectoryAct::End),
            PatchStage::Looked => Act::Coding,
            PatchStage::Gathering => self.gatherings.act(DirectoryAct::Draw),
            PatchStage::Writing => self.writing.act(),
            PatchStage::Ungathered | PatchStage::GivenUp | PatchStage::Finished => Act::Finished,
        }
    }

    /// One step at the server that is needed, and its answer.
    pub fn on_server(&mut self, s: &mut Server) -> ServerAnswer
        requires need { need_of self.old.call ≡ Need.Server s.old.number }
        requires book { s.old.book ≡ self.old.call.book }
        ensures step { LeadsToAtServer self.old.call (core_of s.old) self.new.call (core_of s.new) }
        ensures told { IsToldHere result self.old.call (core_of s.old) self.new.call }
        ensures written { self.new.written ≡ self.old.written }
        ensures knows { (d : Sealed) → KnowsOld d self.old → KnowsOld d self.new }
        ensures number { s.new.number ≡ s.old.number }
        ensures book { s.new.book ≡ s.old.book }
    {
        self.coding = false;
        match self.stage {
            PatchStage::Gathering => {
                let answer = self.gatherings.on_server(s);
                self.step = answer.is_err();
                ServerAnswer::or_short(answer)
            }
            _ => {
                let answer = self.writing.on_server(s);
                self.step = answer.is_err();
                ServerAnswer::or_short(answer)
            }
        }
    }

    /// Whether memory was wanting in the last coding, where no step came after it.
    pub fn coding_was_short(&self) -> bool
        ensures { result ≡ self.now.call.coding }
    {
        self.coding
    }

    /// The point of its change, once it has come: of a write's commit, or of a delete that was answered
    /// ok.
    pub fn committed(&self) -> Option<Point>
        ensures { option_map (λ point. point.0) result ≡ point_of self.now.call.state.at }
    {
        match self.stage {
            PatchStage::Writing => {
                // How it has ended is needed below.
                let _ = self.writing.doing();
                self.writing.committed_at()
            }
            PatchStage::Finished => point_of_outcome(&self.outcome),
            _ => None,
        }
    }

    /// What it has taken in all its tries, or none where it has taken nothing.
    pub fn takes(&self) -> Option<&Takes>
        ensures { option_map (λ takes. takes.now) result ≡ taken_of self.now.call.takes }
    {
        self.gatherings.takes()
    }

    /// The seat of the client whose call is over, how it ended, and what it has taken, or none where
    /// it has taken nothing.
    pub fn finish(self) -> (Seat, Outcome, Option<Takes>)
        requires { need_of self.call ≡ Need.Finished }
        ensures seat { ActorToken.Seated result.0 ≡ self.entry.call.token }
        ensures outcome { act_of self.entry.call ≡ CoreAct.Finish (outcome_of result.1) }
        ensures takes { result.2 ≡ taken_of self.entry.call.takes }
    {
        // That it holds no pass is needed below.
        let _ = self.need();
        let PatchCall {
            alloc: _,
            stage,
            ticket,
            actor: _,
            call: _,
            number: _,
            tries: _,
            opening: _opening,
            size: _,
            gatherings,
            writing,
            changes,
            outcome,
            coding: _,
            step: _,
        } = self;
        let seat = ticket.into_seat();
        match stage {
            PatchStage::Looking => (
                seat,
                Outcome::Contended { changes },
                gatherings.into_takes(),
            ),
            PatchStage::Ungathered => {
                let (outcome, takes) = outcome_of_gatherings(gatherings);
                (seat, outcome, takes)
            }
            PatchStage::Writing | PatchStage::GivenUp => {
                (seat, writing.into_outcome(), gatherings.into_takes())
            }
            _ => (seat, outcome, gatherings.into_takes()),
        }
    }

    /// Leaves the directory in the middle of the call: what it has taken, or none where it has taken
    /// nothing.
    pub fn abandon(self) -> Option<Takes>
        ensures { result ≡ taken_of self.entry.call.takes }
    {
        let PatchCall {
            alloc: _,
            stage: _,
            ticket,
            actor: _,
            call: _,
            number: _,
            tries: _,
            opening: _opening,
            size: _,
            gatherings,
            writing: _writing,
            changes: _changes,
            outcome: _outcome,
            coding: _,
            step: _,
        } = self;
        ticket.leave();
        gatherings.into_takes()
    }
}
