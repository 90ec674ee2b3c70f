//! A rebuild as a machine of steps.
ghost use Rattle.std.specs.Prelude.{◌≡◌, ◌<◌, ℕ, option_map, IfSome, IsTrue, is_some};
ghost use Rattle.clay_grid.specs.Shape.{chunk_count};
ghost use Rattle.store_core.specs.Act.{DirectoryStep};
ghost use Rattle.store_core.specs.Note.{note_of_rebuild};
ghost use Rattle.store_core.specs.Agreement.{Agrees, ActorToken};
ghost use Rattle.store_core.specs.Tokens.{MayLook};
ghost use Rattle.run_laws.specs.State.{State};
ghost use Rattle.chunk_server.specs.Core.{core_of};
ghost use Rattle.chunk_server.specs.State.{IsSame};
ghost use Rattle.call_steps.specs.Steps.{IsServerBelow, need_of, LeadsTo, LeadsToAtServer, coded, HoldsItsPass};
ghost use Rattle.call_steps.specs.Steps.{IsDueInPass, MayMakeNext, IsUndueOncePlaced};
ghost use Rattle.call_steps.specs.Acts.{act_now};
ghost use Rattle.call_steps.specs.Hearing.{IsToldHere, IsToldThere};
ghost use Rattle.call_steps.specs.Outcomes.{repair_outcome_of};
ghost use Rattle.repairer.specs.Calls.{new_call};
ghost use Rattle.call_steps.specs.CallOf.{taken_of};
ghost use Rattle.gathering.specs.Courses.{IsAskingStage};
ghost use Rattle.repairer.specs.Acting.{AsksAs, install_act};
ghost use Rattle.repairer.specs.Inside.{takes_at};

use crate::stage::RepairStage;
use call_steps::{
    Act, DirectoryAct, DirectoryAnswer, Need, RepairOutcome, ServerAct, ServerAnswer,
};
use chunk_server::Server;
use clay_model::Coder;
use dir_tickets::Ticket;
use gathering::Gather;
use read_ledger::Takes;
use std::marker::Model;
use std::snapshot::Snapshot;
use std::thread::Threads;
use store_map::Rebuild;
use stripe_dir::{Directory, Seat, Seen};
use version_seal::{Opening, SealedChunk};

/// A rebuild in work. It has to be spent.
///
/// Memory is taken in its look, in the steps at servers and in its two codings: before the first
/// question, and once all parts have come. Where it is wanting the call ends with
/// [`RepairOutcome::NoMemory`].
pub struct RepairCall<'a> {
    pub(crate) stage: RepairStage,
    pub(crate) ticket: Ticket,
    pub(crate) rebuild: &'a Rebuild,
    pub(crate) number: u32,
    pub(crate) opening: Opening,
    // the pinned stripe, from the look until its gathering is made
    pub(crate) seen: Option<Seen>,
    // what the look gave, from then on. It is for contracts alone, and has no bytes
    pub(crate) looked: Snapshot<Option<Seen>>,
    pub(crate) gather: Option<Gather>,
    pub(crate) chunk: Option<SealedChunk>,
    pub(crate) takes: Option<Takes>,
    // the epoch at which the chunk was placed
    pub(crate) epoch: u64,
    // how the call ends, once that is known
    pub(crate) outcome: RepairOutcome,
    // whether a coding comes before the next step
    pub(crate) due: bool,
    // whether memory was wanting in the last coding, and in the last step
    pub(crate) coding: bool,
    pub(crate) step: bool,
}

impl<'a> Model for RepairCall<'a> {
    ghost use Rattle.call_steps.specs.CallOf.{CallOf};

    ghost Value = { CallOf };

    ghost use Rattle.repairer.specs.Inside.{call_in};
    ghost use Rattle.repairer.specs.Kept.{IsRepair};

    ghost view = { call_in };

    ghost invariant = { IsRepair };
}

impl<'a> RepairCall<'a> {
    /// A repairer's call with this number, which its seat has not used yet, before its first step.
    /// The opening is that of the book of the store's versions.
    pub fn new(seat: Seat, number: u32, call: &'a Rebuild, opening: Opening) -> RepairCall<'a>
        requires may { MayLook seat number (DirectoryStep.LookRepair (note_of_rebuild call.now)) }
        requires server { call.now.server < chunk_count opening.geometry }
        ensures { result ≡ new_call opening call.now number seat }
    {
        RepairCall {
            stage: RepairStage::Start,
            ticket: Ticket::new(seat),
            rebuild: call,
            number,
            opening,
            seen: None,
            looked: Snapshot::of(&None),
            gather: None,
            chunk: None,
            takes: None,
            epoch: 0,
            outcome: RepairOutcome::NoMemory,
            due: false,
            coding: false,
            step: false,
        }
    }

    /// Where the call has to go on.
    #[tactic(auto, using(crate::proofs::Holding::holds, crate::proofs::Making::may, crate::proofs::Making::undue))]
    pub fn need(&self) -> Need
        ensures need { result ≡ need_of self.now }
        ensures below { IsServerBelow (chunk_count self.now.book.geometry) result }
        ensures in_pass { IsDueInPass self.now }
        ensures pass { HoldsItsPass self.now }
        ensures may { MayMakeNext self.now }
        ensures placed { IsUndueOncePlaced self.now }
    {
        if self.due {
            return Need::Coder;
        }
        match self.stage {
            RepairStage::Gathering => match &self.gather {
                Some(gather) => gather.need(),
                None => unreachable!(),
            },
            RepairStage::Installing => Need::Server(self.rebuild.server),
            RepairStage::Finished => Need::Finished,
            _ => Need::Directory,
        }
    }

    /// Whether memory was wanting in the last coding, where no step came after it.
    pub fn coding_was_short(&self) -> bool
        ensures { result ≡ self.now.coding }
    {
        self.coding
    }

    /// What was taken from each server so far, or none where nothing was.
    pub fn takes(&self) -> Option<&Takes>
        ensures { option_map (λ takes. takes.now) result ≡ taken_of self.now.takes }
    {
        match &self.takes {
            Some(takes) => { if takes.any() { Some(takes) } else { None } }
            None => None,
        }
    }

    /// The actor's seat, how the call ended, and what it took from each server, or none where it took
    /// nothing.
    pub fn finish(self) -> (Seat, RepairOutcome, Option<Takes>)
        requires { need_of self ≡ Need.Finished }
        ensures outcome { self.entry.state.at ≡ State.Finished (repair_outcome_of result.1) }
        ensures seat { ActorToken.Seated result.0 ≡ self.entry.token }
        ensures takes { result.2 ≡ taken_of self.entry.takes }
    {
        let RepairCall {
            stage: _,
            ticket,
            rebuild: _,
            number: _,
            opening: _,
            seen: _,
            looked: _,
            gather: _,
            chunk: _,
            takes,
            epoch: _,
            outcome,
            due: _,
            coding: _,
            step: _,
        } = self;
        (ticket.into_seat(), outcome, some_taken(takes))
    }

    /// Gives the call up where it stands, and tells what it took from each server, or none where it took
    /// nothing. Its actor makes no step any more, and a pass stays open.
    pub fn abandon(self) -> Option<Takes>
        ensures { result ≡ taken_of self.entry.takes }
    {
        let RepairCall {
            stage: _,
            ticket,
            rebuild: _,
            number: _,
            opening: _,
            seen: _,
            looked: _,
            gather: _,
            chunk: _,
            takes,
            epoch: _,
            outcome: _,
            due: _,
            coding: _,
            step: _,
        } = self;
        ticket.leave();
        some_taken(takes)
    }

    /// Gives the call up where it stands: its actor makes no step any more, and a pass stays open.
    pub fn leave(self) {
        let _taken = self.abandon();
    }

    /// What the call does next.
    #[tactic(auto, using(crate::proofs::Acting::asks_there, crate::proofs::Acting::asks_stage, crate::proofs::Acting::gathers, crate::proofs::Acting::made_there, crate::proofs::Acting::installs, crate::proofs::Acting::looks, crate::proofs::Acting::confirms, crate::proofs::Acting::tells, crate::proofs::Acting::ends, crate::proofs::Acting::finished, crate::proofs::Acting::codes,))]
    pub fn act(&self) -> Act
        ensures { result ≡ act_now self.now }
    {
        if self.due {
            return Act::Coding;
        }
        match self.stage {
            RepairStage::Start => Act::Directory(DirectoryAct::LookRepair),
            RepairStage::Gathering => asks(&self.gather),
            RepairStage::Confirming => Act::Directory(DirectoryAct::Confirm),
            RepairStage::Installing => installs(&self.chunk, self.rebuild.server),
            RepairStage::Placing => Act::Directory(DirectoryAct::Repaired {
                server: self.rebuild.server,
                epoch: self.epoch,
            }),
            RepairStage::Ending => Act::Directory(DirectoryAct::End),
            RepairStage::Finished => Act::Finished,
        }
    }

    /// One step at the directory, and its answer. Afterwards the call tells whether memory was wanting
    /// in it.
    pub fn on_directory(&mut self, d: &mut Directory) -> DirectoryAnswer
        requires need { need_of self.old ≡ Need.Directory }
        requires agrees { Agrees d.old.core self.old.token }
        requires book { d.old.book ≡ self.old.book }
        ensures step { LeadsTo self.old d.old.core self.new d.new.core }
        ensures told { IsToldThere result self.old d.old.core self.new }
        ensures agrees { Agrees d.new.core self.new.token }
        ensures book { d.new.book ≡ d.old.book }
        ensures stamps { d.new.stamps ≡ d.old.stamps }
    {
        match self.stage {
            RepairStage::Start => self.look(d),
            RepairStage::Confirming => self.confirm(d),
            RepairStage::Placing => self.tell_placed(d),
            RepairStage::Ending => self.end(d),
            _ => unreachable!(),
        }
    }

    /// One step at the server that is needed, and its answer. Afterwards the call tells whether memory
    /// was wanting in it.
    pub fn on_server(&mut self, s: &mut Server) -> ServerAnswer
        requires need { need_of self.old ≡ Need.Server s.old.number }
        requires book { s.old.book ≡ self.old.book }
        ensures step { LeadsToAtServer self.old (core_of s.old) self.new (core_of s.new) }
        ensures told { IsToldHere result self.old (core_of s.old) self.new }
        ensures same { IsSame s.old s.new }
    {
        match self.stage {
            RepairStage::Gathering => self.ask(s),
            RepairStage::Installing => self.install(s),
            _ => unreachable!(),
        }
    }

    /// Makes the gathering of the chunk, or the chunk itself. It makes no step. Afterwards the call
    /// tells whether memory was wanting in it.
    pub fn on_coder<R: Threads + Sync, C: Coder>(&mut self, rt: &R, coder: &C)
        requires { need_of self.old ≡ Need.Coder }
        ensures { self.new ≡ coded self.new.coding self.old }
    {
        match self.stage {
            RepairStage::Gathering => self.begin(),
            RepairStage::Confirming => self.make(rt, coder),
            _ => unreachable!(),
        }
    }
}

// The question of a gathering that asks.
fn asks(gather: &Option<Gather>) -> Act
    requires there { IsTrue (is_some gather.now) }
    requires asks { IfSome gather.now (λ w. IsAskingStage w.course.stage) }
    ensures { IfSome gather.now (λ w. AsksAs w result) }
{
    match gather {
        Some(gather) => match gather.question() {
            Some((server, step)) => Act::Server(server, step),
            None => unreachable!(),
        },
        None => unreachable!(),
    }
}

// The install of a chunk that is made.
fn installs(chunk: &Option<SealedChunk>, server: u32) -> Act
    requires { IsTrue (is_some chunk.now) }
    ensures { IfSome chunk.now (λ made. result ≡ install_act server made.stamp.version) }
{
    match chunk {
        Some(chunk) => Act::Server(server, ServerAct::Install(chunk.stamp().version())),
        None => unreachable!(),
    }
}

// The takes, where a server gave something.
fn some_taken(takes: Option<Takes>) -> Option<Takes>
    ensures { (servers : ℕ) → result ≡ taken_of (takes_at servers takes) }
{
    match takes {
        Some(takes) => { if takes.any() { Some(takes) } else { None } }
        None => None,
    }
}
