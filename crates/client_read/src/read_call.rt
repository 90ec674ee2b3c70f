//! A call that reads as a machine of steps.
ghost use Rattle.std.specs.Prelude.{◌≡◌, ◌<◌, ◌≤◌, ℕ, true, false};
ghost use Rattle.std.specs.Option.{option_map};
ghost use Rattle.clay_grid.specs.Shape.{chunk_count};
ghost use Rattle.store_core.specs.Agreement.{ActorToken};
ghost use Rattle.run_laws.specs.State.{Sequel, State};
ghost use Rattle.chunk_server.specs.Core.{core_of};
ghost use Rattle.chunk_server.specs.State.{IsSame};
ghost use Rattle.call_steps.specs.Steps.{IsServerBelow, LeadsToAtServer, coded, need_of, HoldsItsPass, IsDueInPass, MayMakeNext};
ghost use Rattle.call_steps.specs.Acts.{act_now};
ghost use Rattle.call_steps.specs.Hearing.{IsToldHere};
ghost use Rattle.call_steps.specs.Outcomes.{outcome_of};
ghost use Rattle.gather_parts.specs.Ends.{end_state};
ghost use Rattle.call_steps.specs.CallOf.{taken_of};
ghost use Rattle.call_steps.specs.Callers.{IsClient};
ghost use Rattle.call_steps.specs.Ends.{finished_of};
ghost use Rattle.client_read.specs.Reads.{is_read, first_read};
ghost use Rattle.client_read.specs.Ends.{IfServed, AreBytes};

use crate::read_stage::ReadStage;
use call_steps::{Act, DirectoryAct, Need, Outcome, ServerAnswer};
use chunk_server::Server;
use clay_model::Coder;
use dir_tickets::Ticket;
use gather_parts::{Gathered, PartGatherings};
use read_ledger::Takes;
use std::alloc::Global;
use std::marker::Model;
use std::thread::Threads;
use store_map::{Call, Point};
use stripe_dir::Seat;
use version_seal::Opening;

/// A client's get, read or stat in work. It has to be finished or abandoned.
pub struct ReadCall<'a> {
    pub(crate) stage: ReadStage,
    pub(crate) ticket: Ticket,
    pub(crate) call: &'a Call,
    pub(crate) number: u32,
    pub(crate) gatherings: PartGatherings,
    // at which the bytes are served
    pub(crate) point: Point,
    // how it has ended, where that isn't what the gatherings came to
    pub(crate) outcome: Outcome,
    pub(crate) coding: bool,
    pub(crate) step: bool,
}

impl<'a> Model for ReadCall<'a> {
    ghost use Rattle.client_read.specs.Reads.{ReadOf};

    ghost Value = { ReadOf };

    ghost use Rattle.client_read.specs.Inside.{read_in, IsRead};

    ghost view = { read_in };

    ghost invariant = { IsRead };
}

// How a call ends whose gatherings came to this.
fn outcome_by(gathered: Gathered, point: Point) -> Outcome
    ensures state { State.Finished (outcome_of result) ≡ finished_of (end_state (Sequel.Serve point.0) gathered) }
    ensures served { IfServed result (λ bytes. AreBytes bytes gathered) }
{
    match gathered {
        Gathered::Bytes(bytes) => Outcome::Served { point, bytes },
        Gathered::TooMany { stripe, missing } => Outcome::Unavailable { stripe, missing },
        Gathered::Short => Outcome::NoMemory,
    }
}

impl<'a> ReadCall<'a> {
    /// A get, a read or a stat of a client that is in no call, under an unused number. It takes no
    /// memory.
    pub fn new(
        alloc: Global,
        seat: Seat,
        number: u32,
        call: &'a Call,
        opening: Opening,
    ) -> ReadCall<'a>
        requires read { is_read call.now ≡ true }
        requires client { IsClient seat.actor }
        requires unused { seat.unused ≤ number }
        ensures { result ≡ first_read opening seat number call.now }
    {
        ReadCall {
            stage: ReadStage::Looking,
            ticket: Ticket::new(seat),
            call,
            number,
            gatherings: PartGatherings::new(alloc, opening),
            point: Point(0),
            outcome: Outcome::NoMemory,
            coding: false,
            step: false,
        }
    }

    /// Where the call has to go on.
    #[tactic(auto, using(crate::proofs::Making::may))]
    pub fn need(&self) -> Need
        ensures need { result ≡ need_of self.now.call }
        ensures in_pass { IsDueInPass self.now.call }
        ensures pass { HoldsItsPass self.now.call }
        ensures may { MayMakeNext self.now.call }
        ensures below { IsServerBelow (chunk_count self.now.call.book.geometry) result }
    {
        match self.stage {
            ReadStage::Looking | ReadStage::Ending => Need::Directory,
            ReadStage::Gathering => self.gatherings.need(),
            ReadStage::Ended | ReadStage::Finished => Need::Finished,
        }
    }

    /// What the call does next.
    #[tactic(auto, using(crate::proofs::Acting::looks, crate::proofs::Acting::ends, crate::proofs::Acting::over, crate::proofs::Acting::finished))]
    pub fn act(&self) -> Act
        ensures { result ≡ act_now self.now.call }
    {
        match self.stage {
            ReadStage::Looking => Act::Directory(DirectoryAct::Look),
            ReadStage::Ending => Act::Directory(DirectoryAct::End),
            ReadStage::Gathering => self.gatherings.act(DirectoryAct::End),
            ReadStage::Ended | ReadStage::Finished => Act::Finished,
        }
    }

    /// One step at the server that is needed, and its answer.
    pub fn on_server(&mut self, s: &mut Server) -> ServerAnswer
        requires need { need_of self.old.call ≡ Need.Server s.old.number }
        requires book { s.old.book ≡ self.old.call.book }
        ensures step { LeadsToAtServer self.old.call (core_of s.old) self.new.call (core_of s.new) }
        ensures told { IsToldHere result self.old.call (core_of s.old) self.new.call }
        ensures owed { self.new.owed ≡ self.old.owed }
        ensures same { IsSame s.old s.new }
    {
        self.coding = false;
        let answer = self.gatherings.on_server(s);
        self.step = answer.is_err();
        ServerAnswer::or_short(answer)
    }

    /// Makes the bytes of the stripe that has come, and takes the memory for the next one. It makes no
    /// step. Afterwards the call tells whether memory was wanting in it.
    pub fn on_coder<R: Threads + Sync, C: Coder>(&mut self, rt: &R, coder: &C)
        requires { need_of self.old.call ≡ Need.Coder }
        ensures coded { self.new.call ≡ coded self.new.call.coding self.old.call }
        ensures owed { self.new.call.coding ≡ false → self.new.owed ≡ self.old.owed }
    {
        match self.gatherings.on_coder(rt, coder) {
            Ok(()) => self.coding = false,
            Err(_) => {
                self.coding = true;
                self.outcome = Outcome::NoMemory;
                self.stage = ReadStage::Ending;
            }
        }
    }

    /// Whether memory was wanting in the last coding, where no step came after it.
    pub fn coding_was_short(&self) -> bool
        ensures { result ≡ self.now.call.coding }
    {
        self.coding
    }

    /// What it has taken, or none where it has taken nothing.
    pub fn takes(&self) -> Option<&Takes>
        ensures { option_map (λ takes. takes.now) result ≡ taken_of self.now.call.takes }
    {
        self.gatherings.takes()
    }

    /// The seat of the client whose call is over, how it ended, and what it has taken, or none where
    /// it has taken nothing.
    pub fn finish(self) -> (Seat, Outcome, Option<Takes>)
        requires { need_of self.call ≡ Need.Finished }
        ensures seat { ActorToken.Seated result.0 ≡ self.entry.call.token }
        ensures outcome { self.entry.call.state.at ≡ State.Finished (outcome_of result.1) }
        ensures served { IfServed result.1 (λ bytes. bytes.items ≡ self.entry.owed) }
        ensures takes { result.2 ≡ taken_of self.entry.call.takes }
    {
        let ReadCall {
            stage,
            ticket,
            call: _,
            number: _,
            gatherings,
            point,
            outcome,
            coding: _,
            step: _,
        } = self;
        let seat = ticket.into_seat();
        match stage {
            ReadStage::Finished => (seat, outcome, gatherings.into_takes()),
            _ => {
                let (gathered, takes) = gatherings.finish();
                (seat, outcome_by(gathered, point), takes)
            }
        }
    }

    /// Leaves the directory in the middle of the call: what it has taken, or none where it has taken
    /// nothing.
    pub fn abandon(self) -> Option<Takes>
        ensures { result ≡ taken_of self.entry.call.takes }
    {
        let ReadCall {
            stage: _,
            ticket,
            call: _,
            number: _,
            gatherings,
            point: _,
            outcome: _outcome,
            coding: _,
            step: _,
        } = self;
        ticket.leave();
        gatherings.into_takes()
    }
}
