//! A put as a machine of steps: that of writes, of which it keeps no old bytes and is tried once.
ghost use Rattle.std.specs.Prelude.{◌≡◌, ◌<◌, ◌≤◌, true, None};
ghost use Rattle.std.specs.Option.{option_map};
ghost use Rattle.clay_grid.specs.Shape.{chunk_count};
ghost use Rattle.store_core.specs.Agreement.{Agrees, ActorToken};
ghost use Rattle.run_laws.specs.State.{State};
ghost use Rattle.chunk_server.specs.Core.{core_of};
ghost use Rattle.call_steps.specs.Acts.{act_now};
ghost use Rattle.call_steps.specs.CallOf.{HasTakenNothing};
ghost use Rattle.call_steps.specs.Hearing.{IsToldHere, IsToldThere};
ghost use Rattle.call_steps.specs.Steps.{IsServerBelow, LeadsTo, LeadsToAtServer, coded, need_of, HoldsItsPass, IsDueInPass, MayMakeNext};
ghost use Rattle.call_steps.specs.Outcomes.{outcome_of};
ghost use Rattle.client_put.specs.Puts.{is_put, first_put};
ghost use Rattle.client_patch.specs.Patches.{stamps_after};
ghost use Rattle.call_steps.specs.Callers.{IsClient, IsOfScript};
ghost use Rattle.call_steps.specs.Ends.{point_of};

use call_steps::{Act, DirectoryAnswer, Need, Outcome, ServerAnswer};
use chunk_server::Server;
use clay_model::Coder;
use client_patch::PatchCall;
use read_ledger::Takes;
use std::alloc::Global;
use std::marker::Model;
use std::thread::Threads;
use store_map::{Actor, Call, Point};
use stripe_dir::{Directory, Seat};
use version_seal::{Book, Opening};

/// A client's put in work. It has to be finished, or to leave the directory.
pub struct PutCall<'a> {
    patch: PatchCall<'a>,
}

impl<'a> Model for PutCall<'a> {
    ghost use Rattle.client_put.specs.Puts.{PutOf};

    ghost Value = { PutOf };

    ghost use Rattle.client_put.specs.Inside.{put_in, IsPut};

    ghost view = { put_in };

    ghost invariant = { IsPut };
}

impl<'a> PutCall<'a> {
    /// A put of a client that is in no call, under an unused number. In a book with a script it is the
    /// script's call of that number.
    pub fn new(
        alloc: Global,
        seat: Seat,
        actor: Actor,
        number: u32,
        call: &'a Call,
        opening: Opening,
    ) -> PutCall<'a>
        requires put { is_put call.now ≡ true }
        requires client { IsClient actor }
        requires own { seat.actor ≡ actor }
        requires unused { seat.unused ≤ number }
        requires script { IsOfScript opening actor number call.now }
        ensures { result ≡ first_put opening seat number call.now }
    {
        PutCall {
            patch: PatchCall::begin(alloc, seat, actor, number, call, opening, 1),
        }
    }

    /// Where the call has to go on.
    pub fn need(&self) -> Need
        ensures need { result ≡ need_of self.now.call }
        ensures in_pass { IsDueInPass self.now.call }
        ensures pass { HoldsItsPass self.now.call }
        ensures may { MayMakeNext self.now.call }
        ensures below { IsServerBelow (chunk_count self.now.call.book.geometry) result }
    {
        self.patch.keeps();
        self.patch.need()
    }

    /// What the call does next.
    pub fn act(&self) -> Act
        ensures { result ≡ act_now self.now.call }
    {
        self.patch.keeps();
        self.patch.act()
    }

    /// One step at the directory of this book, and its answer. What it draws is sealed in the book.
    pub fn on_directory(&mut self, directory: &mut Directory, book: &Book) -> DirectoryAnswer
        requires need { need_of self.old.call ≡ Need.Directory }
        requires agrees { Agrees directory.old.core self.old.call.token }
        requires its { directory.old.book ≡ self.old.call.book }
        requires book { book.now ≡ self.old.call.book }
        ensures step { LeadsTo self.old.call directory.old.core self.new.call directory.new.core }
        ensures told { IsToldThere result self.old.call directory.old.core self.new.call }
        ensures agrees { Agrees directory.new.core self.new.call.token }
        ensures written { self.new.written ≡ self.old.written }
        ensures book { directory.new.book ≡ directory.old.book }
        ensures stamps { directory.new.stamps
            ≡ stamps_after self.new.call.step directory.old self.old.call self.old.written }
    {
        self.patch.keeps();
        self.patch.advance(directory, book)
    }

    /// One step at the server that is needed, and its answer.
    pub fn on_server(&mut self, s: &mut Server) -> ServerAnswer
        requires need { need_of self.old.call ≡ Need.Server s.old.number }
        requires book { s.old.book ≡ self.old.call.book }
        ensures step { LeadsToAtServer self.old.call (core_of s.old) self.new.call (core_of s.new) }
        ensures told { IsToldHere result self.old.call (core_of s.old) self.new.call }
        ensures written { self.new.written ≡ self.old.written }
        ensures number { s.new.number ≡ s.old.number }
        ensures book { s.new.book ≡ s.old.book }
    {
        self.patch.keeps();
        self.patch.on_server(s)
    }

    /// Makes the chunks of the version at work. It makes no step. Afterwards the put tells whether
    /// memory was wanting in it.
    pub fn on_coder<R: Threads + Sync, C: Coder>(&mut self, rt: &R, coder: &C)
        requires { need_of self.old.call ≡ Need.Coder }
        ensures coded { self.new.call ≡ coded self.new.call.coding self.old.call }
        ensures written { self.new.written ≡ self.old.written }
    {
        self.patch.keeps();
        self.patch.on_coder(rt, coder);
    }

    /// Whether memory was wanting in the last coding, where no step came after it.
    pub fn coding_was_short(&self) -> bool
        ensures { result ≡ self.now.call.coding }
    {
        self.patch.coding_was_short()
    }

    /// The point of the commit, once it has come.
    pub fn committed(&self) -> Option<Point>
        ensures { option_map (λ point. point.0) result ≡ point_of self.now.call.state.at }
    {
        self.patch.committed()
    }

    /// What it has taken: nothing.
    pub fn takes(&self) -> Option<&Takes>
        ensures none { result ≡ None }
        ensures nothing { HasTakenNothing self.now.call }
    {
        self.patch.keeps();
        None
    }

    /// The seat of the client whose put is over, how it ended, and what it has taken: nothing.
    pub fn finish(self) -> (Seat, Outcome, Option<Takes>)
        requires { need_of self.call ≡ Need.Finished }
        ensures seat { ActorToken.Seated result.0 ≡ self.entry.call.token }
        ensures outcome { self.entry.call.state.at ≡ State.Finished (outcome_of result.1) }
        ensures none { result.2 ≡ None }
        ensures nothing { HasTakenNothing self.entry.call }
    {
        let PutCall { patch } = self;
        patch.keeps();
        patch.finish()
    }

    /// Leaves the directory in the middle of the call.
    pub fn leave(self) {
        let PutCall { patch } = self;
        let _takes = patch.abandon();
    }
}
