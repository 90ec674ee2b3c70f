//! A call in work, of any kind: of a client, or a rebuild of a repairer.
ghost use Rattle.std.specs.Prelude.{◌≡◌, ◌<◌, ◌≤◌, ◌&&◌, ◌++◌, ℕ, List, false};
ghost use Rattle.std.specs.Option.{option_map};
ghost use Rattle.clay_grid.specs.Shape.{chunk_count};
ghost use Rattle.store_core.specs.Act.{Act as CoreAct};
ghost use Rattle.store_core.specs.Agreement.{Agrees, ActorToken};
ghost use Rattle.run_laws.specs.State.{State};
ghost use Rattle.chunk_server.specs.Core.{core_of};
ghost use Rattle.chunk_server.specs.State.{IsSame};
ghost use Rattle.stripe_stamps.specs.Sealed.{Sealed};
ghost use Rattle.call_steps.specs.Acts.{act_now};
ghost use Rattle.call_steps.specs.CallOf.{act_of, taken_of, HasTakenNothing};
ghost use Rattle.call_steps.specs.Hearing.{IsToldHere, IsToldThere};
ghost use Rattle.call_steps.specs.Steps.{need_of, IsServerBelow, LeadsTo, LeadsToAtServer, coded, HoldsItsPass};
ghost use Rattle.call_steps.specs.Steps.{IsDueInPass, MayMakeNext, IsUndueOncePlaced};
ghost use Rattle.call_steps.specs.CallOutcomes.{call_outcome_of};
ghost use Rattle.call_steps.specs.Callers.{IsOfScript};
ghost use Rattle.call_steps.specs.Ready.{ready};
ghost use Rattle.client_patch.specs.Padded.{ArePadded};
ghost use Rattle.call_machine.specs.Kinds.{Asked, client_machine, machine_of, IfReads, IfDraws, IfPuts, IfPatches, IfRebuilds, UnlessPatches};
ghost use Rattle.call_machine.specs.Calls.{first_call, drawn_by, owed_by, KnowsOldOf};
ghost use Rattle.call_machine.specs.Going.{GoesOn, HasPlace};
ghost use Rattle.call_machine.specs.Ends.{IfBytesServed, IsEndOf};

use call_steps::{Act, CallOutcome, DirectoryAnswer, Need, ServerAnswer};
use chunk_server::Server;
use clay_model::Coder;
use client_patch::PatchCall;
use client_put::PutCall;
use client_read::ReadCall;
use read_ledger::Takes;
use repairer::RepairCall;
use std::alloc::Global;
use std::marker::Model;
use std::thread::Threads;
use store_map::{Actor, Call, Rebuild};
use stripe_dir::{Directory, Seat};
use version_seal::{Book, Opening};

// The machine of its kind.
enum MachineKind<'a> {
    Read(ReadCall<'a>),
    Put(PutCall<'a>),
    Patch(PatchCall<'a>),
    Rebuild(RepairCall<'a>),
}

// What is asked.
#[derive(Clone, Copy)]
enum Task<'a> {
    Call(&'a Call),
    Rebuild(&'a Rebuild),
}

/// A call in work, of a client or of a repairer. It has to be finished or abandoned.
pub struct CallMachine<'a> {
    kind: MachineKind<'a>,
    task: Task<'a>,
}

impl<'a> Model for CallMachine<'a> {
    ghost use Rattle.call_machine.specs.Calls.{MachineOf};

    ghost Value = { MachineOf };

    ghost use Rattle.call_machine.specs.Inside.{call_in, IsCallMachine};

    ghost view = { call_in };

    ghost invariant = { IsCallMachine };
}

impl<'a> CallMachine<'a> {
    /// A call of the client of this number, which is in no call, under an unused number of its own. In
    /// a book with a script what puts, writes or deletes is the script's call of that number. A write is
    /// tried so often. It takes no memory.
    pub fn client(
        alloc: Global,
        seat: Seat,
        client: u32,
        number: u32,
        call: &'a Call,
        opening: Opening,
        tries: u32,
    ) -> CallMachine<'a>
        requires own { seat.actor ≡ Actor.Client client }
        requires unused { seat.unused ≤ number }
        requires tries { IfPatches (client_machine call.now) (0 < tries) }
        requires script { IfDraws (client_machine call.now) (IsOfScript opening (Actor.Client client) number call.now) }
        ensures { result ≡ first_call opening tries seat number (Asked.OfClient call.now) }
    {
        let actor = Actor::Client(client);
        let task = Task::Call(call);
        match call {
            Call::Put { .. } => {
                let put = PutCall::new(alloc, seat, actor, number, call, opening);
                CallMachine {
                    kind: MachineKind::Put(put),
                    task,
                }
            }
            Call::Write { .. } | Call::Delete { .. } => {
                let patch = PatchCall::new(alloc, seat, actor, number, call, opening, tries);
                CallMachine {
                    kind: MachineKind::Patch(patch),
                    task,
                }
            }
            _ => {
                let read = ReadCall::new(alloc, seat, number, call, opening);
                CallMachine {
                    kind: MachineKind::Read(read),
                    task,
                }
            }
        }
    }

    /// A rebuild of a repairer, which is in no call, under an unused number of its own. It takes no
    /// memory.
    pub fn rebuild(
        seat: Seat,
        repairer: u32,
        number: u32,
        rebuild: &'a Rebuild,
        opening: Opening,
    ) -> CallMachine<'a>
        requires own { seat.actor ≡ Actor.Repairer repairer }
        requires unused { seat.unused ≤ number }
        requires server { rebuild.now.server < chunk_count opening.geometry }
        ensures { (tries : ℕ) → result ≡ first_call opening tries seat number (Asked.OfRepairer rebuild.now) }
    {
        let call = RepairCall::new(seat, number, rebuild, opening);
        CallMachine {
            kind: MachineKind::Rebuild(call),
            task: Task::Rebuild(rebuild),
        }
    }

    /// Where the call has to go on.
    pub fn need(&self) -> Need
        ensures need { result ≡ need_of self.now.call }
        ensures in_pass { IsDueInPass self.now.call }
        ensures pass { HoldsItsPass self.now.call }
        ensures may { MayMakeNext self.now.call }
        ensures placed { IfRebuilds (machine_of self.now.asked) (IsUndueOncePlaced self.now.call) }
        ensures below { IsServerBelow (chunk_count self.now.call.book.geometry) result }
    {
        match &self.kind {
            MachineKind::Read(read) => read.need(),
            MachineKind::Put(put) => put.need(),
            MachineKind::Patch(patch) => patch.need(),
            MachineKind::Rebuild(rebuild) => rebuild.need(),
        }
    }

    /// What the call does next.
    pub fn act(&self) -> Act
        ensures { result ≡ act_now self.now.call }
    {
        match &self.kind {
            MachineKind::Read(read) => read.act(),
            MachineKind::Put(put) => put.act(),
            MachineKind::Patch(patch) => patch.act(),
            MachineKind::Rebuild(rebuild) => rebuild.act(),
        }
    }

    /// One step at the directory of this book, and its answer. What it draws is sealed in the book. A write or a delete
    /// asks that behind the ends of the directory's objects its stamps have zeros, and that it knows the
    /// old bytes that it keeps.
    pub fn on_directory(&mut self, directory: &mut Directory, book: &Book) -> DirectoryAnswer
        requires need { need_of self.old.call ≡ Need.Directory }
        requires agrees { Agrees directory.old.core self.old.call.token }
        requires its { directory.old.book ≡ self.old.call.book }
        requires book { IfDraws (machine_of self.old.asked) (book.now ≡ self.old.call.book) }
        requires padded { IfPatches (machine_of self.old.asked) (ArePadded directory.old) }
        requires knows { KnowsOldOf directory.old self.old }
        ensures step { LeadsTo self.old.call directory.old.core self.new.call directory.new.core }
        ensures told { IsToldThere result self.old.call directory.old.core self.new.call }
        ensures agrees { Agrees directory.new.core self.new.call.token }
        ensures knows { KnowsOldOf directory.new self.new }
        ensures asked { self.new.asked ≡ self.old.asked }
        ensures owed { self.new.owed ≡ owed_by self.new.call.step directory.old self.old }
        ensures book { directory.new.book ≡ directory.old.book }
        ensures stamps { directory.new.stamps
            ≡ directory.old.stamps ++ drawn_by self.new.call.step directory.old self.old }
    {
        match &mut self.kind {
            MachineKind::Read(read) => read.on_directory(directory),
            MachineKind::Put(put) => put.on_directory(directory, book),
            MachineKind::Patch(patch) => patch.on_directory(directory, book),
            MachineKind::Rebuild(rebuild) => rebuild.on_directory(directory),
        }
    }

    /// One step at the server that is needed, and its answer.
    pub fn on_server(&mut self, s: &mut Server) -> ServerAnswer
        requires need { need_of self.old.call ≡ Need.Server s.old.number }
        requires book { s.old.book ≡ self.old.call.book }
        ensures step { LeadsToAtServer self.old.call (core_of s.old) self.new.call (core_of s.new) }
        ensures told { IsToldHere result self.old.call (core_of s.old) self.new.call }
        ensures knows { (d : Sealed) → KnowsOldOf d self.old → KnowsOldOf d self.new }
        ensures asked { self.new.asked ≡ self.old.asked }
        ensures owed { self.new.owed ≡ self.old.owed }
        ensures same { IsSame s.old s.new }
    {
        match &mut self.kind {
            MachineKind::Read(read) => read.on_server(s),
            MachineKind::Put(put) => put.on_server(s),
            MachineKind::Patch(patch) => patch.on_server(s),
            MachineKind::Rebuild(rebuild) => rebuild.on_server(s),
        }
    }

    /// The coding before the next step. It makes no step. Afterwards the call tells whether memory was
    /// wanting in it.
    // Apart from the turns that code nothing, which would pay for its stack.
    #[inline(never)]
    pub fn on_coder<R: Threads + Sync, C: Coder>(&mut self, rt: &R, coder: &C)
        requires { need_of self.old.call ≡ Need.Coder }
        ensures coded { self.new.call ≡ coded self.new.call.coding self.old.call }
        ensures knows { (d : Sealed) → KnowsOldOf d self.old → KnowsOldOf d self.new }
        ensures asked { self.new.asked ≡ self.old.asked }
        ensures owed { self.new.call.coding ≡ false → self.new.owed ≡ self.old.owed }
    {
        match &mut self.kind {
            MachineKind::Read(read) => read.on_coder(rt, coder),
            MachineKind::Put(put) => put.on_coder(rt, coder),
            MachineKind::Patch(patch) => patch.on_coder(rt, coder),
            MachineKind::Rebuild(rebuild) => rebuild.on_coder(rt, coder),
        }
    }

    /// The coding before the next step, if one is due: whether memory was wanting in it.
    pub fn ready<R: Threads + Sync, C: Coder>(&mut self, rt: &R, coder: &C) -> bool
        requires { GoesOn (need_of self.old.call) }
        ensures short { result ≡ (self.old.call.due && self.new.call.coding) }
        ensures ready { self.new.call ≡ ready self.new.call.coding self.old.call }
        ensures place { HasPlace (need_of self.new.call) }
        ensures in_pass { IsDueInPass self.old.call }
        ensures pass { HoldsItsPass self.old.call }
        ensures may { MayMakeNext self.old.call }
        ensures placed { IfRebuilds (machine_of self.old.asked) (IsUndueOncePlaced self.old.call) }
        ensures asked { self.new.asked ≡ self.old.asked }
        ensures owed { (self.old.call.due && self.new.call.coding) ≡ false → self.new.owed ≡ self.old.owed }
        ensures knows { (d : Sealed) → KnowsOldOf d self.old → KnowsOldOf d self.new }
    {
        if matches!(self.need(), Need::Coder) {
            self.on_coder(rt, coder);
            return self.coding_was_short();
        }
        false
    }

    /// Whether memory was wanting in the last coding, where no step came after it.
    pub fn coding_was_short(&self) -> bool
        ensures { result ≡ self.now.call.coding }
    {
        match &self.kind {
            MachineKind::Read(read) => read.coding_was_short(),
            MachineKind::Put(put) => put.coding_was_short(),
            MachineKind::Patch(patch) => patch.coding_was_short(),
            MachineKind::Rebuild(rebuild) => rebuild.coding_was_short(),
        }
    }

    /// What it has taken, or none where it has taken nothing.
    pub fn takes(&self) -> Option<&Takes>
        ensures takes { option_map (λ takes. takes.now) result ≡ taken_of self.now.call.takes }
        ensures nothing { IfPuts (machine_of self.now.asked) (HasTakenNothing self.now.call) }
    {
        match &self.kind {
            MachineKind::Read(read) => read.takes(),
            MachineKind::Put(put) => put.takes(),
            MachineKind::Patch(patch) => patch.takes(),
            MachineKind::Rebuild(rebuild) => rebuild.takes(),
        }
    }

    /// The seat of the actor whose call is over, how it ended, and what it has taken, or none where it
    /// has taken nothing.
    pub fn finish(self) -> (Seat, CallOutcome, Option<Takes>)
        requires { need_of self.call ≡ Need.Finished }
        ensures seat { ActorToken.Seated result.0 ≡ self.entry.call.token }
        ensures kind { IsEndOf (machine_of self.entry.asked) result.1 }
        ensures outcome { act_of self.entry.call ≡ CoreAct.Finish (call_outcome_of result.1) }
        ensures state { UnlessPatches (machine_of self.entry.asked) (self.entry.call.state.at ≡ State.Finished (call_outcome_of result.1)) }
        ensures served { IfReads (machine_of self.entry.asked) (IfBytesServed result.1 (λ bytes. bytes.items ≡ self.entry.owed)) }
        ensures takes { result.2 ≡ taken_of self.entry.call.takes }
    {
        let CallMachine { kind, task: _ } = self;
        match kind {
            MachineKind::Read(read) => {
                let (seat, outcome, takes) = read.finish();
                (seat, CallOutcome::Client(outcome), takes)
            }
            MachineKind::Put(put) => {
                let (seat, outcome, takes) = put.finish();
                (seat, CallOutcome::Client(outcome), takes)
            }
            MachineKind::Patch(patch) => {
                let (seat, outcome, takes) = patch.finish();
                (seat, CallOutcome::Client(outcome), takes)
            }
            MachineKind::Rebuild(rebuild) => {
                let (seat, outcome, takes) = rebuild.finish();
                (seat, CallOutcome::Rebuild(outcome), takes)
            }
        }
    }

    /// Leaves the directory in the middle of the call: what it has taken, or none where it has taken
    /// nothing.
    pub fn abandon(self) -> Option<Takes>
        ensures { result ≡ taken_of self.entry.call.takes }
    {
        let CallMachine { kind, task: _ } = self;
        match kind {
            MachineKind::Read(read) => read.abandon(),
            MachineKind::Put(put) => {
                // That it has taken nothing is needed below.
                let _ = put.takes();
                put.leave();
                None
            }
            MachineKind::Patch(patch) => patch.abandon(),
            MachineKind::Rebuild(rebuild) => rebuild.abandon(),
        }
    }
}
