//! A client or a repairer with its calls.
ghost use Rattle.std.specs.Prelude.{◌≡◌, ◌+◌, ◌<◌, ◌^◌, ⊤, true, length, None, Some, is_some, IsTrue, IfOk, IfSome};
ghost use Rattle.std.specs.Option.{option_and_then};
ghost use Rattle.clay_grid.specs.Shape.{chunk_count};
ghost use Rattle.store_map.specs.declared.script.Script.{Script};
ghost use Rattle.store_core.specs.Agreement.{Agrees};
ghost use Rattle.store_core.specs.Work.{has_step};
ghost use Rattle.chunk_server.specs.Core.{core_of};
ghost use Rattle.chunk_server.specs.State.{IsSame};
ghost use Rattle.stripe_stamps.specs.Sealed.{Sealed};
ghost use Rattle.call_steps.specs.Acts.{act_now};
ghost use Rattle.call_steps.specs.CallOf.{taken_of};
ghost use Rattle.call_steps.specs.Hearing.{IsToldHere, IsToldThere};
ghost use Rattle.call_steps.specs.Steps.{need_of, HoldsItsPass, IsServerBelow, MayMakeNext};
ghost use Rattle.call_machine.specs.Calls.{ArePadded};
ghost use Rattle.call_steps.specs.CallerCalls.{calling_at};
ghost use Rattle.world_laws.specs.World.{steps_of};
ghost use Rattle.world_laws.specs.Known.{calling_by, calling_of};
ghost use Rattle.world_laws.specs.Tokens.{KeepsToken, token_of};
ghost use Rattle.actors.specs.Turns.{AreServers};
ghost use Rattle.actors.specs.Callers.{Knows, IsOfScript, IsPaddedFor, IsPartOf, calls_of, first_caller, who_of, work_of};
ghost use Rattle.actors.specs.Beginning.{MayGoOn};
ghost use Rattle.actors.specs.Steps.{BeginsCall, IsReadyIn, MadeAtDirectory, MadeAtServer, MakesStep, NeedsNow};
ghost use Rattle.actors.specs.CallerTurns.{HasMore, TellsCallerTurn};
ghost use Rattle.actors.specs.Inside.{AreOfServers, part_by, served_of};

use crate::after_step::{conclude, forget, put, take};
use crate::caller_steps::{on_coder, step_call_at_directory, step_call_at_server};
use crate::left::has_step;
use crate::next_call::next_call;
use crate::part::CallerPart;
use call_machine::CallMachine;
use call_steps::{
    Act, CallerCalls, DirectoryAnswer, EndedCall, Need, ServerAnswer, Step, StepAnswer,
};
use chunk_server::Server;
use clay_model::Coder;
use std::alloc::{AllocError, Global};
use std::marker::Model;
use std::snapshot::Snapshot;
use std::thread::Threads;
use stripe_dir::{Directory, Seat};
use version_seal::{Book, Opening};

/// A client or a repairer of a store, with its calls that have ended and the one in work.
pub struct Caller<'a> {
    alloc: Global,
    part: CallerPart<'a>,
    opening: Opening,
    // how often a write is tried
    tries: u32,
    // between two calls it has its seat, in a call that has it
    seat: Option<Seat>,
    call: Option<CallMachine<'a>>,
    // the steps of the call in work
    steps: u64,
    ended: Vec<EndedCall>,
}

impl<'a> Model for Caller<'a> {
    ghost use Rattle.actors.specs.Callers.{CallerOf};

    ghost Value = { CallerOf };

    ghost use Rattle.actors.specs.Inside.{caller_in, IsCaller};

    ghost view = { caller_in };

    ghost invariant = { IsCaller };
}

impl<'a> Caller<'a> {
    /// A caller before its first call, with its seat. Of the book of the store's versions it has the
    /// opening. A write is tried so often. It takes memory for the ends of all its calls.
    pub fn new(
        alloc: Global,
        seat: Seat,
        part: CallerPart<'a>,
        opening: Opening,
        tries: u32,
    ) -> Result<Caller<'a>, AllocError>
        requires few { calls_of (part_by part) < 2 ^ 32 }
        requires tries { 0 < tries }
        requires below { AreOfServers opening (part_by part) }
        ensures { IfOk result (λ caller. caller ≡ first_caller (part_by part.entry) opening tries seat) }
    {
        match Vec::with_capacity(alloc, part.len()) {
            Ok(ended) => Ok(Caller {
                alloc,
                part,
                opening,
                tries,
                seat: Some(seat),
                call: None,
                steps: 0,
                ended,
            }),
            Err(e) => {
                seat.leave();
                Err(e)
            }
        }
    }

    /// The steps that its call in work has made, none where it is in no call.
    pub fn steps(&self) -> u64
        ensures { result ≡ steps_of self.now.actor.doing }
    {
        match &self.call {
            Some(_) => self.steps,
            None => 0,
        }
    }

    /// Whether it has a step: a call is left that isn't abandoned.
    pub fn has_step(&self) -> bool
        ensures { (script : Script) → self.now.book.geometry ≡ script.geometry
            → result ≡ has_step (work_of self.now.part) (calling_of script self.now.actor) }
    {
        let left = self.part.len().saturating_sub(self.ended.len());
        has_step(left, self.part.leave(), self.steps())
    }

    // Its next call begins. Apart from `begin`, since each step would pay for a stack that holds
    // machines.
    #[inline(never)]
    fn begin_next(&mut self, place: u32)
        requires may { MayGoOn place self.old }
        requires none { self.old.work ≡ None }
        ensures begun { BeginsCall self.old self.new }
    {
        let number = self.ended.len() as u32;
        let seat = take(&mut self.seat);
        let call = next_call(
            self.alloc,
            seat,
            place,
            number,
            self.part,
            &self.opening,
            self.tries,
        );
        put(&mut self.call, call);
        self.steps = 0;
    }

    // Its next call begins, where none is in work.
    fn begin(&mut self, place: u32)
        requires may { MayGoOn place self.old }
        ensures begun { BeginsCall self.old self.new }
    {
        if self.call.is_some() {
            return;
        }
        self.begin_next(place);
    }

    /// Its next call begins, where none is in work, and the coding before the call's next step is made,
    /// if one is due: whether memory was wanting in it.
    pub fn ready<R: Threads + Sync, C: Coder>(&mut self, rt: &R, coder: &C, place: u32) -> bool
        requires may { MayGoOn place self.old }
        ensures ready { IsReadyIn result self.old self.new }
        ensures knows { (d : Sealed) → Knows d self.old → Knows d self.new }
    {
        self.begin(place);
        on_coder(rt, coder, &mut self.call)
    }

    /// Where the call in work has to go on.
    pub fn need(&self) -> Need
        requires { IsTrue (is_some self.now.work) }
        ensures need { IfSome self.now.work (λ c. result ≡ need_of c.call) }
        ensures may { IfSome self.now.work (λ c. MayMakeNext c.call) }
        ensures pass { IfSome self.now.work (λ c. HoldsItsPass c.call) }
        ensures its { IfSome self.now.work (λ c. c.call.book ≡ self.now.book) }
        ensures below { IsServerBelow (chunk_count self.now.book.geometry) result }
    {
        match &self.call {
            Some(call) => call.need(),
            None => unreachable!(),
        }
    }

    /// What the call in work does next.
    pub fn act(&self) -> Act
        requires { IsTrue (is_some self.now.work) }
        ensures { IfSome self.now.work (λ c. result ≡ act_now c.call) }
    {
        match &self.call {
            Some(call) => call.act(),
            None => unreachable!(),
        }
    }

    /// The step of its call at the directory of this book, and its answer. What it draws is sealed in the
    /// book. A write or a delete asks that behind the ends of the directory's objects its stamps have
    /// zeros, and that it knows the old bytes that it keeps. For contracts it gives the call as the step
    /// leaves it, which may be over.
    pub fn on_directory(
        &mut self,
        directory: &mut Directory,
        book: &Book,
    ) -> (Snapshot<CallMachine<'a>>, DirectoryAnswer)
        requires need { NeedsNow self.old Need.Directory }
        requires steps { steps_of self.old.actor.doing + 1 < 2 ^ 64 }
        requires agrees { Agrees directory.old.core (token_of self.old.actor.doing) }
        requires its { directory.old.book ≡ self.old.book }
        requires book { book.now ≡ self.old.book }
        requires padded { IsPaddedFor self.old directory.old }
        requires knows { Knows directory.old self.old }
        ensures step { MakesStep (λ c last. MadeAtDirectory c last directory.old directory.new) result.0.value self.old self.new }
        ensures told { IfSome self.old.work (λ c. IsToldThere result.1 c.call directory.old.core result.0.value.call) }
        ensures knows { Knows directory.new self.new }
        ensures book { directory.new.book ≡ directory.old.book }
    {
        let made = step_call_at_directory(&mut self.call, directory, book);
        conclude(
            &mut self.call,
            &mut self.seat,
            &mut self.steps,
            &mut self.ended,
        );
        made
    }

    /// The step of its call at the server that is needed, and its answer. For contracts it gives the call
    /// as the step leaves it, which may be over.
    pub fn on_server(&mut self, server: &mut Server) -> (Snapshot<CallMachine<'a>>, ServerAnswer)
        requires need { NeedsNow self.old (Need.Server server.old.number) }
        requires steps { steps_of self.old.actor.doing + 1 < 2 ^ 64 }
        requires book { server.old.book ≡ self.old.book }
        ensures step { MakesStep (λ c last. MadeAtServer c last server.old server.new) result.0.value self.old self.new }
        ensures told { IfSome self.old.work (λ c. IsToldHere result.1 c.call (core_of server.old) result.0.value.call) }
        ensures knows { (d : Sealed) → Knows d self.old → Knows d self.new }
        ensures same { IsSame server.old server.new }
    {
        let made = step_call_at_server(&mut self.call, server);
        conclude(
            &mut self.call,
            &mut self.seat,
            &mut self.steps,
            &mut self.ended,
        );
        made
    }

    /// A turn of the caller at this place of the script, whose next call begins if none is in work: the
    /// coding before its call's next step, if one is due, and the step, which it tells.
    pub fn turn<R: Threads + Sync, C: Coder>(
        &mut self,
        rt: &R,
        coder: &C,
        place: u32,
        directory: &mut Directory,
        book: &Book,
        servers: &mut Vec<Server>,
    ) -> Step
        requires keeps { KeepsToken directory.old.core (who_of self.old.part place) self.old.actor }
        requires next { length self.old.actor.ended < calls_of self.old.part }
        requires steps { steps_of self.old.actor.doing + 1 < 2 ^ 64 }
        requires its { directory.old.book ≡ self.old.book }
        requires book { book.now ≡ self.old.book }
        requires part { IsPartOf self.old.book place self.old.part }
        requires padded { ArePadded directory.old }
        requires knows { Knows directory.old self.old }
        requires servers { AreServers self.old.book servers.old.items }
        ensures turn { (script : Script) → IsOfScript script self.old
            → has_step (work_of self.old.part) (calling_of script self.old.actor) ≡ true
            → TellsCallerTurn script place self.old directory.old servers.old.items self.new directory.new servers.new.items result }
        ensures same { self.new ≡ record self.old { actor = self.new.actor; work = self.new.work; served = self.new.served } }
        ensures knows { Knows directory.new self.new }
        ensures book { directory.new.book ≡ directory.old.book }
        ensures stamps { HasMore directory.old.stamps directory.new.stamps }
        ensures servers { AreServers self.old.book servers.new.items }
    {
        let who = self.part.actor(place);
        let number = self.ended.len() as u32;
        let short = self.ready(rt, coder, place);
        let act = self.act();
        let answer = match self.need() {
            Need::Directory => {
                let (last, answer) = self.on_directory(directory, book);
                forget(last);
                StepAnswer::Directory(answer)
            }
            Need::Server(server) => {
                let (last, answer) = self.on_server(&mut servers[server as usize]);
                forget(last);
                StepAnswer::Server(answer)
            }
            _ => unreachable!(),
        };
        Step {
            who,
            number,
            short,
            act,
            answer,
        }
    }

    /// The caller's calls at the end of a run. One in work is given up.
    pub fn into_calls(self) -> CallerCalls
        ensures calls { calling_at (chunk_count self.entry.book.geometry) result
            ≡ calling_by (chunk_count self.entry.book.geometry) self.entry.actor.ended self.entry.actor.doing }
        ensures served { served_of result.ended.items ≡ self.entry.served }
    {
        let Caller {
            alloc: _,
            part: _,
            opening: _opening,
            tries: _,
            seat,
            call,
            steps,
            ended,
        } = self;
        if let Some(seat) = seat {
            seat.leave();
        }
        match call {
            Some(call) => CallerCalls {
                ended,
                steps,
                takes: call.abandon(),
            },
            None => CallerCalls {
                ended,
                steps: 0,
                takes: None,
            },
        }
    }
}
