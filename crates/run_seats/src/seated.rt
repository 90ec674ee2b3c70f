//! A caller with its turns at all places of a store.
ghost use Rattle.std.specs.Prelude.{◌≡◌, ◌+◌, ◌<◌, ℕ, true, false};
ghost use Rattle.run_seats.specs.Telling.{IsTold};
ghost use Rattle.run_seats.specs.Places.{IsStore, last_by};
ghost use Rattle.run_seats.specs.Seated.{IsSeated, MayStep, StepsOn, left_by, seated_has};

use crate::directory_steps::step_at_directory;
use crate::gate::Gate;
use crate::seat_turns::Turns;
use crate::server_steps::step_at_server;
use crate::stepper::Stepper;
use crate::store::Store;
use actors::Caller;
use call_steps::Need;
use clay_model::Coder;
use std::sync::Wait;
use std::thread::Threads;
use store_map::Actor;

/// A client or a repairer with its turns at the directory and at each server.
pub struct Seated<'a> {
    pub caller: Caller<'a>,
    pub actor: Actor,
    // its place among the script's clients, or among its repairers
    pub place: u32,
    // how many steps it has made
    pub steps: u64,
    pub turns: Turns,
}

impl<'a> Seated<'a> {
    // Whose next step it is.
    fn stepper(&self) -> Stepper
        ensures { result ≡ record { actor = self.now.actor; number = self.now.turns.number; steps = self.now.steps } }
    {
        Stepper {
            actor: self.actor,
            number: self.turns.number,
            steps: self.steps,
        }
    }

    // The turn, after the moment that its caller names.
    fn turn_after<R: Threads + Wait + Sync, C: Coder, G: Gate>(
        &mut self,
        rt: &R,
        coder: &C,
        gate: &G,
        store: &Store,
    )
        ghost last: { ℕ }
        requires last { last ≡ last_by store.now self.old.turns }
        requires may { MayStep store.now self.old }
        ensures steps { StepsOn store.now self.old self.new }
        ensures told { IsTold (G.was_told gate.now) self.old.actor self.old.steps }
    {
        self.caller.ready(rt, coder, self.place);
        let stepper = self.stepper();
        self.steps += 1;
        match self.caller.need() {
            Need::Directory => step_at_directory(
                rt,
                gate,
                &store.directory,
                &mut self.turns.directory,
                &mut self.caller,
                store.book,
                stepper,
            ),
            Need::Server(server) => step_at_server(
                rt,
                gate,
                &store.servers[server as usize],
                &mut self.turns.servers[server as usize],
                &mut self.caller,
                stepper,
            ),
            Need::Coder | Need::Finished => unreachable!(),
        }
    }

    /// A turn of the caller: the coding before its call's next step, if one is due, outside of all
    /// locks, and the step.
    pub fn turn<R: Threads + Wait + Sync, C: Coder, G: Gate>(
        &mut self,
        rt: &R,
        coder: &C,
        gate: &G,
        store: &Store,
    )
        requires { MayStep store.now self.old }
        ensures steps { StepsOn store.now self.old self.new }
        ensures told { IsTold (G.was_told gate.now) self.old.actor self.old.steps }
    {
        self.turn_after(rt, coder, gate, store);
    }

    /// Its turn, where it has a step.
    pub fn visit<R: Threads + Wait + Sync, C: Coder, G: Gate>(
        &mut self,
        rt: &R,
        coder: &C,
        gate: &G,
        store: &Store,
    )
        requires store { IsStore store.now }
        requires seated { IsSeated store.now self.old }
        ensures seated { IsSeated store.now self.new }
        ensures number { self.new.turns.number ≡ self.old.turns.number }
        ensures falls { seated_has store.now.script.now self.old ≡ true → left_by store.now self.new < left_by store.now self.old }
        ensures over { seated_has store.now.script.now self.old ≡ false → left_by store.now self.new ≡ left_by store.now self.old }
        ensures told { seated_has store.now.script.now self.old ≡ true → IsTold (G.was_told gate.now) self.old.actor self.old.steps }
        ensures counted { seated_has store.now.script.now self.old ≡ true → self.new.steps ≡ self.old.steps + 1 }
    {
        if !self.caller.has_step() {
            return;
        }
        self.turn(rt, coder, gate, store);
    }
}
