//! The sweeper with its turns at all places of a store.
ghost use Rattle.std.specs.Prelude.{◌≡◌, ℕ};
ghost use Rattle.store_map.specs.declared.actor.Actor.TheVariants as actor;
ghost use Rattle.run_seats.specs.Telling.{IsTold};
ghost use Rattle.run_seats.specs.Places.{last_by};
ghost use Rattle.run_seats.specs.SeatedPlain.{MaySweep, SweepsOn};

use crate::gate::Gate;
use crate::seat_turns::Turns;
use crate::stepper::Stepper;
use crate::store::Store;
use crate::sweeps::{sweep_directory, sweep_server};
use call_steps::Need;
use std::sync::Wait;
use store_map::Actor;
use sweeper::Sweeper;

/// The sweeper with its turns at the directory and at each server.
pub struct SeatedSweeper {
    pub sweeper: Sweeper,
    // how many steps it has made, or the greatest count that there is
    pub steps: u64,
    pub turns: Turns,
}

impl SeatedSweeper {
    // The turn, after the moment that its caller names.
    fn turn_after<R: Wait, G: Gate>(&mut self, rt: &R, gate: &G, store: &Store)
        ghost last: { ℕ }
        requires last { last ≡ last_by store.now self.old.turns }
        requires may { MaySweep store.now self.old }
        ensures steps { SweepsOn store.now self.old self.new }
        ensures told { IsTold (G.was_told gate.now) actor.Sweeper self.old.steps }
    {
        let stepper = Stepper {
            actor: Actor::Sweeper,
            number: self.turns.number,
            steps: self.steps,
        };
        let steps = self.steps.saturating_add(1);
        self.steps = steps;
        match self.sweeper.need() {
            Need::Directory => sweep_directory(
                rt,
                gate,
                &store.directory,
                &mut self.turns.directory,
                &mut self.sweeper,
                stepper,
            ),
            Need::Server(server) => sweep_server(
                rt,
                gate,
                &store.servers[server as usize],
                &mut self.turns.servers[server as usize],
                &mut self.sweeper,
                stepper,
            ),
            Need::Coder | Need::Finished => unreachable!(),
        }
    }

    /// Its step, at the place that it needs.
    pub fn turn<R: Wait, G: Gate>(&mut self, rt: &R, gate: &G, store: &Store)
        requires { MaySweep store.now self.old }
        ensures steps { SweepsOn store.now self.old self.new }
        ensures told { IsTold (G.was_told gate.now) actor.Sweeper self.old.steps }
    {
        self.turn_after(rt, gate, store);
    }
}
