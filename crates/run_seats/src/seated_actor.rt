//! An actor of any kind with its turns at all places of a store.
ghost use Rattle.std.specs.Prelude.{◌≡◌, ◌<◌, true, false};
ghost use Rattle.store_map.specs.declared.script.Script.{Script as StoreScript};
ghost use Rattle.run_seats.specs.Falling.{steps_left};
ghost use Rattle.run_seats.specs.Telling.{HasCounted, IsToldOf};
ghost use Rattle.run_seats.specs.Places.{IsStore};
ghost use Rattle.run_seats.specs.SeatedActors.{IsOfCode, IsSeatedActor, actor_has, number_of};

use crate::gate::Gate;
use crate::seated::Seated;
use crate::seated_operator::SeatedOperator;
use crate::seated_sweeper::SeatedSweeper;
use crate::store::Store;
use clay_model::Coder;
use std::sync::Wait;
use std::thread::Threads;

/// A client or a repairer, the sweeper or the operator, with its turns.
pub enum SeatedActor<'a> {
    Caller(Seated<'a>),
    Sweeper(SeatedSweeper),
    Operator(SeatedOperator),
}

impl<'a> SeatedActor<'a> {
    /// Whether it has a step that a run waits for. The sweeper has none: it sweeps as long as others
    /// have steps.
    pub fn has_step(&self) -> bool
        ensures { (script : StoreScript) → IsOfCode script self.now → result ≡ actor_has script self.now }
    {
        match self {
            SeatedActor::Caller(seated) => seated.caller.has_step(),
            SeatedActor::Sweeper(_) => false,
            SeatedActor::Operator(operator) => operator.has_line(),
        }
    }

    /// Its step, where it has one.
    pub fn visit<R: Threads + Wait + Sync, C: Coder, G: Gate>(
        &mut self,
        rt: &R,
        coder: &C,
        gate: &G,
        store: &Store,
    )
        requires store { IsStore store.now }
        requires seated { IsSeatedActor store.now self.old }
        ensures seated { IsSeatedActor store.now self.new }
        ensures number { number_of self.new ≡ number_of self.old }
        ensures falls { actor_has store.now.script.now self.old ≡ true → steps_left store.now self.new < steps_left store.now self.old }
        ensures over { actor_has store.now.script.now self.old ≡ false → steps_left store.now self.new ≡ steps_left store.now self.old }
        ensures told { IsToldOf (G.was_told gate.now) store.now.script.now self.old }
        ensures counted { HasCounted store.now.script.now self.old self.new }
    {
        match self {
            SeatedActor::Caller(seated) => seated.visit(rt, coder, gate, store),
            SeatedActor::Sweeper(sweeper) => sweeper.turn(rt, gate, store),
            SeatedActor::Operator(operator) => operator.visit(rt, gate, store),
        }
    }
}
