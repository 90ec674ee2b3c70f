//! The gates of all runs here, as one type: a whole run is built anew for each kind of gate and of coder.
use crate::locked_steps::PlaceGate;
use crate::sweep_tests::SweepGate;
use store_map::Actor;
use store_run::{Gate, Place};

/// Which gate is told of a run's steps.
#[derive(Clone, Copy)]
pub enum TestGate<'a> {
    Nobody,
    Sweeps(&'a SweepGate),
    Places(&'a PlaceGate),
}

impl<'a> Gate for TestGate<'a> {
    fn pass(&self, actor: Actor, step: u64, place: Place) {
        match self {
            TestGate::Nobody => {}
            TestGate::Sweeps(gate) => gate.pass(actor, step),
            TestGate::Places(gate) => gate.pass(actor, place),
        }
    }
}
