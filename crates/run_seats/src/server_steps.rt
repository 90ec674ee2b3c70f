//! Steps of callers at a server.
ghost use Rattle.std.specs.Prelude.{◌≡◌, ◌∷◌, ◌++◌, [], ℕ};
ghost use Rattle.thread_laws.specs.MadeSteps.{MadeStep};
ghost use Rattle.run_seats.specs.declared.gate.Place.TheVariants as place;
ghost use Rattle.run_seats.specs.Before.{IsBeforeServer};
ghost use Rattle.run_seats.specs.Turns.{IsFree, IsHolding, gave};
ghost use Rattle.run_seats.specs.Fixed.{ServerStands, server_identity, server_in};
ghost use Rattle.run_seats.specs.Stepped.{HasSteppedAtServer};

use crate::gate::{Gate, Place};
use crate::server_box::ServerBox;
use crate::stepper::Stepper;
use actors::{Caller, forget};
use call_machine::CallMachine;
use std::snapshot::Snapshot;
use std::sync::Wait;
use turn_lock::{Lock, Turn};

// Gives the server back with the entry that its caller names from the arguments.
fn give_step(
    lock: &Lock<ServerBox>,
    turn: &mut Turn<ServerBox>,
    held: ServerBox,
    before: Snapshot<ServerBox>,
    stood: Snapshot<Caller>,
    left: Snapshot<CallMachine>,
    number: u32,
)
    ghost entry: { ℕ × MadeStep }
    requires turn { IsHolding lock.now entry.0 (server_identity held) turn.old }
    requires stands { ServerStands held (turn.old.seen ++ entry ∷ []) }
    ensures { turn.new ≡ gave entry turn.old }
{
    forget(before);
    forget(stood);
    forget(left);
    lock.give_by(turn, held, number)
}

/// A caller's step at the server that its call needs. The turn has seen one entry more of its own,
/// that of the step.
pub(crate) fn step_at_server<R: Wait, G: Gate>(
    rt: &R,
    gate: &G,
    lock: &Lock<ServerBox>,
    turn: &mut Turn<ServerBox>,
    caller: &mut Caller,
    stepper: Stepper,
)
    ghost last: { ℕ }
    requires turn { IsFree lock.now stepper.number turn.old }
    requires before { IsBeforeServer turn.old.fixed stepper.number caller.old }
    ensures turn { turn.new ≡ record turn.old { seen = turn.new.seen } }
    ensures step { HasSteppedAtServer stepper.number last turn.old.seen turn.new.seen caller.old caller.new }
    ensures told { G.was_told gate.now stepper.actor stepper.steps (place.Server (server_in turn.old.fixed)) }
{
    let mut held = lock.take(rt, turn);
    let before = Snapshot::of(&held);
    let stood = Snapshot::of(caller);
    gate.pass(
        stepper.actor,
        stepper.steps,
        Place::Server(held.server.number()),
    );
    let (left, _answer) = caller.on_server(&mut held.server);
    give_step(lock, turn, held, before, stood, left, stepper.number);
}
