//! Steps of the sweeper.
ghost use Rattle.std.specs.Prelude.{◌≡◌, ◌||◌, ◌∷◌, ◌++◌, [], ℕ, is_some};
ghost use Rattle.store_core.specs.Lookups.{first_garbage};
ghost use Rattle.store_core.specs.Sweep.{is_busy};
ghost use Rattle.thread_laws.specs.MadeSteps.{MadeStep};
ghost use Rattle.thread_laws.specs.Noted.{Noted};
ghost use Rattle.run_seats.specs.declared.gate.Place.TheVariants as place;
ghost use Rattle.run_seats.specs.Turns.{IsFree, IsHolding, gave};
ghost use Rattle.run_seats.specs.Fixed.{DirectoryStands, ServerStands, directory_identity, server_identity, server_in};
ghost use Rattle.run_seats.specs.Plain.{IsSweepAtServer, IsSweepAtDirectory, HasSweptAtServer, HasSweptAtDirectory};

use crate::directory_box::DirectoryBox;
use crate::gate::{Gate, Place};
use crate::server_box::ServerBox;
use crate::stepper::Stepper;
use actors::forget;
use std::snapshot::Snapshot;
use std::sync::Wait;
use stripe_dir::Directory;
use sweeper::Sweeper;
use turn_lock::{Lock, Turn};

/// Whether the sweeper has a step: it is busy, or the directory has garbage.
pub fn has_sweep(sweeper: &Sweeper, directory: &Directory) -> bool
    ensures { result ≡ is_busy sweeper.now.at || is_some (first_garbage directory.now.core) }
{
    sweeper.busy() || directory.has_garbage()
}

// Gives the server back with the entry that its caller names from the arguments.
fn give_server(
    lock: &Lock<ServerBox>,
    turn: &mut Turn<ServerBox>,
    held: ServerBox,
    before: Snapshot<ServerBox>,
    stood: Snapshot<Sweeper>,
    number: u32,
)
    ghost entry: { ℕ × MadeStep }
    requires turn { IsHolding lock.now entry.0 (server_identity held) turn.old }
    requires stands { ServerStands held (turn.old.seen ++ entry ∷ []) }
    ensures { turn.new ≡ gave entry turn.old }
{
    forget(before);
    forget(stood);
    lock.give_by(turn, held, number)
}

// So does this with the directory.
fn give_directory(
    lock: &Lock<DirectoryBox>,
    turn: &mut Turn<DirectoryBox>,
    held: DirectoryBox,
    before: Snapshot<DirectoryBox>,
    stood: Snapshot<Sweeper>,
    number: u32,
)
    ghost entry: { ℕ × Noted }
    requires turn { IsHolding lock.now entry.0 (directory_identity held) turn.old }
    requires stands { DirectoryStands held (turn.old.seen ++ entry ∷ []) }
    ensures { turn.new ≡ gave entry turn.old }
{
    forget(before);
    forget(stood);
    lock.give_by(turn, held, number)
}

/// The sweeper's step at the server that it needs. The turn has seen one entry more of its own, that
/// of the step.
pub(crate) fn sweep_server<R: Wait, G: Gate>(
    rt: &R,
    gate: &G,
    lock: &Lock<ServerBox>,
    turn: &mut Turn<ServerBox>,
    sweeper: &mut Sweeper,
    stepper: Stepper,
)
    ghost last: { ℕ }
    requires turn { IsFree lock.now stepper.number turn.old }
    requires before { IsSweepAtServer turn.old.fixed stepper.number sweeper.old }
    ensures turn { turn.new ≡ record turn.old { seen = turn.new.seen } }
    ensures step { HasSweptAtServer stepper.number last turn.old.seen turn.new.seen sweeper.old sweeper.new }
    ensures told { G.was_told gate.now stepper.actor stepper.steps (place.Server (server_in turn.old.fixed)) }
{
    let mut held = lock.take(rt, turn);
    let before = Snapshot::of(&held);
    let stood = Snapshot::of(sweeper);
    gate.pass(
        stepper.actor,
        stepper.steps,
        Place::Server(held.server.number()),
    );
    sweeper.on_server(&mut held.server);
    give_server(lock, turn, held, before, stood, stepper.number);
}

/// The sweeper's step at the directory, where it needs it. The turn has seen one entry more of its own,
/// that of the step.
pub(crate) fn sweep_directory<R: Wait, G: Gate>(
    rt: &R,
    gate: &G,
    lock: &Lock<DirectoryBox>,
    turn: &mut Turn<DirectoryBox>,
    sweeper: &mut Sweeper,
    stepper: Stepper,
)
    ghost last: { ℕ }
    requires turn { IsFree lock.now stepper.number turn.old }
    requires before { IsSweepAtDirectory turn.old.fixed stepper.number sweeper.old }
    ensures turn { turn.new ≡ record turn.old { seen = turn.new.seen } }
    ensures step { HasSweptAtDirectory stepper.number last turn.old.seen turn.new.seen sweeper.old sweeper.new }
    ensures told { G.was_told gate.now stepper.actor stepper.steps place.Directory }
{
    let mut held = lock.take(rt, turn);
    held.directory.keeps();
    let before = Snapshot::of(&held);
    let stood = Snapshot::of(sweeper);
    gate.pass(stepper.actor, stepper.steps, Place::Directory);
    sweeper.on_directory(&mut held.directory);
    give_directory(lock, turn, held, before, stood, stepper.number);
}
