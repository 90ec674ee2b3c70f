//! Steps of the operator.
ghost use Rattle.std.specs.Prelude.{◌≡◌, ◌∷◌, ◌++◌, [], ℕ, false};
ghost use Rattle.store_map.specs.declared.actor.Actor.{Actor as CoreActor};
ghost use Rattle.store_core.specs.Act.{Act, DirectoryStep};
ghost use Rattle.store_core.specs.Told.{Told};
ghost use Rattle.store_core.specs.Server.{at_server};
ghost use Rattle.thread_laws.specs.MadeSteps.{MadeStep};
ghost use Rattle.chunk_server.specs.Core.{core_of};
ghost use Rattle.chunk_server.specs.State.{IsSame};
ghost use Rattle.thread_laws.specs.Plain.{HasAddedAtDirectory};
ghost use Rattle.thread_laws.specs.Noted.{Noted};
ghost use Rattle.run_seats.specs.declared.gate.Place.TheVariants as place;
ghost use Rattle.run_seats.specs.Turns.{IsFree, IsHolding, gave};
ghost use Rattle.run_seats.specs.Fixed.{DirectoryStands, ServerStands, directory_identity, server_identity, server_in};
ghost use Rattle.run_seats.specs.Plain.{IsLineAtServer, IsLineAtDirectory, IsOfServer, HasOperatedAtServer, line_step};

use crate::directory_box::DirectoryBox;
use crate::gate::{Gate, Place};
use crate::server_box::ServerBox;
use crate::stepper::Stepper;
use actors::forget;
use chunk_server::Server;
use std::snapshot::Snapshot;
use std::sync::Wait;
use store_map::{Actor, Token};
use turn_lock::{Lock, Turn};

// What a line does to a server.
fn operate(server: &mut Server, line: Token)
    requires { IsOfServer line }
    ensures core { (core_of server.new, Told.Made) ≡ at_server false (line_step line) (core_of server.old) }
    ensures same { IsSame server.old server.new }
{
    match line {
        Token::Wipe(_) => server.wipe(),
        Token::Down(_) => server.down(),
        Token::Up(_) => server.up(),
        _ => unreachable!(),
    }
}

// Gives the server back with the entry that its caller names from the arguments.
fn give_server(
    lock: &Lock<ServerBox>,
    turn: &mut Turn<ServerBox>,
    held: ServerBox,
    before: Snapshot<ServerBox>,
    line: Token,
    number: u32,
)
    ghost entry: { ℕ × MadeStep }
    requires turn { IsHolding lock.now entry.0 (server_identity held) turn.old }
    requires stands { ServerStands held (turn.old.seen ++ entry ∷ []) }
    ensures { turn.new ≡ gave entry turn.old }
{
    forget(before);
    lock.give_by(turn, held, number)
}

// So does this with the directory.
fn give_directory(
    lock: &Lock<DirectoryBox>,
    turn: &mut Turn<DirectoryBox>,
    held: DirectoryBox,
    before: Snapshot<DirectoryBox>,
    reaped: Actor,
    number: u32,
)
    ghost entry: { ℕ × Noted }
    requires turn { IsHolding lock.now entry.0 (directory_identity held) turn.old }
    requires stands { DirectoryStands held (turn.old.seen ++ entry ∷ []) }
    ensures { turn.new ≡ gave entry turn.old }
{
    forget(before);
    lock.give_by(turn, held, number)
}

/// The operator's step at a server by a line of the script: it is emptied, or made away or present. The
/// turn has seen one entry more of its own, that of the step.
pub(crate) fn operate_server<R: Wait, G: Gate>(
    rt: &R,
    gate: &G,
    lock: &Lock<ServerBox>,
    turn: &mut Turn<ServerBox>,
    line: Token,
    stepper: Stepper,
)
    ghost last: { ℕ }
    requires turn { IsFree lock.now stepper.number turn.old }
    requires before { IsLineAtServer turn.old.fixed stepper.number turn.old.seen line }
    ensures turn { turn.new ≡ record turn.old { seen = turn.new.seen } }
    ensures step { HasOperatedAtServer stepper.number last turn.old.seen turn.new.seen line }
    ensures told { G.was_told gate.now stepper.actor stepper.steps (place.Server (server_in turn.old.fixed)) }
{
    let mut held = lock.take(rt, turn);
    let before = Snapshot::of(&held);
    gate.pass(
        stepper.actor,
        stepper.steps,
        Place::Server(held.server.number()),
    );
    operate(&mut held.server, line);
    give_server(lock, turn, held, before, line, stepper.number);
}

/// The operator gives up the actor's pass, if it has one. The turn has seen one entry more of its own,
/// that of the step.
pub(crate) fn reap<R: Wait, G: Gate>(
    rt: &R,
    gate: &G,
    lock: &Lock<DirectoryBox>,
    turn: &mut Turn<DirectoryBox>,
    reaped: Actor,
    stepper: Stepper,
)
    ghost last: { ℕ }
    requires turn { IsFree lock.now stepper.number turn.old }
    requires before { IsLineAtDirectory turn.old.fixed stepper.number turn.old.seen reaped }
    ensures turn { turn.new ≡ record turn.old { seen = turn.new.seen } }
    ensures step { HasAddedAtDirectory stepper.number last turn.old.seen turn.new.seen CoreActor.Operator (Act.AtDirectory (DirectoryStep.Reap reaped)) }
    ensures told { G.was_told gate.now stepper.actor stepper.steps place.Directory }
{
    let mut held = lock.take(rt, turn);
    held.directory.keeps();
    let before = Snapshot::of(&held);
    gate.pass(stepper.actor, stepper.steps, Place::Directory);
    held.directory.reap(reaped);
    give_directory(lock, turn, held, before, reaped, stepper.number);
}
