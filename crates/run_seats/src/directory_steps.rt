//! Steps of callers at the directory.
ghost use Rattle.std.specs.Prelude.{◌≡◌, ◌∷◌, ◌++◌, [], ℕ};
ghost use Rattle.thread_laws.specs.Noted.{Noted};
ghost use Rattle.run_seats.specs.declared.gate.Place.TheVariants as place;
ghost use Rattle.run_seats.specs.Before.{IsBeforeDirectory};
ghost use Rattle.run_seats.specs.Turns.{IsFree, IsHolding, gave};
ghost use Rattle.run_seats.specs.Fixed.{DirectoryStands, directory_identity, max_in};
ghost use Rattle.run_seats.specs.Stepped.{HasSteppedAtDirectory};

use crate::directory_box::DirectoryBox;
use crate::gate::{Gate, Place};
use crate::stepper::Stepper;
use actors::{Caller, forget};
use call_machine::CallMachine;
use std::snapshot::Snapshot;
use std::sync::Wait;
use turn_lock::{Lock, Turn};
use version_seal::Book;

// Gives the directory back with the entry that its caller names from the arguments.
fn give_step(
    lock: &Lock<DirectoryBox>,
    turn: &mut Turn<DirectoryBox>,
    held: DirectoryBox,
    before: Snapshot<DirectoryBox>,
    stood: Snapshot<Caller>,
    left: Snapshot<CallMachine>,
    number: u32,
)
    ghost entry: { ℕ × Noted }
    requires turn { IsHolding lock.now entry.0 (directory_identity held) turn.old }
    requires stands { DirectoryStands held (turn.old.seen ++ entry ∷ []) }
    ensures { turn.new ≡ gave entry turn.old }
{
    forget(before);
    forget(stood);
    forget(left);
    lock.give_by(turn, held, number)
}

/// A caller's step at the directory, where its call needs it. The turn has seen one entry more of its
/// own, that of the step.
pub(crate) fn step_at_directory<R: Wait, G: Gate>(
    rt: &R,
    gate: &G,
    lock: &Lock<DirectoryBox>,
    turn: &mut Turn<DirectoryBox>,
    caller: &mut Caller,
    book: &Book,
    stepper: Stepper,
)
    ghost last: { ℕ }
    requires turn { IsFree lock.now stepper.number turn.old }
    requires before { IsBeforeDirectory turn.old.fixed stepper.number turn.old.seen caller.old }
    requires book { book.now ≡ caller.old.book }
    ensures turn { turn.new ≡ record turn.old { seen = turn.new.seen } }
    ensures step { HasSteppedAtDirectory stepper.number last (max_in turn.old.fixed) turn.old.seen turn.new.seen caller.old caller.new }
    ensures told { G.was_told gate.now stepper.actor stepper.steps place.Directory }
{
    let mut held = lock.take(rt, turn);
    held.directory.keeps();
    let before = Snapshot::of(&held);
    let stood = Snapshot::of(caller);
    gate.pass(stepper.actor, stepper.steps, Place::Directory);
    let (left, _answer) = caller.on_directory(&mut held.directory, book);
    give_step(lock, turn, held, before, stood, left, stepper.number);
}
