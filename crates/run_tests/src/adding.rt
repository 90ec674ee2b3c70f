//! Turns that add to a list.
ghost use Rattle.std.specs.Prelude.{◌≡◌, ℕ, ◌∷◌, ◌++◌, [], true, false, Some, OnOk, OnErr};
ghost use Rattle.turn_lock.specs.History.{Among, SameEntries, entries_of};
ghost use Rattle.run_tests.specs.NumberList.{lines_of};

use crate::number_list::{Line, NumberList};
use std::alloc::AllocError;
use std::sync::Wait;
use turn_lock::{Lock, Turn};

/// Adds a line under one of the turn's numbers. At `Err` there was no memory, and none is added.
#[tactic(auto, using(crate::proofs::Lines::lines_after, crate::proofs::Lines::entries_after))]
pub fn add<R: Wait>(
    rt: &R,
    lock: &Lock<NumberList>,
    turn: &mut Turn<NumberList>,
    line: Line,
) -> Result<(), AllocError>
    requires own { turn.old.lock ≡ lock.now }
    requires free { turn.old.holds ≡ false }
    requires number { Among line.turn turn.old.numbers }
    ensures same { turn.new ≡ record turn.old { seen = turn.new.seen } }
    ensures added { OnOk result (entries_of line.turn turn.new.seen
        ≡ entries_of line.turn turn.old.seen ++ (line.turn, line.value) ∷ []) }
    ensures none { OnErr result (SameEntries turn.old.numbers turn.old.seen turn.new.seen) }
{
    let mut list = lock.take(rt, turn);
    match list.lines.push(line) {
        Ok(()) => {
            give_line(lock, turn, list, line);
            Ok(())
        }
        Err(refused) => {
            lock.give(turn, list);
            Err(refused.into())
        }
    }
}

// Gives the list back with the line as its last. Its caller picks the entry, from these arguments.
fn give_line(lock: &Lock<NumberList>, turn: &mut Turn<NumberList>, list: NumberList, line: Line)
    ghost entry: { ℕ × ℕ }
    requires line { entry ≡ (line.turn, line.value) }
    requires own { turn.old.lock ≡ lock.now }
    requires held { turn.old.holds ≡ true }
    requires fixed { Some list.name ≡ turn.old.fixed }
    requires number { Among entry.0 turn.old.numbers }
    requires stands { list.lines.items ≡ lines_of (turn.old.seen ++ entry ∷ []) }
    ensures { turn.new
        ≡ record turn.old { seen = turn.old.seen ++ entry ∷ []; holds = false } }
{
    lock.give_by(turn, list, line.value)
}
