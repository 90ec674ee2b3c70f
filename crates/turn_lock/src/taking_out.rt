//! The values of several locks, taken out of them by the turns of all numbers.
ghost use Rattle.std.specs.Prelude.{◌≡◌, ◌<◌, ℕ, List, IfOk, length, Some, slice_get};
ghost use Rattle.atomic_table.specs.Seated.{TableId};
ghost use Rattle.turn_lock.specs.Joined.{AreAll, IsWhole};
ghost use Rattle.turn_lock.specs.Out.{AreOut, AreRows};
ghost use Rattle.turn_lock.specs.Piles.{items_of};

use crate::joined::take_out;
use crate::lock::{Lock, Turn};
use crate::lock_history::Historied;
use crate::piles::take_tops;
use std::alloc::{AllocError, Global};
use std::sync::Wait;

// The value of the lock at a place, taken by all its turns.
fn take_at<T: Historied + Drop, R: Wait>(
    rt: &R,
    locks: &[Lock<T>],
    place: usize,
    turns: Vec<Turn<T>>,
) -> T
    ghost identity: { T.Fixed }
    requires within { place < length locks.now }
    requires turns { (lock : TableId) → slice_get locks.now place ≡ Some lock → AreAll lock identity turns.items }
    ensures fixed { T.fixed_part result ≡ identity }
    ensures stands { (log : List (ℕ × T.Entry)) × (T.stands_for result log) × IsWhole turns.items log }
{
    take_out(rt, &locks[place], turns)
}

/// The value of each lock, taken by the turns of a row for each number, which have one at each lock.
pub fn take_out_each<T: Historied + Drop, R: Wait>(
    rt: &R,
    alloc: Global,
    locks: &[Lock<T>],
    rows: Vec<Vec<Turn<T>>>,
) -> Result<Vec<T>, AllocError>
    ghost identity: { ℕ → T.Fixed }
    requires { AreRows identity locks.now (items_of rows.items) }
    ensures { IfOk result (λ values. AreOut T.fixed_part T.stands_for identity (items_of rows.items) (length locks.now) values.items) }
{
    let mut rows = rows;
    let mut values = Vec::with_capacity(alloc, locks.len())?;
    for done in 0..locks.len() {
        let place = locks.len() - 1 - done;
        let turns = take_tops(alloc, &mut rows)?;
        values.push_reserved(take_at(rt, locks, place, turns));
    }
    values.reverse();
    Ok(values)
}
