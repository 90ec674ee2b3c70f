//! Turns that are back are joined, and the value is taken out of its lock for good.
ghost use Rattle.std.specs.Prelude.{◌≡◌, ◌<◌, ◌∷◌, ◌++◌, [], ℕ, List, vec_len};
ghost use Rattle.turn_lock.specs.Joined.{AreAll, IsJoined, IsWhole};

use crate::lock::{Lock, Turn};
use crate::lock_history::Historied;
use std::sync::Wait;

/// The last of some values.
pub fn take_last<T>(items: &mut Vec<T>) -> T
    requires { 0 < vec_len items.old }
    ensures { items.old.items ≡ items.new.items ++ result ∷ [] }
{
    match items.pop() {
        Some(item) => item,
        None => unreachable!(),
    }
}

/// One turn of all turns of a lock.
pub fn join_all<T: Historied + Drop>(lock: &Lock<T>, turns: Vec<Turn<T>>) -> Turn<T>
    ghost identity: { T.Fixed }
    requires { AreAll lock.now identity turns.items }
    ensures { IsJoined lock.now identity turns.items result }
{
    let mut turns = turns;
    let mut all = take_last(&mut turns);
    for _left in 0..turns.len() {
        all = lock.join(all, take_last(&mut turns));
    }
    all
}

/// The value, taken by one turn of all. It stands for a history that begins with what each turn had seen
/// and has, of each number, the entries that the turn of this number had seen.
pub fn take_out<T: Historied + Drop, R: Wait>(rt: &R, lock: &Lock<T>, turns: Vec<Turn<T>>) -> T
    ghost identity: { T.Fixed }
    requires { AreAll lock.now identity turns.items }
    ensures fixed { T.fixed_part result ≡ identity }
    ensures stands { (log : List (ℕ × T.Entry)) × (T.stands_for result log) × IsWhole turns.items log }
{
    let mut turn = join_all(lock, turns);
    lock.take(rt, &mut turn)
}
