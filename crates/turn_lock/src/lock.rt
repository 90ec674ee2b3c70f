//! The lock and its turns.
ghost use Rattle.std.specs.Prelude.{◌≡◌, ◌∷◌, ◌++◌, ◌+◌, [], ℕ, ◌<◌, Option, Some, None, true, false, IfOk, IfNone, IfSome, slice_get, vec_len};
ghost use Rattle.atomic_table.specs.Seated.{TableId};
ghost use Rattle.turn_lock.specs.History.{Among, IsUnder, GoesOn, SameEntries, IsLonger, with_entry};
ghost use Rattle.turn_lock.specs.TurnState.{TurnState, new_turn};
ghost use Rattle.turn_lock.specs.Steps.{IsSameSeat, maker_view, joined_view, settled_view, with_seen};

use crate::lock_history::{Added, Historied};
use crate::lock_view::View;
use crate::rule::{Both, Make, PassOn, Rule, Settle, Try};
use atomic_table::{Refused, Seat, Table};
use std::alloc::{AllocError, Global};
use std::marker::{Brand, Model};
use std::snapshot::Snapshot;
use std::sync::Wait;
use std::thread;

/// A turn at a lock. It can't be copied. Contracts see which lock it is of, with that lock's fixed
/// part, its numbers, the history that it has seen, and whether it holds the value.
#[derive(Drop)]
pub struct Turn<T: Historied> {
    // one of its numbers
    number: u32,
    seat: Seat<Option<T>, View<T::Fixed, T::Entry>>,
}

impl<T: Historied> Model for Turn<T> {
    ghost Value = { TurnState T.Fixed T.Entry };

    ghost view = { λ t. record {
      lock = t.seat.table_id;
      fixed = t.seat.me.0.fixed;
      numbers = t.seat.me.0.numbers;
      seen = t.seat.me.0.seen;
      holds = t.seat.me.0.holds;
    } };

    ghost invariant = { λ t. Among t.number t.seat.me.0.numbers
        × (t.seat.me.0.joined ≡ []) × (t.seat.me.0.joined_seen ≡ [])
        × (t.seat.me.0.holds ≡ true → t.seat.me.1 ≡ (0, None) ∷ [])
        × (t.seat.me.0.holds ≡ false → t.seat.me.1 ≡ []) };
}

/// A lock round a value that stands for a history. Contracts see which lock it is.
#[derive(Drop)]
pub struct Lock<T: Historied + Drop> {
    table: Table<Option<T>, View<T::Fixed, T::Entry>, Snapshot<T>, Rule<T>, Global>,
    ghost sized: { (table.shared.table_id.words ≡ 1) × (table.shared.table_id.slots ≡ 1) },
}

impl<T: Historied + Drop> Model for Lock<T> {
    ghost Value = { TableId };

    ghost view = { λ l. l.table.shared.table_id };

    ghost invariant = { λ _. Unit {0} };
}

impl<T: Historied + Drop> Lock<T> {
    /// A lock round the value, and its turns, numbered from 0. At `Err` the value is dropped.
    pub fn new(alloc: Global, value: T, turns: u32) -> Result<(Lock<T>, Vec<Turn<T>>), AllocError>
        requires empty { T.stands_for value [] }
        ensures count { IfOk result (λ r. vec_len r.1 ≡ turns) }
        ensures turns { IfOk result (λ r. (k : ℕ) →
            IfSome (slice_get r.1.items k) (λ t. t ≡ new_turn r.0 (T.fixed_part value) k)) }
    {
        let mut all = Vec::with_capacity(alloc, turns as usize)?;
        let (lock, mut seat) = Lock::open(alloc, value)?;
        for number in 0..turns {
            all.push_reserved(lock.make(&mut seat, number));
        }
        Ok((lock, all))
    }

    /// Waits until no turn holds the value, and takes it. The turn has then seen the whole history.
    pub fn take<R: Wait>(&self, rt: &R, turn: &mut Turn<T>) -> T
        requires own { turn.old.lock ≡ self.now }
        requires free { turn.old.holds ≡ false }
        ensures turn { turn.new ≡ record turn.old { seen = turn.new.seen; holds = true } }
        ensures fixed { Some (T.fixed_part result) ≡ turn.old.fixed }
        ensures stands { T.stands_for result turn.new.seen }
        ensures seen { GoesOn turn.old.numbers turn.old.seen turn.new.seen }
    {
        self.seize(rt, &mut turn.seat, turn.number)
    }

    /// Gives the value back, which stands for what the turn had seen, with the entry that the call
    /// names, if it names one.
    pub fn give(&self, turn: &mut Turn<T>, value: T)
        ghost entry: { Option (ℕ × T.Entry) }
        requires own { turn.old.lock ≡ self.now }
        requires held { turn.old.holds ≡ true }
        requires fixed { Some (T.fixed_part value) ≡ turn.old.fixed }
        requires number { IsUnder turn.old.numbers entry }
        requires stands { T.stands_for value (with_entry turn.old.seen entry) }
        ensures { turn.new
            ≡ record turn.old { seen = with_entry turn.old.seen entry; holds = false } }
    {
        self.pass_on::<Brand>(&mut turn.seat, value, turn.number)
    }

    /// As [`give`](Lock::give), for a caller whose entry is named from more than that call's
    /// arguments: what it is named from is handed in beside them, and dropped.
    pub fn give_by<C: Drop>(&self, turn: &mut Turn<T>, value: T, by: C)
        ghost entry: { Option (ℕ × T.Entry) }
        requires own { turn.old.lock ≡ self.now }
        requires held { turn.old.holds ≡ true }
        requires fixed { Some (T.fixed_part value) ≡ turn.old.fixed }
        requires number { IsUnder turn.old.numbers entry }
        requires stands { T.stands_for value (with_entry turn.old.seen entry) }
        ensures { turn.new
            ≡ record turn.old { seen = with_entry turn.old.seen entry; holds = false } }
    {
        drop(by);
        self.give(turn, value)
    }

    /// Makes one turn of two, with the numbers of both. It has seen the longer of their histories.
    pub fn join(&self, turn: Turn<T>, other: Turn<T>) -> Turn<T>
        requires own { (turn.lock ≡ self.now) × (other.lock ≡ self.now) }
        requires free { (turn.holds ≡ false) × (other.holds ≡ false) }
        ensures turn { result
            ≡ record turn { numbers = turn.numbers ++ other.numbers; seen = result.seen } }
        ensures longer { IsLonger turn.seen other.seen result.seen }
        ensures own { SameEntries turn.numbers turn.seen result.seen
            × SameEntries other.numbers other.seen result.seen }
    {
        let Turn { number, mut seat } = turn;
        let Turn {
            number: _,
            seat: other,
        } = other;
        self.merge(&mut seat, other, number);
        Turn { number, seat }
    }

    // The lock, and the seat that its turns are made from.
    fn open(
        alloc: Global,
        value: T,
    ) -> Result<(Lock<T>, Seat<Option<T>, View<T::Fixed, T::Entry>>), AllocError>
        requires { T.stands_for value [] }
        ensures { IfOk result (λ r.
            (r.1.table_id ≡ r.0) × (r.1.me ≡ (maker_view (T.fixed_part value) 0, []))) }
    {
        let key = Snapshot::of(&value);
        let mut slots = Vec::with_capacity(alloc, 1)?;
        slots.push_reserved(Some(value));
        match Table::new(alloc, &[0], slots, &key) {
            Ok((table, seat)) => Ok((Lock { table }, seat)),
            Err(Refused { slots: _ }) => Err(AllocError),
        }
    }

    // The turn of the next number.
    fn make(&self, seat: &mut Seat<Option<T>, View<T::Fixed, T::Entry>>, number: u32) -> Turn<T>
        requires own { seat.old.table_id ≡ self.now }
        requires maker { (f : T.Fixed) × (seat.old.me ≡ (maker_view f number, [])) }
        ensures same { IsSameSeat seat.old seat.new }
        ensures maker { (f : T.Fixed) → seat.old.me ≡ (maker_view f number, []) →
            (seat.new.me ≡ (maker_view f (number + 1), [])) × (result ≡ new_turn self.now f number) }
    {
        Turn {
            number,
            seat: self.table.shared.split_seat::<Make>(seat),
        }
    }

    // Takes the value under this number, waiting until the lock is free.
    fn seize<R: Wait>(
        &self,
        rt: &R,
        seat: &mut Seat<Option<T>, View<T::Fixed, T::Entry>>,
        number: u32,
    ) -> T
        requires own { seat.old.table_id ≡ self.now }
        requires free { (seat.old.me.0.holds ≡ false) × (seat.old.me.1 ≡ []) }
        requires number { Among number seat.old.me.0.numbers }
        ensures same { IsSameSeat seat.old seat.new }
        ensures view { seat.new.me
            ≡ (with_seen seat.old.me.0 seat.new.me.0.seen true, (0, None) ∷ []) }
        ensures fixed { Some (T.fixed_part result) ≡ seat.old.me.0.fixed }
        ensures stands { T.stands_for result seat.new.me.0.seen }
        ensures seen { GoesOn seat.old.me.0.numbers seat.old.me.0.seen seat.new.me.0.seen }
    {
        for _ in rt.forever() {
            if let Some(value) = self.try_take(seat, number) {
                return value;
            }
            thread::yield_now();
        }
        unreachable!()
    }

    // Takes the value if the lock is free.
    fn try_take(
        &self,
        seat: &mut Seat<Option<T>, View<T::Fixed, T::Entry>>,
        number: u32,
    ) -> Option<T>
        requires own { seat.old.table_id ≡ self.now }
        requires free { (seat.old.me.0.holds ≡ false) × (seat.old.me.1 ≡ []) }
        requires number { Among number seat.old.me.0.numbers }
        ensures same { IsSameSeat seat.old seat.new }
        ensures none { IfNone result (seat.new.me ≡ seat.old.me) }
        ensures some { IfSome result (λ value.
            (seat.new.me ≡ (with_seen seat.old.me.0 seat.new.me.0.seen true, (0, None) ∷ []))
            × (Some (T.fixed_part value) ≡ seat.old.me.0.fixed) × T.stands_for value seat.new.me.0.seen
            × GoesOn seat.old.me.0.numbers seat.old.me.0.seen seat.new.me.0.seen) }
    {
        let shared = &self.table.shared;
        let found = shared.compare_exchange::<Try<T>>(seat, 0, 0, u64::from(number) + 1);
        if found == 0 {
            return shared.exchange(seat, 0, None);
        }
        None
    }

    // Puts the value back with the entry added, and frees the lock.
    fn pass_on<N: Added<T::Entry>>(
        &self,
        seat: &mut Seat<Option<T>, View<T::Fixed, T::Entry>>,
        value: T,
        number: u32,
    )
        requires own { seat.old.table_id ≡ self.now }
        requires held { (seat.old.me.0.holds ≡ true) × (seat.old.me.0.joined ≡ [])
            × (seat.old.me.1 ≡ (0, None) ∷ []) }
        requires number { Among number seat.old.me.0.numbers }
        requires fixed { Some (T.fixed_part value) ≡ seat.old.me.0.fixed }
        requires entry { IsUnder seat.old.me.0.numbers N.added }
        requires stands { T.stands_for value (with_entry seat.old.me.0.seen N.added) }
        ensures same { IsSameSeat seat.old seat.new }
        ensures view { seat.new.me
            ≡ (with_seen seat.old.me.0 (with_entry seat.old.me.0.seen N.added) false, []) }
    {
        let shared = &self.table.shared;
        drop(shared.exchange(seat, 0, Some(value)));
        shared.store::<PassOn<N>>(seat, 0, 0);
    }

    // Takes in the numbers of the other seat, and what it has seen.
    fn merge(
        &self,
        seat: &mut Seat<Option<T>, View<T::Fixed, T::Entry>>,
        other: Seat<Option<T>, View<T::Fixed, T::Entry>>,
        number: u32,
    )
        requires own { (seat.old.table_id ≡ self.now) × (other.table_id ≡ self.now) }
        requires free { (seat.old.me.0.holds ≡ false) × (other.me.0.holds ≡ false)
            × (seat.old.me.1 ≡ []) × (other.me.1 ≡ []) }
        requires number { Among number seat.old.me.0.numbers }
        ensures same { IsSameSeat seat.old seat.new }
        ensures me { seat.new.me
            ≡ (settled_view (joined_view seat.old.me.0 other.me.0) seat.new.me.0.seen, []) }
        ensures longer { IsLonger seat.old.me.0.seen other.me.0.seen seat.new.me.0.seen }
        ensures own { SameEntries seat.old.me.0.numbers seat.old.me.0.seen seat.new.me.0.seen
            × SameEntries other.me.0.numbers other.me.0.seen seat.new.me.0.seen }
    {
        let shared = &self.table.shared;
        shared.join_seat::<Both>(seat, other);
        shared.load::<Settle>(seat, 0);
    }
}
