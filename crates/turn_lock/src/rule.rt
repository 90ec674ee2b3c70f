//! The rule of a lock's table, and what each step changes and tells.
ghost use Rattle.turn_lock.specs.Rule.{Kept};
ghost use Rattle.turn_lock.specs.Steps.{maker_view, maker_after, turn_view, joined_view, spent_view, Tries, PassesOn, Settles};

use crate::lock_history::{Added, Historied};
use crate::lock_view::View;
use atomic_table::{Join, Play, Split, TableRule};
use std::marker::PhantomData;
use std::snapshot::Snapshot;

pub(crate) struct Rule<T> {
    of: PhantomData<T>,
}

impl<T: Historied> TableRule<Option<T>, View<T::Fixed, T::Entry>, Snapshot<T>> for Rule<T> {
    ghost holds = { λ _. Kept T.fixed_part T.stands_for };

    ghost first = { λ value. maker_view (T.fixed_part value.value) 0 };
}

pub(crate) struct Make;

impl<F, E> Split<View<F, E>> for Make {
    ghost left = { maker_after };

    ghost right = { turn_view };
}

pub(crate) struct Both;

impl<F, E> Join<View<F, E>> for Both {
    ghost both = { joined_view };

    ghost spent = { spent_view };
}

pub(crate) struct Try<T> {
    of: PhantomData<T>,
}

impl<T: Historied> Play<Option<T>, View<T::Fixed, T::Entry>> for Try<T> {
    ghost then = { Tries T.fixed_part T.stands_for };
}

pub(crate) struct PassOn<N> {
    of: PhantomData<N>,
}

impl<T, F, E, N: Added<E>> Play<Option<T>, View<F, E>> for PassOn<N> {
    ghost then = { PassesOn N.added };
}

pub(crate) struct Settle;

impl<T, F, E> Play<Option<T>, View<F, E>> for Settle {
    ghost then = { Settles };
}
