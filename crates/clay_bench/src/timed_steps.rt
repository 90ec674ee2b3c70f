//! The steps that are timed.

use crate::drawn_calls::{BenchCall, Wanted, call};
use dir_walks::test_caller::{Refusal, Step};
use dir_walks::test_store::Store;
use std::alloc::Global;
use store_map::Call;

/// What is made many times.
#[derive(Clone, Copy)]
pub enum Measured {
    /// A write over the middle stripe of an object.
    Write,
    /// A read of it.
    Read,
    /// A write of a stripe behind the end.
    Append,
    /// A put of all stripes.
    Put,
    /// A delete of the oldest object, and in turn a put of it as the newest.
    Renew,
    Stat,
}

impl Measured {
    /// That which the first word names.
    pub fn named(words: &[String]) -> Option<Measured> {
        match words.first()?.as_str() {
            "write" => Some(Measured::Write),
            "read" => Some(Measured::Read),
            "append" => Some(Measured::Append),
            "put" => Some(Measured::Put),
            "renew" => Some(Measured::Renew),
            "stat" => Some(Measured::Stat),
            _ => None,
        }
    }
}

// Makes a call to its end. Each call has one point, so that the count of points is an unused number.
fn make(store: &mut Store<'_>, call: &Call) -> Result<(), Refusal> {
    let Ok(number) = u32::try_from(store.directory().points()) else {
        return Err(Refusal::NotNow);
    };
    store.first(Step::Look { number, call })?;
    match call {
        Call::Put { .. } | Call::Write { .. } => {
            store.first(Step::Draw)?;
            store.first(Step::Commit)
        }
        Call::Get { .. } | Call::ReadAt { .. } => store.first(Step::End),
        Call::Stat { .. } | Call::Delete { .. } => Ok(()),
    }
}

// Sweeps all garbage: so many versions.
fn sweep(store: &mut Store<'_>) -> u64 {
    let mut swept: u64 = 0;
    for _ in 0..u64::MAX {
        let Some(version) = store.next_garbage() else {
            return swept;
        };
        store.swept(version);
        swept = swept.saturating_add(1);
    }
    swept
}

// A call so many times, swept after each.
fn repeat(store: &mut Store<'_>, call: &Call, steps: u32) -> Result<u64, Refusal> {
    let mut swept: u64 = 0;
    for _ in 0..steps {
        make(store, call)?;
        swept = swept.saturating_add(sweep(store));
    }
    Ok(swept)
}

// The same of a call that is made for it, once for all its steps.
fn repeat_new(
    alloc: Global,
    store: &mut Store<'_>,
    wanted: Wanted,
    steps: u32,
) -> Result<u64, Refusal> {
    let call = call(alloc, wanted)?;
    repeat(store, &call, steps)
}

// The call of a step: a write behind the end, or of the oldest object, as its deletes and puts take turns.
fn next(measured: Measured, size: u32, step: u32) -> Wanted {
    let Measured::Renew = measured else {
        return Wanted {
            kind: BenchCall::Write,
            object: 0,
            stripes: size.saturating_add(step),
        };
    };
    Wanted {
        kind: if step % 2 == 0 {
            BenchCall::Delete
        } else {
            BenchCall::Put
        },
        object: (step / 2).checked_rem(size).unwrap_or(0),
        stripes: 1,
    }
}

// So many steps, each with a call of its own.
fn series(
    alloc: Global,
    store: &mut Store<'_>,
    measured: Measured,
    size: u32,
    steps: u32,
) -> Result<u64, Refusal> {
    let mut swept: u64 = 0;
    for step in 0..steps {
        swept = swept.saturating_add(repeat_new(alloc, store, next(measured, size, step), 1)?);
    }
    Ok(swept)
}

// So many objects of a stripe.
fn put_all(alloc: Global, store: &mut Store<'_>, objects: u32) -> Result<u64, Refusal> {
    for object in 0..objects {
        let put = Wanted {
            kind: BenchCall::Put,
            object,
            stripes: 1,
        };
        repeat_new(alloc, store, put, 1)?;
    }
    Ok(0)
}

// A call of the only object.
fn only(kind: BenchCall, stripes: u32) -> Wanted {
    Wanted {
        kind,
        object: 0,
        stripes,
    }
}

/// Makes a directory of this size: an object's stripes, objects or points.
pub fn prepare(
    alloc: Global,
    store: &mut Store<'_>,
    measured: Measured,
    size: u32,
) -> Result<u64, Refusal> {
    match measured {
        Measured::Renew => put_all(alloc, store, size),
        Measured::Stat => repeat_new(alloc, store, only(BenchCall::Stat, 0), size),
        _ => repeat_new(alloc, store, only(BenchCall::Put, size), 1),
    }
}

// The call that is repeated, of an object of so many stripes.
fn repeated(measured: Measured, stripes: u32) -> Wanted {
    match measured {
        Measured::Write => only(BenchCall::Write, stripes / 2),
        Measured::Read => only(BenchCall::Read, stripes / 2),
        Measured::Stat => only(BenchCall::Stat, 0),
        _ => only(BenchCall::Put, stripes),
    }
}

/// So many steps of a kind in a directory of this size: how many versions were swept.
pub fn work(
    alloc: Global,
    store: &mut Store<'_>,
    measured: Measured,
    size: u32,
    steps: u32,
) -> Result<u64, Refusal> {
    match measured {
        Measured::Append => series(alloc, store, measured, size, steps),
        Measured::Renew => series(alloc, store, measured, size, steps.saturating_mul(2)),
        _ => repeat_new(alloc, store, repeated(measured, size), steps),
    }
}
