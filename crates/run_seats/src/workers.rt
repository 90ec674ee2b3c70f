//! Workers: each makes the steps of its actors, until none of them has one. The sweeper's worker goes on while
//! another worker has such an actor.
ghost use Rattle.std.specs.Prelude.{◌≡◌, ◌<◌, true, false, All, map};
ghost use Rattle.store_map.specs.declared.script.Script.{Script as StoreScript};
ghost use Rattle.run_seats.specs.Falling.{all_left};
ghost use Rattle.run_seats.specs.Places.{IsStore};
ghost use Rattle.run_seats.specs.SeatedActors.{AreOfCode, IsSeatedActor, number_of, some_has};
ghost use Rattle.run_seats.specs.Working.{AreDone, IsDone, IsWorking};

use crate::gate::Gate;
use crate::seated_actor::SeatedActor;
use crate::shift::{Shift, Shifts};
use crate::store::Store;
use clay_model::Coder;
use std::sync::Wait;
use std::thread;
use std::thread::Threads;

/// What one worker steps.
pub struct Worker<'a> {
    pub actors: Vec<SeatedActor<'a>>,
}

// Whether one of the actors has a step, apart from the sweeper.
fn some_has_step(actors: &[SeatedActor]) -> bool
    ensures { (script : StoreScript) → AreOfCode script actors.now → result ≡ some_has script actors.now }
{
    for actor in actors {
        if actor.has_step() {
            return true;
        }
    }
    false
}

// A step of each actor that has one. Where one has, they have fewer left in all.
fn round<R: Threads + Wait + Sync, C: Coder, G: Gate>(
    rt: &R,
    coder: &C,
    gate: &G,
    store: &Store,
    actors: &mut Vec<SeatedActor>,
)
    requires store { IsStore store.now }
    requires seated { All (IsSeatedActor store.now) actors.old.items }
    ensures seated { All (IsSeatedActor store.now) actors.new.items }
    ensures numbers { map number_of actors.new.items ≡ map number_of actors.old.items }
    ensures falls { some_has store.now.script.now actors.old.items ≡ true → all_left store.now actors.new.items < all_left store.now actors.old.items }
{
    for place in 0..actors.len() {
        actors[place].visit(rt, coder, gate, store);
    }
}

// Whether the sweeper is one of the actors.
fn has_sweeper(actors: &[SeatedActor]) -> bool {
    for actor in actors {
        if let SeatedActor::Sweeper(_) = actor {
            return true;
        }
    }
    false
}

// Whether a worker with these actors may end: none of them has a step, and with the sweeper no worker is at work.
fn may_end(actors: &[SeatedActor], shift: &mut Shift) -> bool
    ensures { (script : StoreScript) → AreOfCode script actors.now → result ≡ true → some_has script actors.now ≡ false }
{
    if some_has_step(actors) {
        return false;
    }
    shift.end();
    if !has_sweeper(actors) || shift.is_over() {
        return true;
    }
    thread::yield_now();
    false
}

// The actors of a worker take turns until it may end.
fn work<R: Threads + Wait + Sync, C: Coder, G: Gate>(
    rt: &R,
    coder: &C,
    gate: &G,
    store: &Store,
    worker: &mut Worker,
    shift: Shift,
)
    requires { IsWorking store.now worker.old }
    ensures { IsDone store.now worker.old worker.new }
{
    let mut shift = shift;
    for _ in rt.forever() {
        if may_end(&worker.actors, &mut shift) {
            return;
        }
        round(rt, coder, gate, store, &mut worker.actors);
    }
    unreachable!()
}

// The workers make the steps of their actors, each in a shift of these.
fn work_in_shifts<R: Threads + Wait + Sync, C: Coder + Sync, G: Gate + Sync>(
    rt: &R,
    coder: &C,
    gate: &G,
    store: &Store,
    workers: &mut [Worker],
    threads: usize,
    shifts: &Shifts,
)
    requires some { 0 < threads }
    requires working { All (IsWorking store.now) workers.old }
    ensures { AreDone store.now workers.old workers.new }
{
    thread::for_each_mut(
        rt,
        workers,
        threads,
        &|_, worker|
            requires { IsWorking store.now worker.old }
            ensures { IsDone store.entry.now worker.old worker.new }
        { work(rt, coder, gate, store, worker, Shift::begin(shifts)) },
    );
}

/// The workers make the steps of their actors, in at most so many threads.
pub fn work_together<R: Threads + Wait + Sync, C: Coder + Sync, G: Gate + Sync>(
    rt: &R,
    coder: &C,
    gate: &G,
    store: &Store,
    workers: &mut [Worker],
    threads: usize,
)
    requires some { 0 < threads }
    requires working { All (IsWorking store.now) workers.old }
    ensures { AreDone store.now workers.old workers.new }
{
    let shifts = Shifts::new(workers.len() as u64);
    work_in_shifts(rt, coder, gate, store, workers, threads, &shifts);
}
