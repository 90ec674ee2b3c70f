//! A whole run in threads.
ghost use Rattle.std.specs.Prelude.{◌≡◌, ◌+◌, ◌<◌, ◌≤◌, Some, IfOk, length};
ghost use Rattle.store_map.specs.Naming.{IsValid};
ghost use Rattle.store_map.specs.declared.script.Script.{Script as StoreScript};
ghost use Rattle.version_seal.specs.Sealer.{sealer_at};
ghost use Rattle.stripe_dir.specs.Seats.{first_seats};
ghost use Rattle.run_seats.specs.Places.{IsStore};
ghost use Rattle.store_run.specs.Crew.{IsCrew};
ghost use Rattle.store_run.specs.Dealt.{IsDeck, turns_of};
ghost use Rattle.store_run.specs.Left.{HasLeft};
ghost use Rattle.store_run.specs.Swept.{IsRunToEnd};

use crate::deck::Deck;
use crate::ended::close;
use crate::left_workers::{Left, gather, leave_workers};
use crate::locked_places::{leave_seats, lock_places};
use crate::seating::{Seating, new_workers};
use clay_model::Coder;
use run_seats::{Gate, Store, Worker, work_together};
use std::alloc::{AllocError, Global};
use std::sync::Wait;
use std::thread::Threads;
use store_map::{Script, Transcript};
use stripe_dir::Seat;
use version_seal::{Book, Sealer};

// How many workers have actors: no more than there are clients and repairers, so that the sweeper and the operator
// have one of these beside them.
fn crew_size(script: &Script, workers: usize) -> usize
    requires valid { IsValid script.now }
    requires some { 0 < workers }
    ensures some { 0 < result }
    ensures all { workers ≤ length script.now.clients + length script.now.repairers → result ≡ workers }
    ensures fewer { 0 < length script.now.clients + length script.now.repairers → length script.now.clients + length script.now.repairers ≤ workers
        → result ≡ length script.now.clients + length script.now.repairers }
{
    let callers = script.clients.len() + script.repairers.len();
    if workers <= callers {
        return workers;
    }
    if callers == 0 { 1 } else { callers }
}

// All actors of the store's script, dealt to so many workers.
fn make_crew<'a>(
    alloc: Global,
    store: &Store<'a>,
    deck: Deck,
    seats: Vec<Seat>,
    count: usize,
) -> Result<Vec<Worker<'a>>, AllocError>
    requires store { IsStore store.now }
    requires some { 0 < count }
    requires deck { IsDeck store.now (turns_of store.now.script.now) deck }
    requires seats { seats.items ≡ first_seats (length store.now.script.now.clients) (length store.now.script.now.repairers) }
    ensures crew { IfOk result (λ crew. IsCrew store.now 0 (turns_of store.now.script.now) crew.items) }
    ensures count { IfOk result (λ crew. length crew.items ≡ count) }
{
    let crew = match new_workers(alloc, count) {
        Ok(crew) => crew,
        Err(e) => {
            leave_seats(seats);
            return Err(e);
        }
    };
    let mut seating = Seating {
        alloc,
        store,
        deck,
        seats,
        workers: crew,
    };
    let seated = seating.seat_all();
    let Seating {
        alloc: _,
        store: _,
        deck: _deck,
        seats,
        workers,
    } = seating;
    leave_seats(seats);
    match seated {
        Ok(()) => Ok(workers),
        Err(e) => {
            leave_workers(workers);
            Err(e)
        }
    }
}

// What the actors left becomes the transcript of their run, after the last sweep.
fn finish_run<R: Wait>(
    rt: &R,
    alloc: Global,
    store: &Store,
    left: Left,
) -> Result<Transcript, AllocError>
    ghost script: { StoreScript }
    requires same { script ≡ store.now.script.now }
    requires store { IsStore store.now }
    requires left { HasLeft store.now left }
    ensures { IfOk result (IsRunToEnd script) }
{
    let mut ended = close(rt, alloc, store, left)?;
    ended.sweep();
    ended.finish(alloc)
}

// The workers make all steps of their actors, in as many threads at most, and the run is ended.
fn run_crew<'a, R: Threads + Wait + Sync, C: Coder + Sync, G: Gate + Sync>(
    rt: &R,
    alloc: Global,
    store: &Store<'a>,
    crew: Vec<Worker<'a>>,
    coder: &C,
    gate: &G,
) -> Result<Transcript, AllocError>
    requires store { IsStore store.now }
    requires some { 0 < length crew.items }
    requires crew { IsCrew store.now 0 (turns_of store.now.script.now) crew.items }
    ensures { IfOk result (IsRunToEnd store.now.script.now) }
{
    let mut crew = crew;
    let threads = crew.len();
    work_together(rt, coder, gate, store, crew.as_mut_slice(), threads);
    let left = gather(alloc, store, crew)?;
    finish_run(rt, alloc, store, left)
}

// The run over the book of the script's versions.
fn run_over<R: Threads + Wait + Sync, C: Coder + Sync, G: Gate + Sync>(
    rt: &R,
    alloc: Global,
    script: &Script,
    book: &Book,
    sealer: Sealer,
    workers: usize,
    coder: &C,
    gate: &G,
) -> Result<Transcript, AllocError>
    requires valid { IsValid script.now }
    requires written { book.now.script ≡ Some script.now }
    requires code { book.now.geometry ≡ script.now.geometry }
    requires sealer { sealer ≡ sealer_at book.now 0 }
    requires some { 0 < workers }
    ensures { IfOk result (IsRunToEnd script.now) }
{
    let (store, deck, seats) = lock_places(alloc, script, book, sealer)?;
    let count = crew_size(script, workers);
    let shown = match make_crew(alloc, &store, deck, seats, count) {
        Ok(crew) => run_crew(rt, alloc, &store, crew, coder, gate),
        Err(e) => Err(e),
    };
    let Store {
        script: _,
        directory,
        servers,
        book: _,
    } = store;
    drop(directory);
    drop(servers);
    shown
}

/// The transcript of a run of the script, whose clients and repairers, with the sweeper and the operator
/// beside them, make their steps in so many threads, or in fewer where there are fewer clients and repairers, at a
/// directory and servers of its own, with chunks that the coder makes. The gate is told of each of these steps. The
/// sweeper makes a step beside each round of the worker that it is with, and goes on until no worker has an actor with
/// a step. In the end it makes its steps alone, until nothing is garbage. An error is allocation failure before the
/// first step or after the last one.
pub fn run<R: Threads + Wait + Sync, C: Coder + Sync, G: Gate + Sync>(
    rt: &R,
    alloc: Global,
    script: Script,
    workers: usize,
    coder: &C,
    gate: &G,
) -> Result<Transcript, AllocError>
    requires valid { IsValid script }
    requires some { 0 < workers }
    ensures { IfOk result (IsRunToEnd script) }
{
    let (book, sealer) = Book::new(alloc, script)?;
    match book.script() {
        Some(script) => run_over(rt, alloc, script, &book, sealer, workers, coder, gate),
        None => unreachable!(),
    }
}
