//! What workers do, alone and together.
ghost use Rattle.std.specs.Prelude.{◌≡◌, ◌+◌, ◌<◌, ◌↔◌, [], ℕ, length, vec_len, All, IfOk, IsNone, slice_index_or};
ghost use Rattle.run_tests.specs.Workers.{IsReady, line_count};

use crate::adding::add;
use crate::number_list::{Line, NumberList};
use crate::worker_tests::Worker;
use std::alloc::{AllocError, Global};
use std::sync::Wait;
use std::thread;
use std::thread::Threads;
use turn_lock::Lock;

/// An empty list under a lock, and so many workers, with so many lines each. They stand by falling
/// number.
pub fn hire(
    alloc: Global,
    count: u32,
    lines: u32,
) -> Result<(Lock<NumberList>, Vec<Worker>), AllocError>
    ensures count { IfOk result (λ r. vec_len r.1 ≡ count) }
    ensures ready { IfOk result (λ r. All (IsReady r.0) r.1.items) }
{
    let list = NumberList {
        name: 7,
        lines: Vec::new(alloc),
    };
    let mut workers = Vec::with_capacity(alloc, count as usize)?;
    let (lock, mut turns) = Lock::new(alloc, list, count)?;
    while let Some(turn) = turns.pop() {
        workers.push_reserved(Worker {
            turn,
            number: turns.len() as u32,
            left: lines,
        });
    }
    Ok((lock, workers))
}

// Adds the worker's lines, with values from 0 on, until memory is wanting.
fn work<R: Wait>(rt: &R, lock: &Lock<NumberList>, worker: &mut Worker)
    requires { IsReady lock.now worker.old }
    ensures ready { IsReady lock.now worker.new }
    ensures number { worker.new.number ≡ worker.old.number }
    ensures lines { line_count worker.new + worker.new.left
        ≡ line_count worker.old + worker.old.left }
{
    for value in 0..worker.left {
        let line = Line {
            turn: worker.number,
            value,
        };
        if add(rt, lock, &mut worker.turn, line).is_err() {
            return;
        }
        worker.left -= 1;
    }
}

/// All workers at once, in at most so many threads, which have all ended when it returns. Where
/// memory was wanting, a worker has lines left.
pub fn work_together<R: Threads + Wait + Sync>(
    rt: &R,
    lock: &Lock<NumberList>,
    workers: &mut [Worker],
    threads: usize,
)
    requires some { 0 < threads }
    requires ready { All (IsReady lock.now) workers.old }
    ensures ready { All (IsReady lock.now) workers.new }
    ensures lines { (i : ℕ) (d : _) → i < length workers.old →
        line_count (slice_index_or workers.new i d) + (slice_index_or workers.new i d).left
        ≡ line_count (slice_index_or workers.old i d) + (slice_index_or workers.old i d).left }
{
    thread::for_each_mut(rt, workers, threads, &|_, worker| work(rt, lock, worker));
}

/// Joins the workers' turns, and takes the list. There is none where there are no workers.
pub fn collect<R: Wait>(
    rt: &R,
    lock: &Lock<NumberList>,
    mut workers: Vec<Worker>,
) -> Option<NumberList>
    requires { All (IsReady lock.now) workers.items }
    ensures { IsNone result ↔ (workers.items ≡ []) }
{
    let last = workers.pop()?;
    let mut turn = last.turn;
    while let Some(worker) = workers.pop() {
        turn = lock.join(turn, worker.turn);
    }
    Some(lock.take(rt, &mut turn))
}
