//! Which workers are at work.
use std::sync::atomic::{AtomicU64, Ordering};

// So many rounds the sweeper waits for workers that haven't begun, while nobody is at work.
const PATIENCE: u32 = 1 << 14;

/// How many workers there are, how many of them have begun, and of how many the actors have no step left.
#[derive(Drop)]
pub(crate) struct Shifts {
    workers: u64,
    begun: AtomicU64,
    ended: AtomicU64,
}

impl Shifts {
    /// None of so many workers has begun.
    pub(crate) fn new(workers: u64) -> Shifts {
        Shifts {
            workers,
            begun: AtomicU64::new(0),
            ended: AtomicU64::new(0),
        }
    }
}

/// A worker's part in these counts.
#[derive(Drop)]
pub(crate) struct Shift<'a> {
    all: &'a Shifts,
    is_at_work: bool,
    patience: u32,
}

impl<'a> Shift<'a> {
    /// One of the workers begins.
    pub(crate) fn begin(all: &'a Shifts) -> Shift<'a> {
        all.begun.fetch_add(1, Ordering::SeqCst);
        Shift {
            all,
            is_at_work: true,
            patience: PATIENCE,
        }
    }

    /// Its actors have no step left.
    pub(crate) fn end(&mut self) {
        if self.is_at_work {
            self.all.ended.fetch_add(1, Ordering::SeqCst);
            self.is_at_work = false;
        }
    }

    /// Whether no worker is at work any more. Those that haven't begun for long begin after this one: no thread
    /// could be started for them.
    pub(crate) fn is_over(&mut self) -> bool {
        let begun = self.all.begun.load(Ordering::SeqCst);
        let ended = self.all.ended.load(Ordering::SeqCst);
        if ended < begun {
            return false;
        }
        if ended >= self.all.workers || self.patience == 0 {
            return true;
        }
        self.patience -= 1;
        false
    }
}
