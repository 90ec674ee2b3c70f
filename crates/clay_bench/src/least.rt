//! The shortest of the times that were measured.

use std::io;
use std::time::Duration;

/// The least of some times.
#[derive(Clone, Copy)]
pub struct Least(u64);

impl Least {
    pub fn new() -> Least {
        Least(u64::MAX)
    }

    pub fn note(&mut self, took: Duration) {
        let took = u64::try_from(took.as_nanos()).unwrap_or(u64::MAX);
        self.0 = self.0.min(took);
    }

    pub fn nanoseconds(self) -> u64 {
        self.0
    }
}

/// The least times of two ways to do the same.
#[derive(Clone, Copy)]
pub struct BothLeast {
    first: Least,
    second: Least,
}

impl BothLeast {
    pub fn new() -> BothLeast {
        BothLeast {
            first: Least::new(),
            second: Least::new(),
        }
    }

    pub fn note(&mut self, first: Duration, second: Duration) {
        self.first.note(first);
        self.second.note(second);
    }

    /// Prints both, in nanoseconds.
    pub fn tell(self, rt: &impl Print) -> io::Result<()> {
        let (first, second) = (self.first.nanoseconds(), self.second.nanoseconds());
        println!(rt; "{first} {second}")
    }
}
