//! A gate that counts steps, and may hold two clients inside the locks of two servers until both are there. It is one type, since the
//! whole program is built anew for each kind of gate.
use clay_cli::{Gate, Place};
use std::sync::atomic::{AtomicBool, AtomicU64, Ordering};
use std::thread;
use store_map::Actor;

// How often a client that is held looks for the other one before the gate gives up.
const TURNS: u32 = 10_000_000;

/// Counts the steps that it is told of. Where it holds, it is for two clients that each put one stripe. The one that comes to server 0
/// first passes there, and is held at server 1 until the other one is held; the other one is held at server 0 until the first one is.
/// Where no two steps are made at once, neither finds the other, and the gate gives up.
#[derive(Drop)]
pub struct MeetingGate {
    holds: bool,
    passes: AtomicU64,
    // one more than the number of the client that came first, or 0
    first: AtomicU64,
    // whether the first client is, or was, held at server 1
    holds_first: AtomicBool,
    // whether the other one is, or was, held at server 0
    holds_other: AtomicBool,
    gave_up: AtomicBool,
}

impl MeetingGate {
    // Holds nobody yet.
    fn new(holds: bool) -> Self {
        MeetingGate {
            holds,
            passes: AtomicU64::new(0),
            first: AtomicU64::new(0),
            holds_first: AtomicBool::new(false),
            holds_other: AtomicBool::new(false),
            gave_up: AtomicBool::new(false),
        }
    }

    /// Holds two clients.
    pub fn holding() -> Self {
        MeetingGate::new(true)
    }

    /// Holds nobody at all.
    pub fn counting() -> Self {
        MeetingGate::new(false)
    }

    /// How many steps it was told of.
    pub fn passes(&self) -> u64 {
        self.passes.load(Ordering::SeqCst)
    }

    /// Whether both clients were held.
    pub fn has_held_both(&self) -> bool {
        self.holds_first.load(Ordering::SeqCst) && self.holds_other.load(Ordering::SeqCst)
    }

    /// Whether a client that was held didn't find the other one.
    pub fn has_given_up(&self) -> bool {
        self.gave_up.load(Ordering::SeqCst)
    }

    // Whether the client came first. It does, where none did before.
    fn comes_first(&self, client: u32) -> bool {
        let name = u64::from(client) + 1;
        let first = &self.first;
        match first.compare_exchange(0, name, Ordering::SeqCst, Ordering::SeqCst) {
            Ok(_) => true,
            Err(found) => found == name,
        }
    }

    // Notes that a client is held, and holds it until the other one is.
    fn hold(&self, this: &AtomicBool, other: &AtomicBool) {
        this.store(true, Ordering::SeqCst);
        for _turn in 0..TURNS {
            if other.load(Ordering::SeqCst) {
                return;
            }
            thread::yield_now();
        }
        self.gave_up.store(true, Ordering::SeqCst);
    }
}

impl Gate for MeetingGate {
    // A put looks, draws, and then prepares a chunk at each server.
    fn pass(&self, actor: Actor, step: u64, place: Place) {
        self.passes.fetch_add(1, Ordering::SeqCst);
        let Actor::Client(client) = actor else {
            return;
        };
        if !self.holds {
            return;
        }
        if step == 2 && place == Place::Server(0) && !self.comes_first(client) {
            self.hold(&self.holds_other, &self.holds_first);
        }
        if step == 3 && place == Place::Server(1) && self.comes_first(client) {
            self.hold(&self.holds_first, &self.holds_other);
        }
    }
}
