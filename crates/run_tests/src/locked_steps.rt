//! Whether a gate is told of each kind of step while the lock of its place is held: nobody else is told of a step at that
//! place meanwhile.
use crate::gates::TestGate;
use crate::runs::{run_through, unfolded};
use std::sync::Wait;
use std::sync::atomic::{AtomicBool, AtomicU64, Ordering};
use std::test::Fail;
use std::thread;
use std::thread::Threads;
use store_map::Actor;
use store_run::Place;

// So many watched steps are held, each for so many looks: the other worker's client comes to each place meanwhile.
const HELD: u64 = 8;

const LOOKS: u32 = 300;

// Each other step is held for so many: a step that is told outside of the lock finds it.
const LOOKS_OF_OTHERS: u32 = 2;

/// Holds the steps of an actor at the directory or at servers, and finds whether two steps are told at one place at once.
/// No step waits for another one, so a run ends in any case.
#[derive(Drop)]
pub struct PlaceGate {
    actor: Actor,
    at_servers: bool,
    // how many watched steps there were
    watched: AtomicU64,
    // how many are told of a step at the directory, and at each server
    at_directory: AtomicU64,
    at_server: [AtomicU64; 4],
    have_met: AtomicBool,
}

impl PlaceGate {
    fn new(actor: Actor, at_servers: bool) -> Self {
        PlaceGate {
            actor,
            at_servers,
            watched: AtomicU64::new(0),
            at_directory: AtomicU64::new(0),
            at_server: [
                AtomicU64::new(0),
                AtomicU64::new(0),
                AtomicU64::new(0),
                AtomicU64::new(0),
            ],
            have_met: AtomicBool::new(false),
        }
    }

    // How many are told of a step at the place.
    fn inside(&self, place: Place) -> Option<&AtomicU64> {
        match place {
            Place::Directory => Some(&self.at_directory),
            Place::Server(server) => self.at_server.get(server as usize),
        }
    }

    // For how many looks the step is held.
    fn looks_at(&self, actor: Actor, place: Place) -> u32 {
        if actor != self.actor || self.at_servers != (place != Place::Directory) {
            return LOOKS_OF_OTHERS;
        }
        if self.watched.fetch_add(1, Ordering::SeqCst) < HELD {
            LOOKS
        } else {
            LOOKS_OF_OTHERS
        }
    }

    // Holds a step for so many looks, or until two have met.
    fn hold(&self, looks: u32) {
        for _look in 0..looks {
            if self.have_met.load(Ordering::SeqCst) {
                return;
            }
            thread::yield_now();
        }
    }

    /// An actor makes a step at a place.
    pub fn pass(&self, actor: Actor, place: Place) {
        let Some(inside) = self.inside(place) else {
            return;
        };
        if inside.fetch_add(1, Ordering::SeqCst) != 0 {
            self.have_met.store(true, Ordering::SeqCst);
        }
        self.hold(self.looks_at(actor, place));
        inside.fetch_sub(1, Ordering::SeqCst);
    }
}

// Two clients put, a repairer finds its chunk or makes it, the sweeper has garbage, and the operator has a line of each kind.
// One worker has client 0, the repairer and the operator, the other one client 1 and the sweeper.
const ALL: &[u8] = b"\
1>clay 2
code 2 2 1
client
|64>put a hex:0100000000000000
|1>client
|64>put b hex:0200000000000000
|1>repairer
|64>rebuild a 0 1
|1>schedule
|4>down 2
reap c 0
up 2
reap r 0
wipe 1
|1>drain
end
";

// Fails where the gate is told of such a step outside of the lock, or where there is none.
fn are_told_inside<R: Threads + Wait + Sync + AllocGlobal>(
    rt: &R,
    script: &[u8],
    name: &str,
    actor: Actor,
    at_servers: bool,
) -> Result<(), Fail> {
    let gate = PlaceGate::new(actor, at_servers);
    run_through(rt, script, 2, &TestGate::Places(&gate))?;
    let watched = gate.watched.load(Ordering::SeqCst);
    if gate.have_met.load(Ordering::SeqCst) || watched < HELD {
        return Err(Fail::new(format_args!("{name}, servers {at_servers}: {watched} steps")));
    }
    Ok(())
}

fn are_told_inside_everywhere<R: Threads + Wait + Sync + AllocGlobal>(
    rt: &R,
    script: &[u8],
    name: &str,
    actor: Actor,
) -> Result<(), Fail> {
    are_told_inside(rt, script, name, actor, false)?;
    are_told_inside(rt, script, name, actor, true)
}

#[test]
fn all_are_told_inside_the_lock(rt: HostRuntime) -> Result<(), Fail> {
    let script = unfolded(rt.alloc(), ALL)?;
    are_told_inside_everywhere(&rt, &script, "client", Actor::Client(0))?;
    are_told_inside_everywhere(&rt, &script, "repairer", Actor::Repairer(0))?;
    are_told_inside_everywhere(&rt, &script, "sweeper", Actor::Sweeper)?;
    are_told_inside_everywhere(&rt, &script, "operator", Actor::Operator)
}
