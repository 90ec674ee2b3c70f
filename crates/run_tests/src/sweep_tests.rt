//! Whether the sweeper sweeps while clients have steps.
use crate::gates::TestGate;
use crate::runs::{run_through, unfolded};
use std::sync::Wait;
use std::sync::atomic::{AtomicBool, AtomicU64, Ordering};
use std::test::Fail;
use std::thread;
use std::thread::Threads;
use store_map::Actor;

// In so many threads each script is run.
const WORKERS: [usize; 5] = [1, 2, 3, 4, 16];

// How often a client that is held looks for the sweeper before the gate gives up.
const TURNS: u32 = 10_000_000;

// How many steps of the sweeper it is held for: more than client 0 makes.
const HELD_FOR: u64 = 64;

/// Counts the steps of client 0 and of the sweeper. Where it holds, it holds client 1 inside the lock of server 0 until the sweeper
/// has made many steps.
#[derive(Drop)]
pub struct SweepGate {
    holds: bool,
    firsts: AtomicU64,
    sweeps: AtomicU64,
    gave_up: AtomicBool,
}

impl SweepGate {
    fn new(holds: bool) -> Self {
        SweepGate {
            holds,
            firsts: AtomicU64::new(0),
            sweeps: AtomicU64::new(0),
            gave_up: AtomicBool::new(false),
        }
    }

    fn hold(&self) {
        for _turn in 0..TURNS {
            if self.sweeps.load(Ordering::SeqCst) >= HELD_FOR {
                return;
            }
            thread::yield_now();
        }
        self.gave_up.store(true, Ordering::SeqCst);
    }

    /// An actor makes a step. A put looks, draws, and then prepares a chunk at server 0.
    pub fn pass(&self, actor: Actor, step: u64) {
        match actor {
            Actor::Client(0) => {
                self.firsts.fetch_add(1, Ordering::SeqCst);
            }
            Actor::Client(1) if self.holds && step == 2 => self.hold(),
            Actor::Sweeper => {
                self.sweeps.fetch_add(1, Ordering::SeqCst);
            }
            _ => {}
        }
    }
}

// Eight puts of one object, by each of two clients.
const PUTS: &[u8] = b"\
1>clay 1
code 2 2 1
client
|8>put a hex:0100000000000000
|1>client
|8>put a hex:0100000000000000
|1>schedule
drain
end
";

// The sweeper is with client 0, so it makes a step in each round in which that one makes one.
fn sweeps_beside<R: Threads + Wait + Sync + AllocGlobal>(
    rt: &R,
    script: &[u8],
    workers: usize,
) -> Result<(), Fail> {
    let gate = SweepGate::new(false);
    run_through(rt, script, workers, &TestGate::Sweeps(&gate))?;
    let firsts = gate.firsts.load(Ordering::SeqCst);
    let sweeps = gate.sweeps.load(Ordering::SeqCst);
    if firsts < 8 || sweeps < firsts {
        return Err(Fail::new(format_args!("{workers} workers: {sweeps} steps beside {firsts}")));
    }
    Ok(())
}

#[test]
fn the_sweeper_steps_beside_a_client(rt: HostRuntime) -> Result<(), Fail> {
    let script = unfolded(rt.alloc(), PUTS)?;
    for workers in WORKERS {
        sweeps_beside(&rt, &script, workers)?;
    }
    Ok(())
}

// While client 1 is held nobody needs a server: client 0 asks the directory alone, and there is no garbage.
const STAT_AND_PUT: &[u8] = b"\
clay 1
code 2 2 1
client
stat b
stat b
client
put a hex:0100000000000000
schedule
drain
end
";

// Client 0 is soon at its end. That the sweeper goes on, and that two clients are in threads of their own, lets client 1
// go on.
fn sweeps_on<R: Threads + Wait + Sync + AllocGlobal>(rt: &R, workers: usize) -> Result<(), Fail> {
    let gate = SweepGate::new(true);
    run_through(rt, STAT_AND_PUT, workers, &TestGate::Sweeps(&gate))?;
    if gate.gave_up.load(Ordering::SeqCst) {
        return Err(Fail::new(format_args!("{workers} workers: the sweeper ended before client 1")));
    }
    Ok(())
}

#[test]
fn the_sweeper_goes_on_while_another_worker_has_a_step(rt: HostRuntime) -> Result<(), Fail> {
    for workers in 2..5 {
        sweeps_on(&rt, workers)?;
    }
    sweeps_on(&rt, 16)
}
