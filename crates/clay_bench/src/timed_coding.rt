//! How long a task takes in one thread, and in as many as there are processors.

ghost use Rattle.clay_bench.specs.Tasks.{Takes};

use crate::bench_words::setting;
use crate::least::BothLeast;
use crate::task::{BYTE, Task, is_possible, pieces_of};
use anyhow::bail;
use clay_grid::Geometry;
use clay_lanes::LaneCoder;
use clay_model::Coder;
use clay_par::ParCoder;
use std::alloc::{AllocError, Global};
use std::io;
use std::thread::Threads;
use std::time::{Clock, Duration};

const MIB: u32 = 1 << 20;

/// How many stripes are a MiB together: one, where it has more.
pub fn stripes_of(g: Geometry) -> u32 {
    MIB.checked_div(g.stripe_len()).unwrap_or(1).max(1)
}

// Does the task once.
fn run<C: Coder, R: Threads + Sync>(
    rt: &R,
    alloc: Global,
    coder: &C,
    task: Task,
    g: Geometry,
    stripe: &[u8],
    pieces: &[Option<Vec<u8>>],
) -> Result<(), AllocError>
    requires { Takes task g stripe.now pieces.now }
{
    match task {
        Task::Encode => {
            let _ = coder.encode(rt, alloc, g, stripe)?;
        }
        Task::Recover(_) => {
            let _ = coder.recover(rt, alloc, g, pieces)?;
        }
        Task::Rebuild => {
            let _ = coder.rebuild(rt, alloc, g, 0, pieces)?;
        }
    }
    Ok(())
}

// How long the task takes of a MiB.
fn timed<C: Coder, R: Threads + Sync + Clock>(
    rt: &R,
    alloc: Global,
    coder: &C,
    task: Task,
    g: Geometry,
    stripe: &[u8],
    pieces: &[Option<Vec<u8>>],
) -> io::Result<Duration>
    requires { Takes task g stripe.now pieces.now }
{
    let begun = rt.monotonic()?;
    for _time in 0..stripes_of(g) {
        run(rt, alloc, coder, task, g, stripe, pieces)?;
    }
    Ok(rt.monotonic()?.saturating_sub(begun))
}

// The least times of the rounds, one of each kind in turn.
fn time_rounds<R: Threads + Sync + Clock>(
    rt: &R,
    alloc: Global,
    task: Task,
    g: Geometry,
    stripe: &[u8],
    pieces: &[Option<Vec<u8>>],
    rounds: u32,
) -> io::Result<BothLeast>
    requires { Takes task g stripe.now pieces.now }
{
    let mut least = BothLeast::new();
    for _round in 0..rounds {
        let one = timed(rt, alloc, &LaneCoder, task, g, stripe, pieces)?;
        least.note(one, timed(rt, alloc, &ParCoder, task, g, stripe, pieces)?);
    }
    Ok(least)
}

// The same with a stripe and pieces of its own, or none where too many chunks are missing.
fn time_stripe<R: Threads + Sync + Clock>(
    rt: &R,
    alloc: Global,
    task: Task,
    g: Geometry,
    rounds: u32,
) -> io::Result<Option<BothLeast>> {
    let stripe = vec![in alloc; BYTE; g.stripe_len() as usize]?;
    let pieces = pieces_of(alloc, g, task)?;
    if !is_possible(g, task, &stripe, &pieces) {
        return Ok(None);
    }
    Ok(Some(time_rounds(rt, alloc, task, g, &stripe, &pieces, rounds)?))
}

/// A task with a name, of stripes of a MiB together or of one that has more.
pub fn time_task<R: Threads + Sync + Clock + Print>(
    rt: &R,
    alloc: Global,
    name: &str,
    words: &[String],
) -> anyhow::Result<()> {
    let Some(task) = Task::named(name) else {
        bail!("there is no such measure");
    };
    let (g, rounds) = setting(words)?;
    let Some(least) = time_stripe(rt, alloc, task, g, rounds)? else {
        bail!("too many chunks are missing");
    };
    least.tell(rt)?;
    Ok(())
}
