//! A whole run.
ghost use Rattle.std.specs.Prelude.{IfOk};
ghost use Rattle.store_map.specs.Naming.{IsValid};
ghost use Rattle.store_world.specs.Traced.{IsTracedRun};

use call_steps::Step;
use clay_model::Coder;
use std::alloc::{AllocError, Global};
use std::thread::Threads;
use store_map::{Script, Transcript};

/// A run's steps, in their order, and its transcript.
#[derive(Drop)]
pub struct TracedRun {
    pub steps: Vec<Step>,
    pub transcript: Transcript,
}

/// The steps and the transcript of a run of the script, as `play` makes it. An error is want of memory before the first step, after
/// the last one, or for the list of the steps; in between, a step that wants memory is a step of the run.
pub fn trace<R: Threads + Sync, C: Coder>(
    rt: &R,
    alloc: Global,
    coder: &C,
    script: Script,
) -> Result<TracedRun, AllocError>
    requires { IsValid script }
    ensures { IfOk result (λ run. IsTracedRun script run.steps.items run.transcript) }
{
    let mut steps = Vec::new(alloc);
    let transcript = store_world::run(rt, alloc, coder, script, &mut steps)?;
    Ok(TracedRun { steps, transcript })
}
