//! The commands `run` and `trial`, whose scripts are run by threads.
ghost use Rattle.std.specs.Prelude.{◌≡◌, ◌≤◌, IfOk};
ghost use Rattle.store_map.specs.Naming.{IsValid};
ghost use Rattle.store_run.specs.Swept.{IsRunToEnd};
ghost use Rattle.clay_cli.specs.Play.{IsTextOf};
ghost use Rattle.clay_cli.specs.Top.{IsAnswer, IsOfInput};
ghost use Rattle.clay_cli.specs.Trial.{IsTried, trial_lines};
ghost use Rattle.clay_words.specs.Words.{IsWorkerCount};
ghost use Rattle.clay_words.specs.declared.numbers_of_words.Task.TheVariants.{Run};

use crate::Status;
use crate::output::Output;
use crate::play::refusal;
use clay_gen::generate;
use clay_model::Coder;
use script_text::read_script;
use std::alloc::{AllocError, Global};
use std::sync::Wait;
use std::thread::Threads;
use store_map::Script;
use store_run::{Gate, run};
use transcript_text::write_transcript;

// The transcript of a run of a script.
fn transcript<R: Threads + Wait + Sync, C: Coder + Sync, G: Gate + Sync>(
    rt: &R,
    alloc: Global,
    script: Script,
    workers: u32,
    coder: &C,
    gate: &G,
) -> Result<Output, AllocError>
    requires valid { IsValid script }
    requires workers { IsWorkerCount workers }
    ensures status { IfOk result (λ output. output.status ≡ Status.Done) }
    ensures text { IfOk result (λ output. IsTextOf IsRunToEnd script output.bytes.items) }
{
    let transcript = run(rt, alloc, script, workers as usize, coder, gate)?;
    let bytes = write_transcript(alloc, &transcript)?;
    Ok(Output {
        status: Status::Done,
        bytes,
    })
}

/// The transcript of a run by so many threads of the script that the input spells, or a line that says why there is none.
pub fn run_by_threads<R: Threads + Wait + Sync, C: Coder + Sync, G: Gate + Sync>(
    rt: &R,
    alloc: Global,
    input: &[u8],
    workers: u32,
    coder: &C,
    gate: &G,
) -> Result<Output, AllocError>
    requires workers { IsWorkerCount workers }
    ensures status { IfOk result (λ output. IsOfInput output.status) }
    ensures answers { IfOk result (λ output. IsAnswer (Run workers) input.now output) }
{
    match read_script(alloc, input) {
        Ok(script) => transcript(rt, alloc, script, workers, coder, gate),
        Err(fault) => refusal(alloc, fault),
    }
}

// The lines of a trial of a script of this size.
fn trial_lines(alloc: Global, size: u32) -> Result<Vec<u8>, AllocError>
    requires { size ≤ 4096 }
    ensures { IfOk result (λ text. text.items ≡ trial_lines size) }
{
    let lines = format!(in alloc; "calls {}\nrebuilds {}\nlegal\n", 4 * size, size / 4)?;
    Vec::from_slice(alloc, lines.as_bytes())
}

/// Runs the script that a number gives by so many threads, and says how many calls and rebuilds it has. The transcript of each such
/// run is legal, as the contract says.
pub fn trial<R: Threads + Wait + Sync, C: Coder + Sync, G: Gate + Sync>(
    rt: &R,
    alloc: Global,
    start: u64,
    size: u32,
    workers: u32,
    coder: &C,
    gate: &G,
) -> Result<Vec<u8>, AllocError>
    requires size { size ≤ 4096 }
    requires workers { IsWorkerCount workers }
    ensures { IfOk result (λ text. IsTried start size text.items) }
{
    let script = generate(alloc, start, size)?;
    let _transcript = run(rt, alloc, script, workers as usize, coder, gate)?;
    trial_lines(alloc, size)
}
