//! The program: from a source to a sink.
ghost use Rattle.std.specs.Prelude.{◌≡◌, ◌≤◌, ◌++◌, ◌⊎◌, ℕ, List, [], IfOk, IfErr, IsErrOf, length};
ghost use Rattle.store_map.specs.Naming.{IsValid};
ghost use Rattle.clay_bytes.specs.Stream.{Rises, HandsOutAll, HandsOutJust, HandsOutAtMost, Accepts, AcceptsPrefix};
ghost use Rattle.transcript_text.specs.Text.{text_of};
ghost use Rattle.clay_cli.specs.Top.{IsSilent};
ghost use Rattle.trace_lines.specs.Lines.{lines_of};
ghost use Rattle.trace_run.specs.Top.{IsAnswer, IsOfInput, IsTextOf, Owes};

use crate::traced_run::{TracedRun, trace};
use clay_bytes::{Sink, Source};
use clay_cli::{Output, Status, read_input, refusal, write_out};
use clay_model::Coder;
use script_text::read_script;
use std::alloc::{AllocError, Global};
use std::thread::Threads;
use store_map::Script;
use trace_lines::append_steps;
use transcript_text::write_transcript;

// The lines of a run's steps and its transcript's text.
fn text(alloc: Global, run: &TracedRun) -> Result<Vec<u8>, AllocError>
    ensures { IfOk result (λ text. text.items ≡ lines_of run.now.steps.items ++ text_of run.now.transcript) }
{
    let mut text = Vec::new(alloc);
    append_steps(&mut text, &run.steps)?;
    let transcript = write_transcript(alloc, &run.transcript)?;
    text.extend_from_slice(&transcript)?;
    Ok(text)
}

// The output for a script.
fn traced<R: Threads + Sync, C: Coder>(
    rt: &R,
    alloc: Global,
    coder: &C,
    script: Script,
) -> Result<Output, AllocError>
    requires { IsValid script }
    ensures status { IfOk result (λ output. output.status ≡ Status.Done) }
    ensures text { IfOk result (λ output. IsTextOf script output.bytes.items) }
{
    let run = trace(rt, alloc, coder, script)?;
    let bytes = text(alloc, &run)?;
    Ok(Output {
        status: Status::Done,
        bytes,
    })
}

// The output for an input: the text of a run of the script that it spells, or a line that says why there is none.
fn spelled<R: Threads + Sync, C: Coder>(
    rt: &R,
    alloc: Global,
    coder: &C,
    input: &[u8],
) -> Result<Output, AllocError>
    ensures status { IfOk result (λ output. IsOfInput output.status) }
    ensures answers { IfOk result (λ output. IsAnswer input.now output) }
{
    match read_script(alloc, input) {
        Ok(script) => traced(rt, alloc, coder, script),
        Err(fault) => refusal(alloc, fault),
    }
}

// The same, with a status where memory was wanting.
fn output_of<R: Threads + Sync, C: Coder>(
    rt: &R,
    alloc: Global,
    coder: &C,
    input: Vec<u8>,
) -> Result<Output, Status>
    ensures status { IfOk result (λ output. IsOfInput output.status) }
    ensures answers { IfOk result (λ output. IsAnswer input.items output) }
    ensures memory { IfErr result (λ status. status ≡ Status.OutOfMemory) }
{
    let made = spelled(rt, alloc, coder, &input);
    made.map_err(|_| Status::OutOfMemory)
}

// Reads the whole input and makes its output.
fn answer<R: Threads + Sync, S: Source, C: Coder>(
    rt: &R,
    alloc: Global,
    source: &mut S,
    coder: &C,
) -> Result<Output, Status>
    ensures status { IfOk result (λ output. IsOfInput output.status) }
    ensures answers { IfOk result (λ output. (input : List ℕ)
        × HandsOutAll (S.given source.old) (S.left source.old) input (S.given source.new) (S.ended source.new) (S.left source.new)
        × (length input ≤ 167772160) × IsAnswer input output) }
    ensures cut { IfErr result (λ status. status ≡ Status.InputTooLong → HandsOutJust (S.given source.old) (S.left source.old) 167772161 (S.given source.new) (S.left source.new)) }
    ensures most { (IsErrOf result Status.InputTooLong → ⊥) → HandsOutAtMost (S.given source.old) (S.left source.old) 167772160 (S.given source.new) (S.left source.new) }
    ensures silent { IfErr result IsSilent }
    ensures read_steady { (IsErrOf result Status.ReadFault → ⊥) → S.faults source.new ≡ S.faults source.old }
    ensures read_fault { IfErr result (λ status. status ≡ Status.ReadFault → Rises (S.faults source.old) (S.faults source.new)) }
{
    let input = read_input(alloc, source)?;
    output_of(rt, alloc, coder, input)
}

/// Reads a script, writes the steps of a run of it and the run's transcript, and says how that ended.
///
/// An output is made whole before its first byte is written.
pub fn trace_main<R: Threads + Sync, S: Source, K: Sink, C: Coder>(
    rt: &R,
    alloc: Global,
    source: &mut S,
    sink: &mut K,
    coder: &C,
) -> Status
    // What the source handed out in this call and what the sink took in it are known of each source and sink, by their own answers.
    // With a status of an output: the source handed out an input and told its end, and the sink took the output that is owed for the
    // whole of it. Where a write fails it took a prefix of one; else nothing.
    ensures output { IsOfInput result → (input : List ℕ) × (output : List ℕ)
        × HandsOutAll (S.given source.old) (S.left source.old) input (S.given source.new) (S.ended source.new) (S.left source.new)
        × (length input ≤ 167772160) × Owes input result output
        × Accepts (K.accepted sink.old) (K.written sink.old) output (K.accepted sink.new) (K.written sink.new) }
    ensures prefix { result ≡ Status.WriteFault → (input : List ℕ) × (status : Status) × (output : List ℕ)
        × HandsOutAll (S.given source.old) (S.left source.old) input (S.given source.new) (S.ended source.new) (S.left source.new)
        × (length input ≤ 167772160) × Owes input status output
        × AcceptsPrefix (K.accepted sink.old) (K.written sink.old) output (K.accepted sink.new) (K.written sink.new) }
    ensures silent { IsSilent result → Accepts (K.accepted sink.old) (K.written sink.old) [] (K.accepted sink.new) (K.written sink.new) }
    ensures which { IsOfInput result ⊎ (result ≡ Status.WriteFault) ⊎ IsSilent result }

    // No more than the limit is handed out, or one byte past it.
    ensures cut { result ≡ Status.InputTooLong → HandsOutJust (S.given source.old) (S.left source.old) 167772161 (S.given source.new) (S.left source.new) }
    ensures most { (result ≡ Status.InputTooLong → ⊥) → HandsOutAtMost (S.given source.old) (S.left source.old) 167772160 (S.given source.new) (S.left source.new) }

    // A read or a write is blamed only where its count of faults rose; else that count is as it was.
    ensures read_fault { result ≡ Status.ReadFault → Rises (S.faults source.old) (S.faults source.new) }
    ensures write_fault { result ≡ Status.WriteFault → Rises (K.faults sink.old) (K.faults sink.new) }
    ensures read_steady { (result ≡ Status.ReadFault → ⊥) → S.faults source.new ≡ S.faults source.old }
    ensures write_steady { (result ≡ Status.WriteFault → ⊥) → K.faults sink.new ≡ K.faults sink.old }

    // Where no count rose, the input gets its output or is too long, if memory suffices.
    ensures complete { (Rises (S.faults source.old) (S.faults source.new) → ⊥) → (Rises (K.faults sink.old) (K.faults sink.new) → ⊥) →
        IsOfInput result ⊎ (result ≡ Status.InputTooLong) ⊎ (result ≡ Status.OutOfMemory) }
{
    match answer(rt, alloc, source, coder) {
        Ok(output) => write_out(sink, &output.bytes, output.status),
        Err(status) => status,
    }
}
