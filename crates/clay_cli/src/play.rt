//! The command `play`, and the line that refuses an input by its first faulty line.
ghost use Rattle.std.specs.Prelude.{◌≡◌, ◌≢◌, IfOk};
ghost use Rattle.store_map.specs.Naming.{IsValid};
ghost use Rattle.history_laws.specs.Played.{IsPlayed};
ghost use Rattle.clay_cli.specs.Play.{IsTextOf, kind_text, refusal_line};
ghost use Rattle.clay_cli.specs.Top.{IsAnswer, IsOfInput};
ghost use Rattle.clay_words.specs.declared.numbers_of_words.Task.TheVariants.{Play};

use crate::Status;
use crate::output::Output;
use clay_model::Coder;
use line_grammar::FaultKind;
use script_text::{ScriptFault, read_script};
use std::alloc::{AllocError, Global};
use std::thread::Threads;
use store_map::Script;
use transcript_text::write_transcript;

// What is wrong with a line, in words.
fn kind_text(kind: FaultKind) -> &'static str
    ensures { result.now ≡ kind_text kind }
{
    match kind {
        FaultKind::Syntax => "syntax",
        FaultKind::Geometry => "geometry",
        FaultKind::Limit => "limit",
        FaultKind::NoSuchActor => "no such actor",
        FaultKind::NoSuchServer => "no such server",
        FaultKind::MissingEnd => "missing end",
        FaultKind::OutOfMemory => "out of memory",
    }
}

/// The line that names the first fault.
pub fn refusal(alloc: Global, fault: ScriptFault) -> Result<Output, AllocError>
    ensures status { IfOk result (λ output. output.status ≡ Status.ScriptRefused) }
    ensures line { IfOk result (λ output. output.bytes.items ≡ refusal_line fault.line (kind_text fault.kind)) }
    ensures memory { IfOk result (λ output. fault.kind ≢ FaultKind.OutOfMemory) }
{
    if fault.kind == FaultKind::OutOfMemory {
        return Err(AllocError);
    }
    let line = format!(in alloc; "refused line {} {}\n", fault.line, kind_text(fault.kind))?;
    Output::line(alloc, Status::ScriptRefused, line.as_bytes())
}

// The transcript of a script.
fn transcript<R: Threads + Sync, C: Coder>(
    rt: &R,
    alloc: Global,
    coder: &C,
    script: Script,
) -> Result<Output, AllocError>
    requires { IsValid script }
    ensures status { IfOk result (λ output. output.status ≡ Status.Done) }
    ensures text { IfOk result (λ output. IsTextOf IsPlayed script output.bytes.items) }
{
    let transcript = store_world::play(rt, alloc, coder, script)?;
    let bytes = write_transcript(alloc, &transcript)?;
    Ok(Output {
        status: Status::Done,
        bytes,
    })
}

/// The transcript of a run of the script that the input spells, or a line that says why there is none.
pub fn play<R: Threads + Sync, C: Coder>(
    rt: &R,
    alloc: Global,
    coder: &C,
    input: &[u8],
) -> Result<Output, AllocError>
    ensures status { IfOk result (λ output. IsOfInput output.status) }
    ensures answers { IfOk result (λ output. IsAnswer Play input.now output) }
{
    match read_script(alloc, input) {
        Ok(script) => transcript(rt, alloc, coder, script),
        Err(fault) => refusal(alloc, fault),
    }
}
