//! The command `verify`.
ghost use Rattle.std.specs.Prelude.{◌≡◌, ◌≢◌, ◌⊎◌, ◌≤◌, ◌+◌, length, take, drop, IfOk};
ghost use Rattle.hist_rules.specs.Named.{HasFewLines};
ghost use Rattle.hist_rules.specs.Verdict.{verdict_of};
ghost use Rattle.hist_check.specs.VerdictText.{verdict_line};
ghost use Rattle.clay_cli.specs.Top.{IsAnswer, IsOfInput};
ghost use Rattle.clay_cli.specs.Verify.{line_count};
ghost use Rattle.clay_words.specs.declared.numbers_of_words.Task.TheVariants.{Verify};

use crate::Status;
use crate::output::Output;
use crate::play::refusal;
use hist_check::{check, verdict_line};
use hist_rules::Verdict;
use line_grammar::FaultKind;
use script_text::{ScriptFault, read_front};
use std::alloc::{AllocError, Global};
use store_map::{Script, Transcript};
use transcript_read::{TextRest, take_transcript};

// The number of whole lines.
fn line_count(text: &[u8]) -> usize
    ensures count { result ≡ line_count text.now }
    ensures few { result ≤ length text.now }
{
    text.iter().filter(|byte| **byte == b'\n').count()
}

// The number of lines before a place, and what is left behind it. Those lines may be let go.
fn part_at(input: Vec<u8>, place: usize) -> (u32, TextRest)
    requires place { place ≤ length input.items }
    requires few { length input.items ≤ 167772160 }
    ensures lines { result.0 ≡ line_count (take place input.items) }
    ensures few { result.0 ≤ 167772160 }
    ensures rest { result.1 ≡ drop place input.items }
{
    let lines = line_count(&input[..place]) as u32;
    let mut rest = TextRest::new(input);
    rest.skip(place);
    (lines, rest)
}

// The fault, with its line counted from the top of so many lines before it. Want of memory has no line.
fn behind(lines: u32, fault: ScriptFault) -> ScriptFault
    requires lines { lines ≤ 167772160 }
    requires line { fault.line ≤ 167772161 }
    ensures kind { result.kind ≡ fault.kind }
    ensures line { fault.kind ≢ FaultKind.OutOfMemory → result.line ≡ lines + fault.line }
{
    ScriptFault {
        line: lines + fault.line,
        kind: fault.kind,
    }
}

// The line that a script's transcript gets.
fn judge(alloc: Global, script: &Script, transcript: &Transcript) -> Result<Output, AllocError>
    requires few { HasFewLines transcript.now }
    ensures line { IfOk result (λ output. output.bytes.items ≡ verdict_line (verdict_of script.now transcript.now)) }
    ensures legal { IfOk result (λ output. output.status ≡ Status.Done → verdict_of script.now transcript.now ≡ Verdict.Legal) }
    ensures broken { IfOk result (λ output. output.status ≡ Status.NotLegal → verdict_of script.now transcript.now ≢ Verdict.Legal) }
    ensures which { IfOk result (λ output. (output.status ≡ Status.Done) ⊎ (output.status ≡ Status.NotLegal)) }
{
    let verdict = check(alloc, script, transcript)?;
    let status = match verdict {
        Verdict::Legal => Status::Done,
        _ => Status::NotLegal,
    };
    let bytes = verdict_line(alloc, &verdict)?;
    Ok(Output { status, bytes })
}

/// The verdict on the script and the transcript that the input spells, or a line that says why there is none. The input is let go
/// while it is read, so that it takes little memory beside what is made of it.
pub fn verify(alloc: Global, input: Vec<u8>) -> Result<Output, AllocError>
    requires { length input.items ≤ 167772160 }
    ensures status { IfOk result (λ output. IsOfInput output.status) }
    ensures answers { IfOk result (λ output. IsAnswer Verify input.items output) }
{
    let (script, length) = match read_front(alloc, &input) {
        Ok(front) => front,
        Err(fault) => return refusal(alloc, fault),
    };
    let (lines, rest) = part_at(input, length);
    match take_transcript(alloc, rest, script.geometry.n()) {
        Ok(transcript) => judge(alloc, &script, &transcript),
        Err(fault) => refusal(alloc, behind(lines, fault)),
    }
}
