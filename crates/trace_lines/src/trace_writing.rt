//! The text of a run's steps.
ghost use Rattle.std.specs.Prelude.{◌≡◌, ◌++◌, OnOk};
ghost use Rattle.trace_lines.specs.Lines.{step_start, step_end, step_line, lines_of};
ghost use Rattle.trace_lines.specs.Words.{caller_text, shortage_text};

use crate::act_words::{append_act, append_caller, append_shortage};
use crate::answer_words::append_answer;
use call_steps::Step;
use std::alloc::AllocError;
use transcript_text::append;

/// Appends the lines of a run's steps.
pub fn append_steps(out: &mut Vec<u8>, steps: &[Step]) -> Result<(), AllocError>
    ensures { OnOk result (out.new.items ≡ out.old.items ++ lines_of steps.now) }
{
    for (number, step) in steps.iter().enumerate() {
        append_step(out, number, step)?;
    }
    Ok(())
}

/// Appends the line of the run's step of this number.
pub fn append_step(out: &mut Vec<u8>, number: usize, step: &Step) -> Result<(), AllocError>
    ensures { OnOk result (out.new.items ≡ out.old.items ++ step_line number step.now) }
{
    append_start(out, number, step)?;
    append_end(out, step)?;
    append(out, "\n")
}

// Appends the step's number, and whose it is.
fn append_start(out: &mut Vec<u8>, number: usize, step: &Step) -> Result<(), AllocError>
    ensures { OnOk result (out.new.items ≡ out.old.items ++ step_start number step.now) }
{
    append(out, format_args!("S {number} "))?;
    append_call(out, step)?;
    append(out, " ")
}

// Appends its actor's call, and whether memory was wanting before it.
fn append_call(out: &mut Vec<u8>, step: &Step) -> Result<(), AllocError>
    ensures { OnOk result (out.new.items ≡ out.old.items ++ caller_text step.now.who step.now.number ++ shortage_text step.now.short) }
{
    append_caller(out, step.who, step.number)?;
    append_shortage(out, step.short)
}

// Appends what it does, and its answer.
fn append_end(out: &mut Vec<u8>, step: &Step) -> Result<(), AllocError>
    ensures { OnOk result (out.new.items ≡ out.old.items ++ step_end step.now) }
{
    append_act(out, step.act)?;
    append(out, " = ")?;
    append_answer(out, step.answer)
}
