//! The line in which a verdict is printed.
ghost use Rattle.std.specs.Prelude.{◌≡◌, ◌++◌, codes, decimal, IfOk, OnOk};
ghost use Rattle.store_map.specs.CallNames.{call_text};
ghost use Rattle.transcript_text.specs.Lines.{o_line, l_line, t_line};
ghost use Rattle.hist_check.specs.VerdictText.{without_end, object_text, verdict_line};
ghost use Rattle.hist_rules.specs.declared.verdict.Verdict.TheVariants.{Differs, Unlisted, BadObject, BadSums};

use hist_rules::Verdict;
use std::alloc::{AllocError, Global};
use store_map::{CallName, LLine, Reply, Shown, TLine};
use transcript_text::{append, append_reply, append_shown};

// Appends the line of a call without a reply, without its line feed.
#[tactic(auto, using(crate::proofs::Tails::call_tail))]
fn append_call(out: &mut Vec<u8>, call: CallName) -> Result<(), AllocError>
    ensures { OnOk result (out.new.items ≡ out.old.items ++ without_end (o_line (record { call = call }))) }
{
    append(out, format_args!("O {call}"))
}

// Appends an object's line, without its line feed.
fn append_object(out: &mut Vec<u8>, line: &LLine) -> Result<(), AllocError>
    ensures { OnOk result (out.new.items ≡ out.old.items ++ without_end (l_line line.now)) }
{
    append(out, "L ")?;
    out.extend_from_slice(line.name.as_bytes())?;
    append(out, format_args!(" {}", line.length))
}

// The same, or `-` where there is none.
fn append_listed(out: &mut Vec<u8>, line: &Option<LLine>) -> Result<(), AllocError>
    ensures { OnOk result (out.new.items ≡ out.old.items ++ object_text line.now) }
{
    match line {
        Some(line) => append_object(out, line),
        None => append(out, "-"),
    }
}

// Appends the verdict on other objects.
fn append_objects(
    out: &mut Vec<u8>,
    expected: &Option<LLine>,
    got: &Option<LLine>,
) -> Result<(), AllocError>
    ensures { OnOk result (out.new.items ≡ out.old.items ++ verdict_line (BadObject expected.now got.now)) }
{
    append(out, "tail list expected ")?;
    append_listed(out, expected)?;
    append(out, " got ")?;
    append_listed(out, got)?;
    append(out, "\n")
}

// Appends a server's line, without its line feed.
fn append_server(out: &mut Vec<u8>, line: &TLine) -> Result<(), AllocError>
    ensures { OnOk result (out.new.items ≡ out.old.items ++ without_end (t_line line.now)) }
{
    append(
        out,
        format_args!(
            "T {} {} {} {}",
            line.server, line.taken, line.held, line.epoch
        ),
    )
}

// The same with other sums than the line's own.
fn append_sums(out: &mut Vec<u8>, line: &TLine, taken: u128, epoch: u64) -> Result<(), AllocError>
    ensures { OnOk result (out.new.items ≡ out.old.items ++ without_end (t_line (record line.now { taken = taken; epoch = epoch }))) }
{
    append(
        out,
        format_args!("T {} {taken} {} {epoch}", line.server, line.held),
    )
}

// Appends the verdict on a reply that isn't the plain map's.
fn append_replies(
    out: &mut Vec<u8>,
    call: CallName,
    expected: &Reply,
    got: &Shown,
) -> Result<(), AllocError>
    ensures { OnOk result (out.new.items ≡ out.old.items ++ verdict_line (Differs call expected.now got.now)) }
{
    append(out, format_args!("differs {call} expected "))?;
    append_reply(out, expected)?;
    append(out, " got ")?;
    append_shown(out, got)?;
    append(out, "\n")
}

// Appends a word, a call and the two numbers that don't fit.
fn append_numbers(
    out: &mut Vec<u8>,
    word: &str,
    call: CallName,
    first: u64,
    second: u64,
) -> Result<(), AllocError>
    ensures { OnOk result (out.new.items ≡ out.old.items ++ (word.now ++ (codes " " ++ (call_text call
        ++ (codes " " ++ (decimal first ++ (codes " " ++ (decimal second ++ codes "\n")))))))) }
{
    append(out, format_args!("{word} {call} {first} {second}\n"))
}

// Appends the verdict on a call without a line.
fn append_unlisted(out: &mut Vec<u8>, call: CallName) -> Result<(), AllocError>
    ensures { OnOk result (out.new.items ≡ out.old.items ++ verdict_line (Unlisted call)) }
{
    append(out, "tail open expected ")?;
    append_call(out, call)?;
    append(out, " got -\n")
}

// Appends the verdict on a server whose line doesn't add up.
fn append_wrong_sums(
    out: &mut Vec<u8>,
    taken: u128,
    epoch: u64,
    got: &TLine,
) -> Result<(), AllocError>
    ensures { OnOk result (out.new.items ≡ out.old.items ++ verdict_line (BadSums taken epoch got.now)) }
{
    append(out, "tail taken expected ")?;
    append_sums(out, got, taken, epoch)?;
    append(out, " got ")?;
    append_server(out, got)?;
    append(out, "\n")
}

// Appends the verdict's line.
fn append_verdict(out: &mut Vec<u8>, verdict: &Verdict) -> Result<(), AllocError>
    ensures { OnOk result (out.new.items ≡ out.old.items ++ verdict_line verdict.now) }
{
    match verdict {
        Verdict::Legal => append(out, "legal\n"),
        Verdict::Differs {
            call,
            expected,
            got,
        } => append_replies(out, *call, expected, got),
        Verdict::Misplaced {
            call,
            first,
            second,
        } => append_numbers(out, "misplaced", *call, *first, *second),
        Verdict::BadCause {
            call,
            first,
            second,
        } => append_numbers(out, "cause", *call, *first, *second),
        Verdict::Unlisted { call } => append_unlisted(out, *call),
        Verdict::BadObject { expected, got } => append_objects(out, expected, got),
        Verdict::BadSums { taken, epoch, got } => append_wrong_sums(out, *taken, *epoch, got),
    }
}

/// The line in which the verdict is printed, with its line feed.
pub fn verdict_line(alloc: Global, verdict: &Verdict) -> Result<Vec<u8>, AllocError>
    ensures { IfOk result (λ bytes. bytes.items ≡ verdict_line verdict.now) }
{
    let mut out = Vec::new(alloc);
    append_verdict(&mut out, verdict)?;
    Ok(out)
}
