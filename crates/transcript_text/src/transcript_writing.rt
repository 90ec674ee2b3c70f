//! The text of a transcript.
ghost use Rattle.std.specs.Prelude.{◌≡◌, ◌++◌, IfOk, OnOk, List, ℕ};
ghost use Rattle.std.specs.List.{flat_map};
ghost use Rattle.std.specs.Fmt.{AppendsText};
ghost use Rattle.transcript_text.specs.Words.{contended_text, missing_text, reply_text, shown_text, unavailable_text, cause_text, result_text};
ghost use Rattle.store_map.specs.Triples.{triple_text};
ghost use Rattle.transcript_text.specs.Lines.{h_line, x_line, r_line, o_line, l_line, g_line, t_line};
ghost use Rattle.transcript_text.specs.Text.{text_of};

use crate::digit_pieces::append_digits;
use std::alloc::{AllocError, Global};
use std::fmt::Display;
use std::io::Write;
use store_map::{
    Cause, GLine, HLine, LLine, OLine, RLine, RepairResult, Reply, Shown, TLine, Transcript,
    Triple, XLine,
};

// The room that a line takes beside its digits: mostly more than it needs, so that the text doesn't grow on its way.
const WORDS: usize = 64;

// The room for the digits of a reply.
fn digits_room(shown: &Shown) -> usize {
    match shown {
        Shown::Reply(Reply::Bytes(bytes)) => bytes.len().saturating_mul(2),
        _ => 0,
    }
}

// The room for the lines of a history. Where those behind it take more, the text grows.
fn history_room(lines: &[HLine]) -> usize {
    let mut room = lines.len().saturating_mul(WORDS);
    for line in lines {
        room = room.saturating_add(digits_room(&line.reply));
    }
    room
}

/// A transcript's text. It takes time and memory in proportion to the text, the memory for the history's lines at once.
pub fn write_transcript(alloc: Global, transcript: &Transcript) -> Result<Vec<u8>, AllocError>
    ensures { IfOk result (λ bytes. bytes.items ≡ text_of transcript.now) }
{
    let room = history_room(transcript.history.as_slice());
    let mut out = Vec::with_capacity(alloc, room)?;
    write_lines(&mut out, transcript.history.as_slice())?;
    write_lines(&mut out, transcript.refused.as_slice())?;
    write_lines(&mut out, transcript.repairs.as_slice())?;
    write_lines(&mut out, transcript.unanswered.as_slice())?;
    write_lines(&mut out, transcript.objects.as_slice())?;
    write_lines(&mut out, transcript.takes.as_slice())?;
    write_lines(&mut out, transcript.servers.as_slice())?;
    out.extend_from_slice(b"end\n")?;
    Ok(out)
}

// A line of a transcript.
trait Line {
    ghost text: { Self → List ℕ };

    // Appends the line, with its line feed.
    fn write(&self, out: &mut Vec<u8>) -> Result<(), AllocError>
        ensures { OnOk result (out.new.items ≡ out.old.items ++ text self.now) };
}

fn write_lines<L: Line>(out: &mut Vec<u8>, lines: &[L]) -> Result<(), AllocError>
    ensures { OnOk result (out.new.items ≡ out.old.items ++ flat_map L.text lines.now) }
{
    for line in lines {
        line.write(out)?;
    }
    Ok(())
}

impl Line for HLine {
    ghost text = { h_line };

    fn write(&self, out: &mut Vec<u8>) -> Result<(), AllocError> {
        append(out, format_args!("H {} {} ", self.point, self.call))?;
        append_shown(out, &self.reply)?;
        append(out, "\n")
    }
}

impl Line for XLine {
    ghost text = { x_line };

    fn write(&self, out: &mut Vec<u8>) -> Result<(), AllocError> {
        append(out, format_args!("X {} ", self.call))?;
        append_cause(out, &self.cause)?;
        append(out, "\n")
    }
}

impl Line for RLine {
    ghost text = { r_line };

    fn write(&self, out: &mut Vec<u8>) -> Result<(), AllocError> {
        append(out, format_args!("R {} ", self.call))?;
        append_result(out, &self.result)?;
        append(out, "\n")
    }
}

impl Line for OLine {
    ghost text = { o_line };

    fn write(&self, out: &mut Vec<u8>) -> Result<(), AllocError> {
        append(out, format_args!("O {}\n", self.call))
    }
}

impl Line for LLine {
    ghost text = { l_line };

    fn write(&self, out: &mut Vec<u8>) -> Result<(), AllocError> {
        append(out, "L ")?;
        out.extend_from_slice(self.name.as_bytes())?;
        append(out, format_args!(" {}\n", self.length))
    }
}

impl Line for GLine {
    ghost text = { g_line };

    fn write(&self, out: &mut Vec<u8>) -> Result<(), AllocError> {
        append(out, format_args!("G {}", self.call))?;
        for taken in self.takes.as_slice() {
            append(out, format_args!(" {taken}"))?;
        }
        append(out, "\n")
    }
}

impl Line for TLine {
    ghost text = { t_line };

    fn write(&self, out: &mut Vec<u8>) -> Result<(), AllocError> {
        append(
            out,
            format_args!(
                "T {} {} {} {}\n",
                self.server, self.taken, self.held, self.epoch
            ),
        )
    }
}

/// Appends what the value displays.
pub fn append<D: Display + Drop>(out: &mut Vec<u8>, value: D) -> Result<(), AllocError>
    ensures { OnOk result (AppendsText out.old.items out.new.items (D.output value)) }
{
    match out.write_fmt(value) {
        Ok(()) => Ok(()),
        Err(_) => Err(AllocError),
    }
}

/// Appends what a line tells of its call's end: the reply, or `open`.
pub fn append_shown(out: &mut Vec<u8>, shown: &Shown) -> Result<(), AllocError>
    ensures { OnOk result (out.new.items ≡ out.old.items ++ shown_text shown.now) }
{
    match shown {
        Shown::Reply(reply) => append_reply(out, reply),
        Shown::Unfinished => append(out, "open"),
    }
}

/// Appends a reply's words.
pub fn append_reply(out: &mut Vec<u8>, reply: &Reply) -> Result<(), AllocError>
    ensures { OnOk result (out.new.items ≡ out.old.items ++ reply_text reply.now) }
{
    match reply {
        Reply::Done => append(out, "ok"),
        Reply::Bytes(bytes) => {
            append(out, "bytes hex:")?;
            append_digits(out, bytes.as_slice())
        }
        Reply::Length(length) => append(out, format_args!("length {length}")),
        Reply::NoSuch => append(out, "nosuch"),
        Reply::OutRange => append(out, "outrange"),
        Reply::TooLarge => append(out, "toolarge"),
    }
}

fn append_cause(out: &mut Vec<u8>, cause: &Cause) -> Result<(), AllocError>
    ensures { OnOk result (out.new.items ≡ out.old.items ++ cause_text cause.now) }
{
    match cause {
        Cause::Unavailable { stripe, missing } => {
            append_unavailable(out, *stripe, missing.as_slice())
        }
        Cause::Contended { pairs } => append_contended(out, pairs.as_slice()),
        Cause::Reaped { at } => append(out, format_args!("reaped {at}")),
        Cause::NoMemory => append(out, "nomem"),
    }
}

fn append_result(out: &mut Vec<u8>, outcome: &RepairResult) -> Result<(), AllocError>
    ensures { OnOk result (out.new.items ≡ out.old.items ++ result_text outcome.now) }
{
    match outcome {
        RepairResult::Rebuilt => append(out, "rebuilt"),
        RepairResult::Here => append(out, "here"),
        RepairResult::Away { downs } => append(out, format_args!("away {downs}")),
        RepairResult::NoSuch => append(out, "nosuch"),
        RepairResult::Superseded { newer } => append(out, format_args!("superseded {newer}")),
        RepairResult::Unavailable { stripe, missing } => {
            append_unavailable(out, *stripe, missing.as_slice())
        }
        RepairResult::Reaped { at } => append(out, format_args!("reaped {at}")),
        RepairResult::NoMemory => append(out, "nomem"),
    }
}

fn append_unavailable(out: &mut Vec<u8>, stripe: u64, missing: &[Triple]) -> Result<(), AllocError>
    ensures { OnOk result (out.new.items ≡ out.old.items ++ unavailable_text stripe missing.now) }
{
    append(out, format_args!("unavailable stripe {stripe} "))?;
    append_missing(out, missing)
}

fn append_missing(out: &mut Vec<u8>, missing: &[Triple]) -> Result<(), AllocError>
    ensures { OnOk result (out.new.items ≡ out.old.items ++ missing_text missing.now) }
{
    append(out, "missing")?;
    for triple in missing {
        append(out, format_args!(" {triple}"))?;
    }
    Ok(())
}

fn append_contended(out: &mut Vec<u8>, pairs: &[(u64, u64)]) -> Result<(), AllocError>
    ensures { OnOk result (out.new.items ≡ out.old.items ++ contended_text pairs.now) }
{
    append(out, "contended")?;
    for (looked_at, newer) in pairs {
        append(out, format_args!(" {looked_at}/{newer}"))?;
    }
    Ok(())
}
