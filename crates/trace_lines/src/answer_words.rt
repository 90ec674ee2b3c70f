//! What a step is answered, in words.
ghost use Rattle.std.specs.Prelude.{◌≡◌, ◌++◌, OnOk, codes};
ghost use Rattle.store_map.specs.Triples.{placement_text, found_text};
ghost use Rattle.trace_lines.specs.Answers.{reply_kind_text, directory_answer_text, server_answer_text, answer_text};

use call_steps::{DirectoryAnswer, ReplyKind, ServerAnswer, StepAnswer};
use std::alloc::AllocError;
use store_map::{Found, Placement};
use transcript_text::append;

/// Appends the answer's words.
pub fn append_answer(out: &mut Vec<u8>, answer: StepAnswer) -> Result<(), AllocError>
    ensures { OnOk result (out.new.items ≡ out.old.items ++ answer_text answer) }
{
    match answer {
        StepAnswer::Directory(told) => append_directory_answer(out, told),
        StepAnswer::Server(told) => append_server_answer(out, told),
    }
}

fn append_directory_answer(out: &mut Vec<u8>, told: DirectoryAnswer) -> Result<(), AllocError>
    ensures { OnOk result (out.new.items ≡ out.old.items ++ directory_answer_text told) }
{
    match told {
        DirectoryAnswer::Answered { point, reply } => {
            append(out, format_args!("answer {} ", point.0))?;
            append_reply_kind(out, reply)
        }
        DirectoryAnswer::Pinned { point, length } => {
            append(out, format_args!("pinned {} {length}", point.0))
        }
        DirectoryAnswer::Ready {
            looked_at: None,
            length,
        } => { append(out, format_args!("ready - {length}")) }
        DirectoryAnswer::Ready {
            looked_at: Some(point),
            length,
        } => { append(out, format_args!("ready {} {length}", point.0)) }
        DirectoryAnswer::NoSuch => append(out, "nosuch"),
        DirectoryAnswer::PinnedStripe => append(out, "stripe"),
        DirectoryAnswer::Versions => append(out, "versions"),
        DirectoryAnswer::Done { point } => append(out, format_args!("done {}", point.0)),
        DirectoryAnswer::Changed { looked_at, newer } => {
            append(out, format_args!("changed {} {}", looked_at.0, newer.0))
        }
        DirectoryAnswer::Ended => append(out, "ended"),
        DirectoryAnswer::Current => append(out, "current"),
        DirectoryAnswer::Superseded { newer } => append(
            out,
            format_args!("superseded {}", newer.0),
        ),
        DirectoryAnswer::Reaped { at } => append(out, format_args!("reaped {}", at.0)),
        DirectoryAnswer::Taken(None) => append(out, "taken -"),
        DirectoryAnswer::Taken(Some(version)) => append(out, format_args!("taken {}", version.0)),
        DirectoryAnswer::Made => append(out, "made"),
        DirectoryAnswer::GivenUp(None) => append(out, "givenup -"),
        DirectoryAnswer::GivenUp(Some(point)) => append(out, format_args!("givenup {}", point.0)),
        DirectoryAnswer::Short => append(out, "short"),
    }
}

fn append_reply_kind(out: &mut Vec<u8>, reply: ReplyKind) -> Result<(), AllocError>
    ensures { OnOk result (out.new.items ≡ out.old.items ++ reply_kind_text reply) }
{
    match reply {
        ReplyKind::Done => append(out, "ok"),
        ReplyKind::Bytes => append(out, "bytes"),
        ReplyKind::Length(length) => append(out, format_args!("length {length}")),
        ReplyKind::NoSuch => append(out, "nosuch"),
        ReplyKind::OutRange => append(out, "outrange"),
        ReplyKind::TooLarge => append(out, "toolarge"),
    }
}

fn append_server_answer(out: &mut Vec<u8>, told: ServerAnswer) -> Result<(), AllocError>
    ensures { OnOk result (out.new.items ≡ out.old.items ++ server_answer_text told) }
{
    match told {
        ServerAnswer::Prepared(placement) => append_prepared(out, placement),
        ServerAnswer::Settled => append(out, "settled"),
        ServerAnswer::Here => append(out, "here"),
        ServerAnswer::Missing(found) => append_missing(out, found),
        ServerAnswer::Given(subchunks) => append(out, format_args!("given {subchunks}")),
        ServerAnswer::Placed { epoch } => append(out, format_args!("placed {epoch}")),
        ServerAnswer::AlreadyThere => append(out, "there"),
        ServerAnswer::Away { downs } => append(out, format_args!("away {downs}")),
        ServerAnswer::Made => append(out, "made"),
        ServerAnswer::Short => append(out, "short"),
    }
}

fn append_prepared(out: &mut Vec<u8>, placement: Placement) -> Result<(), AllocError>
    ensures { OnOk result (out.new.items ≡ out.old.items ++ codes "prepared " ++ placement_text placement) }
{
    match placement {
        Placement::At(epoch) => append(out, format_args!("prepared {epoch}")),
        Placement::Skipped(downs) => append(out, format_args!("prepared u{downs}")),
    }
}

fn append_missing(out: &mut Vec<u8>, found: Found) -> Result<(), AllocError>
    ensures { OnOk result (out.new.items ≡ out.old.items ++ codes "missing " ++ found_text found) }
{
    match found {
        Found::Absent { epoch } => append(out, format_args!("missing {epoch}")),
        Found::Away { downs } => append(out, format_args!("missing a{downs}")),
    }
}
