//! What a call that reads does next, by the answer of its look.
ghost use Rattle.std.specs.Prelude.{◌≡◌, ◌+◌, ℕ, List, true, All, IfOk, Some};
ghost use Rattle.clay_grid.specs.Shape.{Shape};
ghost use Rattle.store_core.specs.Note.{note_of};
ghost use Rattle.store_core.specs.Read.{read_start, read_end};
ghost use Rattle.run_laws.specs.AnswersByKind.{MayPin, FitsKind};
ghost use Rattle.run_laws.specs.LookAfter.{looked_state};
ghost use Rattle.version_seal.specs.Entry.{StampOf};
ghost use Rattle.call_steps.specs.Answers.{directory_answer};
ghost use Rattle.stripe_dir.specs.Answers.{told_or_short, told_look};
ghost use Rattle.stripe_stamps.specs.SeenStripes.{IsSeenIn};
ghost use Rattle.stripe_dir.specs.Shown.{stripes_seen};
ghost use Rattle.gather_parts.specs.Wanted.{ArePinned};
ghost use Rattle.gather_parts.specs.Gatherings.{owed};
ghost use Rattle.client_read.specs.Reads.{is_read};
ghost use Rattle.client_read.specs.Ends.{IsPlain};
ghost use Rattle.client_read.specs.Stages.{state_by, after_end, IsLooked};
ghost use Rattle.client_read.specs.Owed.{owed_after_look};

use call_steps::{DirectoryAnswer, Outcome, ReplyKind};
use gather_parts::PartGatherings;
use std::alloc::AllocError;
use store_map::{Call, Point};
use stripe_dir::Look;

/// What the call does next, or how it has ended.
#[derive(Clone, Copy, PartialEq, Eq)]
pub(crate) enum ReadStage {
    /// It looks next.
    Looking,
    /// It gathers the bytes of what was pinned, and ends its pass then.
    Gathering,
    /// Memory was wanting in a coding, and the directory is told next that the pass ends.
    Ending,
    /// Its pass has ended, and it is over with what its gatherings came to.
    Ended,
    /// It is over, with an outcome of its own.
    Finished,
}

// What a look leads to: the point of the bytes, or how the call has ended; and what it was told.
pub(crate) struct Looked {
    pub(crate) stage: ReadStage,
    pub(crate) point: Point,
    pub(crate) outcome: Outcome,
    pub(crate) told: DirectoryAnswer,
}

// Where the bytes begin and end that the call asks for, of an object of this length.
fn range_of(call: &Call, length: u64) -> (u64, u64)
    requires { MayPin (note_of call.now).kind }
    ensures { result ≡ (read_start (note_of call.now), read_end (note_of call.now) length) }
{
    match call {
        Call::Get { .. } => (0, length),
        Call::ReadAt {
            offset,
            length: count,
            ..
        } => {
            let start = u64::from(*offset);
            (start, (start + u64::from(*count)).min(length))
        }
        _ => unreachable!(),
    }
}

// Where the call goes on after its look. What was pinned is to be gathered.
pub(crate) fn after_look(
    answer: Result<Look<(), ()>, AllocError>,
    call: &Call,
    gatherings: &mut PartGatherings,
) -> Looked
    requires read { is_read call.now ≡ true }
    requires fits { FitsKind (note_of call.now).kind (told_or_short told_look answer) }
    requires pinned { ArePinned gatherings.old.book answer }
    ensures state { state_by result.stage gatherings.new result.point result.outcome
        ≡ looked_state gatherings.old.book.geometry call.now (told_or_short told_look answer) }
    ensures told { directory_answer (told_or_short told_look answer) ≡ Some result.told }
    ensures plain { IsPlain result.outcome }
    ensures kept { IsLooked (told_or_short told_look answer) result.stage }
    ensures book { gatherings.new.book ≡ gatherings.old.book }
    ensures takes { gatherings.new.takes ≡ gatherings.old.takes }
    ensures owed { (stamps : List StampOf) → IfOk answer (λ answer. All (IsSeenIn stamps) (stripes_seen answer)) →
        owed gatherings.new ≡ owed_after_look gatherings.old.book.geometry (note_of call.now) stamps (told_or_short told_look answer) (owed gatherings.old) }
{
    match answer {
        Ok(Look::Answer { point, reply, .. }) => Looked {
            stage: ReadStage::Finished,
            point,
            told: DirectoryAnswer::Answered {
                point,
                reply: ReplyKind::of(&reply),
            },
            outcome: Outcome::Answered { point, reply },
        },
        Ok(
            Look::Pinned {
                point,
                length,
                stripes,
                ..
            },
        ) => {
            let (start, end) = range_of(call, length);
            gatherings.begin(stripes, start, end);
            Looked {
                stage: ReadStage::Gathering,
                point,
                told: DirectoryAnswer::Pinned { point, length },
                outcome: Outcome::NoMemory,
            }
        }
        Ok(Look::Ready { .. }) => unreachable!(),
        Err(_) => Looked {
            stage: ReadStage::Finished,
            point: Point(0),
            told: DirectoryAnswer::Short,
            outcome: Outcome::NoMemory,
        },
    }
}

// Where the call goes on that has told the directory of the end of its pass.
pub(crate) fn after_end(stage: ReadStage) -> ReadStage
    ensures { result ≡ after_end stage }
{
    match stage {
        ReadStage::Gathering => ReadStage::Ended,
        _ => ReadStage::Finished,
    }
}
