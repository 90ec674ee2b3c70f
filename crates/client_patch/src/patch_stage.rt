//! What a call does next, by its answers.
ghost use Rattle.std.specs.Prelude.{◌≡◌, true, map, Some};
ghost use Rattle.run_laws.specs.LookAfter.{looked_state};
ghost use Rattle.stripe_dir.specs.Answers.{told_or_short, told_look};
ghost use Rattle.call_steps.specs.Answers.{directory_answer};
ghost use Rattle.write_course.specs.Writings.{WritingOf};
ghost use Rattle.gather_parts.specs.Wanted.{wanted_of, ArePinned};
ghost use Rattle.gather_parts.specs.Gatherings.{begun};
ghost use Rattle.client_patch.specs.Stages.{state_by, after_end};
ghost use Rattle.client_patch.specs.LookAfter.{looked_stripes, size_told, to_draw, IsPatchLook, IsLooked, IfReady};

use call_steps::{DirectoryAnswer, Outcome, ReplyKind};
use gather_parts::PartGatherings;
use std::alloc::AllocError;
use store_map::Call;
use stripe_dir::Look;

/// What the call does next, or how it has ended.
#[derive(Clone, Copy, PartialEq, Eq)]
pub(crate) enum PatchStage {
    /// It looks next, or no try is left.
    Looking,
    /// What was pinned is to be gathered, once there is room for one change more.
    Looked,
    /// It gathers the old bytes that it keeps, and draws then. A put keeps none, and draws at once.
    Gathering,
    /// The directory was told that the gatherings have ended without their bytes.
    Ungathered,
    /// What was drawn is written, or its end has come.
    Writing,
    /// The directory was told that the writing has ended without a commit.
    GivenUp,
    /// Memory was wanting, and the directory is told next that the pass ends.
    Ending,
    /// It is over, with an outcome of its own.
    Finished,
}

// What a look leads to: the object's size, or how the call has ended; and what it was told.
pub(crate) struct Looked {
    pub(crate) stage: PatchStage,
    pub(crate) size: u64,
    pub(crate) outcome: Outcome,
    pub(crate) told: DirectoryAnswer,
}

// Where a call goes on that draws.
fn to_draw(call: &Call) -> PatchStage
    ensures { result ≡ to_draw call.now }
{
    match call {
        Call::Put { .. } => PatchStage::Gathering,
        _ => PatchStage::Looked,
    }
}

// Where the call goes on after its look. The old bytes of what was pinned are to be gathered.
pub(crate) fn after_look(
    answer: Result<Look<(), ()>, AllocError>,
    call: &Call,
    gatherings: &mut PartGatherings,
) -> Looked
    requires fits { IsPatchLook call.now (told_or_short told_look answer) }
    requires pinned { ArePinned gatherings.old.book answer }
    ensures state { (w : WritingOf) → state_by result.stage gatherings.new w result.outcome
        ≡ looked_state gatherings.old.book.geometry call.now (told_or_short told_look answer) }
    ensures told { directory_answer (told_or_short told_look answer) ≡ Some result.told }
    ensures looked { IsLooked call.now (told_or_short told_look answer) result.stage }
    ensures begun { IfReady (told_or_short told_look answer) (gatherings.new ≡ begun gatherings.old (map (wanted_of gatherings.old.book.geometry 0 result.size) (looked_stripes answer))) }
    ensures size { size_told (told_or_short told_look answer) ≡ result.size }
    ensures book { gatherings.new.book ≡ gatherings.old.book }
    ensures takes { gatherings.new.takes ≡ gatherings.old.takes }
{
    match answer {
        Ok(Look::Answer { point, reply, .. }) => Looked {
            stage: PatchStage::Finished,
            size: 0,
            told: DirectoryAnswer::Answered {
                point,
                reply: ReplyKind::of(&reply),
            },
            outcome: Outcome::Answered { point, reply },
        },
        Ok(
            Look::Ready {
                looked_at,
                length,
                stripes,
                ..
            },
        ) => {
            gatherings.begin(stripes, 0, length);
            Looked {
                stage: to_draw(call),
                size: length,
                told: DirectoryAnswer::Ready { looked_at, length },
                outcome: Outcome::NoMemory,
            }
        }
        Ok(Look::Pinned { .. }) => unreachable!(),
        Err(_) => Looked {
            stage: PatchStage::Finished,
            size: 0,
            told: DirectoryAnswer::Short,
            outcome: Outcome::NoMemory,
        },
    }
}

// Where the call goes on that has told the directory of the end of its pass.
pub(crate) fn after_end(stage: PatchStage) -> PatchStage
    ensures { result ≡ after_end stage }
{
    match stage {
        PatchStage::Gathering => PatchStage::Ungathered,
        PatchStage::Writing => PatchStage::GivenUp,
        _ => PatchStage::Finished,
    }
}
