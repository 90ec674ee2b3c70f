//! A session's answers, from how calls and reads ended.
ghost use Rattle.std.specs.Prelude.{◌≡◌, map, IfOk};
ghost use Rattle.call_steps.specs.Outcomes.{outcome_of, repair_outcome_of};
ghost use Rattle.session_store.specs.Answers.{missing_in, IsUnavailable, AnswersCall, AnswersRebuild, AnswersRead};
ghost use Rattle.session_store.specs.Ends.{EndsCall, EndsRebuild};

use call_steps::{Outcome, RepairOutcome};
use session_rules::{Answer, Missing};
use snapshot_view::SnapOutcome;
use std::alloc::{AllocError, Global};
use store_map::{Found, ListOf, LostChunk, Placement, Reply};

// A server without its chunk, in numbers alone.
fn missing_of(lost: &LostChunk) -> Missing
    ensures { result ≡ missing_in lost.now }
{
    let placed = match lost.placed {
        Placement::At(epoch) => epoch,
        Placement::Skipped(downs) => downs,
    };
    let found = match lost.found {
        Found::Absent { epoch } => epoch,
        Found::Away { downs } => downs,
    };
    Missing {
        server: lost.server,
        placed,
        found,
    }
}

// Some of them, in memory of their own.
fn all_missing(alloc: Global, lost: &[LostChunk]) -> Result<ListOf<Missing>, AllocError>
    ensures { IfOk result (λ missing. missing ≡ map missing_in lost.now) }
{
    let mut missing = Vec::with_capacity(alloc, lost.len())?;
    for one in lost {
        missing.push_reserved(missing_of(one));
    }
    Ok(ListOf::from_vec(missing))
}

// The answer for a stripe that is beyond repair.
fn unavailable(alloc: Global, stripe: u32, lost: &[LostChunk]) -> Answer
    ensures { IsUnavailable stripe lost.now result }
{
    match all_missing(alloc, lost) {
        Ok(missing) => Answer::Unavailable { stripe, missing },
        Err(_) => Answer::NoMemory,
    }
}

/// The answer to a call of the map that ended so.
pub(crate) fn of_call(alloc: Global, outcome: Outcome) -> Answer
    requires { EndsCall (outcome_of outcome) }
    ensures { AnswersCall outcome result }
{
    match outcome {
        Outcome::Answered { reply, .. } => Answer::Replied(reply),
        Outcome::Served { bytes, .. } => Answer::Replied(Reply::Bytes(ListOf::from_vec(bytes))),
        Outcome::Unavailable { stripe, missing } => unavailable(alloc, stripe, &missing),
        Outcome::NoMemory => Answer::NoMemory,
        // No other call comes between, and nothing is given up.
        Outcome::Contended { .. } | Outcome::Reaped { .. } => unreachable!(),
    }
}

/// The answer to a rebuild that ended so.
pub(crate) fn of_rebuild(alloc: Global, outcome: RepairOutcome) -> Answer
    requires { EndsRebuild (repair_outcome_of outcome) }
    ensures { AnswersRebuild outcome result }
{
    match outcome {
        RepairOutcome::Rebuilt => Answer::Rebuilt,
        RepairOutcome::Here => Answer::Here,
        RepairOutcome::NoSuch => Answer::Replied(Reply::NoSuch),
        RepairOutcome::Unavailable { stripe, missing } => unavailable(alloc, stripe, &missing),
        RepairOutcome::NoMemory => Answer::NoMemory,
        // No server is away, no call comes between, and nothing is given up.
        RepairOutcome::Away { .. }
        | RepairOutcome::Superseded { .. }
        | RepairOutcome::Reaped { .. } => unreachable!(),
    }
}

/// The answer to a read of a snapshot that ended so.
pub(crate) fn of_read(alloc: Global, outcome: SnapOutcome) -> Answer
    ensures { AnswersRead outcome result }
{
    match outcome {
        SnapOutcome::Bytes(bytes) => Answer::Replied(Reply::Bytes(ListOf::from_vec(bytes))),
        SnapOutcome::NoSuch => Answer::Replied(Reply::NoSuch),
        SnapOutcome::OutRange => Answer::Replied(Reply::OutRange),
        SnapOutcome::Unavailable { stripe, missing } => unavailable(alloc, stripe, &missing),
        SnapOutcome::NoMemory => Answer::NoMemory,
    }
}
