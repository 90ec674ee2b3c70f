//! Why a client's call was refused, and what a rebuild came to, from how the call ended.
ghost use Rattle.std.specs.Prelude.{◌≡◌, map, Some, IfOk};
ghost use Rattle.store_core.specs.Outcomes.{triple_of, cause_of, result_of};
ghost use Rattle.store_core.specs.Told.{lost_in};
ghost use Rattle.call_steps.specs.CallOutcomes.{call_outcome_of};

use call_steps::{CallOutcome, Change, Outcome, RepairOutcome};
use std::alloc::{AllocError, Global};
use store_map::{Cause, ListOf, LostChunk, RepairResult, Triple};

fn triples(alloc: Global, missing: &[LostChunk]) -> Result<ListOf<Triple>, AllocError>
    ensures { IfOk result (λ triples. triples ≡ map triple_of (map lost_in missing.now)) }
{
    let mut triples = ListOf::new(alloc);
    for lost in missing {
        triples.push(Triple {
            server: u64::from(lost.server),
            placed: lost.placed,
            found: lost.found,
        })?;
    }
    Ok(triples)
}

fn pairs(alloc: Global, changes: &[Change]) -> Result<ListOf<(u64, u64)>, AllocError>
    ensures { IfOk result (λ pairs. pairs ≡ map (λ change. (change.looked_at.0, change.newer.0)) changes.now) }
{
    let mut pairs = ListOf::new(alloc);
    for change in changes {
        pairs.push((change.looked_at.0, change.newer.0))?;
    }
    Ok(pairs)
}

/// Why a client's call was refused, if it was.
pub(crate) fn cause_of(alloc: Global, outcome: &CallOutcome) -> Result<Option<Cause>, AllocError>
    ensures { IfOk result (λ cause. cause ≡ cause_of (call_outcome_of outcome.now)) }
{
    match outcome {
        CallOutcome::Client(Outcome::Unavailable { stripe, missing })
        | CallOutcome::Rebuild(RepairOutcome::Unavailable { stripe, missing }) => Ok(Some(
            Cause::Unavailable {
                stripe: u64::from(*stripe),
                missing: triples(alloc, missing)?,
            },
        )),
        CallOutcome::Client(Outcome::Contended { changes }) => Ok(Some(Cause::Contended {
            pairs: pairs(alloc, changes)?,
        })),
        CallOutcome::Client(Outcome::Reaped { at })
        | CallOutcome::Rebuild(RepairOutcome::Reaped { at }) => Ok(Some(Cause::Reaped {
            at: at.0,
        })),
        CallOutcome::Client(Outcome::NoMemory) | CallOutcome::Rebuild(RepairOutcome::NoMemory) =>
            Ok(Some(Cause::NoMemory)),
        _ => Ok(None),
    }
}

/// What a rebuild came to, if the outcome is a rebuild's.
pub(crate) fn result_of(
    alloc: Global,
    outcome: &CallOutcome,
) -> Result<Option<RepairResult>, AllocError>
    ensures { IfOk result (λ shown. shown ≡ result_of (call_outcome_of outcome.now)) }
{
    match outcome {
        CallOutcome::Rebuild(RepairOutcome::Rebuilt) => Ok(Some(RepairResult::Rebuilt)),
        CallOutcome::Rebuild(RepairOutcome::Here) => Ok(Some(RepairResult::Here)),
        CallOutcome::Rebuild(RepairOutcome::Away { downs }) => Ok(Some(RepairResult::Away {
            downs: *downs,
        })),
        CallOutcome::Rebuild(RepairOutcome::NoSuch) => Ok(Some(RepairResult::NoSuch)),
        CallOutcome::Rebuild(RepairOutcome::Superseded { newer }) => {
            Ok(Some(RepairResult::Superseded { newer: newer.0 }))
        }
        CallOutcome::Client(Outcome::Unavailable { stripe, missing })
        | CallOutcome::Rebuild(RepairOutcome::Unavailable { stripe, missing }) => Ok(Some(
            RepairResult::Unavailable {
                stripe: u64::from(*stripe),
                missing: triples(alloc, missing)?,
            },
        )),
        CallOutcome::Client(Outcome::Reaped { at })
        | CallOutcome::Rebuild(RepairOutcome::Reaped { at }) => Ok(Some(RepairResult::Reaped {
            at: at.0,
        })),
        CallOutcome::Client(Outcome::NoMemory) | CallOutcome::Rebuild(RepairOutcome::NoMemory) =>
            Ok(Some(RepairResult::NoMemory)),
        _ => Ok(None),
    }
}
