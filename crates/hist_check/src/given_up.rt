//! The rule on calls that were given up: no more of an actor than the schedule asks for.
ghost use Rattle.std.specs.Prelude.{◌≡◌, ◌++◌, None, map, filter, IfOk, OnOk};
ghost use Rattle.store_map.specs.declared.call_name.CallName.{CallName};
ghost use Rattle.store_map.specs.declared.call_name.CallName.TheVariants.{Client, Repairer};
ghost use Rattle.store_map.specs.declared.script.Script.{Script};
ghost use Rattle.hist_rules.specs.Counts.{reaps};
ghost use Rattle.hist_rules.specs.First.{first_fault_along};
ghost use Rattle.hist_rules.specs.GivenUp.{is_reaped_cause, is_reaped_result, reaped_calls, is_reaped, given_up};
ghost use Rattle.hist_tables.specs.OperatorCounts.{reaps_in};
ghost use Rattle.hist_tables.specs.Tables.{value_at};

use hist_rules::Verdict;
use hist_tables::{ActorTable, Reaps, blame_unless};
use std::alloc::{AllocError, Global};
use store_map::{CallName, Cause, RLine, RepairResult, Script, Transcript, XLine};

fn is_reaped_cause(cause: &Cause) -> bool
    ensures { result ≡ is_reaped_cause cause.now }
{
    matches!(cause, Cause::Reaped { .. })
}

fn is_reaped_result(outcome: &RepairResult) -> bool
    ensures { result ≡ is_reaped_result outcome.now }
{
    matches!(outcome, RepairResult::Reaped { .. })
}

fn push_reaped_clients(calls: &mut Vec<CallName>, lines: &[XLine]) -> Result<(), AllocError>
    ensures { OnOk result (calls.new.items ≡ calls.old.items ++ map (λ line. Client line.call) (filter (λ line. is_reaped_cause line.cause) lines.now)) }
{
    for line in lines {
        if is_reaped_cause(&line.cause) {
            calls.push(CallName::Client(line.call))?;
        }
    }
    Ok(())
}

fn push_reaped_repairers(calls: &mut Vec<CallName>, lines: &[RLine]) -> Result<(), AllocError>
    ensures { OnOk result (calls.new.items ≡ calls.old.items ++ map (λ line. Repairer line.call) (filter (λ line. is_reaped_result line.result) lines.now)) }
{
    for line in lines {
        if is_reaped_result(&line.result) {
            calls.push(CallName::Repairer(line.call))?;
        }
    }
    Ok(())
}

// The calls that were given up, in the order of lines.
fn reaped_calls(alloc: Global, transcript: &Transcript) -> Result<Vec<CallName>, AllocError>
    ensures { IfOk result (λ calls. calls.items ≡ reaped_calls transcript.now) }
{
    let mut calls = Vec::new(alloc);
    push_reaped_clients(&mut calls, transcript.refused.as_slice())?;
    push_reaped_repairers(&mut calls, transcript.repairs.as_slice())?;
    Ok(calls)
}

// The fault of the first of these calls that makes more of its actor than the schedule asks for,
// by the schedule's counts and a table without an actor.
fn find_unasked_reap_by(
    asked: &Reaps,
    counts: &mut ActorTable,
    calls: &[CallName],
) -> Result<Option<Verdict>, AllocError>
    requires counts { (call : CallName) → value_at counts.old call ≡ None }
    ensures { (script : Script) → ((call : CallName) → reaps_in asked.now call ≡ reaps script call)
        → IfOk result (λ found. found ≡ first_fault_along (is_reaped script) calls.now) }
{
    for call in calls {
        let count = counts.get(*call).unwrap_or(0) + 1;
        let allowed = asked.of(*call);
        if let Some(fault) = blame_unless(count <= allowed, *call, allowed, count) {
            return Ok(Some(fault));
        }
        counts.set(*call, count)?;
    }
    Ok(None)
}

// The fault of the first of these calls that makes more of its actor than the schedule asks for.
fn find_unasked_reap(
    alloc: Global,
    script: &Script,
    calls: &[CallName],
) -> Result<Option<Verdict>, AllocError>
    ensures { IfOk result (λ found. found ≡ first_fault_along (is_reaped script.now) calls.now) }
{
    let reaps = Reaps::count(alloc, script)?;
    let mut counts = ActorTable::new(alloc);
    find_unasked_reap_by(&reaps, &mut counts, calls)
}

/// The fault of the first call that is given up once more often than the schedule gives up passes
/// of its actor.
pub fn find_false_reap(
    alloc: Global,
    script: &Script,
    transcript: &Transcript,
) -> Result<Option<Verdict>, AllocError>
    ensures { IfOk result (λ found. found ≡ given_up script.now transcript.now) }
{
    let calls = reaped_calls(alloc, transcript)?;
    find_unasked_reap(alloc, script, calls.as_slice())
}
