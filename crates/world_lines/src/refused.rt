//! The `X` lines of calls that were refused, and the `R` lines of rebuilds.
ghost use Rattle.std.specs.Prelude.{◌≡◌, ℕ, ◌^◌, ◌<◌, ◌++◌, length, IfOk, OnOk};
ghost use Rattle.store_core.specs.Outcomes.{cause_of, result_of};
ghost use Rattle.store_core.specs.Shown.{lines_of_ended, refused_line, repair_line};
ghost use Rattle.call_steps.specs.CallOutcomes.{call_outcome_of};
ghost use Rattle.call_steps.specs.CallerCalls.{calling_at, counts_of, HaveNames, callings_at};
ghost use Rattle.world_lines.specs.Lists.{refused_lines, repair_lines};

use crate::causes::{cause_of, result_of};
use call_steps::{CallOutcome, CallerCalls};
use std::alloc::{AllocError, Global};
use store_map::{ClientCall, ListOf, RLine, RepairCall, XLine};

// The line of a client's call, if it was refused.
fn push_refused(
    alloc: Global,
    lines: &mut ListOf<XLine>,
    call: ClientCall,
    outcome: &CallOutcome,
) -> Result<(), AllocError>
    ensures { OnOk result (lines.new ≡ lines.old ++ refused_line call (cause_of (call_outcome_of outcome.now))) }
{
    let Some(cause) = cause_of(alloc, outcome)? else {
        return Ok(());
    };
    lines.push(XLine { call, cause })?;
    Ok(())
}

// Those of a client's calls.
fn push_client(
    alloc: Global,
    lines: &mut ListOf<XLine>,
    actor: u32,
    client: &CallerCalls,
) -> Result<(), AllocError>
    requires { length client.now.ended.items < 2 ^ 32 }
    ensures { OnOk result ((servers : ℕ) → lines.new ≡ lines.old
        ++ lines_of_ended (λ number ended. refused_line (record { client = actor; number = number }) (cause_of ended.outcome)) (calling_at servers client.now)) }
{
    for (number, ended) in client.ended.iter().enumerate() {
        let call = ClientCall {
            client: actor,
            number: number as u32,
        };
        push_refused(alloc, lines, call, &ended.outcome)?;
    }
    Ok(())
}

/// The lines of the clients' calls that were refused, in the order of the clients and of each one's
/// calls.
pub fn refused_lines(alloc: Global, clients: &[CallerCalls]) -> Result<ListOf<XLine>, AllocError>
    requires { HaveNames (counts_of clients.now) }
    ensures { IfOk result (λ lines. (servers : ℕ) → lines ≡ refused_lines (callings_at servers clients.now)) }
{
    let mut lines = ListOf::new(alloc);
    for (i, client) in clients.iter().enumerate() {
        push_client(alloc, &mut lines, i as u32, client)?;
    }
    Ok(lines)
}

// The line of a rebuild, if it has one.
fn push_repair(
    alloc: Global,
    lines: &mut ListOf<RLine>,
    call: RepairCall,
    outcome: &CallOutcome,
) -> Result<(), AllocError>
    ensures { OnOk result (lines.new ≡ lines.old ++ repair_line call (result_of (call_outcome_of outcome.now))) }
{
    let Some(result) = result_of(alloc, outcome)? else {
        return Ok(());
    };
    lines.push(RLine { call, result })?;
    Ok(())
}

// Those of a repairer's calls.
fn push_repairer(
    alloc: Global,
    lines: &mut ListOf<RLine>,
    actor: u32,
    repairer: &CallerCalls,
) -> Result<(), AllocError>
    requires { length repairer.now.ended.items < 2 ^ 32 }
    ensures { OnOk result ((servers : ℕ) → lines.new ≡ lines.old
        ++ lines_of_ended (λ number ended. repair_line (record { repairer = actor; number = number }) (result_of ended.outcome)) (calling_at servers repairer.now)) }
{
    for (number, ended) in repairer.ended.iter().enumerate() {
        let call = RepairCall {
            repairer: actor,
            number: number as u32,
        };
        push_repair(alloc, lines, call, &ended.outcome)?;
    }
    Ok(())
}

/// The lines of the rebuilds that have ended, in the order of the repairers and of each one's calls.
pub fn repair_lines(alloc: Global, repairers: &[CallerCalls]) -> Result<ListOf<RLine>, AllocError>
    requires { HaveNames (counts_of repairers.now) }
    ensures { IfOk result (λ lines. (servers : ℕ) → lines ≡ repair_lines (callings_at servers repairers.now)) }
{
    let mut lines = ListOf::new(alloc);
    for (i, repairer) in repairers.iter().enumerate() {
        push_repairer(alloc, &mut lines, i as u32, repairer)?;
    }
    Ok(lines)
}
