//! The `G` lines: what each call took.
ghost use Rattle.std.specs.Prelude.{◌≡◌, ℕ, ◌^◌, ◌<◌, ◌++◌, length, replicate, unwrap_or, IfOk, OnOk};
ghost use Rattle.store_core.specs.Shown.{lines_of_ended, lines_of_actors, take_line, take_lines};
ghost use Rattle.call_steps.specs.CallerCalls.{calling_at, counts_of, HaveNames, callings_at};
ghost use Rattle.world_lines.specs.Names.{name_by};
ghost use Rattle.world_lines.specs.Lists.{all_take_lines};

use crate::role::Role;
use call_steps::CallerCalls;
use read_ledger::Takes;
use std::alloc::{AllocError, Global};
use store_map::{CallName, GLine, ListOf};

// The line of a call, if it took anything.
fn push_takes(
    alloc: Global,
    lines: &mut ListOf<GLine>,
    call: CallName,
    takes: &Option<Takes>,
) -> Result<(), AllocError>
    ensures { OnOk result ((servers : ℕ) → lines.new ≡ lines.old ++ take_line call (unwrap_or takes.now (replicate servers 0))) }
{
    let Some(takes) = takes else {
        return Ok(());
    };
    if !takes.any() {
        return Ok(());
    }
    let takes = ListOf::from_vec(Vec::from_slice(alloc, takes.counts())?);
    lines.push(GLine { call, takes })?;
    Ok(())
}

// Those of a caller's calls that have ended.
fn push_ended(
    alloc: Global,
    lines: &mut ListOf<GLine>,
    role: Role,
    actor: u32,
    caller: &CallerCalls,
) -> Result<(), AllocError>
    requires { length caller.now.ended.items < 2 ^ 32 }
    ensures { OnOk result ((servers : ℕ) → lines.new ≡ lines.old
        ++ lines_of_ended (λ number ended. take_line (name_by role actor number) ended.takes) (calling_at servers caller.now)) }
{
    for (number, ended) in caller.ended.iter().enumerate() {
        push_takes(alloc, lines, role.call(actor, number as u32), &ended.takes)?;
    }
    Ok(())
}

// Those of a caller, also of its call in work.
fn push_caller(
    alloc: Global,
    lines: &mut ListOf<GLine>,
    role: Role,
    actor: u32,
    caller: &CallerCalls,
) -> Result<(), AllocError>
    requires { length caller.now.ended.items < 2 ^ 32 }
    ensures { OnOk result ((servers : ℕ) → lines.new ≡ lines.old ++ take_lines (name_by role actor) (calling_at servers caller.now)) }
{
    push_ended(alloc, lines, role, actor, caller)?;
    let call = role.call(actor, caller.ended.len() as u32);
    push_takes(alloc, lines, call, &caller.takes)?;
    Ok(())
}

// Those of the callers of this role.
fn push_callers(
    alloc: Global,
    lines: &mut ListOf<GLine>,
    role: Role,
    callers: &[CallerCalls],
) -> Result<(), AllocError>
    requires { HaveNames (counts_of callers.now) }
    ensures { OnOk result ((servers : ℕ) → lines.new ≡ lines.old
        ++ lines_of_actors (λ i. take_lines (name_by role i)) (callings_at servers callers.now)) }
{
    for (i, caller) in callers.iter().enumerate() {
        push_caller(alloc, lines, role, i as u32, caller)?;
    }
    Ok(())
}

/// The lines of what the calls took, of each actor's calls that have ended and of its call in work, the
/// clients' before the repairers'.
pub fn take_lines(
    alloc: Global,
    clients: &[CallerCalls],
    repairers: &[CallerCalls],
) -> Result<ListOf<GLine>, AllocError>
    requires clients { HaveNames (counts_of clients.now) }
    requires repairers { HaveNames (counts_of repairers.now) }
    ensures { IfOk result (λ lines. (servers : ℕ) →
        lines ≡ all_take_lines (callings_at servers clients.now) (callings_at servers repairers.now)) }
{
    let mut lines = ListOf::new(alloc);
    push_callers(alloc, &mut lines, Role::Client, clients)?;
    push_callers(alloc, &mut lines, Role::Repairer, repairers)?;
    Ok(lines)
}
