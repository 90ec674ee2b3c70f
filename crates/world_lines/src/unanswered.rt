//! The `O` lines: calls that have made a step and have no outcome.
ghost use Rattle.std.specs.Prelude.{◌≡◌, ℕ, ◌++◌, nat_lt, [], ◌∷◌, if◌then◌else◌, IfOk, OnOk};
ghost use Rattle.store_core.specs.Shown.{lines_of_actors, unanswered_line};
ghost use Rattle.call_steps.specs.CallerCalls.{counts_of, HaveNames, callings_at};
ghost use Rattle.world_lines.specs.Names.{name_by};
ghost use Rattle.world_lines.specs.Lists.{unanswered_lines};

use crate::role::Role;
use call_steps::CallerCalls;
use std::alloc::{AllocError, Global};
use store_map::{CallName, ListOf, OLine};

// The line of the call that has made so many steps, if it made one.
fn push_begun(lines: &mut ListOf<OLine>, call: CallName, steps: u64) -> Result<(), AllocError>
    ensures { OnOk result (lines.new ≡ lines.old ++ (if nat_lt 0 steps then record { call = call } ∷ [] else [])) }
{
    if 0 < steps {
        lines.push(OLine { call })?;
    }
    Ok(())
}

// Those of the callers of this role.
fn push_callers(
    lines: &mut ListOf<OLine>,
    role: Role,
    callers: &[CallerCalls],
) -> Result<(), AllocError>
    requires { HaveNames (counts_of callers.now) }
    ensures { OnOk result ((servers : ℕ) → lines.new ≡ lines.old
        ++ lines_of_actors (λ i. unanswered_line (name_by role i)) (callings_at servers callers.now)) }
{
    for (i, caller) in callers.iter().enumerate() {
        let call = role.call(i as u32, caller.ended.len() as u32);
        push_begun(lines, call, caller.steps)?;
    }
    Ok(())
}

/// The lines of the calls that have made a step and have no outcome, the clients' before the
/// repairers'.
pub fn unanswered_lines(
    alloc: Global,
    clients: &[CallerCalls],
    repairers: &[CallerCalls],
) -> Result<ListOf<OLine>, AllocError>
    requires clients { HaveNames (counts_of clients.now) }
    requires repairers { HaveNames (counts_of repairers.now) }
    ensures { IfOk result (λ lines. (servers : ℕ) →
        lines ≡ unanswered_lines (callings_at servers clients.now) (callings_at servers repairers.now)) }
{
    let mut lines = ListOf::new(alloc);
    push_callers(&mut lines, Role::Client, clients)?;
    push_callers(&mut lines, Role::Repairer, repairers)?;
    Ok(lines)
}
