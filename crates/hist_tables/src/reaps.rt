//! How often a schedule gives up the passes of each actor.
ghost use Rattle.std.specs.Prelude.{◌≡◌, IfOk};
ghost use Rattle.hist_rules.specs.Counts.{reaps};
ghost use Rattle.hist_tables.specs.OperatorCounts.{reaps_in};
ghost use Rattle.store_map.specs.declared.call_name.CallName.{CallName};

use crate::operator_counts::{OperatorAction, OperatorCounts};
use std::alloc::{AllocError, Global};
use store_map::{CallName, Script};

/// How often the passes of each actor are given up.
#[derive(Drop)]
pub struct Reaps {
    clients: OperatorCounts,
    repairers: OperatorCounts,
}

impl Reaps {
    /// The counts of a script's schedule.
    pub fn count(alloc: Global, script: &Script) -> Result<Reaps, AllocError>
        ensures { IfOk result (λ made. (call : CallName) → reaps_in made call ≡ reaps script.now call) }
    {
        let schedule = script.schedule.as_slice();
        Ok(Reaps {
            clients: OperatorCounts::count(alloc, OperatorAction::ReapClient, schedule)?,
            repairers: OperatorCounts::count(alloc, OperatorAction::ReapRepairer, schedule)?,
        })
    }

    /// How often passes of the call's actor are given up.
    pub fn of(&self, call: CallName) -> u64
        ensures { result ≡ reaps_in self.now call }
    {
        match call {
            CallName::Client(call) => self.clients.of(u64::from(call.client)),
            CallName::Repairer(call) => self.repairers.of(u64::from(call.repairer)),
        }
    }
}
