//! A table with a number for each actor.
ghost use Rattle.std.specs.Prelude.{◌≡◌, OnOk, None, Some, if◌then◌else◌};
ghost use Rattle.hist_rules.specs.Calls.{same_actor};
ghost use Rattle.hist_tables.specs.Tables.{value_at};
ghost use Rattle.store_map.specs.declared.call_name.CallName.{CallName};

use std::alloc::{AllocError, Global};
use std::collections::HashMap;
use store_map::CallName;

/// A number for each actor that has one.
#[derive(Drop)]
pub struct ActorTable {
    clients: HashMap<u32, u64>,
    repairers: HashMap<u32, u64>,
}

impl ActorTable {
    /// No actor has a number.
    pub fn new(alloc: Global) -> ActorTable
        ensures { (call : CallName) → value_at result call ≡ None }
    {
        ActorTable {
            clients: HashMap::new(alloc),
            repairers: HashMap::new(alloc),
        }
    }

    /// The number of the call's actor.
    pub fn get(&self, call: CallName) -> Option<u64>
        ensures { result ≡ value_at self.now call }
    {
        match call {
            CallName::Client(call) => self.clients.get(&call.client).copied(),
            CallName::Repairer(call) => self.repairers.get(&call.repairer).copied(),
        }
    }

    /// The call's actor gets the number in place of the one that it had.
    pub fn set(&mut self, call: CallName, number: u64) -> Result<(), AllocError>
        ensures { OnOk result ((other : CallName) → value_at self.new other ≡ (if same_actor other call then Some number else value_at self.old other)) }
    {
        match call {
            CallName::Client(call) => self.clients.insert(call.client, number)?,
            CallName::Repairer(call) => self.repairers.insert(call.repairer, number)?,
        };
        Ok(())
    }
}
