//! Sets of calls, among them those that a transcript lists and those that were answered.
ghost use Rattle.std.specs.Prelude.{◌≡◌, ◌||◌, false, OnOk, IfOk, map, filter};
ghost use Rattle.hist_rules.specs.Calls.{same_call, is_named};
ghost use Rattle.hist_rules.specs.Named.{answered_calls, listed_calls};
ghost use Rattle.hist_tables.specs.Tables.{has, IsSetOf};
ghost use Rattle.store_map.specs.declared.call_name.CallName.{CallName};

use crate::lines_of_calls::NamesCall;
use crate::number_set::NumberSet;
use std::alloc::{AllocError, Global};
use store_map::{CallName, Transcript};

/// A set of calls, each by its actor and its number.
#[derive(Drop)]
pub struct CallSet {
    clients: NumberSet,
    repairers: NumberSet,
}

impl CallSet {
    /// The set without calls.
    pub fn new(alloc: Global) -> CallSet
        ensures { (call : CallName) → has result call ≡ false }
    {
        CallSet {
            clients: NumberSet::new(alloc),
            repairers: NumberSet::new(alloc),
        }
    }

    pub fn contains(&self, call: CallName) -> bool
        ensures { result ≡ has self.now call }
    {
        match call {
            CallName::Client(call) => self.clients.contains(call.client, call.number),
            CallName::Repairer(call) => self.repairers.contains(call.repairer, call.number),
        }
    }

    pub fn insert(&mut self, call: CallName) -> Result<(), AllocError>
        ensures { OnOk result ((other : CallName) → has self.new other ≡ (same_call other call || has self.old other)) }
    {
        match call {
            CallName::Client(call) => self.clients.insert(call.client, call.number)?,
            CallName::Repairer(call) => self.repairers.insert(call.repairer, call.number)?,
        };
        Ok(())
    }

    // The lines' calls are there too.
    fn insert_calls<L: NamesCall>(&mut self, lines: &[L]) -> Result<(), AllocError>
        ensures { OnOk result ((other : CallName) → has self.new other ≡ (has self.old other || is_named other (map L.call lines.now))) }
    {
        for line in lines {
            self.insert(line.call())?;
        }
        Ok(())
    }

    // The calls of those lines that answer one are there too.
    fn insert_answers<L: NamesCall>(&mut self, lines: &[L]) -> Result<(), AllocError>
        ensures { OnOk result ((other : CallName) → has self.new other ≡ (has self.old other || is_named other (map L.call (filter L.is_answer lines.now)))) }
    {
        for line in lines {
            if line.is_answer() {
                self.insert(line.call())?;
            }
        }
        Ok(())
    }

    /// The set of these calls.
    pub fn from_calls(alloc: Global, calls: &[CallName]) -> Result<CallSet, AllocError>
        ensures { IfOk result (λ set. IsSetOf set calls.now) }
    {
        let mut set = CallSet::new(alloc);
        for call in calls {
            set.insert(*call)?;
        }
        Ok(set)
    }

    /// The set of the calls of which a line says what became of them.
    pub fn of_listed(alloc: Global, transcript: &Transcript) -> Result<CallSet, AllocError>
        ensures { IfOk result (λ set. IsSetOf set (listed_calls transcript.now)) }
    {
        let mut set = CallSet::new(alloc);
        set.insert_calls(transcript.history.as_slice())?;
        set.insert_calls(transcript.refused.as_slice())?;
        set.insert_calls(transcript.repairs.as_slice())?;
        set.insert_calls(transcript.unanswered.as_slice())?;
        Ok(set)
    }

    /// The set of the calls that were answered or refused, and of the rebuilds that have a result.
    pub fn of_answers(alloc: Global, transcript: &Transcript) -> Result<CallSet, AllocError>
        ensures { IfOk result (λ set. IsSetOf set (answered_calls transcript.now)) }
    {
        let mut set = CallSet::new(alloc);
        set.insert_answers(transcript.history.as_slice())?;
        set.insert_calls(transcript.refused.as_slice())?;
        set.insert_calls(transcript.repairs.as_slice())?;
        Ok(set)
    }
}
