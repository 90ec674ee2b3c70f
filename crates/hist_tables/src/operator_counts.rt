//! How often a schedule's operator does something to each server or actor.
ghost use Rattle.std.specs.Prelude.{◌≡◌, ℕ, IfOk, false};
ghost use Rattle.std.specs.Option.{option_map_or};
ghost use Rattle.std.specs.Prelude.{nat_eq};
ghost use Rattle.hist_rules.specs.Counts.{wipes, downs};
ghost use Rattle.hist_tables.specs.OperatorCounts.{is_done_to, count_in, AreCounted};

use std::alloc::{AllocError, Global};
use std::collections::HashMap;
use store_map::{Script, Token};

/// What the operator does to a server, or to the pass of an actor.
#[derive(Clone, Copy, PartialEq, Eq)]
pub enum OperatorAction {
    Wipe,
    Down,
    ReapClient,
    ReapRepairer,
}

// The server or the actor to whom a line of the schedule does the action.
fn subject(action: OperatorAction, token: Token) -> Option<u64>
    ensures { (place : ℕ) → is_done_to action place token ≡ option_map_or (nat_eq place) result false }
{
    match (action, token) {
        (OperatorAction::Wipe, Token::Wipe(server)) => Some(u64::from(server)),
        (OperatorAction::Down, Token::Down(server)) => Some(u64::from(server)),
        (OperatorAction::ReapClient, Token::ReapClient(actor)) => Some(u64::from(actor)),
        (OperatorAction::ReapRepairer, Token::ReapRepairer(actor)) => Some(u64::from(actor)),
        _ => None,
    }
}

/// How often an action is done to each server or actor.
#[derive(Drop)]
pub struct OperatorCounts {
    counts: HashMap<u64, u64>,
}

impl OperatorCounts {
    /// The counts of the lines of a schedule.
    pub fn count(
        alloc: Global,
        action: OperatorAction,
        schedule: &[Token],
    ) -> Result<OperatorCounts, AllocError>
        ensures { IfOk result (AreCounted action schedule.now) }
    {
        let mut counts = HashMap::new(alloc);
        for token in schedule {
            if let Some(place) = subject(action, *token) {
                let count = counts.get(&place).copied().unwrap_or(0);
                counts.insert(place, count + 1)?;
            }
        }
        Ok(OperatorCounts { counts })
    }

    /// How often each server is emptied.
    pub fn wipes(alloc: Global, script: &Script) -> Result<OperatorCounts, AllocError>
        ensures { IfOk result (λ counted. (server : ℕ) → count_in counted server ≡ wipes script.now server) }
    {
        OperatorCounts::count(alloc, OperatorAction::Wipe, script.schedule.as_slice())
    }

    /// How often each server is made away.
    pub fn downs(alloc: Global, script: &Script) -> Result<OperatorCounts, AllocError>
        ensures { IfOk result (λ counted. (server : ℕ) → count_in counted server ≡ downs script.now server) }
    {
        OperatorCounts::count(alloc, OperatorAction::Down, script.schedule.as_slice())
    }

    /// How often the action is done to this one.
    pub fn of(&self, place: u64) -> u64
        ensures { result ≡ count_in self.now place }
    {
        self.counts.get(&place).copied().unwrap_or(0)
    }
}
