//! Whether a client's call was answered, and the bytes that it was served.
ghost use Rattle.std.specs.Prelude.{◌≡◌, ℕ, slice_get, option_map};
ghost use Rattle.store_core.specs.History.{is_answered};
ghost use Rattle.call_steps.specs.CallOutcomes.{call_outcome_of};
ghost use Rattle.world_laws.specs.Served.{bytes_in, served_in, answered_at, outcome_at, bytes_at};
ghost use Rattle.world_lines.specs.Taken.{KeepsCall, KeepsEachCall};

use call_steps::{CallOutcome, CallerCalls, EndedCall, Outcome};
use std::alloc::Global;
use std::mem;
use store_map::{Actor, ByteList, ListOf};

// Whether the outcome has a reply.
fn is_reply(outcome: &CallOutcome) -> bool
    ensures { result ≡ is_answered (call_outcome_of outcome.now) }
{
    matches!(
        outcome,
        CallOutcome::Client(Outcome::Answered { .. } | Outcome::Served { .. })
    )
}

// How the client's call ended.
fn call_outcome_of(clients: &[CallerCalls], client: u32, number: u32) -> Option<&CallOutcome>
    ensures { option_map (λ outcome. call_outcome_of outcome.now) result ≡ outcome_at clients.now client number }
{
    let calls = clients.get(client as usize)?;
    let ended = calls.ended.get(number as usize)?;
    Some(&ended.outcome)
}

/// Whether the call was answered.
pub(crate) fn is_answered(clients: &[CallerCalls], actor: Actor, number: u32) -> bool
    ensures { result ≡ answered_at clients.now actor number }
{
    let Actor::Client(client) = actor else {
        return false;
    };
    match call_outcome_of(clients, client, number) {
        Some(outcome) => is_reply(outcome),
        None => false,
    }
}

// The bytes of an outcome that has some.
fn take_bytes(alloc: Global, outcome: &mut CallOutcome) -> Option<ByteList>
    ensures bytes { result ≡ bytes_in outcome.old }
    ensures same { call_outcome_of outcome.new ≡ call_outcome_of outcome.old }
{
    match outcome {
        CallOutcome::Client(Outcome::Served { bytes, .. }) => {
            Some(ListOf::from_vec(mem::replace(bytes, Vec::new(alloc))))
        }
        _ => None,
    }
}

// Those of the call with this number.
fn take_from(alloc: Global, ended: &mut Vec<EndedCall>, number: u32) -> Option<ByteList>
    ensures bytes { result ≡ served_in (slice_get ended.old.items number) }
    ensures others { (n : ℕ) → KeepsCall (n ≡ number) (slice_get ended.old.items n) (slice_get ended.new.items n) }
{
    let at = number as usize;
    if ended.len() <= at {
        return None;
    }
    take_bytes(alloc, &mut ended[at].outcome)
}

/// Takes the bytes that the client's call was served out of its outcome.
pub(crate) fn take_served(
    alloc: Global,
    clients: &mut [CallerCalls],
    client: u32,
    number: u32,
) -> Option<ByteList>
    ensures bytes { result ≡ bytes_at clients.old client number }
    ensures others { KeepsEachCall (λ i n. (i ≡ client) × (n ≡ number)) clients.old clients.new }
{
    let at = client as usize;
    if clients.len() <= at {
        return None;
    }
    take_from(alloc, &mut clients[at].ended, number)
}
