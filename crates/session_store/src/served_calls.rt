//! Calls of the map.
ghost use Rattle.std.specs.Prelude.{◌≡◌, ◌+◌, ◌<◌, ◌^◌};
ghost use Rattle.store_core.specs.Note.{note_of};
ghost use Rattle.session_rules.specs.declared.request.Request.{Request};
ghost use Rattle.session_store.specs.Inside.{store_of};
ghost use Rattle.session_store.specs.Kept.{MayServe, ServesRequest};

use crate::alone::{client_outcome, run_call};
use crate::ended_calls::of_call;
use crate::seats::{put, take};
use crate::session_parts::Parts;
use crate::session_sweeps::sweep_all;
use call_machine::CallMachine;
use clay_model::Coder;
use session_rules::Answer;
use std::thread::Threads;
use store_map::Call;

// How often a write is tried: nothing comes between its look and its commit.
const TRIES: u32 = 1;

// The end of the bytes that a call speaks of, or 0 where it speaks of all.
fn reach(call: &Call) -> u64
    ensures end { result ≡ (note_of call.now).offset + (note_of call.now).length }
    ensures few { (note_of call.now).offset + (note_of call.now).length < 2 ^ 33 }
{
    match call {
        Call::Put { content, .. } => u64::from(content.length()),
        Call::Write {
            offset,
            content,
            ..
        } => u64::from(*offset) + u64::from(content.length()),
        Call::ReadAt { offset, length, .. } => u64::from(*offset) + u64::from(*length),
        Call::Get { .. } | Call::Stat { .. } | Call::Delete { .. } => 0,
    }
}

/// The client's call, and the sweeper after it.
pub(crate) fn serve_call<R: Threads + Sync, C: Coder>(
    rt: &R,
    coder: &C,
    parts: &mut Parts,
    call: &Call,
) -> Answer
    requires { MayServe (store_of parts.old) }
    ensures { ServesRequest (Request.OfMap call.now) (store_of parts.old) result (store_of parts.new) }
{
    // The call speaks of fewer than 2^33 bytes, which bounds its steps.
    let _reach = reach(call);
    let seat = take(&mut parts.client);
    let opening = parts.places.book.opening();
    let machine = CallMachine::client(parts.alloc, seat, 0, parts.served, call, opening, TRIES);
    let (seat, outcome, _takes) = run_call(rt, coder, &mut parts.places, machine);
    put(&mut parts.client, seat);
    sweep_all(&mut parts.places);
    parts.served += 1;
    of_call(parts.alloc, client_outcome(outcome))
}
