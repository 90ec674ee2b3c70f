//! Heals.
ghost use Rattle.std.specs.Prelude.{◌≡◌, ◌<◌, ◌+◌, ◌^◌, length, map, IfOk, IfSome};
ghost use Rattle.clay_grid.specs.Shape.{chunk_count};
ghost use Rattle.session_rules.specs.AloneHeals.{rebuild_of};
ghost use Rattle.session_rules.specs.declared.request.Request.{Request};
ghost use Rattle.session_store.specs.LostStripes.{healable, StandTogether};
ghost use Rattle.session_store.specs.Healing.{added_low, added_if, is_rebuilt, MayHeal, HasHealedOne, AreOfServers, HasHealed, HealsWith, HealsLost};
ghost use Rattle.call_steps.specs.CallOutcomes.{call_outcome_of};
ghost use Rattle.session_store.specs.Inside.{store_of};
ghost use Rattle.session_store.specs.Kept.{MayServe, ServesRequest};

use crate::alone::run_call;
use crate::lost_stripes::to_heal;
use crate::scrubs::lost_chunks;
use crate::seats::{put, take};
use crate::session_parts::Parts;
use crate::session_sweeps::sweep_all;
use call_machine::CallMachine;
use call_steps::{CallOutcome, RepairOutcome};
use clay_model::Coder;
use read_ledger::Takes;
use session_rules::{Answer, LostChunk};
use std::alloc::AllocError;
use std::thread::Threads;
use store_map::{ListOf, Rebuild};

// Counts come to the rest. A count stays at the last value of 64 bits.
fn add_counts(taken: &mut [u64], takes: &Takes)
    requires { length takes.now ≡ length taken.old }
    ensures { taken.new ≡ added_low taken.old takes.now }
{
    let counts = takes.counts();
    for (i, count) in taken.iter_mut().enumerate() {
        *count = count.saturating_add(counts[i]);
    }
}

// What one rebuild took comes to the rest, if it took something.
fn add_takes(taken: &mut [u64], takes: Option<Takes>)
    requires { IfSome takes (λ counts. length counts ≡ length taken.old) }
    ensures { taken.new ≡ added_if takes taken.old }
{
    if let Some(takes) = &takes {
        add_counts(taken, takes);
    }
}

// Whether a rebuild made its chunk.
fn has_rebuilt(outcome: CallOutcome) -> bool
    ensures { result ≡ is_rebuilt (call_outcome_of outcome) }
{
    matches!(outcome, CallOutcome::Rebuild(RepairOutcome::Rebuilt))
}

// The healer makes one chunk anew, with its next number: whether memory was ample.
fn heal_one<R: Threads + Sync, C: Coder>(
    rt: &R,
    coder: &C,
    parts: &mut Parts,
    chunk: &Rebuild,
    taken: &mut [u64],
) -> bool
    requires may { MayHeal parts.old }
    requires there { chunk.now.server < chunk_count parts.old.places.book.geometry }
    requires few { parts.old.next + 1 < 2 ^ 32 }
    requires count { length taken.old ≡ chunk_count parts.old.places.book.geometry }
    ensures { HasHealedOne parts.old chunk.now taken.old result parts.new taken.new }
{
    let seat = take(&mut parts.healer);
    let opening = parts.places.book.opening();
    let machine = CallMachine::rebuild(seat, 1, parts.next, chunk, opening);
    let (seat, outcome, takes) = run_call(rt, coder, &mut parts.places, machine);
    put(&mut parts.healer, seat);
    parts.next += 1;
    add_takes(taken, takes);
    has_rebuilt(outcome)
}

// The healer makes these chunks anew, one after another, as long as memory is ample.
fn heal_all<R: Threads + Sync, C: Coder>(
    rt: &R,
    coder: &C,
    parts: &mut Parts,
    chunks: &[Rebuild],
    taken: &mut [u64],
) -> bool
    requires may { MayHeal parts.old }
    requires there { AreOfServers parts.old chunks.now }
    requires few { parts.old.next + length chunks.now < 2 ^ 32 }
    requires count { length taken.old ≡ chunk_count parts.old.places.book.geometry }
    ensures { HasHealed parts.old chunks.now taken.old result parts.new taken.new }
{
    for chunk in chunks {
        if !heal_one(rt, coder, parts, chunk, taken) {
            return false;
        }
    }
    true
}

// With the chunks that can be made anew, and the memory for the answer.
fn heal_with<R: Threads + Sync, C: Coder>(
    rt: &R,
    coder: &C,
    parts: &mut Parts,
    chunks: Vec<Rebuild>,
    mut taken: Vec<u64>,
) -> Answer
    requires may { MayHeal parts.old }
    requires there { AreOfServers parts.old chunks.items }
    requires few { parts.old.next + length chunks.items < 2 ^ 32 }
    requires count { length taken.items ≡ chunk_count parts.old.places.book.geometry }
    ensures { HealsWith parts.old chunks.items taken.items result parts.new }
{
    if !heal_all(rt, coder, parts, &chunks, &mut taken) {
        sweep_all(&mut parts.places);
        return Answer::NoMemory;
    }
    Answer::Healed {
        rebuilt: chunks.len() as u64,
        taken: ListOf::from_vec(taken),
    }
}

// Where nothing is wrong with the healer's numbers.
fn heal_lost<R: Threads + Sync, C: Coder>(
    rt: &R,
    coder: &C,
    parts: &mut Parts,
    lost: &[LostChunk],
) -> Result<Answer, AllocError>
    requires may { MayHeal parts.old }
    requires order { StandTogether lost.now }
    requires there { AreOfServers parts.old (map rebuild_of (healable parts.old.places.book.geometry.parity_count lost.now)) }
    requires few { parts.old.next + length lost.now < 2 ^ 32 }
    ensures { HealsLost parts.old (map rebuild_of (healable parts.old.places.book.geometry.parity_count lost.now)) result parts.new }
{
    let chunks = to_heal(parts, lost)?;
    let servers = parts.places.servers.len();
    let taken = vec![in parts.alloc; 0u64; servers]?;
    Ok(heal_with(rt, coder, parts, chunks, taken))
}

/// All lost chunks that can be made anew are, one after another. Where the healer has fewer numbers left
/// than chunks are lost, nothing is done, and it is answered as a frame that is no request.
pub(crate) fn heal<R: Threads + Sync, C: Coder>(rt: &R, coder: &C, parts: &mut Parts) -> Answer
    requires { MayServe (store_of parts.old) }
    ensures { ServesRequest Request.Heal (store_of parts.old) result (store_of parts.new) }
{
    let lost = lost_chunks(parts);
    parts.served += 1;
    let Ok(lost) = lost else {
        return Answer::NoMemory;
    };
    let left = u32::MAX - parts.next;
    if lost.len() > left as usize {
        return Answer::BadRequest;
    }
    match heal_lost(rt, coder, parts, &lost) {
        Ok(answer) => answer,
        Err(_) => Answer::NoMemory,
    }
}
