//! What becomes of a caller after its call's step.
ghost use Rattle.std.specs.Prelude.{◌≡◌, ◌+◌, ◌<◌, ◌^◌, true, false, length, map, vec_capacity, None, Some, is_some, IsTrue, IfSome};
ghost use Rattle.clay_grid.specs.Shape.{chunk_count};
ghost use Rattle.store_core.specs.Agreement.{ActorToken};
ghost use Rattle.call_steps.specs.CallOf.{act_of};
ghost use Rattle.call_steps.specs.Steps.{need_of};
ghost use Rattle.call_machine.specs.Kinds.{machine_of};
ghost use Rattle.call_machine.specs.Calls.{MachineOf};
ghost use Rattle.call_steps.specs.CallerCalls.{ended_of};
ghost use Rattle.world_laws.specs.World.{DoingOf, ActorOf};
ghost use Rattle.world_laws.specs.ActorAfter.{actor_after};
ghost use Rattle.call_machine.specs.Going.{GoesOn};
ghost use Rattle.actors.specs.Owing.{AreServed, left_by};
ghost use Rattle.actors.specs.Inside.{served_of};
ghost use Rattle.actors.specs.Concluded.{IsConcluded};

use call_machine::CallMachine;
use call_steps::{EndedCall, Need};
use std::snapshot::Snapshot;
use stripe_dir::Seat;

/// Takes what stands there.
pub(crate) fn take<T>(place: &mut Option<T>) -> T
    requires { IsTrue (is_some place.old) }
    ensures taken { place.old ≡ Some result }
    ensures gone { place.new ≡ None }
{
    match place.take() {
        Some(value) => value,
        None => unreachable!(),
    }
}

/// Puts a value where none stands.
pub(crate) fn put<T>(place: &mut Option<T>, value: T)
    requires { place.old ≡ None }
    ensures { place.new ≡ Some value }
{
    match place.replace(value) {
        None => {}
        Some(_value) => unreachable!(),
    }
}

/// Lets a copy go that only clauses read. The type is open here: a drop at a given type has the drop of
/// that type proved, with all that it holds.
pub fn forget<T>(_copy: Snapshot<T>) {}

// Whether the call is over.
fn is_over(call: &Option<CallMachine>) -> bool
    requires { IsTrue (is_some call.now) }
    ensures over { result ≡ true → IfSome call.now (λ c. need_of c.call ≡ Need.Finished) }
    ensures goes { result ≡ false → IfSome call.now (λ c. GoesOn (need_of c.call)) }
{
    match call {
        Some(call) => matches!(call.need(), Need::Finished),
        None => unreachable!(),
    }
}

// A call that is over is kept, and its actor has its seat again.
fn over<'a>(call: CallMachine<'a>, ended: &mut Vec<EndedCall>) -> Seat
    requires over { need_of call.call ≡ Need.Finished }
    requires room { length ended.old.items < vec_capacity ended.old }
    requires servers { length call.call.takes ≡ chunk_count call.call.book.geometry }
    ensures actor { (a : ActorOf) → a.ended ≡ map (ended_of (chunk_count call.entry.call.book.geometry)) ended.old.items
        → record { ended = map (ended_of (chunk_count call.entry.call.book.geometry)) ended.new.items; doing = DoingOf.Between (ActorToken.Seated result) } ≡ actor_after call.entry.call a }
    ensures served { AreServed (act_of call.entry.call) (machine_of call.entry.asked) call.entry.owed (served_of ended.old.items) (served_of ended.new.items) }
    ensures left { None ≡ left_by (act_of call.entry.call) call.entry }
    ensures room { vec_capacity ended.new ≡ vec_capacity ended.old }
{
    let (seat, outcome, takes) = call.finish();
    ended.push_reserved(EndedCall { outcome, takes });
    seat
}

// Ends a call that is over. Apart from `conclude`, since each step would pay for a stack that holds a
// machine.
#[inline(never)]
fn end_call<'a>(
    call: &mut Option<CallMachine<'a>>,
    seat: &mut Option<Seat>,
    steps: &mut u64,
    ended: &mut Vec<EndedCall>,
)
    requires there { IsTrue (is_some call.old) }
    requires over { IfSome call.old (λ c. need_of c.call ≡ Need.Finished) }
    requires none { seat.old ≡ None }
    requires room { length ended.old.items < vec_capacity ended.old }
    requires servers { IfSome call.old (λ c. length c.call.takes ≡ chunk_count c.call.book.geometry) }
    ensures concluded { (c : MachineOf) → call.old ≡ Some c → IsConcluded c steps.old ended.old.items ended.new.items call.new seat.new steps.new }
    ensures room { vec_capacity ended.new ≡ vec_capacity ended.old }
{
    let back = over(take(call), ended);
    put(seat, back);
    *steps = 0;
}

/// After its call's step: a call that goes on has made a step more, and one that is over is kept, with
/// its actor's seat.
pub(crate) fn conclude<'a>(
    call: &mut Option<CallMachine<'a>>,
    seat: &mut Option<Seat>,
    steps: &mut u64,
    ended: &mut Vec<EndedCall>,
)
    requires there { IsTrue (is_some call.old) }
    requires none { seat.old ≡ None }
    requires steps { steps.old + 1 < 2 ^ 64 }
    requires room { length ended.old.items < vec_capacity ended.old }
    requires servers { IfSome call.old (λ c. length c.call.takes ≡ chunk_count c.call.book.geometry) }
    ensures concluded { (c : MachineOf) → call.old ≡ Some c → IsConcluded c steps.old ended.old.items ended.new.items call.new seat.new steps.new }
    ensures room { vec_capacity ended.new ≡ vec_capacity ended.old }
{
    if is_over(call) {
        end_call(call, seat, steps, ended);
    } else {
        *steps += 1;
    }
}
