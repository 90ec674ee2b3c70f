//! How a caller's next call begins.
ghost use Rattle.actors.specs.Beginning.{MayTake, HasBegun};
ghost use Rattle.actors.specs.Inside.{part_by};

use crate::part::CallerPart;
use call_machine::CallMachine;
use std::alloc::Global;
use stripe_dir::Seat;
use version_seal::Opening;

/// The part's call of this number before its first step, of the actor at this place.
pub(crate) fn next_call<'a>(
    alloc: Global,
    seat: Seat,
    place: u32,
    number: u32,
    part: CallerPart<'a>,
    opening: &Opening,
    tries: u32,
) -> CallMachine<'a>
    requires may { MayTake opening.now tries place number (part_by part) seat }
    ensures { HasBegun opening.now tries number (part_by part.entry) seat result }
{
    match part {
        CallerPart::Client(part) => {
            let call = &part.calls.as_slice()[number as usize];
            CallMachine::client(alloc, seat, place, number, call, opening.copy(), tries)
        }
        CallerPart::Repairer(part) => {
            let rebuild = &part.calls.as_slice()[number as usize];
            CallMachine::rebuild(seat, place, number, rebuild, opening.copy())
        }
    }
}
