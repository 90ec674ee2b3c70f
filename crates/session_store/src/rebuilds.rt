//! Rebuilds.
ghost use Rattle.std.specs.Prelude.{◌<◌};
ghost use Rattle.clay_grid.specs.Shape.{chunk_count};
ghost use Rattle.session_rules.specs.declared.request.Request.{Request};
ghost use Rattle.session_store.specs.Inside.{store_of};
ghost use Rattle.session_store.specs.Kept.{MayServe, ServesRequest};

use crate::alone::{repair_outcome, run_call};
use crate::ended_calls::of_rebuild;
use crate::seats::{put, take};
use crate::session_parts::Parts;
use crate::session_sweeps::sweep_all;
use call_machine::CallMachine;
use clay_model::Coder;
use session_rules::Answer;
use std::thread::Threads;
use store_map::Rebuild;

/// The repairer's rebuild, and the sweeper after it.
pub(crate) fn rebuild<R: Threads + Sync, C: Coder>(
    rt: &R,
    coder: &C,
    parts: &mut Parts,
    rebuild: &Rebuild,
) -> Answer
    requires may { MayServe (store_of parts.old) }
    requires there { rebuild.now.server < chunk_count parts.old.places.book.geometry }
    ensures { ServesRequest (Request.Rebuild rebuild.now.name rebuild.now.stripe rebuild.now.server) (store_of parts.old) result (store_of parts.new) }
{
    let seat = take(&mut parts.repairer);
    let opening = parts.places.book.opening();
    let machine = CallMachine::rebuild(seat, 0, parts.served, rebuild, opening);
    let (seat, outcome, _takes) = run_call(rt, coder, &mut parts.places, machine);
    put(&mut parts.repairer, seat);
    sweep_all(&mut parts.places);
    parts.served += 1;
    of_rebuild(parts.alloc, repair_outcome(outcome))
}
