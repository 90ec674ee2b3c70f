//! A call that runs alone.
ghost use Rattle.std.specs.Prelude.{◌≡◌};
ghost use Rattle.call_steps.specs.Steps.{need_of};
ghost use Rattle.call_machine.specs.Going.{GoesOn};
ghost use Rattle.call_machine.specs.Ends.{IsEndOf};
ghost use Rattle.call_machine.specs.Kinds.{Machine};
ghost use Rattle.call_steps.specs.declared.outcome.CallOutcome.TheVariants as ended;
ghost use Rattle.session_store.specs.Ends.{EndsAlone, IsOfClient};
ghost use Rattle.session_store.specs.Stepping.{IsCoded, MayStep, HasStepped};
ghost use Rattle.session_store.specs.Running.{MayRun, HasRunTo};

use crate::places::SessionPlaces;
use call_machine::CallMachine;
use call_steps::{CallOutcome, Need, Outcome, RepairOutcome};
use clay_model::Coder;
use read_ledger::Takes;
use std::thread::Threads;
use stripe_dir::Seat;

// The coding before the call's next step, if one is due.
fn code<R: Threads + Sync, C: Coder>(rt: &R, coder: &C, call: &mut CallMachine)
    requires { GoesOn (need_of call.old.call) }
    ensures { IsCoded call.old call.new }
{
    call.ready(rt, coder);
}

// The call's next step.
fn make_step(places: &mut SessionPlaces, call: &mut CallMachine)
    requires { MayStep call.old places.old }
    ensures { HasStepped call.old places.old call.new places.new }
{
    places.directory.keeps();
    match call.need() {
        Need::Directory => {
            call.on_directory(&mut places.directory, &places.book);
        }
        Need::Server(server) => {
            call.on_server(&mut places.servers[server as usize]);
        }
        Need::Coder | Need::Finished => unreachable!(),
    }
}

// The call makes its codings and its steps until it has come to its end.
fn run_to_end<R: Threads + Sync, C: Coder>(
    rt: &R,
    coder: &C,
    places: &mut SessionPlaces,
    call: &mut CallMachine,
)
    requires { MayRun call.old places.old }
    ensures ran { HasRunTo call.old places.old call.new places.new }
    ensures over { need_of call.new.call ≡ Need.Finished }
{
    places.directory.keeps();
    for _made in 0..u64::MAX {
        if matches!(call.need(), Need::Finished) {
            return;
        }
        code(rt, coder, call);
        make_step(places, call);
    }
}

/// The call runs alone to its end: its actor's seat, how it ended, and what it has taken, or none where
/// it has taken nothing.
pub(crate) fn run_call<R: Threads + Sync, C: Coder>(
    rt: &R,
    coder: &C,
    places: &mut SessionPlaces,
    mut call: CallMachine,
) -> (Seat, CallOutcome, Option<Takes>)
    requires { MayRun call places.old }
    ensures { EndsAlone call.entry places.old result.0 result.1 result.2 places.new }
{
    run_to_end(rt, coder, places, &mut call);
    call.finish()
}

/// How a client's call ended.
pub(crate) fn client_outcome(outcome: CallOutcome) -> Outcome
    requires { IsOfClient outcome }
    ensures { outcome ≡ ended.Client result }
{
    match outcome {
        CallOutcome::Client(outcome) => outcome,
        CallOutcome::Rebuild(_) => unreachable!(),
    }
}

/// How a rebuild ended.
pub(crate) fn repair_outcome(outcome: CallOutcome) -> RepairOutcome
    requires { IsEndOf Machine.Rebuilds outcome }
    ensures { outcome ≡ ended.Rebuild result }
{
    match outcome {
        CallOutcome::Client(_) => unreachable!(),
        CallOutcome::Rebuild(outcome) => outcome,
    }
}
