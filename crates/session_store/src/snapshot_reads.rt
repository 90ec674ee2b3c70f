//! Reads of the snapshot that is open.
ghost use Rattle.std.specs.Prelude.{◌≡◌};
ghost use Rattle.snapshot_view.specs.ReadSteps.{need_of};
ghost use Rattle.session_rules.specs.declared.request.Request.{Request};
ghost use Rattle.session_store.specs.Inside.{store_of};
ghost use Rattle.session_store.specs.Kept.{MayServe, ServesRequest};
ghost use Rattle.call_machine.specs.Going.{GoesOn};
ghost use Rattle.session_store.specs.Reading.{MayReadOn, HasReadOn, MayRead, HasReadTo};

use crate::ended_calls::of_read;
use crate::places::SessionPlaces;
use crate::session_parts::Parts;
use call_steps::Need;
use clay_model::Coder;
use session_rules::Answer;
use snapshot_view::SnapRead;
use std::thread::Threads;
use store_map::Name;

// The read's next coding or its next step.
fn read_on<R: Threads + Sync, C: Coder>(
    rt: &R,
    coder: &C,
    places: &mut SessionPlaces,
    read: &mut SnapRead,
)
    requires goes { GoesOn (need_of read.old) }
    requires may { MayReadOn read.old places.old }
    ensures { HasReadOn read.old places.old read.new places.new }
{
    match read.need() {
        Need::Server(server) => {
            let _answer = read.on_server(&mut places.servers[server as usize]);
        }
        Need::Coder => {
            let _coded = read.on_coder(rt, coder);
        }
        Need::Directory | Need::Finished => unreachable!(),
    }
}

// The read makes its codings and its steps until it has come to its end.
fn run_read<R: Threads + Sync, C: Coder>(
    rt: &R,
    coder: &C,
    places: &mut SessionPlaces,
    read: &mut SnapRead,
)
    requires { MayRead read.old places.old }
    ensures ran { HasReadTo read.old places.old read.new places.new }
    ensures over { need_of read.new ≡ Need.Finished }
{
    for _made in 0..u64::MAX {
        if matches!(read.need(), Need::Finished) {
            return;
        }
        read_on(rt, coder, places, read);
    }
}

/// A read of the snapshot, where one is open.
pub(crate) fn snap_read<R: Threads + Sync, C: Coder>(
    rt: &R,
    coder: &C,
    parts: &mut Parts,
    name: &Name,
    offset: u32,
    length: u32,
) -> Answer
    requires { MayServe (store_of parts.old) }
    ensures { ServesRequest (Request.SnapRead name.now offset length) (store_of parts.old) result (store_of parts.new) }
{
    parts.served += 1;
    let Some(snapshot) = &parts.snapshot else {
        return Answer::NoSnap;
    };
    let Ok(mut read) = snapshot.read(name, offset, length) else {
        return Answer::NoMemory;
    };
    run_read(rt, coder, &mut parts.places, &mut read);
    let (outcome, _takes) = read.finish();
    of_read(parts.alloc, outcome)
}
