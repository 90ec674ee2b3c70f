//! Snapshots that are taken and dropped.
ghost use Rattle.std.specs.Prelude.{◌≡◌, None, IsTrue, is_some};
ghost use Rattle.store_map.specs.declared.reply.Reply.{Reply};
ghost use Rattle.session_rules.specs.declared.request.Request.{Request};
ghost use Rattle.session_rules.specs.declared.session_answer.Answer.{Answer};
ghost use Rattle.session_store.specs.Inside.{store_of};
ghost use Rattle.session_store.specs.Serving.{ServesAll, dropped_one};
ghost use Rattle.session_store.specs.Kept.{IsStore, MayServe, ServesRequest};

use crate::seats::{put, take};
use crate::session_parts::Parts;
use crate::session_sweeps::sweep_all;
use session_rules::Answer;
use snapshot_view::{SnapFault, SnapRefused, Snapshot};
use store_map::Reply;

// Where none is open.
fn snap_anew(parts: &mut Parts) -> Answer
    requires may { MayServe (store_of parts.old) }
    requires none { parts.old.snapshot ≡ None }
    ensures { ServesRequest Request.Snap (store_of parts.old) result (store_of parts.new) }
{
    let tickets = take(&mut parts.tickets);
    let opening = parts.places.book.opening();
    let directory = &mut parts.places.directory;
    let number = parts.served;
    parts.served += 1;
    match Snapshot::take(parts.alloc, directory, tickets, number, opening) {
        Ok(snapshot) => {
            put(&mut parts.snapshot, snapshot);
            Answer::Replied(Reply::Done)
        }
        Err(SnapRefused { tickets, why }) => {
            put(&mut parts.tickets, tickets);
            match why {
                SnapFault::TooMany { objects } => Answer::TooMany(objects),
                SnapFault::OutOfMemory => Answer::NoMemory,
            }
        }
    }
}

/// A snapshot is taken, where none is open.
pub(crate) fn snap(parts: &mut Parts) -> Answer
    requires { MayServe (store_of parts.old) }
    ensures { ServesRequest Request.Snap (store_of parts.old) result (store_of parts.new) }
{
    if parts.snapshot.is_some() {
        parts.served += 1;
        return Answer::SnapOpen;
    }
    snap_anew(parts)
}

/// The one that is open is dropped, and the sweeper comes to its end.
pub(crate) fn drop_open(parts: &mut Parts)
    requires store { IsStore (store_of parts.old) }
    requires open { IsTrue (is_some parts.old.snapshot) }
    ensures serves { ServesAll Request.SnapDrop (store_of parts.old) (Answer.Replied Reply.Done) (store_of parts.new) }
    ensures same { store_of parts.new ≡ dropped_one (store_of parts.old) (store_of parts.new) }
    ensures kept { IsStore (store_of parts.new) }
    ensures closed { parts.new.snapshot ≡ None }
{
    let snapshot = take(&mut parts.snapshot);
    let (tickets, _points) = snapshot.release(&mut parts.places.directory);
    put(&mut parts.tickets, tickets);
    sweep_all(&mut parts.places);
}

/// The snapshot is dropped, where one is open.
pub(crate) fn snap_drop(parts: &mut Parts) -> Answer
    requires { MayServe (store_of parts.old) }
    ensures { ServesRequest Request.SnapDrop (store_of parts.old) result (store_of parts.new) }
{
    parts.served += 1;
    if !parts.snapshot.is_some() {
        return Answer::NoSnap;
    }
    drop_open(parts);
    Answer::Replied(Reply::Done)
}
