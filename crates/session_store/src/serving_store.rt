//! The store of a session.
ghost use Rattle.std.specs.Prelude.{◌≡◌, ◌+◌, ◌<◌, ◌^◌, false, None, IfOk};
ghost use Rattle.clay_grid.specs.Shape.{chunk_count};
ghost use Rattle.session_rules.specs.State.{first_state};
ghost use Rattle.session_store.specs.Standing.{StandsAt};
ghost use Rattle.session_store.specs.Inside.{store_of};
ghost use Rattle.session_store.specs.Kept.{MayServe, ServesRequest};
ghost use Rattle.session_store.specs.Serving.{NamesServerBelow, ServesAll, served_one};

use crate::heals::heal;
use crate::new_store::new_parts;
use crate::open_snapshots::{drop_open, snap, snap_drop};
use crate::rebuilds::rebuild;
use crate::scrubs::scrub;
use crate::seats::{leave_seat, leave_tickets};
use crate::served_calls::serve_call;
use crate::served_losses::lose;
use crate::session_parts::Parts;
use crate::snapshot_reads::snap_read;
use clay_grid::Geometry;
use clay_model::Coder;
use session_rules::{Answer, Request};
use std::alloc::{AllocError, Global};
use std::marker::Model;
use std::thread::Threads;
use store_map::Rebuild;

/// The objects of one session, their chunks, and the snapshot that is open, if one is. It has to be
/// closed.
pub struct SessionStore {
    parts: Parts,
}

impl Model for SessionStore {
    ghost use Rattle.session_store.specs.Stored.{StoreOf};

    ghost Value = { StoreOf };

    ghost use Rattle.session_store.specs.Inside.{store_in, IsKept};

    ghost view = { store_in };

    ghost invariant = { IsKept };
}

impl SessionStore {
    /// A store without objects, of a code, whose objects may have `max` bytes each.
    pub fn new(alloc: Global, geometry: Geometry, max: u32) -> Result<SessionStore, AllocError>
        ensures code { IfOk result (λ store. store.geometry ≡ geometry) }
        ensures most { IfOk result (λ store. store.max ≡ max) }
        ensures none { IfOk result (λ store. store.served ≡ 0) }
        ensures stands { IfOk result (λ store. StandsAt store (first_state geometry)) }
    {
        let parts = new_parts(alloc, geometry, max)?;
        Ok(SessionStore { parts })
    }

    /// Whether its directory keeps the points of its history. It doesn't: of the calls that it served a
    /// store keeps for ever each object's name, once, and the stamps of what they drew.
    pub fn keeps_points(&self) -> bool
        ensures { result ≡ false }
    {
        self.parts.places.directory.keeps_points()
    }

    /// Serves a request; a server that it names is one that there is. A store serves fewer than 2^32.
    /// Where an allocation fails it is answered so, and the state stays; a heal may then have made some
    /// chunks anew, but not all. A loss and the drop of a snapshot allocate nothing, and are never
    /// answered so.
    pub fn serve<R: Threads + Sync, C: Coder>(
        &mut self,
        rt: &R,
        coder: &C,
        request: Request,
    ) -> Answer
        requires few { self.old.served + 1 < 2 ^ 32 }
        requires there { NamesServerBelow (chunk_count self.old.geometry) request }
        ensures serves { ServesAll request self.old result self.new }
        ensures same { self.new ≡ served_one self.old self.new }
    {
        serve_request(rt, coder, &mut self.parts, request)
    }

    /// Ends the session: its objects are gone.
    pub fn close(self) {
        let SessionStore { mut parts } = self;
        if parts.snapshot.is_some() {
            drop_open(&mut parts);
        }
        leave(parts);
    }
}

// Serves a request, each kind by its own function.
fn serve_request<R: Threads + Sync, C: Coder>(
    rt: &R,
    coder: &C,
    parts: &mut Parts,
    request: Request,
) -> Answer
    requires may { MayServe (store_of parts.old) }
    requires there { NamesServerBelow (chunk_count parts.old.places.book.geometry) request }
    ensures { ServesRequest request (store_of parts.old) result (store_of parts.new) }
{
    match request {
        Request::OfMap(call) => serve_call(rt, coder, parts, &call),
        Request::Lose { server } => lose(parts, server),
        Request::Rebuild {
            name,
            stripe,
            server,
        } => {
            let chunk = Rebuild {
                name,
                stripe,
                server,
            };
            rebuild(rt, coder, parts, &chunk)
        }
        Request::Snap => snap(parts),
        Request::SnapRead {
            name,
            offset,
            length,
        } => snap_read(rt, coder, parts, &name, offset, length),
        Request::SnapDrop => snap_drop(parts),
        Request::Scrub => scrub(parts),
        Request::Heal => heal(rt, coder, parts),
    }
}

// Spends a store in which no snapshot is open.
fn leave(parts: Parts)
    requires { parts.snapshot ≡ None }
{
    let Parts {
        alloc: _,
        places,
        served: _,
        client,
        repairer,
        healer,
        next: _,
        snapshot,
        tickets,
    } = parts;
    leave_seat(client);
    leave_seat(repairer);
    leave_seat(healer);
    if let Some(_snapshot) = snapshot {
        unreachable!();
    }
    leave_tickets(tickets);
    drop(places);
}
