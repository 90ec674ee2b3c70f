//! The answer to a frame.
ghost use Rattle.std.specs.Prelude.{◌≡◌, ◌+◌, ◌<◌, ◌^◌, length};
ghost use Rattle.clay_grid.specs.Shape.{chunk_count};
ghost use Rattle.frame_session.specs.Serving.{AnswersAll, IsLater};

use clay_model::Coder;
use frame_bytes::request_of;
use session_rules::Answer;
use session_store::SessionStore;
use std::alloc::Global;
use std::thread::Threads;

/// The answer to a frame, of a store with so many servers. A frame that is no request is answered so. Where memory is wanting for
/// the request that it is, that is answered, and the state stays, but at a heal, which may have made some chunks anew.
pub(crate) fn answer_to<R: Threads + Sync, C: Coder>(
    rt: &R,
    alloc: Global,
    coder: &C,
    store: &mut SessionStore,
    servers: u32,
    frame: &[u8],
) -> Answer
    requires few { store.old.served + 1 < 2 ^ 32 }
    requires servers { servers ≡ chunk_count store.old.geometry }
    requires short { length frame.now < 2 ^ 32 }
    ensures answers { AnswersAll frame.now store.old result store.new }
    ensures later { IsLater store.old store.new }
{
    match request_of(alloc, servers, frame) {
        Ok(Some(request)) => store.serve(rt, coder, request),
        Ok(None) => Answer::BadRequest,
        Err(_) => Answer::NoMemory,
    }
}
