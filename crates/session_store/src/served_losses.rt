//! Losses.
ghost use Rattle.std.specs.Prelude.{◌<◌};
ghost use Rattle.clay_grid.specs.Shape.{chunk_count};
ghost use Rattle.session_rules.specs.declared.request.Request.{Request};
ghost use Rattle.session_store.specs.Inside.{store_of};
ghost use Rattle.session_store.specs.Kept.{MayServe, ServesRequest};

use crate::session_parts::Parts;
use session_rules::Answer;
use store_map::Reply;

/// A server loses all its chunks.
pub(crate) fn lose(parts: &mut Parts, server: u32) -> Answer
    requires may { MayServe (store_of parts.old) }
    requires there { server < chunk_count parts.old.places.book.geometry }
    ensures { ServesRequest (Request.Lose server) (store_of parts.old) result (store_of parts.new) }
{
    let lost = &mut parts.places.servers[server as usize];
    lost.wipe();
    parts.served += 1;
    Answer::Replied(Reply::Done)
}
