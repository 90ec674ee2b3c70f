//! Scrubs.
ghost use Rattle.std.specs.Prelude.{◌≡◌, map, IfOk};
ghost use Rattle.session_rules.specs.Scrubs.{lost_at};
ghost use Rattle.session_rules.specs.declared.request.Request.{Request};
ghost use Rattle.store_scrub.specs.Lost.{lost_in};
ghost use Rattle.session_store.specs.Inside.{store_of};
ghost use Rattle.session_store.specs.Kept.{IsStore, MayServe, ServesRequest};
ghost use Rattle.session_store.specs.Stored.{places_in};

use crate::session_parts::Parts;
use session_rules::{Answer, LostChunk};
use std::alloc::{AllocError, Global};
use store_map::ListOf;
use store_scrub::LostChunk as ScrubbedChunk;

// The lost chunks of a scrub as a session lists them.
fn listed(alloc: Global, scrubbed: Vec<ScrubbedChunk>) -> Result<Vec<LostChunk>, AllocError>
    ensures { IfOk result (λ lost. lost.items ≡ map lost_in scrubbed.items) }
{
    let mut lost = Vec::with_capacity(alloc, scrubbed.len())?;
    for chunk in scrubbed {
        let ScrubbedChunk {
            name,
            stripe,
            server,
        } = chunk;
        lost.push_reserved(LostChunk {
            name,
            stripe,
            server,
        });
    }
    Ok(lost)
}

/// The chunks of the objects that their servers don't hold, in order.
pub(crate) fn lost_chunks(parts: &Parts) -> Result<Vec<LostChunk>, AllocError>
    requires { IsStore (store_of parts.now) }
    ensures { IfOk result (λ lost. lost.items ≡ lost_at (places_in (store_of parts.now))) }
{
    let places = &parts.places;
    let report = store_scrub::scrub(parts.alloc, &places.directory, &places.servers)?;
    listed(parts.alloc, report.lost)
}

/// The lost chunks are listed.
pub(crate) fn scrub(parts: &mut Parts) -> Answer
    requires { MayServe (store_of parts.old) }
    ensures { ServesRequest Request.Scrub (store_of parts.old) result (store_of parts.new) }
{
    let lost = lost_chunks(parts);
    parts.served += 1;
    match lost {
        Ok(lost) => Answer::Scrubbed(ListOf::from_vec(lost)),
        Err(_) => Answer::NoMemory,
    }
}
