//! Which lost chunks a heal makes anew.
ghost use Rattle.std.specs.Prelude.{◌≡◌, ◌<◌, ◌≤◌, ◌+◌, ◌++◌, cond, nat_le, [], length, map, drop, Some, IfOk, OnOk};
ghost use Rattle.std.specs.List.{prefix_len, slice_get};
ghost use Rattle.session_rules.specs.AloneHeals.{rebuild_of};
ghost use Rattle.session_rules.specs.declared.session_answer.LostChunk.{LostChunk as Lost};
ghost use Rattle.session_store.specs.LostStripes.{is_beside, healable, StandTogether};

use crate::session_parts::Parts;
use session_rules::LostChunk;
use std::alloc::AllocError;
use store_map::Rebuild;

// Whether two chunks are of one stripe.
fn are_beside(chunk: &LostChunk, other: &LostChunk) -> bool
    ensures { result ≡ is_beside chunk.now other.now }
{
    other.stripe == chunk.stripe && other.name == chunk.name
}

// Where the chunks end that are of one stripe with the one at a place.
fn end_of_stripe(lost: &[LostChunk], start: usize) -> usize
    requires { start < length lost.now }
    ensures some { start < result }
    ensures within { result ≤ length lost.now }
    ensures stripe { (chunk : Lost) → slice_get lost.now start ≡ Some chunk
        → result ≡ start + prefix_len (is_beside chunk) (drop start lost.now) }
{
    let chunk = &lost[start];
    for end in start..lost.len() {
        if !are_beside(chunk, &lost[end]) {
            return end;
        }
    }
    lost.len()
}

// The lost chunks of a stripe come to the rest, where they are at most so many.
fn add_stripe(
    chunks: &mut Vec<Rebuild>,
    stripe: &[LostChunk],
    most: usize,
) -> Result<(), AllocError>
    ensures { OnOk result (chunks.new.items ≡ chunks.old.items
        ++ map rebuild_of (cond (nat_le (length stripe.now) most) stripe.now [])) }
{
    if stripe.len() > most {
        return Ok(());
    }
    for chunk in stripe {
        chunks.push(Rebuild {
            name: chunk.name.copy()?,
            stripe: chunk.stripe,
            server: chunk.server,
        })?;
    }
    Ok(())
}

/// The chunks that can be made anew: of stripes of which no more chunks are lost than there are parity
/// chunks.
pub(crate) fn to_heal(parts: &Parts, lost: &[LostChunk]) -> Result<Vec<Rebuild>, AllocError>
    requires { StandTogether lost.now }
    ensures { IfOk result (λ chunks. chunks.items ≡ map rebuild_of (healable parts.now.places.book.geometry.parity_count lost.now)) }
{
    let most = parts.places.book.opening().geometry().m() as usize;
    let mut chunks = Vec::new(parts.alloc);
    let mut start = 0;
    while start < lost.len() {
        let end = end_of_stripe(lost, start);
        add_stripe(&mut chunks, &lost[start..end], most)?;
        start = end;
    }
    Ok(chunks)
}
