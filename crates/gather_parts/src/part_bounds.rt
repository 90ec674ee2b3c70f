//! The gathering of the next stripe with wanted bytes.
ghost use Rattle.std.specs.Prelude.{◌≡◌, ◌-◌, ◌*◌, false, nat_lt, min, All, map, None, Some, IfOk, IfSome, if◌then◌else◌};
ghost use Rattle.std.specs.Vec.Iter.{into_iter_items};
ghost use Rattle.clay_grid.specs.Shape.{stripe_length};
ghost use Rattle.gather_parts.specs.Wanted.{wanted_of, IsPinned};
ghost use Rattle.gather_parts.specs.Steps.{next_of};
ghost use Rattle.gather_parts.specs.Progress.{is_due_at, progress_by};
ghost use Rattle.gather_parts.specs.Inside.{IsAtWork};

use clay_grid::Geometry;
use gathering::Gather;
use std::alloc::{AllocError, Global};
use std::vec::IntoIter;
use stripe_dir::Seen;
use version_seal::Opening;

// Of an object's bytes from start up to end those in a stripe, counted from the stripe's start.
fn bounds_in(geometry: Geometry, stripe: u32, start: u64, end: u64) -> Option<(u32, u32)>
    ensures { result ≡ (if nat_lt (start - stripe * stripe_length geometry) (min (end - stripe * stripe_length geometry) (stripe_length geometry))
        then Some (start - stripe * stripe_length geometry, min (end - stripe * stripe_length geometry) (stripe_length geometry)) else None) }
{
    let long = u64::from(geometry.stripe_len());
    let first = u64::from(stripe) * long;
    let from = start.saturating_sub(first);
    let to = end.saturating_sub(first).min(long);
    if from < to {
        Some((from as u32, to as u32))
    } else {
        None
    }
}

/// Begins with the first of the stripes that has wanted bytes; those before it are passed over.
pub(crate) fn next_gather(
    alloc: Global,
    opening: &Opening,
    left: &mut IntoIter<Seen>,
    start: u64,
    end: u64,
) -> Result<Option<Gather>, AllocError>
    requires { All (IsPinned opening.now) (into_iter_items left.old) }
    ensures next { IfOk result (λ current. (current, map (wanted_of opening.now.geometry start end) (into_iter_items left.new))
        ≡ next_of opening.now.geometry (map (wanted_of opening.now.geometry start end) (into_iter_items left.old))) }
    ensures pinned { All (IsPinned opening.now) (into_iter_items left.new) }
    ensures work { IfOk result (λ current. IfSome current (IsAtWork opening.now)) }
    ensures settled { IfOk result (λ current. is_due_at (progress_by opening.now.geometry current (map (wanted_of opening.now.geometry start end) (into_iter_items left.new))) ≡ false) }
{
    let geometry = opening.geometry();
    while let Some(seen) = left.next() {
        if let Some((from, to)) = bounds_in(geometry, seen.stripe, start, end) {
            return Ok(Some(Gather::range(alloc, geometry, seen, from, to)?));
        }
    }
    Ok(None)
}
