//! The stripes of an object that meet a range of its bytes, and copies of them.
ghost use Rattle.std.specs.Prelude.{◌≡◌, ◌-◌, ◌<◌, map, IfOk};
ghost use Rattle.store_map.specs.Limits.{stripes_met};
ghost use Rattle.snapshot_view.specs.Met.{met_by, told_seen};

use call_steps::Seen;
use std::alloc::{AllocError, Global};

// How many stripes meet the bytes from `start` up to `end`.
fn count_met(stripe_len: u64, start: u64, end: u64) -> u64
    requires { 0 < stripe_len }
    ensures { result ≡ stripes_met stripe_len start (end - start) }
{
    if end <= start {
        return 0;
    }
    (end - 1) / stripe_len - start / stripe_len + 1
}

// The stripes that meet them, by the length of a stripe.
pub(crate) fn those_met(stripes: &[Seen], stripe_len: u64, start: u64, end: u64) -> &[Seen]
    requires { 0 < stripe_len }
    ensures { result.now ≡ met_by stripe_len start end stripes.now }
{
    let first = (start / stripe_len).min(stripes.len() as u64);
    let rest = &stripes[first as usize..];
    let count = count_met(stripe_len, start, end).min(rest.len() as u64);
    &rest[..count as usize]
}

fn copy_of(alloc: Global, seen: &Seen) -> Result<Seen, AllocError>
    ensures { IfOk result (λ copy. told_seen copy ≡ told_seen seen.now) }
{
    Ok(Seen {
        stripe: seen.stripe,
        stamp: seen.stamp.copy(),
        placed: Vec::from_slice(alloc, &seen.placed)?,
    })
}

// The same stripes in memory of their own.
pub(crate) fn copies_of(alloc: Global, stripes: &[Seen]) -> Result<Vec<Seen>, AllocError>
    ensures { IfOk result (λ copies. map told_seen copies.items ≡ map told_seen stripes.now) }
{
    let mut copies = Vec::with_capacity(alloc, stripes.len())?;
    for seen in stripes {
        copies.push(copy_of(alloc, seen)?)?;
    }
    Ok(copies)
}
