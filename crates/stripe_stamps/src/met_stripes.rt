//! Which stripes a call pins, and what its look sees of them.
ghost use Rattle.std.specs.Prelude.{◌≡◌, ◌+◌, ◌-◌, ◌<◌, ◌≤◌, ◌/◌, ◌^◌, map, filter, length, get_or, All, IfOk};
ghost use Rattle.std.specs.List.{range_with_len};
ghost use Rattle.store_map.specs.Limits.{stripes_met};
ghost use Rattle.version_table.specs.Known.{IsKnown};
ghost use Rattle.dir_parts.specs.Passes.{kind_in};
ghost use Rattle.stripe_stamps.specs.SeenStripes.{seen_in};
ghost use Rattle.stripe_stamps.specs.SeenStripes.{IsSeenIn};
ghost use Rattle.stripe_stamps.specs.Stamped.{AreNumbered};
ghost use Rattle.stripe_stamps.specs.Stripes.{keeps, seen_by, pin_by, pinned_of, AreThere, AreTold};

use crate::sealing::copy_of;
use call_steps::Seen;
use dir_parts::{CallKind, Pinned};
use std::alloc::{AllocError, Global};
use version_seal::Stamp;
use version_table::Versions;

/// How many stripes meet so many bytes from a first one on. Numbers that don't fit count as want of
/// memory here and below: no object is so long.
pub fn met(stripe_len: u32, start: u64, count: u64) -> Result<u32, AllocError>
    requires { 0 < stripe_len }
    ensures { IfOk result (λ n. n ≡ stripes_met stripe_len start count) }
{
    if count == 0 {
        return Ok(0);
    }
    let Some(last) = start.checked_add(count - 1) else {
        return Err(AllocError);
    };
    let stripe_len = u64::from(stripe_len);
    let more = (last / stripe_len).saturating_sub(start / stripe_len);
    if more >= u64::from(u32::MAX) {
        return Err(AllocError);
    }
    Ok(more as u32 + 1)
}

// So many numbers from a first one on.
fn stripe_numbers(alloc: Global, first: u32, count: u32) -> Result<Vec<u32>, AllocError>
    requires { first + count ≤ 2 ^ 32 }
    ensures { IfOk result (λ numbers. numbers.items ≡ range_with_len first count) }
{
    let mut numbers = Vec::with_capacity(alloc, count as usize)?;
    for i in 0..count {
        numbers.push_reserved(first + i);
    }
    Ok(numbers)
}

// The stripes that meet the bytes from `start` up to `end`, rising.
fn between(alloc: Global, stripe_len: u32, start: u64, end: u64) -> Result<Vec<u32>, AllocError>
    requires { 0 < stripe_len }
    ensures { IfOk result (λ stripes. stripes.items ≡ range_with_len (start / stripe_len) (stripes_met stripe_len start (end - start))) }
{
    let count = met(stripe_len, start, end.saturating_sub(start))?;
    let first = start / u64::from(stripe_len);
    if first > u64::from(u32::MAX - count) {
        return Err(AllocError);
    }
    stripe_numbers(alloc, first as u32, count)
}

// Whether a stripe holds an old byte outside the bytes from `start` up to `end`.
fn keeps(stripe_len: u32, length: u64, start: u64, end: u64, number: u32) -> bool
    ensures { result ≡ keeps stripe_len length start end number }
{
    let begins = u64::from(number) * u64::from(stripe_len);
    let ends = begins + u64::from(stripe_len);
    begins < start.min(length) || end < ends.min(length)
}

// Those of the stripes that hold an old byte outside the bytes that are written.
fn partly_covered(
    alloc: Global,
    stripes: &[u32],
    stripe_len: u32,
    length: u64,
    start: u64,
    end: u64,
) -> Result<Vec<u32>, AllocError>
    ensures { IfOk result (λ kept. kept.items ≡ filter (keeps stripe_len length start end) stripes.now) }
{
    let mut kept = Vec::with_capacity(alloc, stripes.len())?;
    for number in stripes {
        if keeps(stripe_len, length, start, end, *number) {
            kept.push(*number)?;
        }
    }
    Ok(kept)
}

/// The stripes of an object of this length that a call pins, rising.
pub fn pinned_stripes(
    alloc: Global,
    kind: CallKind,
    stripe_len: u32,
    offset: u32,
    count: u32,
    length: u64,
) -> Result<Vec<u32>, AllocError>
    requires { 0 < stripe_len }
    ensures { IfOk result (λ stripes. stripes.items ≡ pinned_of (kind_in kind) stripe_len offset count length) }
{
    let start = u64::from(offset);
    let end = start + u64::from(count);
    match kind {
        CallKind::Get => between(alloc, stripe_len, start, length),
        CallKind::ReadAt => between(alloc, stripe_len, start, end.min(length)),
        CallKind::Write => {
            let touched = between(alloc, stripe_len, start, end)?;
            partly_covered(alloc, &touched, stripe_len, length, start, end)
        }
        _ => Ok(Vec::new(alloc)),
    }
}

/// Stripes as a look tells them, and as its pass keeps them.
#[derive(Drop)]
pub struct Sight {
    pub seen: Vec<Seen>,
    pub pinned: Vec<Pinned>,
}

// A stripe as a look tells it.
fn see_one(
    alloc: Global,
    versions: &Versions,
    stamps: &[Stamp],
    held: &[u64],
    stripe: u32,
) -> Result<Seen, AllocError>
    requires there { IsKnown versions.now.listed (get_or held.now stripe 0) }
    requires stamped { length stamps.now ≡ length versions.now.listed }
    requires numbered { AreNumbered stamps.now }
    ensures seen { IfOk result (λ seen. seen_in seen ≡ seen_by versions.now.listed held.now stripe) }
    ensures stamp { IfOk result (IsSeenIn stamps.now) }
{
    let version = match held.get(stripe as usize) {
        Some(version) => *version,
        None => 0,
    };
    let placed = versions.placed(alloc, version)?;
    Ok(Seen {
        stripe,
        stamp: copy_of(stamps, version),
        placed,
    })
}

/// Looks at these stripes of an object by the current versions of all its stripes.
pub fn see(
    alloc: Global,
    versions: &Versions,
    stamps: &[Stamp],
    held: &[u64],
    stripes: &[u32],
) -> Result<Sight, AllocError>
    requires stamped { length stamps.now ≡ length versions.now.listed }
    requires numbered { AreNumbered stamps.now }
    requires there { AreThere versions.now.listed held.now stripes.now }
    ensures seen { IfOk result (λ sight. AreTold versions.now.listed held.now stripes.now sight.seen.items) }
    ensures pinned { IfOk result (λ sight. sight.pinned.items ≡ map (pin_by held.now) stripes.now) }
    ensures stamps { IfOk result (λ sight. All (IsSeenIn stamps.now) sight.seen.items) }
{
    let mut seen = Vec::with_capacity(alloc, stripes.len())?;
    let mut pinned = Vec::with_capacity(alloc, stripes.len())?;
    for stripe in stripes {
        let one = see_one(alloc, versions, stamps, held, *stripe)?;
        let version = one.stamp.version().0;
        pinned.push(Pinned {
            stripe: *stripe,
            version,
        })?;
        seen.push(one)?;
    }
    Ok(Sight { seen, pinned })
}
