//! How long the writing of parity takes by the plain call, and by a code that is prepared.

ghost use Rattle.std.specs.Prelude.{◌≡◌, ◌*◌, length};
ghost use Rattle.clay_grid.specs.Shape.{chunk_length, stripe_length};

use crate::bench_words::setting;
use crate::least::BothLeast;
use crate::task::BYTE;
use crate::timed_coding::stripes_of;
use clay_lanes::{Prepared, parity_into};
use std::alloc::{AllocError, Global};
use std::io;
use std::time::{Clock, Duration};

// Writes a stripe's parity chunks, by the plain call or with the prepared factors.
fn write(
    alloc: Global,
    prepared: &Prepared,
    plain: bool,
    stripe: &[u8],
    chunks: &mut [u8],
) -> Result<(), AllocError>
    requires stripe { length stripe.now ≡ stripe_length prepared.now }
    requires chunks { length chunks.old ≡ prepared.now.parity_count * chunk_length prepared.now }
{
    if plain {
        return parity_into(alloc, prepared.geometry(), stripe, chunks);
    }
    prepared.parity_into(alloc, stripe, chunks)
}

// How long the writing takes of a MiB.
fn timed(
    rt: &impl Clock,
    alloc: Global,
    prepared: &Prepared,
    plain: bool,
    stripe: &[u8],
    chunks: &mut [u8],
) -> io::Result<Duration>
    requires stripe { length stripe.now ≡ stripe_length prepared.now }
    requires chunks { length chunks.old ≡ prepared.now.parity_count * chunk_length prepared.now }
{
    let begun = rt.monotonic()?;
    for _time in 0..stripes_of(prepared.geometry()) {
        write(alloc, prepared, plain, stripe, chunks)?;
    }
    Ok(rt.monotonic()?.saturating_sub(begun))
}

// The least times of the rounds, one of each kind in turn.
fn time_rounds(
    rt: &impl Clock,
    alloc: Global,
    prepared: &Prepared,
    stripe: &[u8],
    chunks: &mut [u8],
    rounds: u32,
) -> io::Result<BothLeast>
    requires stripe { length stripe.now ≡ stripe_length prepared.now }
    requires chunks { length chunks.old ≡ prepared.now.parity_count * chunk_length prepared.now }
{
    let mut least = BothLeast::new();
    for _round in 0..rounds {
        let plain = timed(rt, alloc, prepared, true, stripe, chunks)?;
        least.note(plain, timed(rt, alloc, prepared, false, stripe, chunks)?);
    }
    Ok(least)
}

// The same with a stripe of its own.
fn time_code(
    rt: &impl Clock,
    alloc: Global,
    prepared: &Prepared,
    rounds: u32,
) -> io::Result<BothLeast> {
    let g = prepared.geometry();
    let stripe = vec![in alloc; BYTE; g.stripe_len() as usize]?;
    let mut chunks = vec![in alloc; 0u8; g.m() as usize * g.chunk_len() as usize]?;
    time_rounds(rt, alloc, prepared, &stripe, &mut chunks, rounds)
}

/// Of stripes of a MiB together or of one that has more.
pub fn time_prepared<R: Clock + Print>(
    rt: &R,
    alloc: Global,
    words: &[String],
) -> anyhow::Result<()> {
    let (g, rounds) = setting(words)?;
    let prepared = Prepared::new(alloc, g)?;
    time_code(rt, alloc, &prepared, rounds)?.tell(rt)?;
    Ok(())
}
