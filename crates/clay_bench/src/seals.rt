//! How long the calls of a chunk server take whose chunks are sealed.

ghost use Rattle.std.specs.Prelude.{◌≡◌, ◌<◌, length};

use crate::bench_words::number_at;
use crate::least::Least;
use crate::rack::{Rack, ServerCall, VERSIONS};
use crate::sealed_chunks::chunks_of;
use anyhow::ensure;
use clay_grid::Geometry;
use std::alloc::Global;
use std::io;
use std::time::CpuClock;
use version_seal::Book;

// The calls of a round.
const ROUND: [ServerCall; 8] = [
    ServerCall::Prepare,
    ServerCall::Has,
    ServerCall::Settle,
    ServerCall::FetchOne,
    ServerCall::FetchHalf,
    ServerCall::Discard,
    ServerCall::Install,
    ServerCall::Wipe,
];

fn name_of(call: ServerCall) -> &'static str {
    match call {
        ServerCall::Prepare => "prepare",
        ServerCall::Has => "has",
        ServerCall::Settle => "settle",
        ServerCall::FetchOne => "fetch of 1 layer",
        ServerCall::FetchHalf => "fetch of 4 layers",
        ServerCall::Discard => "discard",
        ServerCall::Install => "install",
        ServerCall::Wipe => "wipe",
    }
}

// Times a call of all versions, and tells what came of it.
fn timed(
    rt: &impl CpuClock,
    rack: &mut Rack<'_>,
    call: ServerCall,
    least: &mut Least,
) -> io::Result<u64> {
    let begun = rt.thread_cpu_time()?;
    let came = rack.make(call)?;
    least.note(rt.thread_cpu_time()?.saturating_sub(begun));
    Ok(came)
}

// Times each call once, and tells what came of them.
fn round(rt: &impl CpuClock, rack: &mut Rack<'_>, times: &mut [Least; 8]) -> io::Result<u64> {
    let mut came = 0u64;
    for (place, least) in times.iter_mut().enumerate() {
        let call = ROUND[place];
        if matches!(call, ServerCall::Prepare | ServerCall::Install) {
            rack.stock()?;
        }
        came = came.saturating_add(timed(rt, rack, call, least)?);
    }
    Ok(came)
}

// Prints each call's time for one version.
fn tell(rt: &impl Print, width: u32, times: &[Least; 8]) -> io::Result<()> {
    for (place, least) in times.iter().enumerate() {
        let name = name_of(ROUND[place]);
        let nanoseconds = least.nanoseconds() / VERSIONS;
        println!(rt; "{width} {name}: {nanoseconds} ns")?;
    }
    Ok(())
}

// Runs so many rounds. In each every version is held once, and 5 of its layers come.
fn time_rounds(
    rt: &(impl Print + CpuClock),
    rack: &mut Rack<'_>,
    width: u32,
    rounds: u64,
) -> anyhow::Result<()> {
    let mut times = [Least::new(); 8];
    let wanted = VERSIONS * (1 + 5 * u64::from(width));
    for _round in 0..rounds {
        let came = round(rt, rack, &mut times)?;
        ensure!(came == wanted, "a round's calls gave other counts");
    }
    tell(rt, width, &times)?;
    Ok(())
}

// With subchunks of this width.
fn time_width(
    rt: &(impl Print + CpuClock),
    alloc: Global,
    width: u32,
    rounds: u64,
) -> anyhow::Result<()> {
    let geometry = Geometry::new(4, 2, width)?;
    let (book, sealer) = Book::free(alloc, geometry)?;
    let chunks = chunks_of(alloc, geometry, &book, sealer)?;
    time_rounds(rt, &mut Rack::new(alloc, &book, &chunks), width, rounds)
}

/// By subchunks of 64 bytes and of 4 KiB.
pub fn time_calls(
    rt: &(impl Print + CpuClock),
    alloc: Global,
    words: &[String],
) -> anyhow::Result<()> {
    let rounds = u64::from(number_at(words, 0)?);
    time_width(rt, alloc, 64, rounds)?;
    time_width(rt, alloc, 4096, rounds)
}
