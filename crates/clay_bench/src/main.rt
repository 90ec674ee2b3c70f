//! Measures parts of the store for the scripts in `bench/`: the coders, the calls of a chunk server,
//! and steps at the directory.
#![tactic(auto)]

mod bench_words;
mod drawn_calls;
mod least;
mod rack;
mod sealed_chunks;
mod seals;
mod task;
mod timed_coding;
mod timed_directory;
mod timed_prepared;
mod timed_steps;

use std::alloc::Global;
use std::env;
use std::thread::Threads;
use std::time::{Clock, CpuClock};

const USAGE: &str = "\
clay_bench encode|one|column|spread|rebuild K M WIDTH ROUNDS: nanoseconds in which one thread, and as many as there are processors,
    encode a MiB, or recover a stripe's first chunk, those of a column or as many in several columns, or rebuild the first chunk: of
    stripes of a MiB together, or of one that has more
clay_bench prepared K M WIDTH ROUNDS: nanoseconds in which one thread writes the parity of a MiB, and in which it does so with a prepared code
clay_bench seals ROUNDS: nanoseconds of each call of a chunk server
clay_bench directory (KIND SIZE STEPS)..: makes steps in directories of a size, to be timed from outside";

fn measure<R: Threads + Sync + Clock + CpuClock + Print>(
    rt: &R,
    alloc: Global,
    words: &[String],
) -> anyhow::Result<()> {
    let Some((what, words)) = words.split_first() else {
        println!(rt; "{USAGE}")?;
        return Ok(());
    };
    match what.as_str() {
        "prepared" => timed_prepared::time_prepared(rt, alloc, words),
        "seals" => seals::time_calls(rt, alloc, words),
        "directory" => timed_directory::make_steps(rt, alloc, words),
        name => timed_coding::time_task(rt, alloc, name, words),
    }
}

fn main(rt: HostRuntime) -> anyhow::Result<()> {
    let words: Vec<String> = env::args(&rt)?.skip(1).collect(rt.alloc())?;
    measure(&rt, rt.alloc(), &words)
}
