//! Calls of the program over a source that gives a byte a call and a sink that takes one, by a coder that counts.
use crate::command_runs::{Ran, run_with};
use crate::meeting::MeetingGate;
use clay_bytes::{DripSink, DripSource};
use clay_par::ParCoder;
use std::alloc::Global;
use std::sync::Wait;
use std::test::Fail;
use std::thread::Threads;
use text_tables::counting::Counting;

/// The numbers of the reads and of the writes that fail.
#[derive(Clone, Copy)]
pub struct Failing<'a> {
    pub reads: &'a [u64],
    pub writes: &'a [u64],
}

pub const NONE: Failing<'static> = Failing {
    reads: &[],
    writes: &[],
};

fn source_of(alloc: Global, input: &[u8], reads: &[u64]) -> Result<DripSource, Fail> {
    let input = Vec::from_slice(alloc, input)?;
    Ok(DripSource::new(input, Vec::from_slice(alloc, reads)?))
}

fn sink_of(alloc: Global, writes: &[u64]) -> Result<DripSink, Fail> {
    let writes = Vec::from_slice(alloc, writes)?;
    Ok(DripSink::new(Vec::with_capacity(alloc, 256)?, writes))
}

fn ran<R: Threads + Wait + Sync + AllocGlobal>(
    rt: &R,
    words: &[&str],
    source: &mut DripSource,
    sink: &mut DripSink,
    coder: &Counting<ParCoder>,
) -> Result<Ran, Fail> {
    let gate = MeetingGate::counting();
    let status = run_with(rt, words, source, sink, &gate, coder)?;
    let written = Vec::from_slice(rt.alloc(), sink.kept())?;
    Ok(Ran { status, written })
}

/// Calls the program with these words on the input.
pub fn run_in_drips<R: Threads + Wait + Sync + AllocGlobal>(
    rt: &R,
    words: &[&str],
    input: &[u8],
    failing: Failing<'_>,
    coder: &Counting<ParCoder>,
) -> Result<Ran, Fail> {
    let mut source = source_of(rt.alloc(), input, failing.reads)?;
    let mut sink = sink_of(rt.alloc(), failing.writes)?;
    ran(rt, words, &mut source, &mut sink, coder)
}
