//! One call of the program over a source and a sink in memory, by one kind of gate and of coder: the whole program is built anew for
//! each.
use crate::meeting::MeetingGate;
use clay_bytes::{MemSink, MemSource, Sink, Source};
use clay_cli::{Status, clay_main};
use clay_par::ParCoder;
use std::alloc::Global;
use std::sync::Wait;
use std::test::Fail;
use std::thread::Threads;
use text_tables::counting::Counting;
use text_tables::fault_tables::same;

// The bytes of an output that are kept, which are all of it in each test.
const ROOM: usize = 4_194_304;

/// How a call ended, and what it wrote.
#[derive(Drop)]
pub struct Ran {
    pub status: Status,
    pub written: Vec<u8>,
}

impl Ran {
    /// Holds how it ended and what it wrote against what is wanted.
    pub fn expect(&self, status: Status, written: &[u8]) -> Result<(), Fail> {
        if self.status == status {
            return same(&self.written, written);
        }
        let found = self.status.number();
        Err(Fail::new(format_args!("ended with status {found}")))
    }
}

/// Calls the program with these words, source, sink, gate and coder.
pub fn run_with<R: Threads + Wait + Sync + AllocGlobal, S: Source, K: Sink>(
    rt: &R,
    words: &[&str],
    source: &mut S,
    sink: &mut K,
    gate: &MeetingGate,
    coder: &Counting<ParCoder>,
) -> Result<Status, Fail> {
    let alloc = rt.alloc();
    let mut owned = Vec::new(alloc);
    for word in words {
        owned.push(String::from_str(alloc, word)?)?;
    }
    Ok(clay_main(rt, alloc, &owned, source, sink, gate, coder))
}

fn source_of(alloc: Global, input: &[u8], reads: &[u64]) -> Result<MemSource, Fail> {
    let input = Vec::from_slice(alloc, input)?;
    Ok(MemSource::new(input, Vec::from_slice(alloc, reads)?))
}

fn sink_of(alloc: Global, writes: &[u64]) -> Result<MemSink, Fail> {
    let writes = Vec::from_slice(alloc, writes)?;
    Ok(MemSink::new(Vec::with_capacity(alloc, ROOM)?, writes))
}

fn run_over<R: Threads + Wait + Sync + AllocGlobal>(
    rt: &R,
    words: &[&str],
    source: &mut MemSource,
    sink: &mut MemSink,
    gate: &MeetingGate,
) -> Result<Ran, Fail> {
    let status = run_with(rt, words, source, sink, gate, &Counting::new(ParCoder))?;
    let written = Vec::from_slice(rt.alloc(), sink.kept())?;
    Ok(Ran { status, written })
}

/// Calls the program with this gate where the reads and the writes of these numbers fail.
pub fn run_by<R: Threads + Wait + Sync + AllocGlobal>(
    rt: &R,
    words: &[&str],
    input: &[u8],
    reads: &[u64],
    writes: &[u64],
    gate: &MeetingGate,
) -> Result<Ran, Fail> {
    let mut source = source_of(rt.alloc(), input, reads)?;
    let mut sink = sink_of(rt.alloc(), writes)?;
    run_over(rt, words, &mut source, &mut sink, gate)
}

/// Calls the program where the reads and the writes of these numbers fail.
pub fn run_failing<R: Threads + Wait + Sync + AllocGlobal>(
    rt: &R,
    words: &[&str],
    input: &[u8],
    reads: &[u64],
    writes: &[u64],
) -> Result<Ran, Fail> {
    run_by(rt, words, input, reads, writes, &MeetingGate::counting())
}

/// Calls the program where nothing fails.
pub fn run<R: Threads + Wait + Sync + AllocGlobal>(
    rt: &R,
    words: &[&str],
    input: &[u8],
) -> Result<Ran, Fail> {
    run_failing(rt, words, input, &[], &[])
}

/// Holds the call where the reads and the writes of these numbers fail against this status, with nothing written.
pub fn fails<R: Threads + Wait + Sync + AllocGlobal>(
    rt: &R,
    words: &[&str],
    input: &[u8],
    reads: &[u64],
    writes: &[u64],
    status: Status,
) -> Result<(), Fail> {
    run_failing(rt, words, input, reads, writes)?.expect(status, b"")
}

/// Holds the call where nothing fails against this status and this output.
pub fn answers<R: Threads + Wait + Sync + AllocGlobal>(
    rt: &R,
    words: &[&str],
    input: &[u8],
    status: Status,
    wanted: &[u8],
) -> Result<(), Fail> {
    run(rt, words, input)?.expect(status, wanted)
}
