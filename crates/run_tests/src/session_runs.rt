//! One session over a source and a sink in memory that give and take one byte a call.
use clay_bytes::{DripSink, DripSource};
use clay_par::ParCoder;
use frame_session::{SessionStatus, frame_main};
use std::alloc::{AllocError, Global};
use std::test::Fail;
use std::thread::Threads;
use text_tables::counting::Counting;

// The bytes of an output that are kept, which are all of it in each test.
const ROOM: usize = 4096;

/// Stripes of 8 bytes over 4 servers, of which any two are enough; objects have 64 bytes at most.
pub const WORDS: &[u8] = b"2 2 1 64";

/// The calls of the source and of the sink that fail, counted from 0.
#[derive(Clone, Copy)]
pub struct Failing<'a> {
    pub reads: &'a [u64],
    pub writes: &'a [u64],
}

/// Nothing fails.
pub const NOTHING: Failing<'static> = Failing {
    reads: &[],
    writes: &[],
};

/// How a session ended, and what it wrote.
#[derive(Drop)]
pub struct Ran {
    pub status: SessionStatus,
    pub written: Vec<u8>,
}

// The words of a text, parted by blanks.
fn words_of(alloc: Global, text: &[u8]) -> Result<Vec<String>, Fail> {
    let mut words = Vec::new(alloc);
    for word in text.split(|byte| *byte == b' ') {
        words.push(String::from_utf8(Vec::from_slice(alloc, word)?)?)?;
    }
    Ok(words)
}

fn source_of(alloc: Global, input: &[u8], failing: Failing) -> Result<DripSource, AllocError> {
    Ok(DripSource::new(
        Vec::from_slice(alloc, input)?,
        Vec::from_slice(alloc, failing.reads)?,
    ))
}

fn sink_of(alloc: Global, failing: Failing) -> Result<DripSink, AllocError> {
    Ok(DripSink::new(
        Vec::with_capacity(alloc, ROOM)?,
        Vec::from_slice(alloc, failing.writes)?,
    ))
}

/// The session of these words and this input.
pub fn run_with<R: Threads + Sync + AllocGlobal>(
    rt: &R,
    words: &[u8],
    input: &[u8],
    failing: Failing,
    coder: &Counting<ParCoder>,
) -> Result<Ran, Fail> {
    let alloc = rt.alloc();
    let words = words_of(alloc, words)?;
    let mut source = source_of(alloc, input, failing)?;
    let mut sink = sink_of(alloc, failing)?;
    let status = frame_main(rt, alloc, &words, &mut source, &mut sink, coder);
    let written = Vec::from_slice(alloc, sink.kept())?;
    Ok(Ran { status, written })
}
