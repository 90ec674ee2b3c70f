//! Answers that are written, with and without room for bytes that wait, and writes that fail.
ghost use Rattle.std.specs.Prelude.{IfOk};
ghost use Rattle.frame_bytes.specs.Writing.{IsWritable};

use clay_bytes::{DripSink, WriteFault};
use frame_bytes::write_answer;
use session_rules::{Answer, LostChunk, Missing};
use std::alloc::{AllocError, Global};
use std::test::Fail;
use store_map::{ByteList, ListOf, Name, NameFault, Reply};
use text_tables::fault_tables::same;

fn sink(alloc: Global, failing: &[u64]) -> Result<DripSink, AllocError> {
    Ok(DripSink::new(
        Vec::with_capacity(alloc, 64)?,
        Vec::from_slice(alloc, failing)?,
    ))
}

// Holds what is written for an answer, one byte at a time, by way of a block of so many bytes, against these bytes.
fn writes(alloc: Global, room: usize, answer: &Answer, bytes: &[u8]) -> Result<(), Fail>
    requires { IsWritable answer.now }
{
    let mut block = Vec::with_capacity(alloc, room)?;
    let mut sink = sink(alloc, &[])?;
    match write_answer(&mut sink, &mut block, answer) {
        Ok(()) => same(sink.kept(), bytes),
        Err(WriteFault) => Err(Fail::from("a write failed")),
    }
}

// The answer whose bytes are this kind alone.
fn answer_of(kind: u8) -> Answer
    ensures { IsWritable result }
{
    match kind {
        0 => Answer::Replied(Reply::Done),
        3 => Answer::Replied(Reply::NoSuch),
        4 => Answer::Replied(Reply::OutRange),
        5 => Answer::Replied(Reply::TooLarge),
        8 => Answer::BadRequest,
        9 => Answer::NoMemory,
        10 => Answer::Rebuilt,
        11 => Answer::Here,
        12 => Answer::NoSnap,
        _ => Answer::SnapOpen,
    }
}

fn writes_kinds_alone(alloc: Global) -> Result<(), Fail> {
    for kind in [0, 3, 4, 5, 8, 9, 10, 11, 12, 13] {
        writes(alloc, 16, &answer_of(kind), &[0, 0, 0, 1, kind])?;
    }
    Ok(())
}

fn writes_numbers(alloc: Global) -> Result<(), Fail> {
    let many = Answer::TooMany(65);
    writes(alloc, 16, &many, b"\0\0\0\x09\x0e\0\0\0\0\0\0\0\x41")?;
    let length = Answer::Replied(Reply::Length(258));
    writes(alloc, 0, &length, b"\0\0\0\x09\x02\0\0\0\0\0\0\x01\x02")
}

fn replied(alloc: Global) -> Result<Answer, AllocError>
    ensures { IfOk result IsWritable }
{
    let bytes = ByteList::from_slice(alloc, &[7, 8])?;
    Ok(Answer::Replied(Reply::Bytes(bytes)))
}

fn writes_bytes(alloc: Global) -> Result<(), Fail> {
    let answer = replied(alloc)?;
    writes(alloc, 16, &answer, b"\0\0\0\x03\x01\x07\x08")?;
    writes(alloc, 6, &answer, b"\0\0\0\x03\x01\x07\x08")
}

// A stripe of which two servers lack their chunks.
fn unavailable(alloc: Global) -> Result<Answer, AllocError>
    ensures { IfOk result IsWritable }
{
    let one = Missing {
        server: 0,
        placed: 0,
        found: 1,
    };
    let two = Missing {
        server: 2,
        placed: 3,
        found: 4,
    };
    let servers = Vec::from_slice(alloc, &[one, two])?;
    Ok(Answer::Unavailable {
        stripe: 1,
        missing: ListOf::from_vec(servers),
    })
}

const UNAVAILABLE: &[u8] = b"\0\0\0\x2e\x06\0\0\0\x01\x02\
\0\0\0\0\0\0\0\0\0\0\0\0\0\0\0\0\0\0\0\x01\
\0\0\0\x02\0\0\0\0\0\0\0\x03\0\0\0\0\0\0\0\x04";

fn writes_unavailable(alloc: Global) -> Result<(), Fail> {
    let answer = unavailable(alloc)?;
    writes(alloc, 64, &answer, UNAVAILABLE)?;
    writes(alloc, 10, &answer, UNAVAILABLE)
}

fn lost(alloc: Global, server: u32) -> Result<LostChunk, NameFault> {
    Ok(LostChunk {
        name: Name::new(alloc, "a")?,
        stripe: 0,
        server,
    })
}

fn lost_chunks(alloc: Global) -> Result<Vec<LostChunk>, Fail> {
    let mut chunks = Vec::new(alloc);
    for server in 0..2u32 {
        chunks.push(lost(alloc, server)?)?;
    }
    Ok(chunks)
}

fn scrubbed(alloc: Global) -> Result<Answer, Fail>
    ensures { IfOk result IsWritable }
{
    let chunks = lost_chunks(alloc)?;
    Ok(Answer::Scrubbed(ListOf::from_vec(chunks)))
}

const SCRUBBED: &[u8] = b"\0\0\0\x19\x0f\0\0\0\x02\x01a\0\0\0\0\0\0\0\0\x01a\0\0\0\0\0\0\0\x01";

fn writes_scrubbed(alloc: Global) -> Result<(), Fail> {
    let answer = scrubbed(alloc)?;
    writes(alloc, 64, &answer, SCRUBBED)?;
    writes(alloc, 0, &answer, SCRUBBED)
}

fn healed(alloc: Global) -> Result<Answer, AllocError>
    ensures { IfOk result IsWritable }
{
    let taken = Vec::from_slice(alloc, &[0u64, 6])?;
    Ok(Answer::Healed {
        rebuilt: 2,
        taken: ListOf::from_vec(taken),
    })
}

const HEALED: &[u8] = b"\0\0\0\x19\x10\0\0\0\0\0\0\0\x02\0\0\0\0\0\0\0\0\0\0\0\0\0\0\0\x06";

#[test]
fn answers_are_written(rt: HostRuntime) -> Result<(), Fail> {
    let alloc = rt.alloc();
    writes_kinds_alone(alloc)?;
    writes_numbers(alloc)?;
    writes_bytes(alloc)?;
    writes_unavailable(alloc)?;
    writes_scrubbed(alloc)?;
    writes(alloc, 64, &healed(alloc)?, HEALED)
}

// How many bytes are written of an answer before the write with this number fails.
fn cut(alloc: Global, room: usize, failing: u64) -> Result<Option<u64>, AllocError> {
    let mut block = Vec::with_capacity(alloc, room)?;
    let mut sink = sink(alloc, &[failing])?;
    match write_answer(&mut sink, &mut block, &Answer::TooMany(65)) {
        Ok(()) => Ok(None),
        Err(WriteFault) => Ok(Some(sink.taken())),
    }
}

fn is_cut(alloc: Global, room: usize, failing: u64, at: Option<u64>) -> Result<(), Fail> {
    let found = cut(alloc, room, failing)?;
    if found == at {
        return Ok(());
    }
    Err(Fail::new(format_args!("write {failing} failed: found {found:?}")))
}

#[test]
fn writes_fail(rt: HostRuntime) -> Result<(), Fail> {
    let alloc = rt.alloc();
    is_cut(alloc, 64, 0, Some(0))?;
    is_cut(alloc, 64, 12, Some(12))?;
    is_cut(alloc, 64, 13, None)?;
    is_cut(alloc, 0, 3, Some(3))?;
    is_cut(alloc, 4, 5, Some(5))
}
