//! What no clause says of sources and sinks: calls with ample memory, std's readers and writers.
use crate::holds;
use clay_bytes::{
    Failed, InFault, MemSink, MemSource, Sink, Source, StdSink, StdSource, SureSink, SureSource,
    WriteFault, read_all, write_all,
};
use std::alloc::{AllocError, Global};
use std::io;
use std::io::{ErrorKind, Read, Write};
use std::test::Fail;

fn read_with(alloc: Global, failing: &[u64], budget: u64) -> Result<Vec<u8>, InFault> {
    let bytes = b"abcdef".to_vec(alloc)?;
    let failing = failing.to_vec(alloc)?;
    read_all(alloc, &mut MemSource::new(bytes, failing), budget)
}

// Whether what was read are these bytes, or the fault is this one.
fn is_so(read: &Result<Vec<u8>, InFault>, wanted: Result<&[u8], InFault>) -> bool {
    match (read, wanted) {
        (Ok(bytes), Ok(wanted)) => bytes.as_slice() == wanted,
        (Err(fault), Err(wanted)) => *fault == wanted,
        _ => false,
    }
}

fn ends_so(
    alloc: Global,
    failing: &[u64],
    budget: u64,
    wanted: Result<&[u8], InFault>,
) -> Result<(), Fail> {
    let read = read_with(alloc, failing, budget);
    holds(is_so(&read, wanted), "read")
}

// How many bytes are read of so many.
fn read_of(alloc: Global, count: usize, budget: u64) -> Result<usize, InFault> {
    let long = vec![in alloc; 7u8; count]?;
    Ok(read_all(alloc, &mut SureSource::new(long), budget)?.len())
}

fn reads_many(alloc: Global) -> Result<(), Fail> {
    holds(read_of(alloc, 200_000, 200_000) == Ok(200_000), "all")?;
    holds(
        read_of(alloc, 200_000, 199_999) == Err(InFault::InputTooLong),
        "too long",
    )
}

#[test]
fn reads_to_the_end(rt: HostRuntime) -> Result<(), Fail> {
    let alloc = rt.alloc();
    ends_so(alloc, &[], 6, Ok(b"abcdef"))?;
    ends_so(alloc, &[2, 7], u64::MAX, Ok(b"abcdef"))?;
    ends_so(alloc, &[], 5, Err(InFault::InputTooLong))?;
    ends_so(alloc, &[0], 6, Err(InFault::ReadFault))?;
    ends_so(alloc, &[1], 6, Err(InFault::ReadFault))?;
    reads_many(alloc)
}

fn keeps(sink: &mut SureSink) -> Result<(), Fail> {
    holds(write_all(sink, b"abc") == Ok(()), "first")?;
    holds(write_all(sink, b"de") == Ok(()), "second")?;
    holds(sink.kept() == b"abcd".as_slice(), "kept")?;
    holds(sink.taken() == 5, "taken")
}

fn fails_once(sink: &mut MemSink) -> Result<(), Fail> {
    holds(sink.write(b"abc") == Ok(3), "first")?;
    holds(sink.write(b"d") == Err(Failed), "second")?;
    holds(sink.write(b"e") == Ok(1), "third")?;
    holds(sink.kept() == b"abce".as_slice(), "kept")?;
    holds(sink.taken() == 4, "taken")
}

#[test]
fn keeps_what_has_place_and_fails_once(rt: HostRuntime) -> Result<(), Fail> {
    let alloc = rt.alloc();
    keeps(&mut SureSink::new(Vec::with_capacity(alloc, 4)?))?;
    let failing = [1u64].to_vec(alloc)?;
    fails_once(&mut MemSink::new(Vec::with_capacity(alloc, 8)?, failing))
}

// Interrupts each second call, gives and takes one byte at a time, and fails once its bytes are gone.
#[derive(Drop)]
struct Flaky {
    calls: u8,
    left: u8,
}

impl Flaky {
    fn turn(&mut self) -> io::Result<()> {
        self.calls = self.calls.wrapping_add(1);
        if self.calls % 2 == 1 {
            return Err(io::Error::from(ErrorKind::Interrupted));
        }
        if self.left == 0 {
            return Err(io::Error::from(ErrorKind::BrokenPipe));
        }
        self.left -= 1;
        Ok(())
    }
}

impl Read for Flaky {
    fn read(&mut self, buf: &mut [u8]) -> io::Result<usize> {
        self.turn()?;
        match buf {
            [first, ..] => {
                *first = b'x';
                Ok(1)
            }
            [] => Ok(0),
        }
    }
}

impl Write for Flaky {
    fn write(&mut self, buf: &[u8]) -> io::Result<usize> {
        self.turn()?;
        Ok(buf.len().min(1))
    }

    fn flush(&mut self) -> io::Result<()> {
        Ok(())
    }
}

// Takes nothing.
#[derive(Drop)]
struct Full;

impl Write for Full {
    fn write(&mut self, _buf: &[u8]) -> io::Result<usize> {
        Ok(0)
    }

    fn flush(&mut self) -> io::Result<()> {
        Ok(())
    }
}

// A source reads again behind an interruption.
fn reads_again() -> Result<(), Fail> {
    let mut buf = [0; 4];
    let mut source = StdSource::new(Flaky { calls: 0, left: 1 });
    holds(source.read(&mut buf) == Ok(1), "first")?;
    holds(buf == [b'x', 0, 0, 0], "byte")?;
    holds(source.read(&mut buf) == Err(Failed), "second")
}

// A sink writes again behind an interruption.
fn writes_again() -> Result<(), Fail> {
    let mut sink = StdSink::new(Flaky { calls: 0, left: 2 });
    holds(write_all(&mut sink, b"ab") == Ok(()), "first")?;
    holds(write_all(&mut sink, b"c") == Err(WriteFault), "second")
}

// Of a writer that takes nothing.
fn writes_nothing() -> Result<(), Fail> {
    let full = write_all(&mut StdSink::new(Full), b"c");
    holds(full == Err(WriteFault), "a byte")?;
    holds(write_all(&mut StdSink::new(Full), b"") == Ok(()), "none")
}

#[test]
fn reads_and_writes_by_std() -> Result<(), Fail> {
    reads_again()?;
    writes_again()?;
    writes_nothing()
}

fn said(alloc: Global) -> Result<String, AllocError> {
    format!(in alloc;
        "{Failed}; {}; {}; {}; {WriteFault}",
        InFault::ReadFault,
        InFault::InputTooLong,
        InFault::from(AllocError)
    )
}

#[test]
fn says_what_failed(rt: HostRuntime) -> Result<(), Fail> {
    let wanted =
        "the read or the write failed; a read failed; the input is too long; out of memory; a write failed";
    let said = said(rt.alloc())?;
    holds(said.as_bytes() == wanted.as_bytes(), "words")
}
