//! Files that move few bytes a call, and whose calls fail in turn.
ghost use Rattle.std.specs.Prelude.{◌+◌, ◌<◌, ◌^◌, length};

use crate::{expect_bytes, expect_same};
use clay_bytes::WriteFault;
use file_bytes::{MemFile, ReadFault, StdFile, read_exact_at, write_all_at};
use std::alloc::Global;
use std::io;
use std::os::unix::fs::FileExt;
use std::process::Abort;

// A file of ten bytes, of which a call moves three.
fn ten_bytes(rt: &impl Abort, alloc: Global, failing: Option<u64>) -> MemFile {
    let mut bytes = Vec::with_capacity(alloc, 16).expect(rt, "room");
    bytes.extend_from_slice(b"ten bytes!").expect(rt, "room");
    MemFile::new(bytes, 3, failing)
}

#[test]
fn bytes_come_back_in_pieces(rt: HostRuntime) {
    let mut file = ten_bytes(&rt, rt.alloc(), None);
    let mut got = [0u8; 5];
    expect_same(&rt, write_all_at(&mut file, 8, b"s and on"), Ok(()));
    expect_same(&rt, write_all_at(&mut file, 0, b"two"), Ok(()));
    expect_same(&rt, read_exact_at(&mut file, 6, &mut got), Ok(()));
    expect_bytes(&rt, &got, b"tes a");
    expect_bytes(&rt, file.bytes(), b"two bytes and on");
}

// What reading ten bytes from a position on answers, where a call fails.
fn read_from(rt: &impl Abort, alloc: Global, at: u64, failing: Option<u64>) -> Option<ReadFault>
    requires { at + 10 < 2 ^ 64 }
{
    let mut file = ten_bytes(rt, alloc, failing);
    let mut got = [0u8; 10];
    read_exact_at(&mut file, at, &mut got).err()
}

// What writing these bytes answers, where a call fails.
fn write_to(
    rt: &impl Abort,
    alloc: Global,
    at: u64,
    bytes: &[u8],
    failing: Option<u64>,
) -> Option<WriteFault>
    requires { at + length bytes.now < 2 ^ 64 }
{
    let mut file = ten_bytes(rt, alloc, failing);
    write_all_at(&mut file, at, bytes).err()
}

#[test]
fn each_call_fails_in_turn(rt: HostRuntime) {
    let alloc = rt.alloc();
    for call in 0..4u64 {
        let unread = read_from(&rt, alloc, 0, Some(call));
        expect_same(&rt, unread, Some(ReadFault::Failed));
        let unwritten = write_to(&rt, alloc, 2, b"ten bytes!", Some(call));
        expect_same(&rt, unwritten, Some(WriteFault));
    }
    let ended = read_from(&rt, alloc, 1, None);
    expect_same(&rt, ended, Some(ReadFault::Ended));
    let too_far = write_to(&rt, alloc, 1 << 40, b"far", None);
    expect_same(&rt, too_far, Some(WriteFault));
}

// A file that takes nothing, and whose reads fail.
#[derive(Drop)]
struct Stuck;

impl FileExt for Stuck {
    fn read_at(&self, _buf: &mut [u8], _offset: u64) -> io::Result<usize> {
        Err(io::Error::from(io::ErrorKind::PermissionDenied))
    }

    fn write_at(&self, _buf: &[u8], _offset: u64) -> io::Result<usize> {
        Ok(0)
    }
}

#[test]
fn a_write_that_takes_nothing_fails(rt: HostRuntime) {
    let mut file = StdFile::new(Stuck);
    let mut got = [0u8; 1];
    expect_same(&rt, write_all_at(&mut file, 0, b"x"), Err(WriteFault));
    let read = read_exact_at(&mut file, 0, &mut got);
    expect_same(&rt, read, Err(ReadFault::Failed));
}
