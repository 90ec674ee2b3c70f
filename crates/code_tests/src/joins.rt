//! A file joined from its shares, of which some are missing, rotten or can't be read, with each call failing in turn.
ghost use Rattle.std.specs.Prelude.{◌≡◌, ◌≤◌, length};

use crate::test_shares::{FILE, cut_shares};
use crate::{expect_bytes, expect_same, new_crc};
use clay_aloof::AloofGeometry;
use clay_bytes::MemSink;
use file_bytes::{MemFile, SinkAt};
use share_files::{JoinFault, join};
use share_format::ShareHeader;
use std::alloc::Global;
use std::process::Abort;

// What goes wrong with the shares, or with what is joined from them.
#[derive(Clone, Copy)]
enum Harm {
    // The first so many shares are missing.
    Missing(usize),
    // A byte of this share is another one.
    Rot(usize, u64),
    // The first share is missing, and this read of the last one fails.
    FailedRead(u64),
    // This write of the joined file fails.
    FailedWrite(u64),
}

// Makes the first so many shares empty.
fn empty(alloc: Global, shares: &mut [MemFile], count: usize)
    requires { count ≤ length shares.old }
{
    for share in 0..count {
        shares[share] = MemFile::new(Vec::new(alloc), 1, None);
    }
}

// The number of the last share's call that fails: it took three writes before.
fn failing_call(harm: Harm) -> Option<u64> {
    match harm {
        Harm::FailedRead(read) => Some(read.saturating_add(3)),
        _ => None,
    }
}

// Harms shares.
fn harm_shares(alloc: Global, shares: &mut [MemFile], harm: Harm)
    requires { length shares.old ≡ 5 }
{
    match harm {
        Harm::Missing(count) if count < 5 => empty(alloc, shares, count),
        Harm::Rot(share, at) if share < 5 => {
            let _written = shares[share].write_at(at, b"?");
        }
        Harm::FailedRead(_) => empty(alloc, shares, 1),
        _ => {}
    }
}

// A sink with room for the file.
fn new_sink(rt: &impl Abort, alloc: Global, harm: Harm) -> MemSink {
    let mut failing = Vec::new(alloc);
    if let Harm::FailedWrite(write) = harm {
        failing.push(write).expect(rt, "room");
    }
    MemSink::new(Vec::with_capacity(alloc, 64).expect(rt, "room"), failing)
}

// Joins harmed shares: the file comes back, unless another end is wanted, and each share's block is missed first at the stripe in `missed`.
fn expect_join(
    rt: &impl Abort,
    alloc: Global,
    harm: Harm,
    wanted: Result<(), JoinFault>,
    missed: [Option<u64>; 5],
) {
    let crc = new_crc(rt, alloc);
    let geometry = AloofGeometry::new(2, 3, 3, 1).expect(rt, "a code");
    let header = ShareHeader::new(geometry, 0, FILE.len() as u64, crc.checksum(FILE));
    let mut shares = cut_shares(rt, alloc, &crc, geometry, FILE, failing_call(harm));
    harm_shares(alloc, &mut shares, harm);
    let mut sink = new_sink(rt, alloc, harm);
    let mut found = [None; 5];
    let joined = join(alloc, &crc, &header, &mut shares, &mut sink, &mut found);
    expect_same(rt, joined, wanted);
    expect_same(rt, found, missed);
    if wanted.is_ok() {
        expect_bytes(rt, sink.kept(), FILE);
    }
}

/// Where shares miss a block first of which the first so many are missing.
const FIRST_MISSED: [[Option<u64>; 5]; 5] = [
    [None; 5],
    [Some(0), None, None, None, None],
    [Some(0), Some(0), None, None, None],
    [Some(0), Some(0), Some(0), None, None],
    [Some(0), Some(0), Some(0), Some(0), None],
];

#[test]
fn any_two_of_five_are_enough(rt: HostRuntime) {
    let alloc = rt.alloc();
    for count in 0..4usize {
        let harm = Harm::Missing(count);
        expect_join(&rt, alloc, harm, Ok(()), FIRST_MISSED[count]);
    }
    let too_few = Err(JoinFault::TooFew(0));
    expect_join(&rt, alloc, Harm::Missing(4), too_few, FIRST_MISSED[4]);
}

// The second block begins at byte 136. Rot of a parity share isn't read where the data shares are good.
#[test]
fn rot_is_noted(rt: HostRuntime) {
    let alloc = rt.alloc();
    for at in [64, 135, 136, 207u64] {
        let missed = [Some(at / 136), None, None, None, None];
        expect_join(&rt, alloc, Harm::Rot(0, at), Ok(()), missed);
        expect_join(&rt, alloc, Harm::Rot(4, at), Ok(()), [None; 5]);
    }
}

#[test]
fn each_read_and_each_write_fails_in_turn(rt: HostRuntime) {
    let alloc = rt.alloc();
    let unwritten = Err(JoinFault::WriteFault);
    for call in 0..2u64 {
        let missed = [Some(0), None, None, None, Some(call)];
        expect_join(&rt, alloc, Harm::FailedRead(call), Ok(()), missed);
        expect_join(&rt, alloc, Harm::FailedWrite(call), unwritten, [None; 5]);
    }
}
