//! A share's header written and read, with each call failing in turn.
use crate::test_shares::new_share;
use crate::{expect_same, new_crc};
use clay_aloof::AloofGeometry;
use share_files::{HeaderRefusal, PutFault, read_share_header, write_header};
use share_format::ShareHeader;
use std::alloc::Global;
use std::process::Abort;

// Writes a header, where a call fails, and then reads it: each fails for this cause, if for any.
fn expect_faults(
    rt: &impl Abort,
    alloc: Global,
    header: &ShareHeader,
    failing: Option<u64>,
    unwritten: Option<PutFault>,
    unread: Option<HeaderRefusal>,
) {
    let crc = new_crc(rt, alloc);
    let mut share = new_share(rt, alloc, failing);
    let written = write_header(alloc, &crc, &mut share, header);
    expect_same(rt, written.err(), unwritten);
    let read = read_share_header(&mut share, &crc);
    expect_same(rt, read.err(), unread);
}

// A share without a header is empty, and an empty file is no share.
#[test]
fn each_call_fails_in_turn(rt: HostRuntime) {
    let alloc = rt.alloc();
    let geometry = AloofGeometry::new(2, 3, 3, 1).expect(&rt, "a code");
    let header = ShareHeader::new(geometry, 4, 21, 99);
    let (unwritten, short) = (Some(PutFault::WriteFault), Some(HeaderRefusal::Short));
    let unread = Some(HeaderRefusal::ReadFault);
    expect_faults(&rt, alloc, &header, None, None, None);
    expect_faults(&rt, alloc, &header, Some(0), unwritten, short);
    expect_faults(&rt, alloc, &header, Some(1), None, unread);
}
