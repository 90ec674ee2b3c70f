//! A share without blocks: whole, with each byte changed, cut off, longer, and with each read failing.
use crate::{copied, expect_same, new_crc};
use clay_aloof::AloofGeometry;
use crc64::Crc64;
use file_bytes::MemFile;
use share_files::{ShareFault, check_share};
use share_format::ShareHeader;
use std::alloc::Global;
use std::process::Abort;

// The fault of a file that should be the share of a header. A call moves forty bytes.
fn fault_of(
    rt: &impl Abort,
    alloc: Global,
    crc: &Crc64,
    header: &ShareHeader,
    bytes: &[u8],
    failing: Option<u64>,
) -> Option<ShareFault> {
    let mut file = MemFile::new(copied(rt, alloc, bytes), 40, failing);
    check_share(alloc, crc, header, &mut file).err()
}

// Cuts the share off before each byte, and changes each.
fn check_each_byte(
    rt: &impl Abort,
    alloc: Global,
    crc: &Crc64,
    header: &ShareHeader,
    share: &mut [u8],
) {
    for at in 0..share.len() {
        let cut_off = fault_of(rt, alloc, crc, header, &share[..at], None);
        expect_same(rt, cut_off, Some(ShareFault::Short));
        share[at] ^= 4;
        let changed = fault_of(rt, alloc, crc, header, share, None);
        expect_same(rt, changed.is_some(), true);
        share[at] ^= 4;
    }
}

// Each of five reads fails.
fn check_each_read(
    rt: &impl Abort,
    alloc: Global,
    crc: &Crc64,
    header: &ShareHeader,
    share: &[u8],
) {
    for call in 0..5u64 {
        let unread = fault_of(rt, alloc, crc, header, share, Some(call));
        expect_same(rt, unread, Some(ShareFault::ReadFault));
    }
}

// A share, which isn't that of another header, and then is longer.
fn check_whole(rt: &impl Abort, alloc: Global, header: &ShareHeader, other: &ShareHeader) {
    let crc = new_crc(rt, alloc);
    let mut share = header.bytes(alloc, &crc).expect(rt, "a share");
    let foreign = fault_of(rt, alloc, &crc, other, &share, None);
    expect_same(rt, foreign, Some(ShareFault::Foreign));
    let whole = fault_of(rt, alloc, &crc, header, &share, None);
    expect_same(rt, whole, None);
    check_each_byte(rt, alloc, &crc, header, &mut share);
    check_each_read(rt, alloc, &crc, header, &share);
    share.push(0).expect(rt, "room");
    let longer = fault_of(rt, alloc, &crc, header, &share, None);
    expect_same(rt, longer, Some(ShareFault::Longer));
}

#[test]
fn a_whole_share_passes_and_no_other(rt: HostRuntime) {
    let geometry = AloofGeometry::new(2, 3, 3, 1).expect(&rt, "a code");
    let header = ShareHeader::new(geometry, 3, 0, 0);
    let other = ShareHeader::new(geometry, 4, 0, 0);
    check_whole(&rt, rt.alloc(), &header, &other);
}
