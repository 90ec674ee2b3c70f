//! A file cut into its shares, with each call failing in turn.
use crate::test_shares::{FILE, new_shares, new_source};
use crate::{expect_same, new_crc};
use clay_aloof::AloofGeometry;
use crc64::Crc64;
use share_files::{CutFault, cut};
use std::alloc::Global;
use std::process::Abort;

// What cutting the file answers, where the read, or the last share's write, of this number fails.
fn cut_fault(
    rt: &impl Abort,
    alloc: Global,
    crc: &Crc64,
    geometry: AloofGeometry,
    failing_read: Option<u64>,
    failing_write: Option<u64>,
) -> Option<CutFault> {
    let mut source = new_source(rt, alloc, FILE, failing_read);
    let mut shares = new_shares(rt, alloc, geometry.n() as usize, failing_write);
    cut(alloc, crc, geometry, &mut source, &mut shares).err()
}

#[test]
fn each_read_and_each_write_fails_in_turn(rt: HostRuntime) {
    let alloc = rt.alloc();
    let geometry = AloofGeometry::new(2, 3, 3, 1).expect(&rt, "a code");
    let crc = new_crc(&rt, alloc);
    let cut = cut_fault(&rt, alloc, &crc, geometry, None, None);
    expect_same(&rt, cut, None);
    for call in 0..3u64 {
        let unread = cut_fault(&rt, alloc, &crc, geometry, Some(call), None);
        expect_same(&rt, unread, Some(CutFault::ReadFault));
        let unwritten = cut_fault(&rt, alloc, &crc, geometry, None, Some(call));
        expect_same(&rt, unwritten, Some(CutFault::WriteFault));
    }
}
