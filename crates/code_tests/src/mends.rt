//! Each share of a file mended, with rot and failing calls.
ghost use Rattle.std.specs.Prelude.{◌≡◌, ◌≤◌, ◌<◌, ◌^◌, length};
ghost use Rattle.clay_aloof.specs.Shape.{all_chunks};

use crate::test_shares::{cut_shares, new_file, new_share};
use crate::{copied, expect_bytes, expect_same, new_crc};
use clay_aloof::AloofGeometry;
use crc64::Crc64;
use file_bytes::{MemFile, SinkAt};
use share_format::ShareHeader;
use share_mends::{MendFault, RottenPart, mend};
use share_run::choose_helpers;
use std::alloc::Global;
use std::process::Abort;

// What a mend of a share answers. The first others help, but for those of its column first.
fn mend_share(
    rt: &impl Abort,
    alloc: Global,
    crc: &Crc64,
    header: &ShareHeader,
    shares: &mut [MemFile],
    sink: &mut MemFile,
) -> Result<(), MendFault>
    requires { length shares.old ≡ all_chunks header.now.shape }
{
    let _stripes = header.stripe_count();
    let geometry = header.geometry();
    let good = vec![in alloc; true; geometry.n() as usize].expect(rt, "room");
    let chosen = choose_helpers(alloc, geometry, header.share(), &good);
    let helpers = chosen.expect(rt, "room").expect(rt, "helpers");
    mend(alloc, crc, header, shares, &helpers, sink)
}

// The lost share comes back.
fn check_mend(
    rt: &impl Abort,
    alloc: Global,
    crc: &Crc64,
    header: &ShareHeader,
    lost: u32,
    shares: &mut [MemFile],
)
    requires shares { length shares.old ≡ all_chunks header.now.shape }
    requires lost { lost < all_chunks header.now.shape }
{
    let kept = copied(rt, alloc, shares[lost as usize].bytes());
    shares[lost as usize] = MemFile::new(Vec::new(alloc), 1, None);
    let mut sink = new_share(rt, alloc, None);
    let mended = mend_share(rt, alloc, crc, header, shares, &mut sink);
    expect_same(rt, mended, Ok(()));
    expect_bytes(rt, sink.bytes(), &kept);
    shares[lost as usize] = sink;
}

// Each share of a file of so many bytes comes back.
fn check_file(rt: &impl Abort, alloc: Global, geometry: AloofGeometry, size: usize)
    requires { size ≤ 2 ^ 56 }
{
    let crc = new_crc(rt, alloc);
    let file = new_file(rt, alloc, size);
    let mut shares = cut_shares(rt, alloc, &crc, geometry, &file, None);
    let checksum = crc.checksum(&file);
    for lost in 0..geometry.n() {
        let header = ShareHeader::new(geometry, lost, size as u64, checksum);
        check_mend(rt, alloc, &crc, &header, lost, &mut shares);
    }
}

#[test]
fn each_share_comes_back(rt: HostRuntime) {
    for (k, m, d, w, size) in [
        (4, 2, 5, 3, 230),
        (8, 4, 11, 2, 2500),
        (8, 4, 10, 1, 1000),
        (8, 4, 9, 1, 0),
    ] {
        let geometry = AloofGeometry::new(k, m, d, w).expect(&rt, "a code");
        check_file(&rt, rt.alloc(), geometry, size);
    }
}

// Makes a byte of share 4 another, and a read of share 5 fail.
fn harm(
    rt: &impl Abort,
    alloc: Global,
    shares: &mut [MemFile],
    rot: Option<u64>,
    failing_read: Option<u64>,
)
    requires { length shares.old ≡ 6 }
{
    if let Some(at) = rot {
        let _written = shares[4].write_at(at, b"?");
    }
    let kept = copied(rt, alloc, shares[5].bytes());
    shares[5] = MemFile::new(kept, 100, failing_read);
}

// What a mend of share 2 of 4 + 2 answers, where a byte of share 4 is another, and a share's read or the write of this number fails.
fn answer(
    rt: &impl Abort,
    alloc: Global,
    rot: Option<u64>,
    failing_read: Option<u64>,
    failing_write: Option<u64>,
) -> Result<(), MendFault> {
    let geometry = AloofGeometry::new(4, 2, 5, 3).expect(rt, "a code");
    let crc = new_crc(rt, alloc);
    let file = new_file(rt, alloc, 230);
    let header = ShareHeader::new(geometry, 2, 230, crc.checksum(&file));
    let mut shares = cut_shares(rt, alloc, &crc, geometry, &file, None);
    harm(rt, alloc, &mut shares, rot, failing_read);
    let mut sink = new_share(rt, alloc, failing_write);
    mend_share(rt, alloc, &crc, &header, &mut shares, &mut sink)
}

#[test]
fn each_call_fails_in_turn(rt: HostRuntime) {
    let alloc = rt.alloc();
    expect_same(&rt, answer(&rt, alloc, None, None, None), Ok(()));
    let unread = answer(&rt, alloc, None, Some(0), None);
    expect_same(&rt, unread, Err(MendFault::ReadFault));
    let unwritten = answer(&rt, alloc, None, None, Some(0));
    expect_same(&rt, unwritten, Err(MendFault::WriteFault));
}

// A block has a checksum of each of 8 layers, and 24 bytes of its chunk. The first layer is asked for, and the last one isn't.
#[test]
fn rot_is_named(rt: HostRuntime) {
    let rotten = RottenPart {
        share: 4,
        stripe: 1,
    };
    let first = answer(&rt, rt.alloc(), Some(64 + 88), None, None);
    expect_same(&rt, first, Err(MendFault::Rotten(rotten)));
    let last = answer(&rt, rt.alloc(), Some(64 + 88 + 63), None, None);
    expect_same(&rt, last, Ok(()));
}
