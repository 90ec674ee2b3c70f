//! Checksums that liblzma writes.
use crate::decoding::ramp;
use crate::{expect_same, new_crc};
use crc64::Combiner;

/// of 123456789
const NINE_DIGITS: u64 = 0x995D_C9BB_DF19_39FA;

#[test]
fn computes_known_checksums(rt: HostRuntime) {
    let (alloc, crc) = (rt.alloc(), new_crc(&rt, rt.alloc()));
    expect_same(&rt, crc.checksum(b""), 0);
    expect_same(&rt, crc.checksum(b"a"), 0x3302_8477_2E65_2B05);
    expect_same(&rt, crc.checksum(b"123456789"), NINE_DIGITS);
    let zeros = ramp(&rt, alloc, 1000, 1);
    expect_same(&rt, crc.checksum(&zeros), 0x372A_E22B_EC8A_254F);
    let long = ramp(&rt, alloc, 10_000, 251);
    expect_same(&rt, crc.checksum(&long), 0x3EC3_BC24_B9CA_BEE3);
    let long = ramp(&rt, alloc, 10_000, 241);
    expect_same(&rt, crc.checksum(&long), 0x4E33_315E_0F9A_FA1B);
}

#[test]
fn goes_on_and_combines_in_pieces(rt: HostRuntime) {
    let crc = new_crc(&rt, rt.alloc());
    let first = crc.checksum(b"1234");
    expect_same(&rt, crc.extended(first, b"56789"), NINE_DIGITS);
    let combiner = Combiner::new(rt.alloc(), &crc, 5).expect(&rt, "combiner");
    let sum = combiner.combined(first, crc.checksum(b"56789"));
    expect_same(&rt, sum, NINE_DIGITS);
}
