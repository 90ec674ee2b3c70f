//! A header's bytes, as another program packs them, and what is refused.
use crate::{expect_bytes, expect_same, new_crc};
use clay_aloof::AloofGeometry;
use crc64::Crc64;
use share_format::{BadHeader, ShareHeader, read_header};

/// Share 3 of 8 + 4 with 11 helpers and subchunks of 4,096 bytes, of a file of 10,000,000 bytes whose checksum is 0x0123456789abcdef.
const PACKED: [u8; 64] = [
    0x89, 0x43, 0x4c, 0x41, 0x59, 0x0d, 0x0a, 0x1a, 0x01, 0x00, 0x00, 0x00, 0x08, 0x00, 0x00, 0x00,
    0x04, 0x00, 0x00, 0x00, 0x0b, 0x00, 0x00, 0x00, 0x00, 0x10, 0x00, 0x00, 0x03, 0x00, 0x00, 0x00,
    0x80, 0x96, 0x98, 0x00, 0x00, 0x00, 0x00, 0x00, 0x05, 0x00, 0x00, 0x00, 0x00, 0x00, 0x00, 0x00,
    0xef, 0xcd, 0xab, 0x89, 0x67, 0x45, 0x23, 0x01, 0xd4, 0x07, 0xce, 0x2e, 0x0d, 0x63, 0xf2, 0x8b,
];

// The cause for which the header is refused once the byte at a place is another.
fn refused(crc: &Crc64, place: usize, byte: u8) -> Option<BadHeader> {
    let mut bytes = PACKED;
    if place < 64 {
        bytes[place] = byte;
    }
    read_header(crc, &bytes).err()
}

#[test]
fn writes_and_reads_what_is_packed(rt: HostRuntime) {
    let geometry = AloofGeometry::new(8, 4, 11, 4096).expect(&rt, "a code");
    let header = ShareHeader::new(geometry, 3, 10_000_000, 0x0123_4567_89ab_cdef);
    let crc = new_crc(&rt, rt.alloc());
    let bytes = header.bytes(rt.alloc(), &crc).expect(&rt, "bytes");
    expect_bytes(&rt, &bytes, &PACKED);
    expect_same(&rt, read_header(&crc, &PACKED), Ok(header));
}

#[test]
fn names_the_cause(rt: HostRuntime) {
    let crc = new_crc(&rt, rt.alloc());
    expect_same(&rt, refused(&crc, 64, 0), None);
    expect_same(&rt, refused(&crc, 0, 0), Some(BadHeader::Magic));
    expect_same(&rt, refused(&crc, 8, 2), Some(BadHeader::Version));
    expect_same(&rt, refused(&crc, 12, 9), Some(BadHeader::Checksum));
}
