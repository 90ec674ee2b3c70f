//! A worked stripe in blocks, and a worked block.
ghost use Rattle.std.specs.Prelude.{◌≡◌};
ghost use Rattle.clay_aloof.specs.Shape.{aloof_of};

use crate::{expect_bytes, expect_same, new_crc};
use clay_aloof::AloofGeometry;
use crc64::{Combiner, Crc64};
use share_format::{cut_stripe, extended_by_chunk, is_block};

const STRIPE: [u8; 16] = [0x01, 0, 0, 0, 0x53, 0, 0, 0, 0xa7, 0, 0, 0, 0, 0, 0, 0];

/// The chunk of share 3 at 2 + 3 with 3 helpers.
const CHUNK: [u8; 8] = [0x01, 0x53, 0, 0, 0, 0, 0, 0];

/// Of the one-byte message 0x01, as another program computes it.
const CHECKSUM: [u8; 8] = [0x36, 0x60, 0xc0, 0x67, 0xcd, 0xed, 0x83, 0xac];

/// The block of the chunk 123456789 at 2 + 4 with 4 helpers: the checksums of its bytes, as another program computes them, and these.
const BLOCK: [u8; 81] = [
    0xed, 0xca, 0x95, 0x94, 0x85, 0x0e, 0x2f, 0x2a, 0xd9, 0x35, 0x72, 0x3f, 0x6c, 0x74, 0x85, 0x6d,
    0xb6, 0x6a, 0xd5, 0x3c, 0xd2, 0x38, 0xab, 0xde, 0xb1, 0xcb, 0xbd, 0x68, 0xbf, 0x81, 0xd1, 0xe2,
    0xde, 0x94, 0x1a, 0x6b, 0x01, 0xcd, 0xff, 0x51, 0xea, 0x6b, 0xfd, 0xc0, 0xe8, 0xb7, 0x55, 0x16,
    0x85, 0x34, 0x5a, 0xc3, 0x56, 0xfb, 0x7b, 0xa5, 0xe4, 0x29, 0x2c, 0x68, 0x32, 0xc5, 0xa0, 0x6e,
    0x8b, 0x76, 0x8b, 0x6b, 0x8c, 0x89, 0x8e, 0xdd, 0x31, 0x32, 0x33, 0x34, 0x35, 0x36, 0x37, 0x38,
    0x39,
];

// Whether the block is one still once the byte at a place is another.
fn is_still_one(g: AloofGeometry, crc: &Crc64, place: usize) -> bool
    requires { g ≡ aloof_of 2 4 4 1 }
{
    let mut bytes = BLOCK;
    if place < BLOCK.len() {
        bytes[place] ^= 1;
    }
    is_block(g, crc, &bytes)
}

#[test]
fn cuts_a_worked_stripe(rt: HostRuntime) {
    let g = AloofGeometry::new(2, 3, 3, 1).expect(&rt, "a code");
    let crc = new_crc(&rt, rt.alloc());
    let blocks = cut_stripe(rt.alloc(), g, &crc, &STRIPE).expect(&rt, "blocks");
    assert!(rt; blocks.len() == 5);
    let block = &blocks[3];
    assert!(rt; block.len() == 72);
    expect_bytes(&rt, &block[64..], &CHUNK);
    expect_bytes(&rt, &block[..8], &CHECKSUM);
}

#[test]
fn compares_and_sums_by_a_table(rt: HostRuntime) {
    let g = AloofGeometry::new(2, 4, 4, 1).expect(&rt, "a code");
    let crc = new_crc(&rt, rt.alloc());
    expect_same(&rt, is_still_one(g, &crc, BLOCK.len()), true);
    expect_same(&rt, is_still_one(g, &crc, 8), false);
    expect_same(&rt, is_still_one(g, &crc, 64), false);
    expect_same(&rt, is_still_one(g, &crc, 80), false);
    let combiner = Combiner::new(rt.alloc(), &crc, 1).expect(&rt, "combiner");
    let sum = extended_by_chunk(g, &combiner, 0, &BLOCK);
    expect_same(&rt, sum, 0x995D_C9BB_DF19_39FA);
}
