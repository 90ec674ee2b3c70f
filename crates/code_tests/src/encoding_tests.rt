//! Stripes that are encoded, and bytes that are cut into stripes.
ghost use Rattle.std.specs.Prelude.{◌<◌};

use crate::decoding::ramp;
use crate::{expect_bytes, expect_same};
use clay_encode::{encode, join, split, stripes_are_joined};
use clay_grid::Geometry;
use std::alloc::Global;
use std::process::Abort;

fn expect_lengths(rt: &impl Abort, chunks: &[Vec<u8>], len: usize) {
    for chunk in chunks {
        expect_same(rt, chunk.len(), len);
    }
}

// The chunks are as long as they are to be, and joined they are the stripe with the parity behind it.
fn check_parity(rt: &impl Abort, alloc: Global, g: Geometry, stripe: &[u8], parity: &[u8]) {
    assert!(rt; stripe.len() == g.stripe_len() as usize);
    let chunks = encode(alloc, g, stripe).expect(rt, "encode");
    expect_lengths(rt, &chunks, g.chunk_len() as usize);
    let bytes = chunks.concat(alloc).expect(rt, "all bytes");
    let wanted = [stripe, parity].concat(alloc).expect(rt, "all bytes");
    expect_bytes(rt, &bytes, &wanted);
}

/// of the stripe 0, 1, .., 107
const RAMP_PARITY: &[u8] = b"\
    \x09\x82\x40\x34\xac\xa2\xba\x0c\x69\x98\xfd\xd6\xdc\x06\x8c\xca\xaf\xc7\xf8\xee\xb5\x46\x3e\x76\x3d\x32\x28\
    \xd1\x46\x44\xf2\xec\xb1\xfe\x34\xf2\xe3\xc9\x67\x73\xb8\x91\x48\xa0\x11\x4b\x8a\xf2\x53\xd6\x92\x59\x9d\x33\
    \x0d\xa3\x11\x98\x84\x51\xec\x72\xe0\x73\x0f\x67\xce\x03\x82\x76\x8d\x09\x1d\xef\x5e\x7b\x89\xe3\xae\x85\xab";

// A byte without a partner, one with a partner, one that is paired with the virtual node, and all bytes with two nodes virtual.
#[test]
fn stripes_are_encoded(rt: HostRuntime) {
    let alloc = rt.alloc();
    let g = Geometry::new(2, 2, 1).expect(&rt, "a code");
    let unpaired = b"\x01\0\0\0\0\0\0\0";
    check_parity(&rt, alloc, g, unpaired, b"\x03\xa6\0\0\x53\0\0\0");
    let paired = b"\0\0\0\0\x01\0\0\0";
    check_parity(&rt, alloc, g, paired, b"\x02\xf5\x06\x51\xf4\0\xa6\0");
    let g = Geometry::new(3, 2, 1).expect(&rt, "a code");
    let mut stripe = [0; 24];
    stripe[18] = 0x01;
    let parity = b"\x0c\x55\x07\xf7\0\0\0\0\xa4\0\xf5\0\0\0\0\0";
    check_parity(&rt, alloc, g, &stripe, parity);
    let g = Geometry::new(4, 3, 1).expect(&rt, "a code");
    let stripe = ramp(&rt, alloc, 108, 251);
    check_parity(&rt, alloc, g, &stripe, RAMP_PARITY);
}

// Cuts the bytes from 1 up to this many into so many stripes, of which the last one is filled up, and joins them.
fn check_cut(rt: &impl Abort, alloc: Global, g: Geometry, len: u8, count: usize)
    requires { len < 255 }
{
    let bytes: Vec<u8> = (1..len + 1).collect(alloc).expect(rt, "bytes");
    stripes_are_joined();
    let stripes = split(alloc, g, &bytes).expect(rt, "split");
    expect_same(rt, stripes.len(), count);
    expect_lengths(rt, &stripes, 8);
    let again = join(alloc, g, &stripes, bytes.len()).expect(rt, "join");
    expect_bytes(rt, &again, &bytes);
}

#[test]
fn bytes_are_cut_and_joined(rt: HostRuntime) {
    let g = Geometry::new(2, 2, 1).expect(&rt, "a code");
    for (len, count) in [(0, 0), (1, 1), (7, 1), (8, 1), (9, 2), (17, 3)] {
        check_cut(&rt, rt.alloc(), g, len, count);
    }
    let stripes = split(rt.alloc(), g, &[5; 9]).expect(&rt, "split");
    assert!(rt; stripes.len() == 2);
    expect_bytes(&rt, &stripes[1], &[5, 0, 0, 0, 0, 0, 0, 0]);
}
