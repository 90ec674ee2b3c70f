//! The calls on a pair of bytes.
use crate::expect_bytes;
use clay_model::{couple, cross, uncouple, uncouple_from};

#[test]
fn a_pair_of_bytes(rt: HostRuntime) {
    let (c, d) = ([0x01, 0x00, 0x80, 0xff], [0x00, 0x01, 0x01, 0x53]);
    let (mut u, mut v, mut out) = ([0xee; 4], [0xee; 4], [0xee; 4]);
    uncouple(&c, &d, &mut u);
    expect_bytes(&rt, &u, &[0x01, 0x02, 0x82, 0x59]);
    uncouple(&d, &c, &mut v);
    expect_bytes(&rt, &v, &[0x02, 0x01, 0x1c, 0xb0]);
    couple(&u, &v, &mut out);
    expect_bytes(&rt, &out, &c);
    uncouple_from(&c, &v, &mut out);
    expect_bytes(&rt, &out, &u);
    cross(&u, &c, &mut out);
    expect_bytes(&rt, &out, &d);
}
