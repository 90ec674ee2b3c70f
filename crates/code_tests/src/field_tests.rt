//! The calls of the field, each for one product.
use crate::expect_bytes;
use clay_field::{add_scaled, inv, mul, power};

#[test]
fn two_fifths_by_each_call(rt: HostRuntime) {
    let mut sum = [0x01, 0x80, 0x53];
    add_scaled(&mut sum, mul(2, inv(5)), &[0, 5, 1]);
    expect_bytes(&rt, &sum, &[0x01, 0x82, 0x00]);
    expect_bytes(
        &rt,
        &[power(2, 8), power(0, 0), power(3, u32::MAX)],
        &[0x1D, 1, 1],
    );
}
