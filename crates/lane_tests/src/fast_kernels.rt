//! Products added to rows, beside `add_scaled`.
use crate::expect_bytes;
use crate::fast_coupling::some_bytes;
use crate::fast_encoding::filled;
use clay_field::add_scaled;
use clay_kernels::{Products, add_rows};
use std::alloc::Global;
use std::process::Abort;

/// A row is bytes of one value, to which a multiple of other bytes was added.
pub fn expect_multiple(
    rt: &impl Abort,
    alloc: Global,
    value: u8,
    factor: u8,
    bytes: &[u8],
    row: &[u8],
) {
    let mut sum = filled(rt, alloc, value, bytes.len());
    add_scaled(&mut sum, factor, bytes);
    expect_bytes(rt, row, &sum);
}

fn products_of(rt: &impl Abort, alloc: Global, factors: &[u8]) -> Vec<Products> {
    let mut products = Vec::new(alloc);
    for factor in factors {
        products.push(Products::new(*factor)).expect(rt, "room");
    }
    products
}

// Adds to rows of `len` bytes the products with the factors, and compares each row with `add_scaled`.
fn check_rows(rt: &impl Abort, alloc: Global, factors: &[u8], len: usize) {
    let count = factors.len();
    assert!(rt; count <= 8 && len <= 200);
    let src = some_bytes(rt, alloc, len, 0xA5);
    let products = products_of(rt, alloc, factors);
    assert!(rt; products.len() == count);
    let mut rows = filled(rt, alloc, 0x3C, count * len);
    add_rows(&products, &src, &mut rows);
    for (row, factor) in factors.iter().enumerate() {
        let added = &rows[row * len..(row + 1) * len];
        expect_multiple(rt, alloc, 0x3C, *factor, &src, added);
    }
}

#[test]
fn rows_of_every_length_are_added_to(rt: HostRuntime) {
    for len in 0..131 {
        for factor in [0, 1, 2, 0x53, 0xFF] {
            check_rows(&rt, rt.alloc(), &[factor], len);
        }
        check_rows(&rt, rt.alloc(), &[0, 1], len);
        check_rows(&rt, rt.alloc(), &[2, 0x53, 0xFF, 0x1D], len);
        check_rows(&rt, rt.alloc(), &[0x80, 3, 0, 0xFF, 2, 0x53, 1], len);
    }
}
