//! Columns added in column form, beside sums by `add_scaled`, and which codes have such columns.
use crate::fast_encoding::{code, filled};
use crate::{expect_bytes, expect_same};
use clay_field::add_scaled;
use clay_kernels::Products;
use clay_parity::last_column;
use generator_matrix::{ColumnFactors, add_column, end_column};
use std::alloc::Global;
use std::process::Abort;

/// What a row is given: the row, the place of a factor, and the row of values that is multiplied by it.
type Term = [usize; 3];

/// What a column adds to four rows in column form; the factors are 1, sigma, tau, rho and kappa.
const COLUMN: [Term; 25] = [
    [0, 0, 0],
    [0, 0, 1],
    [0, 0, 2],
    [0, 0, 3],
    [1, 0, 1],
    [1, 0, 3],
    [1, 1, 0],
    [1, 1, 1],
    [1, 1, 2],
    [1, 1, 3],
    [2, 0, 2],
    [2, 0, 3],
    [2, 2, 0],
    [2, 2, 1],
    [2, 2, 2],
    [2, 2, 3],
    [3, 0, 3],
    [3, 4, 0],
    [3, 4, 1],
    [3, 4, 2],
    [3, 4, 3],
    [3, 2, 1],
    [3, 2, 3],
    [3, 3, 2],
    [3, 3, 3],
];

/// The rows that a column form is taken out of, each once.
const END: [Term; 9] = [
    [0, 0, 0],
    [0, 0, 1],
    [0, 0, 2],
    [0, 0, 3],
    [1, 0, 1],
    [1, 0, 3],
    [2, 0, 2],
    [2, 0, 3],
    [3, 0, 3],
];

// Adds the terms to four rows of `len` bytes.
fn add_terms(
    rt: &impl Abort,
    len: usize,
    rows: &mut [u8],
    values: &[u8],
    factors: [u8; 5],
    terms: &[Term],
) {
    assert!(rt; len <= 200 && rows.len() == 4 * len && values.len() == 4 * len);
    for term in terms {
        let [row, factor, value] = *term;
        assert!(rt; row < 4 && factor < 5 && value < 4);
        add_scaled(
            &mut rows[row * len..(row + 1) * len],
            factors[factor],
            &values[value * len..(value + 1) * len],
        );
    }
}

// Four rows of `len` bytes.
fn four_rows(rt: &impl Abort, alloc: Global, len: usize) -> Vec<u8> {
    let mut rows = Vec::new(alloc);
    for i in 0..4u8 {
        for b in 0..len {
            rows.push((b % 256) as u8 ^ 0x25 << i).expect(rt, "room");
        }
    }
    rows
}

// Adds a column of `len` bytes a row with the factors sigma, tau, rho and kappa to rows of bytes of one value.
fn check_column(rt: &impl Abort, alloc: Global, len: usize, [sigma, tau, rho, kappa]: [u8; 4]) {
    assert!(rt; len <= 200);
    let values = four_rows(rt, alloc, len);
    assert!(rt; values.len() == 4 * len);
    let mut rows = filled(rt, alloc, 0x3C, 4 * len);
    let mut sums = filled(rt, alloc, 0x3C, 4 * len);
    let products = ColumnFactors {
        sigma: Products::new(sigma),
        tau: Products::new(tau),
        rho: Products::new(rho),
        kappa: Products::new(kappa),
    };
    add_column(len, &products, &values, &mut rows);
    add_terms(
        rt,
        len,
        &mut sums,
        &values,
        [1, sigma, tau, rho, kappa],
        &COLUMN,
    );
    expect_bytes(rt, &rows, &sums);
}

// Takes rows of `len` bytes out of their column form.
fn check_end(rt: &impl Abort, alloc: Global, len: usize) {
    assert!(rt; len <= 200);
    let form = four_rows(rt, alloc, len);
    let mut rows = four_rows(rt, alloc, len);
    let mut sums = filled(rt, alloc, 0, 4 * len);
    assert!(rt; rows.len() == 4 * len);
    end_column(len, &mut rows);
    add_terms(rt, len, &mut sums, &form, [1, 0, 0, 0, 0], &END);
    expect_bytes(rt, &rows, &sums);
}

#[test]
fn columns_of_every_length_are_added(rt: HostRuntime) {
    for len in 0..131 {
        check_column(&rt, rt.alloc(), len, [0, 1, 2, 0x53]);
        check_column(&rt, rt.alloc(), len, [0xFF, 0, 1, 2]);
        check_column(&rt, rt.alloc(), len, [0x53, 0xFF, 0, 1]);
        check_column(&rt, rt.alloc(), len, [2, 0x53, 0xFF, 0]);
        check_end(&rt, rt.alloc(), len);
    }
}

// Data chunks and parity chunks, and how many columns the generator of the parity nodes has.
#[test]
fn four_parity_nodes_are_made_by_columns(rt: HostRuntime) {
    for (k, m, count) in [(8, 4, 2), (10, 4, 3), (16, 4, 4), (4, 2, 0)] {
        let generator = last_column(rt.alloc(), code(&rt, k, m, 1)).expect(&rt, "generator");
        expect_same(&rt, generator.columns().len(), count);
    }
}
