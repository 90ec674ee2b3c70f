//! The loops that add products.
ghost use Rattle.std.specs.Prelude.{◌≡◌, ℕ, ◌+◌, ◌*◌, ◌<◌, ◌≤◌, EachIndex, length, slice_index, bit_xor};
ghost use Rattle.clay_field.specs.Field.{product};
ghost use Rattle.clay_kernels.specs.Lanes.{AddsRows};
ghost use Rattle.clay_kernels.specs.Progress.{IsAdded};

use crate::products::Products;
use std::simd::prelude::*;

// Adds to each byte of four slices its factor times the byte of `src` at the same place.
fn add_four(
    src: &[u8],
    p0: &Products,
    p1: &Products,
    p2: &Products,
    p3: &Products,
    d0: &mut [u8],
    d1: &mut [u8],
    d2: &mut [u8],
    d3: &mut [u8],
)
    requires k0 { length d0.old ≡ length src.now }
    requires k1 { length d1.old ≡ length src.now }
    requires k2 { length d2.old ≡ length src.now }
    requires k3 { length d3.old ≡ length src.now }
    ensures e0 { EachIndex d0.new (λ k.
        slice_index d0.new k ≡ bit_xor (slice_index d0.old k) (product p0.now (slice_index src.now k))) }
    ensures e1 { EachIndex d1.new (λ k.
        slice_index d1.new k ≡ bit_xor (slice_index d1.old k) (product p1.now (slice_index src.now k))) }
    ensures e2 { EachIndex d2.new (λ k.
        slice_index d2.new k ≡ bit_xor (slice_index d2.old k) (product p2.now (slice_index src.now k))) }
    ensures e3 { EachIndex d3.new (λ k.
        slice_index d3.new k ≡ bit_xor (slice_index d3.old k) (product p3.now (slice_index src.now k))) }
{
    let wide = add_four_wide(src, p0, p1, p2, p3, d0, d1, d2, d3);
    let mut at = add_four_lanes(src, p0, p1, p2, p3, wide, d0, d1, d2, d3);
    while at < src.len() {
        d0[at] ^= p0.times(src[at]);
        d1[at] ^= p1.times(src[at]);
        d2[at] ^= p2.times(src[at]);
        d3[at] ^= p3.times(src[at]);
        at += 1;
    }
}

// `add_four` for whole blocks of 32 bytes; returns where they end.
#[inline]
fn add_four_wide(
    src: &[u8],
    p0: &Products,
    p1: &Products,
    p2: &Products,
    p3: &Products,
    d0: &mut [u8],
    d1: &mut [u8],
    d2: &mut [u8],
    d3: &mut [u8],
) -> usize
    requires k0 { length d0.old ≡ length src.now }
    requires k1 { length d1.old ≡ length src.now }
    requires k2 { length d2.old ≡ length src.now }
    requires k3 { length d3.old ≡ length src.now }
    ensures rest { length src.now < result + 32 }
    ensures e0 { IsAdded 0 result d0.old d0.new p0.now src.now }
    ensures e1 { IsAdded 0 result d1.old d1.new p1.now src.now }
    ensures e2 { IsAdded 0 result d2.old d2.new p2.now src.now }
    ensures e3 { IsAdded 0 result d3.old d3.new p3.now src.now }
{
    if src.len() < 32 {
        return 0;
    }
    let (l0, h0) = (p0.low_wide(), p0.high_wide());
    let (l1, h1) = (p1.low_wide(), p1.high_wide());
    let (l2, h2) = (p2.low_wide(), p2.high_wide());
    let (l3, h3) = (p3.low_wide(), p3.high_wide());
    let mut at = 0;
    while src.len() - at >= 32 {
        let lanes = u8x32::from_slice(&src[at..]);
        let s0 = p0.times_wide(l0, h0, lanes);
        let s1 = p1.times_wide(l1, h1, lanes);
        let s2 = p2.times_wide(l2, h2, lanes);
        let s3 = p3.times_wide(l3, h3, lanes);
        let e0 = u8x32::from_slice(&d0[at..]) ^ s0;
        let e1 = u8x32::from_slice(&d1[at..]) ^ s1;
        let e2 = u8x32::from_slice(&d2[at..]) ^ s2;
        let e3 = u8x32::from_slice(&d3[at..]) ^ s3;
        e0.copy_to_slice(&mut d0[at..]);
        e1.copy_to_slice(&mut d1[at..]);
        e2.copy_to_slice(&mut d2[at..]);
        e3.copy_to_slice(&mut d3[at..]);
        at += 32;
    }
    at
}

// `add_four` from `start` on for whole blocks of 16 bytes; returns where they end.
#[inline]
fn add_four_lanes(
    src: &[u8],
    p0: &Products,
    p1: &Products,
    p2: &Products,
    p3: &Products,
    start: usize,
    d0: &mut [u8],
    d1: &mut [u8],
    d2: &mut [u8],
    d3: &mut [u8],
) -> usize
    requires start { start ≤ length src.now }
    requires k0 { length d0.old ≡ length src.now }
    requires k1 { length d1.old ≡ length src.now }
    requires k2 { length d2.old ≡ length src.now }
    requires k3 { length d3.old ≡ length src.now }
    ensures rest { length src.now < result + 16 }
    ensures e0 { IsAdded start result d0.old d0.new p0.now src.now }
    ensures e1 { IsAdded start result d1.old d1.new p1.now src.now }
    ensures e2 { IsAdded start result d2.old d2.new p2.now src.now }
    ensures e3 { IsAdded start result d3.old d3.new p3.now src.now }
{
    let (l0, h0) = (p0.low_lanes(), p0.high_lanes());
    let (l1, h1) = (p1.low_lanes(), p1.high_lanes());
    let (l2, h2) = (p2.low_lanes(), p2.high_lanes());
    let (l3, h3) = (p3.low_lanes(), p3.high_lanes());
    let mut at = start;
    while src.len() - at >= 16 {
        let lanes = u8x16::from_slice(&src[at..]);
        let s0 = p0.times_lanes(l0, h0, lanes);
        let s1 = p1.times_lanes(l1, h1, lanes);
        let s2 = p2.times_lanes(l2, h2, lanes);
        let s3 = p3.times_lanes(l3, h3, lanes);
        let e0 = u8x16::from_slice(&d0[at..]) ^ s0;
        let e1 = u8x16::from_slice(&d1[at..]) ^ s1;
        let e2 = u8x16::from_slice(&d2[at..]) ^ s2;
        let e3 = u8x16::from_slice(&d3[at..]) ^ s3;
        e0.copy_to_slice(&mut d0[at..]);
        e1.copy_to_slice(&mut d1[at..]);
        e2.copy_to_slice(&mut d2[at..]);
        e3.copy_to_slice(&mut d3[at..]);
        at += 16;
    }
    at
}

// Adds to each byte of two slices its factor times the byte of `src` at the same place.
fn add_two(src: &[u8], p0: &Products, p1: &Products, d0: &mut [u8], d1: &mut [u8])
    requires k0 { length d0.old ≡ length src.now }
    requires k1 { length d1.old ≡ length src.now }
    ensures e0 { EachIndex d0.new (λ k.
        slice_index d0.new k ≡ bit_xor (slice_index d0.old k) (product p0.now (slice_index src.now k))) }
    ensures e1 { EachIndex d1.new (λ k.
        slice_index d1.new k ≡ bit_xor (slice_index d1.old k) (product p1.now (slice_index src.now k))) }
{
    let wide = add_two_wide(src, p0, p1, d0, d1);
    let mut at = add_two_lanes(src, p0, p1, wide, d0, d1);
    while at < src.len() {
        d0[at] ^= p0.times(src[at]);
        d1[at] ^= p1.times(src[at]);
        at += 1;
    }
}

// `add_two` for whole blocks of 32 bytes; returns where they end.
#[inline]
fn add_two_wide(src: &[u8], p0: &Products, p1: &Products, d0: &mut [u8], d1: &mut [u8]) -> usize
    requires k0 { length d0.old ≡ length src.now }
    requires k1 { length d1.old ≡ length src.now }
    ensures rest { length src.now < result + 32 }
    ensures e0 { IsAdded 0 result d0.old d0.new p0.now src.now }
    ensures e1 { IsAdded 0 result d1.old d1.new p1.now src.now }
{
    if src.len() < 32 {
        return 0;
    }
    let (l0, h0) = (p0.low_wide(), p0.high_wide());
    let (l1, h1) = (p1.low_wide(), p1.high_wide());
    let mut at = 0;
    while src.len() - at >= 32 {
        let lanes = u8x32::from_slice(&src[at..]);
        let s0 = p0.times_wide(l0, h0, lanes);
        let s1 = p1.times_wide(l1, h1, lanes);
        let e0 = u8x32::from_slice(&d0[at..]) ^ s0;
        let e1 = u8x32::from_slice(&d1[at..]) ^ s1;
        e0.copy_to_slice(&mut d0[at..]);
        e1.copy_to_slice(&mut d1[at..]);
        at += 32;
    }
    at
}

// `add_two` from `start` on for whole blocks of 16 bytes; returns where they end.
#[inline]
fn add_two_lanes(
    src: &[u8],
    p0: &Products,
    p1: &Products,
    start: usize,
    d0: &mut [u8],
    d1: &mut [u8],
) -> usize
    requires start { start ≤ length src.now }
    requires k0 { length d0.old ≡ length src.now }
    requires k1 { length d1.old ≡ length src.now }
    ensures rest { length src.now < result + 16 }
    ensures e0 { IsAdded start result d0.old d0.new p0.now src.now }
    ensures e1 { IsAdded start result d1.old d1.new p1.now src.now }
{
    let (l0, h0) = (p0.low_lanes(), p0.high_lanes());
    let (l1, h1) = (p1.low_lanes(), p1.high_lanes());
    let mut at = start;
    while src.len() - at >= 16 {
        let lanes = u8x16::from_slice(&src[at..]);
        let s0 = p0.times_lanes(l0, h0, lanes);
        let s1 = p1.times_lanes(l1, h1, lanes);
        let e0 = u8x16::from_slice(&d0[at..]) ^ s0;
        let e1 = u8x16::from_slice(&d1[at..]) ^ s1;
        e0.copy_to_slice(&mut d0[at..]);
        e1.copy_to_slice(&mut d1[at..]);
        at += 16;
    }
    at
}

// Adds to each byte of `dst` the factor times the byte of `src` at the same place.
fn add_one(src: &[u8], p: &Products, dst: &mut [u8])
    requires { length dst.old ≡ length src.now }
    ensures { EachIndex dst.new (λ k.
        slice_index dst.new k ≡ bit_xor (slice_index dst.old k) (product p.now (slice_index src.now k))) }
{
    let wide = add_one_wide(src, p, dst);
    let mut at = add_one_lanes(src, p, wide, dst);
    while at < src.len() {
        dst[at] ^= p.times(src[at]);
        at += 1;
    }
}

// `add_one` for whole blocks of 32 bytes; returns where they end.
#[inline]
fn add_one_wide(src: &[u8], p: &Products, dst: &mut [u8]) -> usize
    requires { length dst.old ≡ length src.now }
    ensures rest { length src.now < result + 32 }
    ensures added { IsAdded 0 result dst.old dst.new p.now src.now }
{
    if src.len() < 32 {
        return 0;
    }
    let (low, high) = (p.low_wide(), p.high_wide());
    let mut at = 0;
    while src.len() - at >= 32 {
        let scaled = p.times_wide(low, high, u8x32::from_slice(&src[at..]));
        let sum = u8x32::from_slice(&dst[at..]) ^ scaled;
        sum.copy_to_slice(&mut dst[at..]);
        at += 32;
    }
    at
}

// `add_one` from `start` on for whole blocks of 16 bytes; returns where they end.
#[inline]
fn add_one_lanes(src: &[u8], p: &Products, start: usize, dst: &mut [u8]) -> usize
    requires start { start ≤ length src.now }
    requires long { length dst.old ≡ length src.now }
    ensures rest { length src.now < result + 16 }
    ensures added { IsAdded start result dst.old dst.new p.now src.now }
{
    let (low, high) = (p.low_lanes(), p.high_lanes());
    let mut at = start;
    while src.len() - at >= 16 {
        let scaled = p.times_lanes(low, high, u8x16::from_slice(&src[at..]));
        let sum = u8x16::from_slice(&dst[at..]) ^ scaled;
        sum.copy_to_slice(&mut dst[at..]);
        at += 16;
    }
    at
}

// Adds to four rows, one after another, each its factor times the bytes of `src`.
fn add_four_rows(products: &[Products], src: &[u8], rows: &mut [u8])
    requires four { length products.now ≡ 4 }
    requires rows_len { length rows.old ≡ 4 * length src.now }
    ensures { AddsRows 4 (length src.now) (λ r. slice_index products.now r) (λ b. slice_index src.now b) rows.old rows.new }
{
    let len = src.len();
    let (d0, rest) = rows.split_at_mut(len);
    let (d1, rest) = rest.split_at_mut(len);
    let (d2, d3) = rest.split_at_mut(len);
    add_four(
        src,
        &products[0],
        &products[1],
        &products[2],
        &products[3],
        d0,
        d1,
        d2,
        d3,
    );
}

// Adds to two rows, one after another, each its factor times the bytes of `src`.
fn add_two_rows(products: &[Products], src: &[u8], rows: &mut [u8])
    requires two { length products.now ≡ 2 }
    requires rows_len { length rows.old ≡ 2 * length src.now }
    ensures { AddsRows 2 (length src.now) (λ r. slice_index products.now r) (λ b. slice_index src.now b) rows.old rows.new }
{
    let (d0, d1) = rows.split_at_mut(src.len());
    add_two(src, &products[0], &products[1], d0, d1);
}

/// Adds to each row its factor times the bytes of `src`.
pub fn add_rows(products: &[Products], src: &[u8], rows: &mut [u8])
    requires { length rows.old ≡ length products.now * length src.now }
    ensures { AddsRows (length products.now) (length src.now) (λ r. slice_index products.now r) (λ b. slice_index src.now b) rows.old rows.new }
{
    let len = src.len();
    let mut row = 0;
    while products.len() - row >= 4 {
        add_four_rows(
            &products[row..row + 4],
            src,
            &mut rows[row * len..(row + 4) * len],
        );
        row += 4;
    }
    while products.len() - row >= 2 {
        add_two_rows(
            &products[row..row + 2],
            src,
            &mut rows[row * len..(row + 2) * len],
        );
        row += 2;
    }
    while row < products.len() {
        add_one(src, &products[row], &mut rows[row * len..(row + 1) * len]);
        row += 1;
    }
}
