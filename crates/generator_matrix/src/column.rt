//! Four unknown nodes' values from columns of four known ones, by five products a column in place of sixteen.
//!
//! The rows of the unknown nodes hold, while columns are added, the sum of all four values, that of the second and fourth, that of the third
//! and fourth, and the fourth: the column form. A column with the values `u0` to `u3` adds `s = u0 + u1 + u2 + u3`, `a + sigma s`, `b + tau s`
//! and `u3 + tau a + rho b + kappa s` to them, where `a = u1 + u3` and `b = u2 + u3`.
ghost use Rattle.std.specs.Prelude.{◌≡◌, ℕ, ◌*◌, ◌+◌, ◌^◌, ◌<◌, ◌≤◌, EachIndex, length, slice_index, bit_xor, Some, true};
ghost use Rattle.clay_field.specs.Field.{product};
ghost use Rattle.generator_matrix.specs.Columns.{AddUp, AreColumn, IsColumn, AddsColumn, EndsColumn, both_of, all_of, all_added, odd_added, high_added, last_added, first_ended};
ghost use Rattle.clay_kernels.specs.Progress.{IsDone};

use clay_kernels::Products;
use std::simd::prelude::*;

/// The factors by which a column of four known nodes adds to four rows in column form.
#[derive(Drop)]
pub struct ColumnFactors {
    /// That of all four values in the sum of the second and fourth row.
    pub sigma: Products,
    /// That of all four values in the sum of the third and fourth row, and of the second and fourth value in the fourth row.
    pub tau: Products,
    /// That of the third and fourth value in the fourth row.
    pub rho: Products,
    /// That of all four values in the fourth row.
    pub kappa: Products,
}

// Whether the four factors of a node have these sums: 1 is that of all, `odd` of the second and fourth, `high` of the third and fourth, and
// `last` is the fourth.
fn add_up(factors: &[Products], node: usize, odd: u8, high: u8, last: u8) -> bool
    requires { node * 4 + 4 ≤ length factors.now }
    ensures { result ≡ true → AddUp factors.now node odd high last }
{
    let first = factors[node * 4].factor();
    let second = factors[node * 4 + 1].factor();
    let third = factors[node * 4 + 2].factor();
    let fourth = factors[node * 4 + 3].factor();
    first ^ second ^ third ^ fourth == 1
        && second ^ fourth == odd
        && third ^ fourth == high
        && fourth == last
}

// Whether the factors of the nodes from `node` on are those of a column with these.
fn are_column(factors: &[Products], column: usize, sigma: u8, tau: u8, rho: u8, kappa: u8) -> bool
    requires { column * 16 + 16 ≤ length factors.now }
    ensures { result ≡ true → AreColumn factors.now column sigma tau rho kappa }
{
    let node = column * 4;
    add_up(factors, node, sigma, tau, kappa)
        && add_up(factors, node + 1, 1 ^ sigma, tau, tau ^ kappa)
        && add_up(factors, node + 2, sigma, 1 ^ tau, rho ^ kappa)
        && add_up(
            factors,
            node + 3,
            1 ^ sigma,
            1 ^ tau,
            1 ^ (tau ^ rho) ^ kappa,
        )
}

impl ColumnFactors {
    /// The factors of the nodes of a column, where each of these has four factors, one node after another; `None` where they are not of that
    /// form.
    pub fn of_column(factors: &[Products], column: usize) -> Option<ColumnFactors>
        requires { column * 16 + 16 ≤ length factors.now }
        ensures { (f : ColumnFactors) → result ≡ Some f → IsColumn factors.now column f }
    {
        let node = column * 4;
        let kappa = factors[node * 4 + 3].factor();
        let sigma = factors[node * 4 + 1].factor() ^ kappa;
        let tau = factors[node * 4 + 2].factor() ^ kappa;
        let rho = factors[node * 4 + 11].factor() ^ kappa;
        if !are_column(factors, column, sigma, tau, rho, kappa) {
            return None;
        }
        Some(ColumnFactors {
            sigma: Products::new(sigma),
            tau: Products::new(tau),
            rho: Products::new(rho),
            kappa: Products::new(kappa),
        })
    }
}

// Adds to four rows in column form what a column with the values `u0` to `u3` adds.
fn add_values(
    u0: &[u8],
    u1: &[u8],
    u2: &[u8],
    u3: &[u8],
    f: &ColumnFactors,
    d0: &mut [u8],
    d1: &mut [u8],
    d2: &mut [u8],
    d3: &mut [u8],
)
    requires l1 { length u1.now ≡ length u0.now }
    requires l2 { length u2.now ≡ length u0.now }
    requires l3 { length u3.now ≡ length u0.now }
    requires k0 { length d0.old ≡ length u0.now }
    requires k1 { length d1.old ≡ length u0.now }
    requires k2 { length d2.old ≡ length u0.now }
    requires k3 { length d3.old ≡ length u0.now }
    ensures e0 { EachIndex d0.new (λ k.
        slice_index d0.new k ≡ bit_xor (slice_index d0.old k) (all_of u0.now u1.now u2.now u3.now k)) }
    ensures e1 { EachIndex d1.new (λ k.
        slice_index d1.new k
        ≡ bit_xor (bit_xor (slice_index d1.old k) (both_of u1.now u3.now k)) (product f.now.sigma (all_of u0.now u1.now u2.now u3.now k))) }
    ensures e2 { EachIndex d2.new (λ k.
        slice_index d2.new k
        ≡ bit_xor (bit_xor (slice_index d2.old k) (both_of u2.now u3.now k)) (product f.now.tau (all_of u0.now u1.now u2.now u3.now k))) }
    ensures e3 { EachIndex d3.new (λ k.
        slice_index d3.new k
        ≡ bit_xor
        (bit_xor (bit_xor (bit_xor (slice_index d3.old k) (slice_index u3.now k)) (product f.now.kappa (all_of u0.now u1.now u2.now u3.now k))) (product f.now.tau (both_of u1.now u3.now k)))
        (product f.now.rho (both_of u2.now u3.now k))) }
{
    let wide = add_values_wide(u0, u1, u2, u3, f, d0, d1, d2, d3);
    let mut at = add_values_lanes(u0, u1, u2, u3, f, wide, d0, d1, d2, d3);
    while at < u0.len() {
        let a = u1[at] ^ u3[at];
        let b = u2[at] ^ u3[at];
        let s = u0[at] ^ u2[at] ^ a;
        d0[at] = d0[at] ^ s;
        d1[at] = d1[at] ^ a ^ f.sigma.times(s);
        d2[at] = d2[at] ^ b ^ f.tau.times(s);
        d3[at] = d3[at] ^ u3[at] ^ f.kappa.times(s) ^ f.tau.times(a) ^ f.rho.times(b);
        at += 1;
    }
}

// `add_values` for whole blocks of 32 bytes; returns where they end.
#[inline]
fn add_values_wide(
    u0: &[u8],
    u1: &[u8],
    u2: &[u8],
    u3: &[u8],
    f: &ColumnFactors,
    d0: &mut [u8],
    d1: &mut [u8],
    d2: &mut [u8],
    d3: &mut [u8],
) -> usize
    requires l1 { length u1.now ≡ length u0.now }
    requires l2 { length u2.now ≡ length u0.now }
    requires l3 { length u3.now ≡ length u0.now }
    requires k0 { length d0.old ≡ length u0.now }
    requires k1 { length d1.old ≡ length u0.now }
    requires k2 { length d2.old ≡ length u0.now }
    requires k3 { length d3.old ≡ length u0.now }
    ensures rest { length u0.now < result + 32 }
    ensures e0 { IsDone 0 result (length u0.now) d0.old d0.new (all_added u0.now u1.now u2.now u3.now d0.old) }
    ensures e1 { IsDone 0 result (length u0.now) d1.old d1.new (odd_added f.now.sigma u0.now u1.now u2.now u3.now d1.old) }
    ensures e2 { IsDone 0 result (length u0.now) d2.old d2.new (high_added f.now.tau u0.now u1.now u2.now u3.now d2.old) }
    ensures e3 { IsDone 0 result (length u0.now) d3.old d3.new (last_added f.now.kappa f.now.tau f.now.rho u0.now u1.now u2.now u3.now d3.old) }
{
    if u0.len() < 32 {
        return 0;
    }
    let (sl, sh) = (f.sigma.low_wide(), f.sigma.high_wide());
    let (tl, th) = (f.tau.low_wide(), f.tau.high_wide());
    let (rl, rh) = (f.rho.low_wide(), f.rho.high_wide());
    let (kl, kh) = (f.kappa.low_wide(), f.kappa.high_wide());
    let mut at = 0;
    while u0.len() - at >= 32 {
        let v0 = u8x32::from_slice(&u0[at..]);
        let v1 = u8x32::from_slice(&u1[at..]);
        let v2 = u8x32::from_slice(&u2[at..]);
        let v3 = u8x32::from_slice(&u3[at..]);
        let a = v1 ^ v3;
        let b = v2 ^ v3;
        let s = v0 ^ v2 ^ a;
        let s1 = f.sigma.times_wide(sl, sh, s);
        let s2 = f.tau.times_wide(tl, th, s);
        let s3 = f.kappa.times_wide(kl, kh, s);
        let a3 = f.tau.times_wide(tl, th, a);
        let b3 = f.rho.times_wide(rl, rh, b);
        let e0 = u8x32::from_slice(&d0[at..]) ^ s;
        let e1 = u8x32::from_slice(&d1[at..]) ^ a ^ s1;
        let e2 = u8x32::from_slice(&d2[at..]) ^ b ^ s2;
        let e3 = u8x32::from_slice(&d3[at..]) ^ v3 ^ s3 ^ a3 ^ b3;
        e0.copy_to_slice(&mut d0[at..]);
        e1.copy_to_slice(&mut d1[at..]);
        e2.copy_to_slice(&mut d2[at..]);
        e3.copy_to_slice(&mut d3[at..]);
        at += 32;
    }
    at
}

// `add_values` from `start` on for whole blocks of 16 bytes; returns where they end.
#[inline]
fn add_values_lanes(
    u0: &[u8],
    u1: &[u8],
    u2: &[u8],
    u3: &[u8],
    f: &ColumnFactors,
    start: usize,
    d0: &mut [u8],
    d1: &mut [u8],
    d2: &mut [u8],
    d3: &mut [u8],
) -> usize
    requires start { start ≤ length u0.now }
    requires l1 { length u1.now ≡ length u0.now }
    requires l2 { length u2.now ≡ length u0.now }
    requires l3 { length u3.now ≡ length u0.now }
    requires k0 { length d0.old ≡ length u0.now }
    requires k1 { length d1.old ≡ length u0.now }
    requires k2 { length d2.old ≡ length u0.now }
    requires k3 { length d3.old ≡ length u0.now }
    ensures rest { length u0.now < result + 16 }
    ensures e0 { IsDone start result (length u0.now) d0.old d0.new (all_added u0.now u1.now u2.now u3.now d0.old) }
    ensures e1 { IsDone start result (length u0.now) d1.old d1.new (odd_added f.now.sigma u0.now u1.now u2.now u3.now d1.old) }
    ensures e2 { IsDone start result (length u0.now) d2.old d2.new (high_added f.now.tau u0.now u1.now u2.now u3.now d2.old) }
    ensures e3 { IsDone start result (length u0.now) d3.old d3.new (last_added f.now.kappa f.now.tau f.now.rho u0.now u1.now u2.now u3.now d3.old) }
{
    let (sl, sh) = (f.sigma.low_lanes(), f.sigma.high_lanes());
    let (tl, th) = (f.tau.low_lanes(), f.tau.high_lanes());
    let (rl, rh) = (f.rho.low_lanes(), f.rho.high_lanes());
    let (kl, kh) = (f.kappa.low_lanes(), f.kappa.high_lanes());
    let mut at = start;
    while u0.len() - at >= 16 {
        let v0 = u8x16::from_slice(&u0[at..]);
        let v1 = u8x16::from_slice(&u1[at..]);
        let v2 = u8x16::from_slice(&u2[at..]);
        let v3 = u8x16::from_slice(&u3[at..]);
        let a = v1 ^ v3;
        let b = v2 ^ v3;
        let s = v0 ^ v2 ^ a;
        let s1 = f.sigma.times_lanes(sl, sh, s);
        let s2 = f.tau.times_lanes(tl, th, s);
        let s3 = f.kappa.times_lanes(kl, kh, s);
        let a3 = f.tau.times_lanes(tl, th, a);
        let b3 = f.rho.times_lanes(rl, rh, b);
        let e0 = u8x16::from_slice(&d0[at..]) ^ s;
        let e1 = u8x16::from_slice(&d1[at..]) ^ a ^ s1;
        let e2 = u8x16::from_slice(&d2[at..]) ^ b ^ s2;
        let e3 = u8x16::from_slice(&d3[at..]) ^ v3 ^ s3 ^ a3 ^ b3;
        e0.copy_to_slice(&mut d0[at..]);
        e1.copy_to_slice(&mut d1[at..]);
        e2.copy_to_slice(&mut d2[at..]);
        e3.copy_to_slice(&mut d3[at..]);
        at += 16;
    }
    at
}

/// Adds to four rows in column form, one after another and each of `len` bytes, what a column with four such rows of values adds.
pub fn add_column(len: usize, f: &ColumnFactors, values: &[u8], rows: &mut [u8])
    requires values_len { length values.now ≡ 4 * len }
    requires rows_len { length rows.old ≡ 4 * len }
    ensures added { AddsColumn len f.now values.now rows.old rows.new }
    ensures bytes { (p : ℕ) → slice_index values.now p < 2 ^ 8 }
{
    let (u0, rest) = values.split_at(len);
    let (u1, rest) = rest.split_at(len);
    let (u2, u3) = rest.split_at(len);
    let (d0, rest) = rows.split_at_mut(len);
    let (d1, rest) = rest.split_at_mut(len);
    let (d2, d3) = rest.split_at_mut(len);
    add_values(u0, u1, u2, u3, f, d0, d1, d2, d3);
}

// Takes four rows out of their column form.
fn end_rows(d0: &mut [u8], d1: &mut [u8], d2: &mut [u8], d3: &[u8])
    requires k0 { length d0.old ≡ length d3.now }
    requires k1 { length d1.old ≡ length d3.now }
    requires k2 { length d2.old ≡ length d3.now }
    ensures e0 { EachIndex d0.new (λ k.
        slice_index d0.new k ≡ bit_xor (bit_xor (slice_index d0.old k) (both_of d1.old d3.now k)) (slice_index d2.old k)) }
    ensures e1 { EachIndex d1.new (λ k. slice_index d1.new k ≡ both_of d1.old d3.now k) }
    ensures e2 { EachIndex d2.new (λ k. slice_index d2.new k ≡ both_of d2.old d3.now k) }
{
    let wide = end_rows_wide(d0, d1, d2, d3);
    let mut at = end_rows_lanes(wide, d0, d1, d2, d3);
    while at < d3.len() {
        let e1 = d1[at] ^ d3[at];
        d0[at] = d0[at] ^ e1 ^ d2[at];
        d1[at] = e1;
        d2[at] = d2[at] ^ d3[at];
        at += 1;
    }
}

// `end_rows` for whole blocks of 32 bytes; returns where they end.
#[inline]
fn end_rows_wide(d0: &mut [u8], d1: &mut [u8], d2: &mut [u8], d3: &[u8]) -> usize
    requires k0 { length d0.old ≡ length d3.now }
    requires k1 { length d1.old ≡ length d3.now }
    requires k2 { length d2.old ≡ length d3.now }
    ensures rest { length d3.now < result + 32 }
    ensures e0 { IsDone 0 result (length d3.now) d0.old d0.new (first_ended d0.old d1.old d2.old d3.now) }
    ensures e1 { IsDone 0 result (length d3.now) d1.old d1.new (both_of d1.old d3.now) }
    ensures e2 { IsDone 0 result (length d3.now) d2.old d2.new (both_of d2.old d3.now) }
{
    if d3.len() < 32 {
        return 0;
    }
    let mut at = 0;
    while d3.len() - at >= 32 {
        let v3 = u8x32::from_slice(&d3[at..]);
        let v2 = u8x32::from_slice(&d2[at..]);
        let e1 = u8x32::from_slice(&d1[at..]) ^ v3;
        let e0 = u8x32::from_slice(&d0[at..]) ^ e1 ^ v2;
        let e2 = v2 ^ v3;
        e0.copy_to_slice(&mut d0[at..]);
        e1.copy_to_slice(&mut d1[at..]);
        e2.copy_to_slice(&mut d2[at..]);
        at += 32;
    }
    at
}

// `end_rows` from `start` on for whole blocks of 16 bytes; returns where they end.
#[inline]
fn end_rows_lanes(start: usize, d0: &mut [u8], d1: &mut [u8], d2: &mut [u8], d3: &[u8]) -> usize
    requires start { start ≤ length d3.now }
    requires k0 { length d0.old ≡ length d3.now }
    requires k1 { length d1.old ≡ length d3.now }
    requires k2 { length d2.old ≡ length d3.now }
    ensures rest { length d3.now < result + 16 }
    ensures e0 { IsDone start result (length d3.now) d0.old d0.new (first_ended d0.old d1.old d2.old d3.now) }
    ensures e1 { IsDone start result (length d3.now) d1.old d1.new (both_of d1.old d3.now) }
    ensures e2 { IsDone start result (length d3.now) d2.old d2.new (both_of d2.old d3.now) }
{
    let mut at = start;
    while d3.len() - at >= 16 {
        let v3 = u8x16::from_slice(&d3[at..]);
        let v2 = u8x16::from_slice(&d2[at..]);
        let e1 = u8x16::from_slice(&d1[at..]) ^ v3;
        let e0 = u8x16::from_slice(&d0[at..]) ^ e1 ^ v2;
        let e2 = v2 ^ v3;
        e0.copy_to_slice(&mut d0[at..]);
        e1.copy_to_slice(&mut d1[at..]);
        e2.copy_to_slice(&mut d2[at..]);
        at += 16;
    }
    at
}

/// Takes four rows, one after another and each of `len` bytes, out of their column form.
pub fn end_column(len: usize, rows: &mut [u8])
    requires { length rows.old ≡ 4 * len }
    ensures { EndsColumn len rows.old rows.new }
{
    let (d0, rest) = rows.split_at_mut(len);
    let (d1, rest) = rest.split_at_mut(len);
    let (d2, d3) = rest.split_at_mut(len);
    end_rows(d0, d1, d2, d3);
}
