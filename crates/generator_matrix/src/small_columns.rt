//! What a column of known nodes adds to the rows of as many unknown ones, by fewer products for two or three nodes.
//!
//! The points of a column of two are `a` and `a + 1`, so both nodes have the same factor `c` in the other's row, and `1 + c` in their own. With
//! `u0` and `u1` the rows get `u0 + c (u0 + u1)` and `u1 + c (u0 + u1)`: one product in place of four.
//!
//! Of a column of three, the middle node and one end, the near one, stand 1 apart. So their factors differ by 1 in the middle row, and are the
//! same in the last row, which is the far end of the unknown column. Four products in place of nine give what these two rows get, and
//! the other row gets all values and the same, since the factors of a node add up to 1.
ghost use Rattle.std.specs.Prelude.{◌≡◌, ℕ, ◌+◌, ◌*◌, ◌<◌, ◌≤◌, EachIndex, length, slice_index, true};
ghost use Rattle.generator_matrix.specs.Generated.{factor_at};
ghost use Rattle.clay_kernels.specs.Progress.{IsDone};
ghost use Rattle.generator_matrix.specs.SmallColumns.{AddsNodes, IsColumnOfTwo, own_added, IsEnd, node_sum, IsColumnOfThree, row_added, middle_added, last_row_added};

use clay_kernels::{Products, add_rows};
use std::simd::prelude::*;

// Adds to each of two rows its own node's values, and `p` times those of both.
fn add_two_values(u0: &[u8], u1: &[u8], p: &Products, d0: &mut [u8], d1: &mut [u8])
    requires l1 { length u1.now ≡ length u0.now }
    requires k0 { length d0.old ≡ length u0.now }
    requires k1 { length d1.old ≡ length u0.now }
    ensures e0 { EachIndex d0.new (λ k. slice_index d0.new k ≡ own_added p.now u0.now u0.now u1.now d0.old k) }
    ensures e1 { EachIndex d1.new (λ k. slice_index d1.new k ≡ own_added p.now u1.now u0.now u1.now d1.old k) }
{
    let wide = add_two_values_wide(u0, u1, p, d0, d1);
    let mut at = add_two_values_lanes(u0, u1, p, wide, d0, d1);
    while at < u0.len() {
        let shared = p.times(u0[at] ^ u1[at]);
        d0[at] = d0[at] ^ u0[at] ^ shared;
        d1[at] = d1[at] ^ u1[at] ^ shared;
        at += 1;
    }
}

// `add_two_values` for whole blocks of 32 bytes; returns where they end.
#[inline]
fn add_two_values_wide(u0: &[u8], u1: &[u8], p: &Products, d0: &mut [u8], d1: &mut [u8]) -> usize
    requires l1 { length u1.now ≡ length u0.now }
    requires k0 { length d0.old ≡ length u0.now }
    requires k1 { length d1.old ≡ length u0.now }
    ensures rest { length u0.now < result + 32 }
    ensures e0 { IsDone 0 result (length u0.now) d0.old d0.new (own_added p.now u0.now u0.now u1.now d0.old) }
    ensures e1 { IsDone 0 result (length u0.now) d1.old d1.new (own_added p.now u1.now u0.now u1.now d1.old) }
{
    if u0.len() < 32 {
        return 0;
    }
    let (low, high) = (p.low_wide(), p.high_wide());
    let mut at = 0;
    while u0.len() - at >= 32 {
        let v0 = u8x32::from_slice(&u0[at..]);
        let v1 = u8x32::from_slice(&u1[at..]);
        let shared = p.times_wide(low, high, v0 ^ v1);
        let e0 = u8x32::from_slice(&d0[at..]) ^ v0 ^ shared;
        let e1 = u8x32::from_slice(&d1[at..]) ^ v1 ^ shared;
        e0.copy_to_slice(&mut d0[at..]);
        e1.copy_to_slice(&mut d1[at..]);
        at += 32;
    }
    at
}

// `add_two_values` from `start` on for whole blocks of 16 bytes; returns where they end.
#[inline]
fn add_two_values_lanes(
    u0: &[u8],
    u1: &[u8],
    p: &Products,
    start: usize,
    d0: &mut [u8],
    d1: &mut [u8],
) -> usize
    requires start { start ≤ length u0.now }
    requires l1 { length u1.now ≡ length u0.now }
    requires k0 { length d0.old ≡ length u0.now }
    requires k1 { length d1.old ≡ length u0.now }
    ensures rest { length u0.now < result + 16 }
    ensures e0 { IsDone start result (length u0.now) d0.old d0.new (own_added p.now u0.now u0.now u1.now d0.old) }
    ensures e1 { IsDone start result (length u0.now) d1.old d1.new (own_added p.now u1.now u0.now u1.now d1.old) }
{
    let (low, high) = (p.low_lanes(), p.high_lanes());
    let mut at = start;
    while u0.len() - at >= 16 {
        let v0 = u8x16::from_slice(&u0[at..]);
        let v1 = u8x16::from_slice(&u1[at..]);
        let shared = p.times_lanes(low, high, v0 ^ v1);
        let e0 = u8x16::from_slice(&d0[at..]) ^ v0 ^ shared;
        let e1 = u8x16::from_slice(&d1[at..]) ^ v1 ^ shared;
        e0.copy_to_slice(&mut d0[at..]);
        e1.copy_to_slice(&mut d1[at..]);
        at += 16;
    }
    at
}

// Whether each of two nodes has the factor `c` in the other's row, and one more in its own.
fn is_column_of_two(factors: &[Products], c: u8) -> bool
    requires { length factors.now ≡ 4 }
    ensures { result ≡ true → IsColumnOfTwo factors.now c }
{
    factors[0].factor() == 1 ^ c
        && factors[1].factor() == c
        && factors[2].factor() == c
        && factors[3].factor() == 1 ^ c
}

// `add_nodes` for two nodes whose factors in the other's row are those of `p`.
fn add_two_nodes(len: usize, factors: &[Products], p: &Products, values: &[u8], rows: &mut [u8])
    requires column { IsColumnOfTwo factors.now p.now }
    requires values_len { length values.now ≡ 2 * len }
    requires rows_len { length rows.old ≡ 2 * len }
    ensures { AddsNodes 2 len (λ x e. factor_at factors.now 2 x e) (λ x b. slice_index values.now (x * len + b)) rows.old rows.new }
{
    let (u0, u1) = values.split_at(len);
    let (d0, d1) = rows.split_at_mut(len);
    add_two_values(u0, u1, p, d0, d1);
}

// Adds to three rows what three nodes add: to the middle row the middle node's values, `sigma` times those of the near end and the middle
// together and `tau` times those of the far end, to the last row `kappa` and `rho` times the same, and to the other row the values of all nodes
// and what the two other rows get.
fn add_three_values(
    near: &[u8],
    middle: &[u8],
    far: &[u8],
    sigma: &Products,
    tau: &Products,
    kappa: &Products,
    rho: &Products,
    row: &mut [u8],
    middle_row: &mut [u8],
    last_row: &mut [u8],
)
    requires l1 { length middle.now ≡ length near.now }
    requires l2 { length far.now ≡ length near.now }
    requires k0 { length row.old ≡ length near.now }
    requires k1 { length middle_row.old ≡ length near.now }
    requires k2 { length last_row.old ≡ length near.now }
    ensures e0 { EachIndex row.new (λ k.
        slice_index row.new k ≡ row_added sigma.now tau.now kappa.now rho.now near.now middle.now far.now row.old k) }
    ensures e1 { EachIndex middle_row.new (λ k.
        slice_index middle_row.new k ≡ middle_added sigma.now tau.now near.now middle.now far.now middle_row.old k) }
    ensures e2 { EachIndex last_row.new (λ k.
        slice_index last_row.new k ≡ last_row_added kappa.now rho.now near.now middle.now far.now last_row.old k) }
{
    let wide = add_three_values_wide(
        near, middle, far, sigma, tau, kappa, rho, row, middle_row, last_row,
    );
    let mut at = add_three_values_lanes(
        near, middle, far, sigma, tau, kappa, rho, wide, row, middle_row, last_row,
    );
    while at < near.len() {
        let both = near[at] ^ middle[at];
        let of_middle = middle[at] ^ sigma.times(both) ^ tau.times(far[at]);
        let of_last = kappa.times(both) ^ rho.times(far[at]);
        row[at] = row[at] ^ both ^ far[at] ^ of_middle ^ of_last;
        middle_row[at] = middle_row[at] ^ of_middle;
        last_row[at] = last_row[at] ^ of_last;
        at += 1;
    }
}

// `add_three_values` for whole blocks of 32 bytes; returns where they end.
#[inline]
fn add_three_values_wide(
    near: &[u8],
    middle: &[u8],
    far: &[u8],
    sigma: &Products,
    tau: &Products,
    kappa: &Products,
    rho: &Products,
    row: &mut [u8],
    middle_row: &mut [u8],
    last_row: &mut [u8],
) -> usize
    requires l1 { length middle.now ≡ length near.now }
    requires l2 { length far.now ≡ length near.now }
    requires k0 { length row.old ≡ length near.now }
    requires k1 { length middle_row.old ≡ length near.now }
    requires k2 { length last_row.old ≡ length near.now }
    ensures rest { length near.now < result + 32 }
    ensures e0 { IsDone 0 result (length near.now) row.old row.new (row_added sigma.now tau.now kappa.now rho.now near.now middle.now far.now row.old) }
    ensures e1 { IsDone 0 result (length near.now) middle_row.old middle_row.new (middle_added sigma.now tau.now near.now middle.now far.now middle_row.old) }
    ensures e2 { IsDone 0 result (length near.now) last_row.old last_row.new (last_row_added kappa.now rho.now near.now middle.now far.now last_row.old) }
{
    if near.len() < 32 {
        return 0;
    }
    let (sl, sh) = (sigma.low_wide(), sigma.high_wide());
    let (tl, th) = (tau.low_wide(), tau.high_wide());
    let (kl, kh) = (kappa.low_wide(), kappa.high_wide());
    let (rl, rh) = (rho.low_wide(), rho.high_wide());
    let mut at = 0;
    while near.len() - at >= 32 {
        let v0 = u8x32::from_slice(&near[at..]);
        let v1 = u8x32::from_slice(&middle[at..]);
        let v2 = u8x32::from_slice(&far[at..]);
        let both = v0 ^ v1;
        let s1 = sigma.times_wide(sl, sh, both);
        let t1 = tau.times_wide(tl, th, v2);
        let k2 = kappa.times_wide(kl, kh, both);
        let r2 = rho.times_wide(rl, rh, v2);
        let of_middle = v1 ^ s1 ^ t1;
        let of_last = k2 ^ r2;
        let e0 = u8x32::from_slice(&row[at..]) ^ both ^ v2 ^ of_middle ^ of_last;
        let e1 = u8x32::from_slice(&middle_row[at..]) ^ of_middle;
        let e2 = u8x32::from_slice(&last_row[at..]) ^ of_last;
        e0.copy_to_slice(&mut row[at..]);
        e1.copy_to_slice(&mut middle_row[at..]);
        e2.copy_to_slice(&mut last_row[at..]);
        at += 32;
    }
    at
}

// `add_three_values` from `start` on for whole blocks of 16 bytes; returns where they end.
#[inline]
fn add_three_values_lanes(
    near: &[u8],
    middle: &[u8],
    far: &[u8],
    sigma: &Products,
    tau: &Products,
    kappa: &Products,
    rho: &Products,
    start: usize,
    row: &mut [u8],
    middle_row: &mut [u8],
    last_row: &mut [u8],
) -> usize
    requires start { start ≤ length near.now }
    requires l1 { length middle.now ≡ length near.now }
    requires l2 { length far.now ≡ length near.now }
    requires k0 { length row.old ≡ length near.now }
    requires k1 { length middle_row.old ≡ length near.now }
    requires k2 { length last_row.old ≡ length near.now }
    ensures rest { length near.now < result + 16 }
    ensures e0 { IsDone start result (length near.now) row.old row.new (row_added sigma.now tau.now kappa.now rho.now near.now middle.now far.now row.old) }
    ensures e1 { IsDone start result (length near.now) middle_row.old middle_row.new (middle_added sigma.now tau.now near.now middle.now far.now middle_row.old) }
    ensures e2 { IsDone start result (length near.now) last_row.old last_row.new (last_row_added kappa.now rho.now near.now middle.now far.now last_row.old) }
{
    let (sl, sh) = (sigma.low_lanes(), sigma.high_lanes());
    let (tl, th) = (tau.low_lanes(), tau.high_lanes());
    let (kl, kh) = (kappa.low_lanes(), kappa.high_lanes());
    let (rl, rh) = (rho.low_lanes(), rho.high_lanes());
    let mut at = start;
    while near.len() - at >= 16 {
        let v0 = u8x16::from_slice(&near[at..]);
        let v1 = u8x16::from_slice(&middle[at..]);
        let v2 = u8x16::from_slice(&far[at..]);
        let both = v0 ^ v1;
        let s1 = sigma.times_lanes(sl, sh, both);
        let t1 = tau.times_lanes(tl, th, v2);
        let k2 = kappa.times_lanes(kl, kh, both);
        let r2 = rho.times_lanes(rl, rh, v2);
        let of_middle = v1 ^ s1 ^ t1;
        let of_last = k2 ^ r2;
        let e0 = u8x16::from_slice(&row[at..]) ^ both ^ v2 ^ of_middle ^ of_last;
        let e1 = u8x16::from_slice(&middle_row[at..]) ^ of_middle;
        let e2 = u8x16::from_slice(&last_row[at..]) ^ of_last;
        e0.copy_to_slice(&mut row[at..]);
        e1.copy_to_slice(&mut middle_row[at..]);
        e2.copy_to_slice(&mut last_row[at..]);
        at += 16;
    }
    at
}

// Whether a node's factors in three rows add up to 1, of which one is the middle row.
fn adds_to_one(factors: &[Products], node: usize, row: usize, last: usize) -> bool
    requires nine { length factors.now ≡ 9 }
    requires node { node < 3 }
    requires row { row < 3 }
    requires last { last < 3 }
    ensures { result ≡ true → node_sum factors.now node row last ≡ 1 }
{
    let from = node * 3;
    factors[from + row].factor() ^ factors[from + 1].factor() ^ factors[from + last].factor() == 1
}

// The end of a column of three that stands 1 apart from the middle, if its factors are those of one.
fn near_end(factors: &[Products]) -> usize
    requires { length factors.now ≡ 9 }
    ensures { IsEnd result }
{
    if factors[4].factor() == 1 ^ factors[1].factor() {
        return 0;
    }
    2
}

// The last row, in which the middle node and the near end have the same factor, if the factors are those of a column.
fn last_end(factors: &[Products], near: usize) -> usize
    requires nine { length factors.now ≡ 9 }
    requires near { near < 3 }
    ensures { IsEnd result }
{
    if factors[5].factor() == factors[near * 3 + 2].factor() {
        return 2;
    }
    0
}

// Whether the factors of three nodes are those of a column with this near end and this last row.
fn is_column_of_three(factors: &[Products], near: usize, last: usize) -> bool
    requires nine { length factors.now ≡ 9 }
    requires near { IsEnd near }
    requires last { IsEnd last }
    ensures { result ≡ true → IsColumnOfThree factors.now near last }
{
    let far = 2usize.saturating_sub(near);
    let row = 2usize.saturating_sub(last);
    adds_to_one(factors, near, row, last)
        && adds_to_one(factors, 1, row, last)
        && adds_to_one(factors, far, row, last)
        && factors[4].factor() == 1 ^ factors[near * 3 + 1].factor()
        && factors[3 + last].factor() == factors[near * 3 + last].factor()
}

// Row `x` of some rows of `len` bytes.
fn row_of(values: &[u8], len: usize, x: usize) -> &[u8]
    requires { x * len + len ≤ length values.now }
    ensures len { length result.now ≡ len }
    ensures bytes { (b : ℕ) → b < len → slice_index result.now b ≡ slice_index values.now (x * len + b) }
{
    &values[x * len..x * len + len]
}

// The factor of a node of three in a row.
fn factor_of(factors: &[Products], node: usize, row: usize) -> &Products
    requires { node * 3 + row < length factors.now }
    ensures { result.now ≡ factor_at factors.now 3 node row }
{
    &factors[node * 3 + row]
}

// `add_nodes` for the three nodes of a column with this near end and this last row.
fn add_three_nodes(
    len: usize,
    factors: &[Products],
    near: usize,
    last: usize,
    values: &[u8],
    rows: &mut [u8],
)
    requires nine { length factors.now ≡ 9 }
    requires column { IsColumnOfThree factors.now near last }
    requires values_len { length values.now ≡ 3 * len }
    requires rows_len { length rows.old ≡ 3 * len }
    ensures { AddsNodes 3 len (λ x e. factor_at factors.now 3 x e) (λ x b. slice_index values.now (x * len + b)) rows.old rows.new }
{
    let far = 2usize.saturating_sub(near);
    let sigma = factor_of(factors, near, 1);
    let tau = factor_of(factors, far, 1);
    let kappa = factor_of(factors, near, last);
    let rho = factor_of(factors, far, last);
    let own = row_of(values, len, near);
    let middle = row_of(values, len, 1);
    let other = row_of(values, len, far);
    let (d0, rest) = rows.split_at_mut(len);
    let (d1, d2) = rest.split_at_mut(len);
    if last == 2 {
        add_three_values(own, middle, other, sigma, tau, kappa, rho, d0, d1, d2);
    } else {
        add_three_values(own, middle, other, sigma, tau, kappa, rho, d2, d1, d0);
    }
}

// `add_nodes`, one node after another.
fn add_each_node(count: usize, len: usize, factors: &[Products], values: &[u8], rows: &mut [u8])
    requires few { count ≤ 8 }
    requires factor_count { length factors.now ≡ count * count }
    requires values_len { length values.now ≡ count * len }
    requires rows_len { length rows.old ≡ count * len }
    ensures { AddsNodes count len (λ x e. factor_at factors.now count x e) (λ x b. slice_index values.now (x * len + b)) rows.old rows.new }
{
    for x in 0..count {
        let products = &factors[x * count..x * count + count];
        add_rows(products, &values[x * len..x * len + len], rows);
    }
}

/// Adds to each of `count` rows of `len` bytes what as many known nodes add. `factors` has those of one node after another, and `values` a
/// row for each node.
pub fn add_nodes(count: usize, len: usize, factors: &[Products], values: &[u8], rows: &mut [u8])
    requires few { count ≤ 8 }
    requires factor_count { length factors.now ≡ count * count }
    requires values_len { length values.now ≡ count * len }
    requires rows_len { length rows.old ≡ count * len }
    ensures { AddsNodes count len (λ x e. factor_at factors.now count x e) (λ x b. slice_index values.now (x * len + b)) rows.old rows.new }
{
    if count == 2 {
        let p = &factors[1];
        if is_column_of_two(factors, p.factor()) {
            add_two_nodes(len, factors, p, values, rows);
            return;
        }
    }
    if count == 3 {
        let near = near_end(factors);
        let last = last_end(factors, near);
        if is_column_of_three(factors, near, last) {
            add_three_nodes(len, factors, near, last, values, rows);
            return;
        }
    }
    add_each_node(count, len, factors, values, rows);
}
