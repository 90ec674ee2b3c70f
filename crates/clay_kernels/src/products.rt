//! The products of a factor and bytes.
ghost use Rattle.std.specs.Prelude.{◌≡◌, ℕ, ◌*◌, ◌%◌, ◌<◌, slice_index};
ghost use Rattle.clay_field.specs.Field.{product};
ghost use Rattle.clay_kernels.specs.Lanes.{HasLanes};

use crate::slice_coupling::twice;
use clay_field::mul;
use std::marker::Model;
use std::simd::prelude::*;

/// All ones at the lanes whose number has a one in it.
const ONES: [u8; 16] = [
    0, 255, 0, 255, 0, 255, 0, 255, 0, 255, 0, 255, 0, 255, 0, 255,
];

/// All ones at the lanes whose number has a two in it.
const TWOS: [u8; 16] = [
    0, 0, 255, 255, 0, 0, 255, 255, 0, 0, 255, 255, 0, 0, 255, 255,
];

/// All ones at the lanes whose number has a four in it.
const FOURS: [u8; 16] = [
    0, 0, 0, 0, 255, 255, 255, 255, 0, 0, 0, 0, 255, 255, 255, 255,
];

/// All ones at the lanes whose number has an eight in it.
const EIGHTS: [u8; 16] = [
    0, 0, 0, 0, 0, 0, 0, 0, 255, 255, 255, 255, 255, 255, 255, 255,
];

/// A factor with its products, by the halves of the other byte.
#[derive(Drop)]
pub struct Products {
    factor: u8,
    low: [u8; 16],
    high: [u8; 16],
}

impl Model for Products {
    ghost use Rattle.std.specs.Prelude.{ℕ};
    ghost use Rattle.clay_kernels.specs.Lanes.{AreProducts};

    ghost Value = { ℕ };

    ghost view = { λ p. p.factor };

    ghost invariant = { λ p. AreProducts p.factor p.low p.high };
}

// The product of `c` and each number below 16: at its lane the sum of `c` times the powers of two that make it up.
fn nibble_products(c: u8) -> [u8; 16]
    ensures { (i : ℕ) → i < 16 → slice_index result i ≡ product c i }
{
    let two = twice(c);
    let four = twice(two);
    let ones = u8x16::splat(c) & u8x16::from_array(ONES);
    let twos = u8x16::splat(two) & u8x16::from_array(TWOS);
    let fours = u8x16::splat(four) & u8x16::from_array(FOURS);
    let eights = u8x16::splat(twice(four)) & u8x16::from_array(EIGHTS);
    (ones ^ twos ^ fours ^ eights).to_array()
}

// The products of `c` and 16 times each number below 16.
fn high_products(c: u8) -> [u8; 16]
    ensures { (i : ℕ) → i < 16 → slice_index result i ≡ product c (16 * i) }
{
    nibble_products(mul(c, 16))
}

// A table of 16 bytes in both halves of 32 lanes.
#[inline(always)]
fn in_both_halves(table: &[u8; 16]) -> u8x32
    ensures { HasLanes 32 result (λ k. slice_index table.now (k % 16)) }
{
    u8x16::from_slice(table).swizzle([
        0, 1, 2, 3, 4, 5, 6, 7, 8, 9, 10, 11, 12, 13, 14, 15, 0, 1, 2, 3, 4, 5, 6, 7, 8, 9, 10, 11,
        12, 13, 14, 15,
    ])
}

impl Products {
    /// The products of `factor`.
    pub fn new(factor: u8) -> Products
        ensures { result ≡ factor }
    {
        Products {
            factor,
            low: nibble_products(factor),
            high: high_products(factor),
        }
    }

    /// The factor.
    #[inline(always)]
    pub fn factor(&self) -> u8
        ensures { result ≡ self.now }
    {
        self.factor
    }

    /// The products with the low halves of bytes, a lane each.
    #[inline(always)]
    pub fn low_lanes(&self) -> u8x16
        ensures { HasLanes 16 result (λ k. product self.now (k % 16)) }
    {
        u8x16::from_array(self.low)
    }

    /// The products with the high halves of bytes, a lane each.
    #[inline(always)]
    pub fn high_lanes(&self) -> u8x16
        ensures { HasLanes 16 result (λ k. product self.now (16 * (k % 16))) }
    {
        u8x16::from_array(self.high)
    }

    /// The product with one byte.
    #[inline(always)]
    pub fn times(&self, byte: u8) -> u8
        ensures { result ≡ product self.now byte }
    {
        self.low[(byte & 15) as usize] ^ self.high[(byte >> 4) as usize]
    }

    /// The products with each lane, where `low` and `high` are those with the halves.
    #[inline(always)]
    pub fn times_lanes(&self, low: u8x16, high: u8x16, lanes: u8x16) -> u8x16
        requires low { HasLanes 16 low (λ k. product self.now (k % 16)) }
        requires high { HasLanes 16 high (λ k. product self.now (16 * (k % 16))) }
        ensures { HasLanes 16 result (λ k. product self.now (slice_index lanes k)) }
    {
        let of_low = low.swizzle_dyn(lanes & u8x16::splat(15));
        let of_high = high.swizzle_dyn(lanes >> u8x16::splat(4));
        of_low ^ of_high
    }

    /// The products with the low halves of bytes, in both halves of 32 lanes.
    #[inline(always)]
    pub fn low_wide(&self) -> u8x32
        ensures { HasLanes 32 result (λ k. product self.now (k % 16)) }
    {
        in_both_halves(&self.low)
    }

    /// The products with the high halves of bytes, in both halves of 32 lanes.
    #[inline(always)]
    pub fn high_wide(&self) -> u8x32
        ensures { HasLanes 32 result (λ k. product self.now (16 * (k % 16))) }
    {
        in_both_halves(&self.high)
    }

    /// The same as `times_lanes` with 32 lanes.
    #[inline(always)]
    pub fn times_wide(&self, low: u8x32, high: u8x32, lanes: u8x32) -> u8x32
        requires low { HasLanes 32 low (λ k. product self.now (k % 16)) }
        requires high { HasLanes 32 high (λ k. product self.now (16 * (k % 16))) }
        ensures { HasLanes 32 result (λ k. product self.now (slice_index lanes k)) }
    {
        let of_low = low.swizzle_dyn_within::<16>(lanes & u8x32::splat(15));
        let of_high = high.swizzle_dyn_within::<16>(lanes >> u8x32::splat(4));
        of_low ^ of_high
    }
}
