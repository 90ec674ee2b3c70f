//! The factors by which known nodes' values make up those of unknown ones: products of distances between nodes, for sixteen nodes at once.
ghost use Rattle.std.specs.Prelude.{◌≡◌, ℕ, ◌+◌, ◌*◌, ◌<◌, ◌≤◌, ◌/◌, ◌%◌, IfOk, slice_index, length, bit_xor};
ghost use Rattle.clay_field.specs.Field.{product};
ghost use Rattle.clay_model.specs.Points.{AreDistinct};
ghost use Rattle.generator_matrix.specs.Distances.{distances, lagrange_factor};

use clay_field::{inv, mul};
use std::alloc::{AllocError, Global};

// Multiplies each value by the distance of its node from a point.
fn times_distances(nodes: [u8; 16], point: u8, values: &mut [u8; 16])
    ensures { (k : ℕ) → k < 16 → slice_index values.new k ≡ product (slice_index values.old k) (bit_xor (slice_index nodes k) point) }
{
    for k in 0..16 {
        values[k] = mul(values[k], nodes[k] ^ point);
    }
}

// The product of the distances of a point from the others.
fn own_distances(points: &[u8], own: usize) -> u8
    requires { own < length points.now }
    ensures { result ≡ distances points.now own (slice_index points.now own) }
{
    let mut product = 1;
    for (i, point) in points.iter().enumerate() {
        if i != own {
            product = mul(product, points[own] ^ *point);
        }
    }
    product
}

// For each of sixteen nodes the product of `scale` and its distances from all points but one.
fn scaled_distances(points: &[u8], own: usize, scale: u8, nodes: [u8; 16]) -> [u8; 16]
    ensures len { length result ≡ 16 }
    ensures value { (k : ℕ) → k < 16 → slice_index result k ≡ product (distances points.now own (slice_index nodes k)) scale }
{
    let mut products = [scale; 16];
    for (i, point) in points.iter().enumerate() {
        if i != own {
            times_distances(nodes, *point, &mut products);
        }
    }
    products
}

// The sixteen nodes from `at` on.
fn block_at(nodes: &[u8], at: usize) -> [u8; 16]
    requires { at + 16 ≤ length nodes.now }
    ensures { (k : ℕ) → k < 16 → slice_index result k ≡ slice_index nodes.now (at + k) }
{
    let mut block = [0; 16];
    for k in 0..16 {
        block[k] = nodes[at + k];
    }
    block
}

/// For each unknown node the factors of the nodes in its value, one row after another.
pub fn lagrange_factors(alloc: Global, unknown: &[u8], nodes: &[u8]) -> Result<Vec<u8>, AllocError>
    requires few { length unknown.now ≤ 8 }
    requires distinct { AreDistinct unknown.now }
    requires nodes { length nodes.now ≤ 256 }
    requires blocks { length nodes.now % 16 ≡ 0 }
    ensures len { IfOk result (λ v. length v.items ≡ length unknown.now * length nodes.now) }
    ensures value { IfOk result (λ v. (p : ℕ) → p < length unknown.now * length nodes.now →
        slice_index v.items p
        ≡ lagrange_factor unknown.now (p / length nodes.now) (slice_index nodes.now (p % length nodes.now))) }
{
    let blocks = nodes.len() / 16;
    let mut factors = Vec::with_capacity(alloc, unknown.len() * nodes.len())?;
    for b in 0..unknown.len() * blocks {
        let own = b / blocks;
        let scale = inv(own_distances(unknown, own));
        let of_block = scaled_distances(unknown, own, scale, block_at(nodes, b % blocks * 16));
        factors.extend_from_slice(&of_block)?;
    }
    Ok(factors)
}

/// The nodes, with zeros up to a number that 16 divides.
pub fn in_blocks(alloc: Global, nodes: &[u8]) -> Result<Vec<u8>, AllocError>
    requires { length nodes.now ≤ 256 }
    ensures len { IfOk result (λ v. length v.items ≡ (length nodes.now + 15) / 16 * 16) }
    ensures nodes { IfOk result (λ v. (i : ℕ) → i < length nodes.now → slice_index v.items i ≡ slice_index nodes.now i) }
{
    let len = (nodes.len() + 15) / 16 * 16;
    let mut padded = Vec::with_capacity(alloc, len)?;
    padded.extend_from_slice(nodes)?;
    padded.resize(len, 0)?;
    Ok(padded)
}
