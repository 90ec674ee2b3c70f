//! Coupling and uncoupling of subchunks, byte by byte.
ghost use Rattle.std.specs.Prelude.{◌≡◌, EachIndex, slice_index, length, bit_xor};
ghost use Rattle.clay_field.specs.Coupling.{gamma, determinant};
ghost use Rattle.clay_field.specs.Field.{product, quotient};

use clay_field::mul;

/// The inverse of γ, which is 2.
const HALF: u8 = 0x8E;

/// The inverse of 5, the determinant of a pair's coupling.
const FIFTH: u8 = 0xA7;

// Twice a byte.
fn twice(a: u8) -> u8
    ensures { result ≡ product gamma a }
{
    mul(a, 2)
}

// Half of a byte.
fn half(a: u8) -> u8
    ensures { result ≡ quotient a gamma }
{
    if a & 1 == 0 { a >> 1 } else { (a >> 1) ^ HALF }
}

// A fifth of a byte.
fn fifth(a: u8) -> u8
    ensures { result ≡ quotient a determinant }
{
    mul(a, FIFTH)
}

// Five times a byte.
fn five_times(a: u8) -> u8
    ensures { result ≡ product determinant a }
{
    a ^ twice(twice(a))
}

/// Writes the uncoupled bytes of a subchunk: each coupled byte of `own` plus twice its partner's. This is the pairwise
/// reverse transform of Vajha et al., FAST 2018, with 2 for γ.
pub fn uncouple(own: &[u8], partner: &[u8], out: &mut [u8])
    requires partner_len { length own.now ≡ length partner.now }
    requires out_len { length own.now ≡ length out.old }
    ensures { EachIndex out.new (λ k.
        slice_index out.new k ≡ bit_xor (slice_index own.now k) (product gamma (slice_index partner.now k))) }
{
    for (i, byte) in out.iter_mut().enumerate() {
        *byte = own[i] ^ twice(partner[i]);
    }
}

/// Writes the coupled bytes of a subchunk from its uncoupled ones and its partner's: the pairwise forward transform, the
/// inverse of [`uncouple`].
pub fn couple(own_u: &[u8], partner_u: &[u8], out: &mut [u8])
    requires partner_len { length own_u.now ≡ length partner_u.now }
    requires out_len { length own_u.now ≡ length out.old }
    ensures { EachIndex out.new (λ k.
        slice_index out.new k
        ≡ quotient (bit_xor (slice_index own_u.now k) (product gamma (slice_index partner_u.now k))) determinant) }
{
    for (i, byte) in out.iter_mut().enumerate() {
        *byte = fifth(own_u[i] ^ twice(partner_u[i]));
    }
}

/// Writes the uncoupled bytes of a subchunk from its coupled ones and its partner's uncoupled ones, as decoding needs
/// them where the partner's chunk is erased.
pub fn uncouple_from(own_c: &[u8], partner_u: &[u8], out: &mut [u8])
    requires partner_len { length own_c.now ≡ length partner_u.now }
    requires out_len { length own_c.now ≡ length out.old }
    ensures { EachIndex out.new (λ k.
        slice_index out.new k
        ≡ bit_xor (product determinant (slice_index own_c.now k)) (product gamma (slice_index partner_u.now k))) }
{
    for (i, byte) in out.iter_mut().enumerate() {
        *byte = five_times(own_c[i]) ^ twice(partner_u[i]);
    }
}

/// Writes the coupled bytes of a subchunk's partner from the uncoupled and the coupled bytes of the subchunk, as repair
/// needs them where the partner's chunk is the lost one.
pub fn cross(own_u: &[u8], own_c: &[u8], out: &mut [u8])
    requires own_len { length own_u.now ≡ length own_c.now }
    requires out_len { length own_u.now ≡ length out.old }
    ensures { EachIndex out.new (λ k.
        slice_index out.new k ≡ quotient (bit_xor (slice_index own_u.now k) (slice_index own_c.now k)) gamma) }
{
    for (i, byte) in out.iter_mut().enumerate() {
        *byte = half(own_u[i] ^ own_c[i]);
    }
}
