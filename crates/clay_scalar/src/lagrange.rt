//! The coefficients of Lagrange polynomials over points of the field.
ghost use Rattle.std.specs.Prelude.{◌≡◌, ℕ, ◌+◌, ◌*◌, ◌<◌, ◌≤◌, ◌∷◌, EachIndex, slice_index, length, bit_xor};
ghost use Rattle.clay_field.specs.Field.{product};
ghost use Rattle.clay_model.specs.Points.{AreDistinct};
ghost use Rattle.code_laws.specs.Lagrange.{IsLagrange, AreLagrange};

use clay_field::{inv, mul};

// Multiplies a polynomial, given by its coefficients, by `scale * (x + root)`, and drops the degree
// that has no place.
fn multiply(polynomial: &mut [u8], root: u8, scale: u8)
    ensures { EachIndex polynomial.new (λ j.
        let own = slice_index polynomial.old j in
        let below = slice_index (0 ∷ polynomial.old) j in
        slice_index polynomial.new j ≡ product scale (bit_xor below (product root own))) }
{
    let mut below = 0;
    for coefficient in polynomial.iter_mut() {
        let own = *coefficient;
        *coefficient = mul(scale, below ^ mul(root, own));
        below = own;
    }
}

// Writes the coefficients of the polynomial that is 1 at the point of index `own` and 0 at the
// other points.
fn write_polynomial(points: &[u8], own: usize, polynomial: &mut [u8])
    requires within { own < length points.now }
    requires distinct { AreDistinct points.now }
    requires room { length polynomial.old ≡ length points.now }
    ensures { IsLagrange points.now own (λ j. slice_index polynomial.new j) }
{
    polynomial.fill(0);
    polynomial[0] = 1;
    for (i, point) in points.iter().enumerate() {
        if i != own {
            multiply(polynomial, *point, inv(points[own] ^ *point));
        }
    }
}

/// Writes the coefficients of the Lagrange polynomial of each point, one row after another.
pub fn write_polynomials(points: &[u8], coefficients: &mut [u8])
    requires few { length points.now ≤ 8 }
    requires distinct { AreDistinct points.now }
    requires room { length coefficients.old ≡ length points.now * length points.now }
    ensures { AreLagrange points.now coefficients.new }
{
    let count = points.len();
    for own in 0..count {
        write_polynomial(
            points,
            own,
            &mut coefficients[own * count..(own + 1) * count],
        );
    }
}
