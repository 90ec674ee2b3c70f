//! The values at some points from their weighted sums, by interpolation.
ghost use Rattle.std.specs.Prelude.{◌≡◌, ℕ, ◌+◌, ◌*◌, ◌<◌, ◌≤◌, IfOk, EachIndex, slice_index, length};
ghost use Rattle.clay_field.specs.Field.{product};
ghost use Rattle.clay_model.specs.Sums.{sum_below};
ghost use Rattle.clay_model.specs.Points.{AreDistinct, HaveSums};

use crate::lagrange::write_polynomials;
use clay_field::add_scaled;
use std::alloc::{AllocError, Global};
use std::marker::Model;

/// The interpolation over some distinct points.
///
/// It keeps the coefficients of the Lagrange polynomials of its points. The value at a point is the
/// sum, over the degrees of its polynomial, of the coefficient times the weighted sum of that power.
#[derive(Drop)]
pub struct Solver {
    points: Vec<u8>,
    coefficients: Vec<u8>,
}

impl Model for Solver {
    ghost use Rattle.std.specs.Prelude.{List, ℕ};
    ghost use Rattle.code_laws.specs.Lagrange.{IsInterpolation};

    ghost Value = { List ℕ };

    ghost view = { λ s. s.points.items };

    ghost invariant = { λ s. IsInterpolation s.points.items s.coefficients.items };
}

impl Solver {
    /// The interpolation over these points, of which there are at most 8.
    pub fn new(alloc: Global, points: &[u8]) -> Result<Solver, AllocError>
        requires few { length points.now ≤ 8 }
        requires distinct { AreDistinct points.now }
        ensures { IfOk result (λ solver. solver ≡ points.now) }
    {
        let count = points.len();
        let kept = Vec::from_slice(alloc, points)?;
        let mut coefficients = vec![in alloc; 0; count * count]?;
        write_polynomials(points, &mut coefficients);
        Ok(Solver {
            points: kept,
            coefficients,
        })
    }

    /// Writes the values at the points whose weighted sums are `syndromes`: `w` bytes of `out` for
    /// each point, from `w` bytes of `syndromes` for each power, from 0 on. It takes no memory.
    pub fn solve(&self, w: usize, syndromes: &[u8], out: &mut [u8])
        requires sums_len { length syndromes.now ≡ length self.now * w }
        requires out_len { length out.old ≡ length self.now * w }
        ensures { HaveSums self.now w out.new syndromes.now }
    {
        let count = self.points.len();
        let coefficients = self.coefficients.as_slice();
        for e in 0..count {
            let polynomial = &coefficients[e * count..(e + 1) * count];
            combine(polynomial, syndromes, &mut out[e * w..(e + 1) * w]);
        }
    }
}

// Writes the sum of the parts, each times its factor, where a part has as many bytes as `out`.
fn combine(factors: &[u8], parts: &[u8], out: &mut [u8])
    requires { length parts.now ≡ length factors.now * length out.old }
    ensures { EachIndex out.new (λ b. slice_index out.new b
        ≡ sum_below (length factors.now) (λ j.
        product (slice_index factors.now j) (slice_index parts.now (j * length out.old + b)))) }
{
    out.fill(0);
    let w = out.len();
    for (j, factor) in factors.iter().enumerate() {
        add_scaled(out, *factor, &parts[j * w..(j + 1) * w]);
    }
}
