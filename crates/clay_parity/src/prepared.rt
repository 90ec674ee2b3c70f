//! What encoding works with that a code alone decides, made once for many stripes.
ghost use Rattle.std.specs.Prelude.{◌≡◌, ◌*◌, length, IfOk, OnOk, OnErr};
ghost use Rattle.clay_grid.specs.Shape.{chunk_length, stripe_length};
ghost use Rattle.clay_parity.specs.Flat.{IsParity};

use crate::flat::write_parity;
use crate::parity_layers::last_column;
use clay_grid::Geometry;
use generator_matrix::Generator;
use std::alloc::{AllocError, Global};
use std::marker::Model;

/// A code, ready to encode: its factors are solved, and their products made. Contracts see its geometry.
#[derive(Drop)]
pub struct Prepared {
    g: Geometry,
    generator: Generator,
}

impl Model for Prepared {
    ghost use Rattle.clay_grid.specs.Shape.{Shape};
    ghost use Rattle.generator_matrix.specs.Generated.{IsLastGenerator};

    ghost Value = { Shape };

    ghost view = { λ p. p.g };

    ghost invariant = { λ p. IsLastGenerator p.g p.generator.unknown p.generator.each };
}

impl Prepared {
    /// The code of a geometry.
    pub fn new(alloc: Global, g: Geometry) -> Result<Prepared, AllocError>
        ensures { IfOk result (λ prepared. prepared ≡ g) }
    {
        let generator = last_column(alloc, g)?;
        Ok(Prepared { g, generator })
    }

    /// The geometry of the code.
    pub fn geometry(&self) -> Geometry
        ensures { result ≡ self.now }
    {
        self.g
    }

    /// Writes the parity chunks of the stripe's codeword, as the function `parity_into` does for the same geometry.
    pub fn parity_into(
        &self,
        alloc: Global,
        stripe: &[u8],
        chunks: &mut [u8],
    ) -> Result<(), AllocError>
        requires stripe { length stripe.now ≡ stripe_length self.now }
        requires chunks { length chunks.old ≡ self.now.parity_count * chunk_length self.now }
        ensures parity { OnOk result (IsParity self.now stripe.now chunks.new) }
        ensures kept { OnErr result (chunks.new ≡ chunks.old) }
    {
        write_parity(alloc, self.g, &self.generator, stripe, chunks)
    }
}
