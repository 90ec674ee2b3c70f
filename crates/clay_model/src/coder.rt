//! What a coder is.
ghost use Rattle.std.specs.Prelude.{◌≡◌, length, IfOk};
ghost use Rattle.std.specs.Thread.{IsSync};
ghost use Rattle.clay_grid.specs.Shape.{stripe_length};
ghost use Rattle.clay_model.specs.Code.{Codes};
ghost use Rattle.clay_model.specs.Chunks.{contents};
ghost use Rattle.clay_model.specs.Left.{AreLeft, AreRecovered};
ghost use Rattle.clay_model.specs.RepairParts.{AreParts, IsRebuilt};

use clay_grid::Geometry;
use std::alloc::{AllocError, Global};
use std::thread::Threads;

/// Codes stripes and chunks. What it asks of its arguments are lengths and counts alone.
///
/// It may start threads with the runtime `rt`.
pub trait Coder {
    /// The chunks of the codeword of a stripe: those of the data, then those of the parity.
    fn encode<R: Threads + Sync>(
        &self,
        rt: &R,
        alloc: Global,
        g: Geometry,
        stripe: &[u8],
    ) -> Result<Vec<Vec<u8>>, AllocError>
        requires sync { IsSync R.row }
        requires whole { length stripe.now ≡ stripe_length g }
        ensures { IfOk result (λ chunks. Codes g stripe.now (contents chunks.items)) };

    /// The chunks of the codeword that agrees with the chunks that are there, where one does. `have` has an entry for each chunk, `None`
    /// for a missing one.
    fn recover<R: Threads + Sync>(
        &self,
        rt: &R,
        alloc: Global,
        g: Geometry,
        have: &[Option<Vec<u8>>],
    ) -> Result<Vec<Vec<u8>>, AllocError>
        requires sync { IsSync R.row }
        requires left { AreLeft g have.now }
        ensures { IfOk result (λ chunks. AreRecovered g have.now (contents chunks.items)) };

    /// The lost chunk of the codeword that has these parts, where one does. `parts` has an entry for each chunk: `None` for the lost one,
    /// and for each other one its subchunks of the lost one's repair layers, rising, one after another.
    fn rebuild<R: Threads + Sync>(
        &self,
        rt: &R,
        alloc: Global,
        g: Geometry,
        lost: u32,
        parts: &[Option<Vec<u8>>],
    ) -> Result<Vec<u8>, AllocError>
        requires sync { IsSync R.row }
        requires parts { AreParts g lost parts.now }
        ensures { IfOk result (λ chunk. IsRebuilt g lost parts.now chunk.items) };
}
