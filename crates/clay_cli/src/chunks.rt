//! The command `chunks`.
ghost use Rattle.std.specs.Prelude.{IfOk};
ghost use Rattle.clay_cli.specs.Top.{IsAnswer, IsOfInput};
ghost use Rattle.clay_words.specs.declared.numbers_of_words.Task.TheVariants.{Chunks};

use crate::Status;
use crate::output::Output;
use clay_grid::Geometry;
use clay_lanes::encode;
use line_grammar::{StripeFault, chunk_lines, read_stripe};
use std::alloc::{AllocError, Global};

/// The chunks of the stripe that the input spells.
pub fn chunks(alloc: Global, g: Geometry, input: &[u8]) -> Result<Output, AllocError>
    ensures status { IfOk result (λ output. IsOfInput output.status) }
    ensures answers { IfOk result (λ output. IsAnswer (Chunks g) input.now output) }
{
    match read_stripe(alloc, input, g.stripe_len() as usize) {
        Ok(stripe) => {
            let chunks = encode(alloc, g, &stripe)?;
            let bytes = chunk_lines(alloc, &chunks)?;
            Ok(Output {
                status: Status::Done,
                bytes,
            })
        }
        Err(StripeFault::Hex) => Output::line(alloc, Status::DataRefused, b"data refused hex\n"),
        Err(StripeFault::Length) => Output::line(
            alloc,
            Status::DataRefused,
            b"data refused length\n",
        ),
        Err(StripeFault::OutOfMemory) => Err(AllocError),
    }
}
