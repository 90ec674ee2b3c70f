//! The command `chunksd`.
ghost use Rattle.std.specs.Prelude.{IfOk};
ghost use Rattle.clay_cli.specs.Top.{IsAnswer, IsOfInput};
ghost use Rattle.clay_words.specs.declared.numbers_of_words.Task.TheVariants.{AloofChunks};

use crate::Status;
use crate::output::Output;
use clay_aloof::{AloofGeometry, encode};
use line_grammar::{StripeFault, chunk_lines, read_stripe};
use std::alloc::{AllocError, Global};

/// The chunks of the stripe that the input spells, of a code whose repairs have fewer helpers.
pub fn chunksd(alloc: Global, g: AloofGeometry, input: &[u8]) -> Result<Output, AllocError>
    ensures status { IfOk result (λ output. IsOfInput output.status) }
    ensures answers { IfOk result (λ output. IsAnswer (AloofChunks g) input.now output) }
{
    match read_stripe(alloc, input, g.stripe_len() as usize) {
        Ok(stripe) => {
            let chunks = encode(alloc, g, &stripe)?;
            let bytes = chunk_lines(alloc, &chunks)?;
            Ok(Output {
                status: Status::Done,
                bytes,
            })
        }
        Err(StripeFault::Hex) => Output::line(alloc, Status::DataRefused, b"data refused hex\n"),
        Err(StripeFault::Length) => Output::line(
            alloc,
            Status::DataRefused,
            b"data refused length\n",
        ),
        Err(StripeFault::OutOfMemory) => Err(AllocError),
    }
}
