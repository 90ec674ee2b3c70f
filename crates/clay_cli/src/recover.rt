//! The command `recover`.
ghost use Rattle.std.specs.Prelude.{IfOk};
ghost use Rattle.clay_cli.specs.Top.{IsAnswer, IsOfInput};
ghost use Rattle.clay_words.specs.declared.numbers_of_words.Task.TheVariants.{Recover};

use crate::Status;
use crate::output::Output;
use clay_grid::Geometry;
use clay_lanes::decode_checked;
use clay_model::CheckedFault;
use line_grammar::{EntriesFault, chunk_lines, read_chunks};
use std::alloc::{AllocError, Global};

/// All chunks of the codeword that agrees with those that the input's lines spell.
pub fn recover(alloc: Global, g: Geometry, input: &[u8]) -> Result<Output, AllocError>
    ensures status { IfOk result (λ output. IsOfInput output.status) }
    ensures answers { IfOk result (λ output. IsAnswer (Recover g) input.now output) }
{
    let left = match read_chunks(alloc, input, g.n() as usize, g.chunk_len() as usize) {
        Ok(left) => left,
        Err(EntriesFault::Length) => {
            return Output::line(alloc, Status::DataRefused, b"data refused length\n");
        }
        Err(EntriesFault::Hex) => {
            return Output::line(alloc, Status::DataRefused, b"data refused hex\n");
        }
        Err(EntriesFault::OutOfMemory) => return Err(AllocError),
    };
    match decode_checked(alloc, g, &left) {
        Ok(chunks) => {
            let bytes = chunk_lines(alloc, &chunks)?;
            Ok(Output {
                status: Status::Done,
                bytes,
            })
        }
        Err(CheckedFault::TooFew) => {
            Output::line(alloc, Status::DataRefused, b"data refused missing\n")
        }
        Err(CheckedFault::Disagree) => {
            Output::line(alloc, Status::DataRefused, b"data refused disagree\n")
        }
        Err(CheckedFault::OutOfMemory) => Err(AllocError),
    }
}
