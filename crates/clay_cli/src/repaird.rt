//! The command `repaird`.
ghost use Rattle.std.specs.Prelude.{◌<◌, IfOk};
ghost use Rattle.clay_aloof.specs.Shape.{all_chunks};
ghost use Rattle.clay_cli.specs.Top.{IsAnswer, IsOfInput};
ghost use Rattle.clay_words.specs.declared.numbers_of_words.Task.TheVariants.{AloofRepair};

use crate::Status;
use crate::output::Output;
use clay_aloof::{AloofGeometry, helpers_fit, rebuild};
use line_grammar::{EntriesFault, chunk_lines, read_chunks};
use std::alloc::{AllocError, Global};
use std::slice;

/// The lost chunk of the codewords whose parts the input's lines spell.
pub fn repaird(
    alloc: Global,
    g: AloofGeometry,
    lost: u32,
    input: &[u8],
) -> Result<Output, AllocError>
    requires { lost < all_chunks g }
    ensures status { IfOk result (λ output. IsOfInput output.status) }
    ensures answers { IfOk result (λ output. IsAnswer (AloofRepair g lost) input.now output) }
{
    let parts = match read_chunks(alloc, input, g.n() as usize, g.part_len() as usize) {
        Ok(parts) => parts,
        Err(EntriesFault::Length) => {
            return Output::line(alloc, Status::DataRefused, b"data refused length\n");
        }
        Err(EntriesFault::Hex) => {
            return Output::line(alloc, Status::DataRefused, b"data refused hex\n");
        }
        Err(EntriesFault::OutOfMemory) => return Err(AllocError),
    };
    if !helpers_fit(g, lost, &parts) {
        return Output::line(alloc, Status::DataRefused, b"data refused helpers\n");
    }
    let chunk = rebuild(alloc, g, lost, &parts)?;
    let bytes = chunk_lines(alloc, slice::from_ref(&chunk))?;
    Ok(Output {
        status: Status::Done,
        bytes,
    })
}
