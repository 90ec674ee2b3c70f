//! What threads made, or that memory ran out.
ghost use Rattle.std.specs.Prelude.{◌≡◌, IfOk, Ok, map};

use std::alloc::{AllocError, Global};

/// The chunks, where each was made.
pub fn all_made(
    alloc: Global,
    results: Vec<Result<Vec<u8>, AllocError>>,
) -> Result<Vec<Vec<u8>>, AllocError>
    ensures { IfOk result (λ chunks. results.items ≡ map Ok chunks.items) }
{
    let mut chunks = Vec::with_capacity(alloc, results.len())?;
    for made in results {
        chunks.push(made?)?;
    }
    Ok(chunks)
}
