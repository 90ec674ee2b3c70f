//! Decoding that tells whether some codeword agrees.
ghost use Rattle.std.specs.Prelude.{◌≡◌, ◌+◌, ◌*◌, ◌≤◌, ◌↔◌, [], length, take, IfOk, IfSome, IsErrOf, IsTrue, Err};
ghost use Rattle.std.specs.List.{concat};
ghost use Rattle.clay_grid.specs.Shape.{Shape, chunk_count, chunk_length, stripe_length};
ghost use Rattle.clay_model.specs.Code.{AgreesWith};
ghost use Rattle.clay_model.specs.Chunks.{contents};
ghost use Rattle.clay_model.specs.Left.{parts, AreLong, AreTooFew, Completes, NoneCompletes};

use crate::plain_missing::{missing_count, recover};
use clay_encode::encode;
use clay_grid::Geometry;
use clay_model::CheckedFault;
use std::alloc::{AllocError, Global};

// The bytes of the data chunks, which come first.
fn joined(alloc: Global, g: Geometry, chunks: &[Vec<u8>]) -> Result<Vec<u8>, AllocError>
    requires { g.data_count ≤ length chunks.now }
    ensures { IfOk result (λ v. v.items ≡ concat (take g.data_count (contents chunks.now))) }
{
    let mut stripe = Vec::with_capacity(alloc, g.stripe_len() as usize)?;
    for chunk in 0..g.k() as usize {
        stripe.extend_from_slice(&chunks[chunk])?;
    }
    Ok(stripe)
}

// Whether a chunk is the one that is there, if one is.
fn is_kept(part: &Option<Vec<u8>>, chunk: &[u8]) -> bool
    ensures { IsTrue result ↔ IfSome part.now (λ v. chunk.now ≡ v.items) }
{
    match part {
        Some(bytes) => bytes.as_slice() == chunk,
        None => true,
    }
}

// Whether chunks agree with those that are there.
fn agree(have: &[Option<Vec<u8>>], chunks: &[Vec<u8>]) -> bool
    requires { length have.now ≡ length chunks.now }
    ensures { IsTrue result ↔ AgreesWith (parts have.now) (contents chunks.now) }
{
    for (i, part) in have.iter().enumerate() {
        if !is_kept(part, &chunks[i]) {
            return false;
        }
    }
    true
}

/// The chunks of the codeword that agrees with the chunks that are there.
///
/// `have` has an entry for each chunk, `None` for a missing one. It decodes, encodes the data chunks again, and compares.
pub fn decode_checked(
    alloc: Global,
    g: Geometry,
    have: &[Option<Vec<u8>>],
) -> Result<Vec<Vec<u8>>, CheckedFault>
    requires count { length have.now ≡ chunk_count g }
    requires lengths { AreLong (chunk_length g) have.now }
    ensures too_few { IsErrOf result CheckedFault.TooFew ↔ AreTooFew g have.now }
    ensures disagree { result ≡ Err CheckedFault.Disagree → NoneCompletes g have.now }
    ensures codeword { IfOk result (λ chunks. Completes g have.now (contents chunks.items)) }
{
    if missing_count(have) > g.m() as usize {
        return Err(CheckedFault::TooFew);
    }
    let chunks = recover(alloc, g, have)?;
    let stripe = joined(alloc, g, &chunks)?;
    let word = encode(alloc, g, &stripe)?;
    if agree(have, &word) {
        Ok(word)
    } else {
        Err(CheckedFault::Disagree)
    }
}
