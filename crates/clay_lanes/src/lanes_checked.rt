//! The codeword that agrees with what is left of it, and whether one does.
ghost use Rattle.std.specs.Prelude.{◌≡◌, ℕ, ◌+◌, ◌≤◌, ◌<◌, ◌↔◌, [], length, take, IfOk, IsErrOf, IsTrue, slice_index_or, Err};
ghost use Rattle.std.specs.List.{concat};
ghost use Rattle.clay_grid.specs.Shape.{chunk_count, chunk_length};
ghost use Rattle.clay_model.specs.Chunks.{contents};
ghost use Rattle.clay_model.specs.Left.{AreLong, AreTooFew, Completes, NoneCompletes};

use crate::block_chunks::{missing_count, recover};
use clay_grid::Geometry;
use clay_model::CheckedFault;
use clay_parity::parity;
use std::alloc::{AllocError, Global};

// The stripe that the data chunks are.
fn stripe_of(alloc: Global, g: Geometry, chunks: &[Vec<u8>]) -> Result<Vec<u8>, AllocError>
    requires { g.data_count ≤ length chunks.now }
    ensures { IfOk result (λ stripe. stripe.items ≡ concat (take g.data_count (contents chunks.now))) }
{
    let mut stripe = Vec::with_capacity(alloc, g.stripe_len() as usize)?;
    for chunk in 0..g.k() as usize {
        stripe.extend_from_slice(&chunks[chunk])?;
    }
    Ok(stripe)
}

// Whether two chunks have the same bytes.
fn same_bytes(chunk: &[u8], other: &[u8]) -> bool
    ensures { IsTrue result ↔ (chunk.now ≡ other.now) }
{
    chunk == other
}

// Whether the chunks from `first` on are these others.
fn have_behind(chunks: &[Vec<u8>], first: usize, others: &[Vec<u8>]) -> bool
    requires { first + length others.now ≤ length chunks.now }
    ensures { IsTrue result ↔ ((i : ℕ) → i < length others.now →
        slice_index_or (contents chunks.now) (first + i) [] ≡ slice_index_or (contents others.now) i []) }
{
    for (i, other) in others.iter().enumerate() {
        if !same_bytes(&chunks[first + i], other) {
            return false;
        }
    }
    true
}

/// The chunks of the codeword that agrees with the chunks that are there, or that none does.
///
/// `have` has an entry for each chunk, `None` for a missing one. It recovers the missing chunks, and compares the parity chunks with those
/// of the data chunks. Its answers are those of `clay_decode::decode_checked`.
pub fn decode_checked(
    alloc: Global,
    g: Geometry,
    have: &[Option<Vec<u8>>],
) -> Result<Vec<Vec<u8>>, CheckedFault>
    requires count { length have.now ≡ chunk_count g }
    requires lengths { AreLong (chunk_length g) have.now }
    ensures too_few { IsErrOf result CheckedFault.TooFew ↔ AreTooFew g have.now }
    ensures disagree { result ≡ Err CheckedFault.Disagree → NoneCompletes g have.now }
    ensures codeword { IfOk result (λ chunks. Completes g have.now (contents chunks.items)) }
{
    if missing_count(have) > g.m() as usize {
        return Err(CheckedFault::TooFew);
    }
    let chunks = recover(alloc, g, have)?;
    let stripe = stripe_of(alloc, g, &chunks)?;
    let parity = parity(alloc, g, &stripe)?;
    if have_behind(&chunks, g.k() as usize, &parity) {
        Ok(chunks)
    } else {
        Err(CheckedFault::Disagree)
    }
}
