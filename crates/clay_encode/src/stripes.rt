//! Bytes cut into stripes, and joined again.
ghost use Rattle.std.specs.Prelude.{◌≡◌, ℕ, ◌<◌, ◌≤◌, List, length, take, IfOk};
ghost use Rattle.std.specs.List.{concat};
ghost use Rattle.clay_grid.specs.Shape.{Shape, stripe_length};
ghost use Rattle.clay_model.specs.Code.{stripes_of, padded};
ghost use Rattle.clay_model.specs.Chunks.{contents};

use clay_grid::Geometry;
use std::alloc::{AllocError, Global};

// The bytes, filled up with zeros to `len` of them.
fn fill_up(alloc: Global, bytes: &[u8], len: usize) -> Result<Vec<u8>, AllocError>
    requires { length bytes.now ≤ len }
    ensures { IfOk result (λ v. v.items ≡ padded len bytes.now) }
{
    let mut stripe = Vec::with_capacity(alloc, len)?;
    stripe.extend_from_slice(bytes)?;
    stripe.resize(len, 0u8)?;
    Ok(stripe)
}

/// Cuts bytes into stripes of `stripe_len` bytes. The last is filled up with zeros, and no bytes give no stripe.
/// The only error is want of memory.
pub fn split(alloc: Global, g: Geometry, bytes: &[u8]) -> Result<Vec<Vec<u8>>, AllocError>
    ensures { IfOk result (λ stripes. contents stripes.items ≡ stripes_of g bytes.now) }
{
    let len = g.stripe_len() as usize;
    let mut stripes = Vec::with_capacity(alloc, bytes.len().div_ceil(len))?;
    let mut at = 0;
    while at < bytes.len() {
        let end = (at + len).min(bytes.len());
        stripes.push(fill_up(alloc, &bytes[at..end], len)?)?;
        at = end;
    }
    Ok(stripes)
}

/// The first `len` bytes of the stripes, joined. The only error is want of memory.
pub fn join(
    alloc: Global,
    _g: Geometry,
    stripes: &[Vec<u8>],
    len: usize,
) -> Result<Vec<u8>, AllocError>
    requires { len ≤ length (concat (contents stripes.now)) }
    ensures { IfOk result (λ v. v.items ≡ take len (concat (contents stripes.now))) }
{
    let mut bytes = Vec::with_capacity(alloc, len)?;
    for stripe in stripes {
        let rest = len - bytes.len();
        bytes.extend_from_slice(&stripe[..rest.min(stripe.len())])?;
    }
    Ok(bytes)
}

/// The stripes of some bytes hold the bytes: joined up to their length they are the bytes again.
pub fn stripes_are_joined()
    ensures enough { (g : Shape) (bytes : List ℕ) → 0 < stripe_length g
        → length bytes ≤ length (concat (stripes_of g bytes)) }
    ensures joined { (g : Shape) (bytes : List ℕ) → 0 < stripe_length g
        → take (length bytes) (concat (stripes_of g bytes)) ≡ bytes }
{}
