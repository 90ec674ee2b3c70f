//! The chunks of a codeword.
ghost use Rattle.std.specs.Prelude.{◌≡◌, ℕ, ◌+◌, ◌*◌, ◌<◌, slice_index, slice_range, slice_index_or, length, IfOk, []};
ghost use Rattle.clay_grid.specs.Shape.{row_count, layer_count, stripe_length, chunk_length};
ghost use Rattle.clay_grid.specs.Layers.{layer_of};
ghost use Rattle.clay_grid.specs.Limits.{IsGeometry};
ghost use Rattle.clay_model.specs.Code.{Codes};
ghost use Rattle.clay_model.specs.Chunks.{contents};
ghost use Rattle.code_laws.specs.Columns.{coupled_last, HoldsCoupled, AddsParity};

use crate::plain_columns::{solve_last_column, zeros};
use clay_grid::Geometry;
use clay_model::couple;
use std::alloc::{AllocError, Global};

// The uncoupled bytes of row `x` of the last column in layer `z`.
fn last_piece(g: Geometry, column: &[u8], x: u32, z: u32) -> &[u8]
    requires column_len { length column.now ≡ layer_count g * (row_count g * g.width) }
    requires row { x < row_count g }
    requires layer { z < layer_count g }
    ensures geometry { IsGeometry g }
    ensures len { length result.now ≡ g.width }
    ensures bytes { (b : ℕ) → b < g.width →
        slice_index result.now b ≡ slice_index column.now ((z * row_count g + x) * g.width + b) }
{
    let w = g.w() as usize;
    let at = (z as usize * g.q() as usize + x as usize) * w;
    &column[at..at + w]
}

// Writes subchunk `z` of the parity chunk of row `x`.
fn couple_piece(g: Geometry, column: &[u8], x: u32, z: u32, out: &mut [u8])
    requires column_len { length column.now ≡ layer_count g * (row_count g * g.width) }
    requires row { x < row_count g }
    requires layer { z < layer_count g }
    requires out_len { length out.old ≡ g.width }
    ensures { (b : ℕ) → b < g.width → slice_index out.new b ≡ coupled_last g column.now b x (layer_of g z) }
{
    let own = last_piece(g, column, x, z);
    let partner = g.partner(x, g.t() - 1, z);
    if partner.x == x {
        out.copy_from_slice(own);
    } else {
        couple(own, last_piece(g, column, partner.x, partner.z), out);
    }
}

// Writes the parity chunk of row `x`.
fn couple_chunk(g: Geometry, column: &[u8], x: u32, chunk: &mut [u8])
    requires column_len { length column.now ≡ layer_count g * (row_count g * g.width) }
    requires row { x < row_count g }
    requires chunk_len { length chunk.old ≡ chunk_length g }
    ensures { HoldsCoupled g column.now x (layer_count g) chunk.new }
{
    let w = g.w() as usize;
    for z in 0..g.alpha() {
        let at = z as usize * w;
        couple_piece(g, column, x, z, &mut chunk[at..at + w]);
    }
}

// The parity chunk of row `x`.
fn parity_chunk(alloc: Global, g: Geometry, column: &[u8], x: u32) -> Result<Vec<u8>, AllocError>
    requires column_len { length column.now ≡ layer_count g * (row_count g * g.width) }
    requires row { x < row_count g }
    ensures len { IfOk result (λ v. length v.items ≡ chunk_length g) }
    ensures value { IfOk result (λ v. HoldsCoupled g column.now x (layer_count g) v.items) }
{
    let mut chunk = zeros(alloc, g.alpha() as usize * g.w() as usize)?;
    couple_chunk(g, column, x, &mut chunk);
    Ok(chunk)
}

// The chunks that are pieces of the stripe.
fn data_chunks(alloc: Global, g: Geometry, stripe: &[u8]) -> Result<Vec<Vec<u8>>, AllocError>
    requires whole { length stripe.now ≡ stripe_length g }
    ensures geometry { IsGeometry g }
    ensures len { IfOk result (λ v. length (contents v.items) ≡ g.data_count) }
    ensures value { IfOk result (λ v. (c : ℕ) → c < g.data_count →
        slice_index_or (contents v.items) c [] ≡ slice_range stripe.now (c * chunk_length g) ((c + 1) * chunk_length g)) }
{
    let len = g.alpha() as usize * g.w() as usize;
    let mut chunks = Vec::with_capacity(alloc, g.n() as usize)?;
    for c in 0..g.k() as usize {
        chunks.push(Vec::from_slice(alloc, &stripe[c * len..(c + 1) * len])?)?;
    }
    Ok(chunks)
}

// Adds the parity chunks, by rising row.
fn add_parity_chunks(
    alloc: Global,
    g: Geometry,
    column: &[u8],
    chunks: &mut Vec<Vec<u8>>,
) -> Result<(), AllocError>
    requires column_len { length column.now ≡ layer_count g * (row_count g * g.width) }
    ensures { IfOk result (λ _. AddsParity g column.now g.parity_count (contents chunks.old.items) (contents chunks.new.items)) }
{
    for x in 0..g.m() {
        chunks.push(parity_chunk(alloc, g, column, x)?)?;
    }
    Ok(())
}

/// The chunks of a stripe's codeword: `k` data chunks, which joined are the stripe, then `m` parity
/// chunks, each of `chunk_len` bytes.
///
/// It solves for the last column of the grid, which holds just the parity chunks. The partner of a
/// vertex stands in the vertex's own column, so the stripe gives the uncoupled values of all other
/// columns, and each layer is solved by itself (Vajha et al., FAST 2018: encoding decodes the parity
/// chunks as erasures). Beside the chunks it takes `m * alpha * w` bytes and room for one layer. The
/// only error is want of memory.
pub fn encode(alloc: Global, g: Geometry, stripe: &[u8]) -> Result<Vec<Vec<u8>>, AllocError>
    requires { length stripe.now ≡ stripe_length g }
    ensures { IfOk result (λ chunks. Codes g stripe.now (contents chunks.items)) }
{
    let column = solve_last_column(alloc, g, stripe)?;
    let mut chunks = data_chunks(alloc, g, stripe)?;
    add_parity_chunks(alloc, g, &column, &mut chunks)?;
    Ok(chunks)
}
