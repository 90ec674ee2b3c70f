//! The stripe, and any of its chunks, from the blocks of enough shares.
ghost use Rattle.std.specs.Prelude.{◌≡◌, ◌+◌, ◌*◌, ◌^◌, ◌<◌, ◌≤◌, ◌↔◌, ◌++◌, ℕ, length, take, drop, replicate, slice_index_or, false, IsTrue, IfOk, OnOk, IsErrOf, IfSome};
ghost use Rattle.std.specs.List.{flat_map};
ghost use Rattle.clay_grid.specs.Shape.{chunk_length};
ghost use Rattle.clay_grid.specs.Score.{count_below};
ghost use Rattle.clay_model.specs.Left.{AreLong};
ghost use Rattle.clay_aloof.specs.Shape.{all_chunks, grid_of, stripe_bytes};
ghost use Rattle.clay_aloof.specs.Recovered.{chunk_in};
ghost use Rattle.share_format.specs.Blocks.{block_length, chunk_start as start_of};
ghost use Rattle.share_format.specs.Joined.{is_lost, AreTooFew, chunk_or_zeros, IsJoined, AreChunksOf, IsRecoveredChunk};

use crate::share_block::chunk_start;
use aloof_recovery::recover_into;
use clay_aloof::AloofGeometry;
use clay_model::DecodeFault;
use std::alloc::{AllocError, Global};

// How many blocks are missing.
fn lost_count(blocks: &[Option<Vec<u8>>]) -> usize
    requires { length blocks.now < 2 ^ 32 }
    ensures { result ≡ count_below (length blocks.now) (is_lost blocks.now) }
{
    let mut count = 0;
    for block in blocks {
        if block.is_none() {
            count += 1;
        }
    }
    count
}

// For each block, whether it is missing.
fn lost_marks(alloc: Global, blocks: &[Option<Vec<u8>>]) -> Result<Vec<bool>, AllocError>
    ensures len { IfOk result (λ v. length v.items ≡ length blocks.now) }
    ensures value { IfOk result (λ v. (c : ℕ) → c < length blocks.now →
        slice_index_or v.items c false ≡ is_lost blocks.now c) }
{
    let mut lost = Vec::with_capacity(alloc, blocks.len())?;
    for block in blocks {
        lost.push(block.is_none())?;
    }
    Ok(lost)
}

// Puts the chunk in a block behind others.
fn push_present(g: AloofGeometry, block: &[u8], chunks: &mut Vec<u8>) -> Result<(), AllocError>
    requires { length block.now ≡ block_length g }
    ensures { OnOk result (chunks.new.items ≡ chunks.old.items ++ drop (start_of g) block.now) }
{
    let start = chunk_start(g);
    chunks.extend_from_slice(&block[start..])?;
    Ok(())
}

// Puts zeros for a missing chunk behind others.
fn push_zeros(g: AloofGeometry, chunks: &mut Vec<u8>) -> Result<(), AllocError>
    ensures { OnOk result (chunks.new.items ≡ chunks.old.items ++ replicate (chunk_length (grid_of g)) 0) }
{
    let len = chunks.len() + g.chunk_len() as usize;
    chunks.resize(len, 0)?;
    Ok(())
}

// Puts the chunk in a block behind others, zeros where it is missing.
fn push_chunk(
    g: AloofGeometry,
    block: &Option<Vec<u8>>,
    chunks: &mut Vec<u8>,
) -> Result<(), AllocError>
    requires { IfSome block.now (λ v. length v.items ≡ block_length g) }
    ensures { OnOk result (chunks.new.items ≡ chunks.old.items ++ chunk_or_zeros g block.now) }
{
    match block {
        Some(bytes) => push_present(g, bytes, chunks),
        None => push_zeros(g, chunks),
    }
}

// The chunks in the first `count` blocks, one behind another, with zeros for those that are missing.
fn gathered(
    alloc: Global,
    g: AloofGeometry,
    blocks: &[Option<Vec<u8>>],
    count: u32,
) -> Result<Vec<u8>, AllocError>
    requires count { count ≤ length blocks.now }
    requires lengths { AreLong (block_length g) blocks.now }
    ensures len { IfOk result (λ chunks. length chunks.items ≡ count * chunk_length (grid_of g)) }
    ensures value { IfOk result (λ chunks.
        chunks.items ≡ flat_map (chunk_or_zeros g) (take count blocks.now)) }
{
    let len = count as usize * g.chunk_len() as usize;
    let mut chunks = Vec::with_capacity(alloc, len)?;
    for number in 0..count as usize {
        push_chunk(g, &blocks[number], &mut chunks)?;
    }
    Ok(chunks)
}

// Whether the data chunks are all there.
fn has_data(g: AloofGeometry, blocks: &[Option<Vec<u8>>]) -> bool
    requires { length blocks.now ≡ all_chunks g }
    ensures { IsTrue result → (c : ℕ) → c < g.data_count → is_lost blocks.now c ≡ false }
{
    for c in 0..g.k() as usize {
        if blocks[c].is_none() {
            return false;
        }
    }
    true
}

// Writes the missing chunks to their places among all, which stand one behind another as they were gathered.
fn recover_all(
    alloc: Global,
    g: AloofGeometry,
    blocks: &[Option<Vec<u8>>],
    chunks: &mut [u8],
) -> Result<(), AllocError>
    requires count { length blocks.now ≡ all_chunks g }
    requires lengths { AreLong (block_length g) blocks.now }
    requires few { count_below (all_chunks g) (is_lost blocks.now) ≤ g.parity_count }
    requires chunks { chunks.old ≡ flat_map (chunk_or_zeros g) (take (all_chunks g) blocks.now) }
    ensures { OnOk result (AreChunksOf g blocks.now (all_chunks g) chunks.new) }
{
    let lost = lost_marks(alloc, blocks)?;
    recover_into(alloc, g, &lost, chunks)?;
    Ok(())
}

// All chunks of the codeword that has the chunks in these blocks, one behind another.
fn recovered(
    alloc: Global,
    g: AloofGeometry,
    blocks: &[Option<Vec<u8>>],
) -> Result<Vec<u8>, AllocError>
    requires count { length blocks.now ≡ all_chunks g }
    requires lengths { AreLong (block_length g) blocks.now }
    requires few { count_below (all_chunks g) (is_lost blocks.now) ≤ g.parity_count }
    ensures len { IfOk result (λ chunks. length chunks.items ≡ all_chunks g * chunk_length (grid_of g)) }
    ensures chunks { IfOk result (λ chunks. AreChunksOf g blocks.now (all_chunks g) chunks.items) }
{
    let mut chunks = gathered(alloc, g, blocks, g.n())?;
    recover_all(alloc, g, blocks, &mut chunks)?;
    Ok(chunks)
}

// A copy of one of all chunks.
fn chunk_copy(alloc: Global, g: AloofGeometry, chunks: &[u8], c: u32) -> Result<Vec<u8>, AllocError>
    requires chunks { length chunks.now ≡ all_chunks g * chunk_length (grid_of g) }
    requires chunk { c < all_chunks g }
    ensures chunk { IfOk result (λ chunk. chunk.items ≡ chunk_in g chunks.now c) }
    ensures len { IfOk result (λ chunk. length chunk.items ≡ chunk_length (grid_of g)) }
{
    let len = g.chunk_len() as usize;
    let at = c as usize * len;
    let chunk = Vec::from_slice(alloc, &chunks[at..at + len])?;
    Ok(chunk)
}

// The stripe of data chunks that are all there.
fn joined_data(
    alloc: Global,
    g: AloofGeometry,
    blocks: &[Option<Vec<u8>>],
) -> Result<Vec<u8>, AllocError>
    requires count { length blocks.now ≡ all_chunks g }
    requires lengths { AreLong (block_length g) blocks.now }
    requires there { (c : ℕ) → c < g.data_count → is_lost blocks.now c ≡ false }
    ensures len { IfOk result (λ stripe. length stripe.items ≡ stripe_bytes g) }
    ensures joined { IfOk result (λ stripe. IsJoined g blocks.now stripe.items) }
{
    let chunks = gathered(alloc, g, blocks, g.k())?;
    Ok(chunks)
}

// The stripe of chunks of which data chunks are missing.
fn joined_all(
    alloc: Global,
    g: AloofGeometry,
    blocks: &[Option<Vec<u8>>],
) -> Result<Vec<u8>, AllocError>
    requires count { length blocks.now ≡ all_chunks g }
    requires lengths { AreLong (block_length g) blocks.now }
    requires few { count_below (all_chunks g) (is_lost blocks.now) ≤ g.parity_count }
    ensures len { IfOk result (λ stripe. length stripe.items ≡ stripe_bytes g) }
    ensures joined { IfOk result (λ stripe. IsJoined g blocks.now stripe.items) }
{
    let mut chunks = recovered(alloc, g, blocks)?;
    chunks.truncate(g.stripe_len() as usize);
    Ok(chunks)
}

// One of the recovered chunks.
fn one_recovered(
    alloc: Global,
    g: AloofGeometry,
    blocks: &[Option<Vec<u8>>],
    lost: u32,
) -> Result<Vec<u8>, AllocError>
    requires count { length blocks.now ≡ all_chunks g }
    requires lengths { AreLong (block_length g) blocks.now }
    requires few { count_below (all_chunks g) (is_lost blocks.now) ≤ g.parity_count }
    requires chunk { lost < all_chunks g }
    ensures len { IfOk result (λ chunk. length chunk.items ≡ chunk_length (grid_of g)) }
    ensures recovered { IfOk result (λ chunk. IsRecoveredChunk g blocks.now lost chunk.items) }
{
    let chunks = recovered(alloc, g, blocks)?;
    let chunk = chunk_copy(alloc, g, &chunks, lost)?;
    Ok(chunk)
}

/// The stripe whose codeword has the chunks in these blocks, where one has. There is an entry for each share, `None` for a block that is
/// missing or is none.
///
/// Where no codeword has them, the answer is some bytes: the file's checksum tells.
pub fn join_stripe(
    alloc: Global,
    g: AloofGeometry,
    blocks: &[Option<Vec<u8>>],
) -> Result<Vec<u8>, DecodeFault>
    requires count { length blocks.now ≡ all_chunks g }
    requires lengths { AreLong (block_length g) blocks.now }
    ensures too_few { IsErrOf result DecodeFault.TooFew ↔ AreTooFew g blocks.now }
    ensures len { IfOk result (λ stripe. length stripe.items ≡ stripe_bytes g) }
    ensures joined { IfOk result (λ stripe. IsJoined g blocks.now stripe.items) }
{
    if lost_count(blocks) > g.m() as usize {
        return Err(DecodeFault::TooFew);
    }
    if has_data(g, blocks) {
        return Ok(joined_data(alloc, g, blocks)?);
    }
    Ok(joined_all(alloc, g, blocks)?)
}

/// A chunk of the codeword that has the chunks in these blocks, where one does.
pub fn recover_chunk(
    alloc: Global,
    g: AloofGeometry,
    blocks: &[Option<Vec<u8>>],
    lost: u32,
) -> Result<Vec<u8>, DecodeFault>
    requires count { length blocks.now ≡ all_chunks g }
    requires lengths { AreLong (block_length g) blocks.now }
    requires chunk { lost < all_chunks g }
    ensures too_few { IsErrOf result DecodeFault.TooFew ↔ AreTooFew g blocks.now }
    ensures len { IfOk result (λ chunk. length chunk.items ≡ chunk_length (grid_of g)) }
    ensures recovered { IfOk result (λ chunk. IsRecoveredChunk g blocks.now lost chunk.items) }
{
    if lost_count(blocks) > g.m() as usize {
        return Err(DecodeFault::TooFew);
    }
    Ok(one_recovered(alloc, g, blocks, lost)?)
}
