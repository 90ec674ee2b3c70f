//! A stripe of a file, coded and laid out in a block for each share.
ghost use Rattle.std.specs.Prelude.{◌≡◌, ◌+◌, ◌*◌, ◌<◌, ◌++◌, map, length, IfOk, OnOk};
ghost use Rattle.clay_model.specs.Chunks.{contents};
ghost use Rattle.clay_grid.specs.Shape.{chunk_length};
ghost use Rattle.clay_aloof.specs.Shape.{all_chunks, grid_of, stripe_bytes};
ghost use Rattle.clay_aloof.specs.Code.{Codes};
ghost use Rattle.clay_aloof.specs.Encoded.{chunks_in, chunks_of};
ghost use Rattle.share_format.specs.Blocks.{block_of};
ghost use Rattle.share_format.specs.CutBlocks.{AreBlocks};

use crate::share_block::make_block;
use clay_aloof::AloofGeometry;
use crc64::Crc64;
use std::alloc::{AllocError, Global};

// Writes the parity chunks of a stripe by the faster coder, where all other chunks help in a repair.
fn parity_by_lanes(
    alloc: Global,
    g: AloofGeometry,
    stripe: &[u8],
    parity: &mut [u8],
) -> Result<(), AllocError>
    requires full { g.helper_count + 1 ≡ all_chunks g }
    requires stripe { length stripe.now ≡ stripe_bytes g }
    requires parity { length parity.old ≡ g.parity_count * chunk_length (grid_of g) }
    ensures { OnOk result (Codes g stripe.now (chunks_of g stripe.now parity.new)) }
{
    clay_parity::parity_into(alloc, g.grid(), stripe, parity)?;
    Ok(())
}

// Writes the parity chunks of a stripe.
fn parity_into(
    alloc: Global,
    g: AloofGeometry,
    stripe: &[u8],
    parity: &mut [u8],
) -> Result<(), AllocError>
    requires stripe { length stripe.now ≡ stripe_bytes g }
    requires parity { length parity.old ≡ g.parity_count * chunk_length (grid_of g) }
    ensures { OnOk result (Codes g stripe.now (chunks_of g stripe.now parity.new)) }
{
    if g.d() + 1 == g.n() {
        return parity_by_lanes(alloc, g, stripe, parity);
    }
    clay_aloof::parity_into(alloc, g, stripe, parity)?;
    Ok(())
}

// The parity chunks of a stripe, one behind another.
fn parity_of(alloc: Global, g: AloofGeometry, stripe: &[u8]) -> Result<Vec<u8>, AllocError>
    requires { length stripe.now ≡ stripe_bytes g }
    ensures len { IfOk result (λ parity. length parity.items ≡ g.parity_count * chunk_length (grid_of g)) }
    ensures codes { IfOk result (λ parity. Codes g stripe.now (chunks_of g stripe.now parity.items)) }
{
    let mut parity = zeros(alloc, g.m() as usize * g.chunk_len() as usize)?;
    parity_into(alloc, g, stripe, &mut parity)?;
    Ok(parity)
}

// So many zeros.
fn zeros(alloc: Global, len: usize) -> Result<Vec<u8>, AllocError>
    ensures { IfOk result (λ bytes. length bytes.items ≡ len) }
{
    vec![in alloc; 0u8; len]
}

// Puts the blocks of chunks that stand one behind another after others.
fn push_blocks(
    alloc: Global,
    g: AloofGeometry,
    crc: &Crc64,
    count: u32,
    bytes: &[u8],
    blocks: &mut Vec<Vec<u8>>,
) -> Result<(), AllocError>
    requires { length bytes.now ≡ count * chunk_length (grid_of g) }
    ensures { OnOk result (contents blocks.new.items
        ≡ contents blocks.old.items ++ map (block_of g) (chunks_in count (chunk_length (grid_of g)) bytes.now)) }
{
    let len = g.chunk_len() as usize;
    for number in 0..count as usize {
        let at = number * len;
        let block = make_block(alloc, g, crc, &bytes[at..at + len])?;
        blocks.push(block)?;
    }
    Ok(())
}

// The blocks of a stripe's data chunks, with room for the others.
fn data_blocks(
    alloc: Global,
    g: AloofGeometry,
    crc: &Crc64,
    stripe: &[u8],
) -> Result<Vec<Vec<u8>>, AllocError>
    requires { length stripe.now ≡ stripe_bytes g }
    ensures { IfOk result (λ blocks. contents blocks.items
        ≡ map (block_of g) (chunks_in g.data_count (chunk_length (grid_of g)) stripe.now)) }
{
    let mut blocks = Vec::with_capacity(alloc, g.n() as usize)?;
    push_blocks(alloc, g, crc, g.k(), stripe, &mut blocks)?;
    Ok(blocks)
}

/// The block of each share for a stripe, which is filled up with zeros where the file ends in it.
pub fn cut_stripe(
    alloc: Global,
    g: AloofGeometry,
    crc: &Crc64,
    stripe: &[u8],
) -> Result<Vec<Vec<u8>>, AllocError>
    requires { length stripe.now ≡ stripe_bytes g }
    ensures { IfOk result (λ blocks. AreBlocks g stripe.now (contents blocks.items)) }
{
    let parity = parity_of(alloc, g, stripe)?;
    let mut blocks = data_blocks(alloc, g, crc, stripe)?;
    push_blocks(alloc, g, crc, g.m(), &parity, &mut blocks)?;
    Ok(blocks)
}
