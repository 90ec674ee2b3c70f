//! A chunk as it stands in a share file: in front the checksums of its subchunks, then its bytes.
ghost use Rattle.std.specs.Prelude.{◌≡◌, ℕ, ◌+◌, ◌*◌, ◌<◌, ◌≤◌, ◌↔◌, List, ◌++◌, IsTrue, length, take, drop, replicate, IfOk};
ghost use Rattle.byteorder.specs.Endian.{little_bytes};
ghost use Rattle.crc64.specs.Remainder.{checksum_of};
ghost use Rattle.clay_grid.specs.Shape.{layer_count, chunk_length};
ghost use Rattle.clay_aloof.specs.Shape.{grid_of};
ghost use Rattle.share_format.specs.Blocks.{aligned, subchunk, table_of, block_of, chunk_start as start_of, block_length, IsBlock, HasChecksum};

use crate::header::{put_u64, u64_at};
use crate::units::{page, rounded_up};
use clay_aloof::AloofGeometry;
use crc64::{Combiner, Crc64};
use std::alloc::{AllocError, Global};

// The bytes of a checksum.
const ENTRY: usize = 8;

/// Where a block's chunk begins in it.
pub fn chunk_start(g: AloofGeometry) -> usize
    ensures { result ≡ start_of g }
{
    rounded_up(page(g), ENTRY as u64 * u64::from(g.grid().alpha())) as usize
}

// Where a layer's subchunk begins in its chunk.
fn subchunk_start(g: AloofGeometry, layer: u32) -> usize
    requires { layer < layer_count (grid_of g) }
    ensures value { result ≡ layer * g.width }
    ensures within { result + g.width ≤ chunk_length (grid_of g) }
{
    layer as usize * g.w() as usize
}

// The checksum of a layer's subchunk.
fn sum(g: AloofGeometry, crc: &Crc64, chunk: &[u8], layer: u32) -> u64
    requires layer { layer < layer_count (grid_of g) }
    requires chunk { length chunk.now ≡ chunk_length (grid_of g) }
    ensures { result ≡ checksum_of (subchunk g chunk.now layer) }
{
    let at = subchunk_start(g, layer);
    crc.checksum(&chunk[at..at + g.w() as usize])
}

// The checksum of each subchunk, layer 0 first.
fn table(alloc: Global, g: AloofGeometry, crc: &Crc64, chunk: &[u8]) -> Result<Vec<u8>, AllocError>
    requires { length chunk.now ≡ chunk_length (grid_of g) }
    ensures { IfOk result (λ table. table.items ≡ table_of g chunk.now) }
{
    let mut table = Vec::new(alloc);
    for layer in 0..g.grid().alpha() {
        put_u64(&mut table, sum(g, crc, chunk, layer))?;
    }
    Ok(table)
}

// The table of a chunk, filled up with zeros.
fn front(alloc: Global, g: AloofGeometry, crc: &Crc64, chunk: &[u8]) -> Result<Vec<u8>, AllocError>
    requires { length chunk.now ≡ chunk_length (grid_of g) }
    ensures { IfOk result (λ front. front.items ≡ aligned g (table_of g chunk.now)) }
{
    let mut bytes = table(alloc, g, crc, chunk)?;
    bytes.resize(chunk_start(g), 0)?;
    Ok(bytes)
}

/// The block of a chunk.
pub fn make_block(
    alloc: Global,
    g: AloofGeometry,
    crc: &Crc64,
    chunk: &[u8],
) -> Result<Vec<u8>, AllocError>
    requires { length chunk.now ≡ chunk_length (grid_of g) }
    ensures { IfOk result (λ block. block.items ≡ block_of g chunk.now) }
{
    let mut block = front(alloc, g, crc, chunk)?;
    block.extend_from_slice(chunk)?;
    Ok(block)
}

/// Whether a layer's entry in a table is this checksum.
pub fn has_entry(table: &[u8], layer: u32, checksum: u64) -> bool
    requires { 8 * layer + 8 ≤ length table.now }
    ensures { IsTrue result ↔ (take 8 (drop (8 * layer) table.now) ≡ little_bytes 8 checksum) }
{
    u64_at(table, ENTRY * layer as usize) == checksum
}

// Whether the entry of a layer is the checksum of its subchunk.
fn has_sum(g: AloofGeometry, crc: &Crc64, front: &[u8], chunk: &[u8], layer: u32) -> bool
    requires layer { layer < layer_count (grid_of g) }
    requires front { length front.now ≡ start_of g }
    requires chunk { length chunk.now ≡ chunk_length (grid_of g) }
    ensures { IsTrue result ↔ HasChecksum front.now layer (subchunk g chunk.now layer) }
{
    has_entry(front, layer, sum(g, crc, chunk, layer))
}

// Whether each entry in front of a chunk is the checksum of its layer's subchunk.
fn has_sums(g: AloofGeometry, crc: &Crc64, front: &[u8], chunk: &[u8]) -> bool
    requires front { length front.now ≡ start_of g }
    requires chunk { length chunk.now ≡ chunk_length (grid_of g) }
    ensures { IsTrue result ↔ ((layer : ℕ) → layer < layer_count (grid_of g)
        → HasChecksum front.now layer (subchunk g chunk.now layer)) }
{
    for layer in 0..g.grid().alpha() {
        if !has_sum(g, crc, front, chunk, layer) {
            return false;
        }
    }
    true
}

// Whether all bytes are zeros.
fn are_zeros(bytes: &[u8]) -> bool
    ensures { IsTrue result ↔ (bytes.now ≡ replicate (length bytes.now) 0) }
{
    for byte in bytes {
        if *byte != 0 {
            return false;
        }
    }
    true
}

// Whether these bytes are what stands in front of a chunk.
fn is_front(g: AloofGeometry, crc: &Crc64, front: &[u8], chunk: &[u8]) -> bool
    requires front { length front.now ≡ start_of g }
    requires chunk { length chunk.now ≡ chunk_length (grid_of g) }
    ensures { IsTrue result ↔ (front.now ≡ aligned g (table_of g chunk.now)) }
{
    if !has_sums(g, crc, front, chunk) {
        return false;
    }
    are_zeros(&front[ENTRY * g.grid().alpha() as usize..])
}

/// Whether these bytes are the block of the chunk in them: all checksums are right, and zeros stand behind them.
pub fn is_block(g: AloofGeometry, crc: &Crc64, block: &[u8]) -> bool
    requires { length block.now ≡ block_length g }
    ensures { IsTrue result ↔ IsBlock g block.now }
{
    let start = chunk_start(g);
    is_front(g, crc, &block[..start], &block[start..])
}

/// The checksum of what has this checksum and of the chunk of a block behind it, from the block's table.
pub fn extended_by_chunk(g: AloofGeometry, combiner: &Combiner, checksum: u64, block: &[u8]) -> u64
    requires size { length block.now ≡ block_length g }
    requires combiner { combiner.now ≡ g.width }
    ensures { (before : List ℕ) → checksum ≡ checksum_of before → IsBlock g block.now
        → result ≡ checksum_of (before ++ drop (start_of g) block.now) }
{
    let mut sum = checksum;
    for layer in 0..g.grid().alpha() {
        sum = combiner.combined(sum, u64_at(block, ENTRY * layer as usize));
    }
    sum
}
