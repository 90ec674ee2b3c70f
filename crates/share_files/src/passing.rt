//! A stripe of a file handed on: straight from the data shares' blocks where all are there, or as it was joined.
ghost use Rattle.std.specs.Prelude.{◌≡◌, ◌≤◌, ◌<◌, ◌++◌, ℕ, List, take, drop, length, IfOk, OnOk, OnErr};
ghost use Rattle.crc64.specs.Remainder.{checksum_of};
ghost use Rattle.clay_bytes.specs.Stream.{Rises, Accepts, AcceptsPrefix};
ghost use Rattle.clay_grid.specs.Shape.{chunk_length};
ghost use Rattle.clay_model.specs.Left.{AreLong};
ghost use Rattle.clay_aloof.specs.Shape.{all_chunks, grid_of, stripe_bytes};
ghost use Rattle.share_format.specs.Blocks.{block_length, chunk_start, IsBlock};
ghost use Rattle.share_format.specs.Joined.{chunk_or_zeros};
ghost use Rattle.share_files.specs.Handed.{HasBlock, HaveBlocks, data_in, bytes_in, IsReady};

use crate::block_places::chunk_place;
use clay_aloof::AloofGeometry;
use clay_bytes::{Sink, WriteFault, write_all};
use crc64::{Combiner, Crc64};
use share_format::extended_by_chunk;

// The checksum of what `checksum` is that of, and the first bytes of the chunk in a block behind it: of a whole chunk by the block's table.
fn sum_chunk(
    crc: &Crc64,
    combiner: &Combiner,
    geometry: AloofGeometry,
    block: &[u8],
    count: usize,
    checksum: u64,
) -> u64
    requires combiner { combiner.now ≡ geometry.width }
    requires block { IsBlock geometry block.now }
    requires within { count ≤ chunk_length (grid_of geometry) }
    ensures { (before : List ℕ) → checksum ≡ checksum_of before → result ≡ checksum_of (before ++ take count (drop (chunk_start geometry) block.now)) }
{
    if count == geometry.chunk_len() as usize {
        return extended_by_chunk(geometry, combiner, checksum, block);
    }
    let start = chunk_place(geometry) as usize;
    crc.extended(checksum, &block[start..start + count])
}

// Hands on the first bytes of the chunk in a block, and gives the checksum with them.
fn pass_chunk<K: Sink>(
    crc: &Crc64,
    combiner: &Combiner,
    geometry: AloofGeometry,
    sink: &mut K,
    block: &[u8],
    count: usize,
    checksum: u64,
) -> Result<u64, WriteFault>
    requires combiner { combiner.now ≡ geometry.width }
    requires block { IsBlock geometry block.now }
    requires within { count ≤ chunk_length (grid_of geometry) }
    ensures accepted { OnOk result (Accepts (K.accepted sink.old) (K.written sink.old) (take count (drop (chunk_start geometry) block.now)) (K.accepted sink.new) (K.written sink.new)) }
    ensures part { OnErr result (AcceptsPrefix (K.accepted sink.old) (K.written sink.old) (take count (drop (chunk_start geometry) block.now)) (K.accepted sink.new) (K.written sink.new)) }
    ensures summed { IfOk result (λ sum. (before : List ℕ) → checksum ≡ checksum_of before → sum ≡ checksum_of (before ++ take count (drop (chunk_start geometry) block.now))) }
    ensures cause { OnErr result (Rises (K.faults sink.old) (K.faults sink.new)) }
    ensures steady { OnOk result (K.faults sink.new ≡ K.faults sink.old) }
{
    let start = chunk_place(geometry) as usize;
    match write_all(sink, &block[start..start + count]) {
        Ok(()) => Ok(sum_chunk(crc, combiner, geometry, block, count, checksum)),
        Err(WriteFault) => Err(WriteFault),
    }
}

// The same of a block that is there.
fn pass_present<K: Sink>(
    crc: &Crc64,
    combiner: &Combiner,
    geometry: AloofGeometry,
    sink: &mut K,
    block: &Option<Vec<u8>>,
    count: usize,
    checksum: u64,
) -> Result<u64, WriteFault>
    requires combiner { combiner.now ≡ geometry.width }
    requires block { HasBlock geometry block.now }
    requires within { count ≤ chunk_length (grid_of geometry) }
    ensures accepted { OnOk result (Accepts (K.accepted sink.old) (K.written sink.old) (take count (chunk_or_zeros geometry block.now)) (K.accepted sink.new) (K.written sink.new)) }
    ensures part { OnErr result (AcceptsPrefix (K.accepted sink.old) (K.written sink.old) (take count (chunk_or_zeros geometry block.now)) (K.accepted sink.new) (K.written sink.new)) }
    ensures summed { IfOk result (λ sum. (before : List ℕ) → checksum ≡ checksum_of before → sum ≡ checksum_of (before ++ take count (chunk_or_zeros geometry block.now))) }
    ensures cause { OnErr result (Rises (K.faults sink.old) (K.faults sink.new)) }
    ensures steady { OnOk result (K.faults sink.new ≡ K.faults sink.old) }
{
    match block {
        Some(bytes) => pass_chunk(crc, combiner, geometry, sink, bytes, count, checksum),
        None => unreachable!(),
    }
}

// Hands on the first bytes of the stripe that stands in the data shares' blocks.
fn pass_blocks<K: Sink>(
    crc: &Crc64,
    combiner: &Combiner,
    geometry: AloofGeometry,
    sink: &mut K,
    blocks: &[Option<Vec<u8>>],
    count: usize,
    checksum: u64,
) -> Result<u64, WriteFault>
    requires combiner { combiner.now ≡ geometry.width }
    requires all { length blocks.now ≡ all_chunks geometry }
    requires lengths { AreLong (block_length geometry) blocks.now }
    requires blocks { HaveBlocks geometry blocks.now }
    requires within { count ≤ stripe_bytes geometry }
    ensures accepted { OnOk result (Accepts (K.accepted sink.old) (K.written sink.old) (take count (data_in geometry blocks.now)) (K.accepted sink.new) (K.written sink.new)) }
    ensures part { OnErr result (AcceptsPrefix (K.accepted sink.old) (K.written sink.old) (take count (data_in geometry blocks.now)) (K.accepted sink.new) (K.written sink.new)) }
    ensures summed { IfOk result (λ sum. (before : List ℕ) → checksum ≡ checksum_of before → sum ≡ checksum_of (before ++ take count (data_in geometry blocks.now))) }
    ensures cause { OnErr result (Rises (K.faults sink.old) (K.faults sink.new)) }
    ensures steady { OnOk result (K.faults sink.new ≡ K.faults sink.old) }
{
    let len = geometry.chunk_len() as usize;
    let mut left = count;
    let mut sum = checksum;
    for share in 0..geometry.k() as usize {
        let piece = left.min(len);
        sum = match pass_present(crc, combiner, geometry, sink, &blocks[share], piece, sum) {
            Ok(sum) => sum,
            Err(WriteFault) => return Err(WriteFault),
        };
        left -= piece;
    }
    Ok(sum)
}

// Hands on the first bytes of a stripe that was joined.
fn pass_joined<K: Sink>(
    crc: &Crc64,
    sink: &mut K,
    stripe: &[u8],
    count: usize,
    checksum: u64,
) -> Result<u64, WriteFault>
    requires { count ≤ length stripe.now }
    ensures accepted { OnOk result (Accepts (K.accepted sink.old) (K.written sink.old) (take count stripe.now) (K.accepted sink.new) (K.written sink.new)) }
    ensures part { OnErr result (AcceptsPrefix (K.accepted sink.old) (K.written sink.old) (take count stripe.now) (K.accepted sink.new) (K.written sink.new)) }
    ensures summed { IfOk result (λ sum. (before : List ℕ) → checksum ≡ checksum_of before → sum ≡ checksum_of (before ++ take count stripe.now)) }
    ensures cause { OnErr result (Rises (K.faults sink.old) (K.faults sink.new)) }
    ensures steady { OnOk result (K.faults sink.new ≡ K.faults sink.old) }
{
    let piece = &stripe[..count];
    match write_all(sink, piece) {
        Ok(()) => Ok(crc.extended(checksum, piece)),
        Err(WriteFault) => Err(WriteFault),
    }
}

/// Hands on the first bytes of a stripe: as it was joined, or else from the data shares' blocks. Gives the checksum of what `checksum` is that
/// of, and these bytes.
pub(crate) fn pass_on<K: Sink>(
    crc: &Crc64,
    combiner: &Combiner,
    geometry: AloofGeometry,
    sink: &mut K,
    blocks: &[Option<Vec<u8>>],
    joined: &Option<Vec<u8>>,
    count: usize,
    checksum: u64,
) -> Result<u64, WriteFault>
    requires combiner { combiner.now ≡ geometry.width }
    requires all { length blocks.now ≡ all_chunks geometry }
    requires lengths { AreLong (block_length geometry) blocks.now }
    requires ready { IsReady geometry blocks.now joined.now }
    requires within { count ≤ stripe_bytes geometry }
    ensures accepted { OnOk result (Accepts (K.accepted sink.old) (K.written sink.old) (take count (bytes_in geometry blocks.now joined.now)) (K.accepted sink.new) (K.written sink.new)) }
    ensures part { OnErr result (AcceptsPrefix (K.accepted sink.old) (K.written sink.old) (take count (bytes_in geometry blocks.now joined.now)) (K.accepted sink.new) (K.written sink.new)) }
    ensures summed { IfOk result (λ sum. (before : List ℕ) → checksum ≡ checksum_of before → sum ≡ checksum_of (before ++ take count (bytes_in geometry blocks.now joined.now))) }
    ensures cause { OnErr result (Rises (K.faults sink.old) (K.faults sink.new)) }
    ensures steady { OnOk result (K.faults sink.new ≡ K.faults sink.old) }
{
    match joined {
        Some(stripe) => pass_joined(crc, sink, stripe, count, checksum),
        None => pass_blocks(crc, combiner, geometry, sink, blocks, count, checksum),
    }
}
