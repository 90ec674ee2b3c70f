//! The stripes of a file, read from its shares: from the data shares alone where all their blocks are there.
ghost use Rattle.std.specs.Prelude.{◌≡◌, ◌+◌, ◌^◌, ◌<◌, ℕ, false, map, length, IfOk, IfErr, OnOk, IsTrue};
ghost use Rattle.clay_model.specs.Left.{AreLong};
ghost use Rattle.clay_aloof.specs.Shape.{all_chunks, stripe_bytes};
ghost use Rattle.share_format.specs.Blocks.{block_length};
ghost use Rattle.share_format.specs.Shares.{block_start};
ghost use Rattle.share_format.specs.Joined.{is_lost};
ghost use Rattle.share_files.specs.Seen.{seen};
ghost use Rattle.share_files.specs.Asked.{AreAskedIn};
ghost use Rattle.share_files.specs.StripeRead.{LacksData, IsStripeRead, JoinsStripe, IsStripeFault};
ghost use Rattle.share_files.specs.Handed.{bytes_in, IsReady};

use crate::fetching::read_blocks;
use crate::joining::JoinFault;
use crate::missed::note_missed;
use clay_aloof::AloofGeometry;
use clay_model::DecodeFault;
use crc64::Crc64;
use file_bytes::SourceAt;
use share_format::join_stripe;
use std::alloc::{AllocError, Global};

// Whether the block of each data share is there.
fn have_data(geometry: AloofGeometry, blocks: &[Option<Vec<u8>>]) -> bool
    requires { length blocks.now ≡ all_chunks geometry }
    ensures there { IsTrue result → (c : ℕ) → c < geometry.data_count → is_lost blocks.now c ≡ false }
    ensures lack { (IsTrue result → ⊥) → LacksData geometry blocks.now }
{
    for share in 0..geometry.k() as usize {
        if blocks[share].is_none() {
            return false;
        }
    }
    true
}

// Reads the blocks of a stripe: those of the data shares, and where one of these is missing those of the parity shares, and then notes for
// each share whether its block was missed. Whether the data shares' blocks are all there.
fn read_shares<S: SourceAt>(
    alloc: Global,
    crc: &Crc64,
    geometry: AloofGeometry,
    sources: &mut [S],
    stripe: u64,
    blocks: &mut [Option<Vec<u8>>],
    missed: &mut [Option<u64>],
) -> Result<bool, AllocError>
    requires place { block_start geometry stripe + block_length geometry < 2 ^ 64 }
    requires sources { length sources.old ≡ all_chunks geometry }
    requires blocks { length blocks.old ≡ all_chunks geometry }
    requires missed { length missed.old ≡ all_chunks geometry }
    requires lengths { AreLong (block_length geometry) blocks.old }
    ensures lengths { OnOk result (AreLong (block_length geometry) blocks.new) }
    ensures read { IfOk result (IsStripeRead geometry stripe (map (λ s. seen (S.given s) (S.ends s) (S.failed s)) sources.old) (map (λ s. seen (S.given s) (S.ends s) (S.failed s)) sources.new) missed.old missed.new blocks.new) }
    ensures asked { AreAskedIn geometry stripe (map (λ s. seen (S.given s) (S.ends s) (S.failed s)) sources.old) (map (λ s. seen (S.given s) (S.ends s) (S.failed s)) sources.new) }
{
    let data = geometry.k() as usize;
    read_blocks(alloc, crc, sources, geometry, stripe, 0, data, blocks)?;
    if have_data(geometry, blocks) {
        return Ok(true);
    }
    let all = geometry.n() as usize;
    read_blocks(alloc, crc, sources, geometry, stripe, data, all, blocks)?;
    note_missed(blocks, stripe, missed);
    Ok(false)
}

/// Reads the blocks of a stripe, and joins it where a data share's is missing: else its bytes stand in the data shares' blocks. Notes for each
/// share whether its block was missed.
pub(crate) fn next_stripe<S: SourceAt>(
    alloc: Global,
    crc: &Crc64,
    geometry: AloofGeometry,
    sources: &mut [S],
    stripe: u64,
    blocks: &mut [Option<Vec<u8>>],
    missed: &mut [Option<u64>],
) -> Result<Option<Vec<u8>>, JoinFault>
    requires place { block_start geometry stripe + block_length geometry < 2 ^ 64 }
    requires sources { length sources.old ≡ all_chunks geometry }
    requires blocks { length blocks.old ≡ all_chunks geometry }
    requires missed { length missed.old ≡ all_chunks geometry }
    requires lengths { AreLong (block_length geometry) blocks.old }
    ensures lengths { OnOk result (AreLong (block_length geometry) blocks.new) }
    ensures len { IfOk result (λ joined. length (bytes_in geometry blocks.new joined) ≡ stripe_bytes geometry) }
    ensures ready { IfOk result (IsReady geometry blocks.new) }
    ensures joined { IfOk result (λ joined. JoinsStripe geometry stripe (map (λ s. seen (S.given s) (S.ends s) (S.failed s)) sources.old) (map (λ s. seen (S.given s) (S.ends s) (S.failed s)) sources.new) missed.old missed.new (bytes_in geometry blocks.new joined)) }
    ensures fault { IfErr result (IsStripeFault geometry stripe (map (λ s. seen (S.given s) (S.ends s) (S.failed s)) sources.old) (map (λ s. seen (S.given s) (S.ends s) (S.failed s)) sources.new) missed.old missed.new) }
    ensures asked { AreAskedIn geometry stripe (map (λ s. seen (S.given s) (S.ends s) (S.failed s)) sources.old) (map (λ s. seen (S.given s) (S.ends s) (S.failed s)) sources.new) }
{
    let is_whole = read_shares(alloc, crc, geometry, sources, stripe, blocks, missed)?;
    if is_whole {
        return Ok(None);
    }
    match join_stripe(alloc, geometry, blocks) {
        Ok(bytes) => Ok(Some(bytes)),
        Err(DecodeFault::TooFew) => Err(JoinFault::TooFew(stripe)),
        Err(DecodeFault::OutOfMemory) => Err(JoinFault::OutOfMemory),
    }
}
