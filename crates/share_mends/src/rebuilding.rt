//! A share rebuilt stripe by stripe.
ghost use Rattle.std.specs.Prelude.{◌≡◌, ◌+◌, ◌^◌, ◌<◌, ℕ, List, map, length, IfOk, IfErr, OnOk, OnErr, IsErrOf};
ghost use Rattle.clay_bytes.specs.Stream.{Rises};
ghost use Rattle.clay_aloof.specs.Shape.{all_chunks};
ghost use Rattle.share_format.specs.Blocks.{block_length};
ghost use Rattle.share_format.specs.Cut.{stripe_count};
ghost use Rattle.share_format.specs.Shares.{block_start};
ghost use Rattle.share_files.specs.Seen.{seen, Show};
ghost use Rattle.share_files.specs.Put.{PutsBlock, PutsAtMost, PutsBlocks, PutsSome, PutsPart, HasChunks, PutsFile, PutsShare};
ghost use Rattle.share_files.specs.Asked.{AreAskedIn};
ghost use Rattle.share_files.specs.Joined.{NoRotPasses};
ghost use Rattle.share_mends.specs.Rebuilt.{IsRebuilt, IsRebuiltBlock, Lacks, IsLack};
ghost use Rattle.share_mends.specs.declared.rebuilding.RebuildFault.TheVariants.{OutOfMemory};

use clay_aloof::AloofGeometry;
use clay_bytes::WriteFault;
use clay_model::DecodeFault;
use crc64::Crc64;
use file_bytes::{SinkAt, SourceAt};
use share_files::{PutFault, find_blocks, write_block, write_header};
use share_format::{ShareHeader, make_block, recover_chunk};
use std::alloc::{AllocError, Global};
use thiserror::Error;

/// Why a share can't be rebuilt.
#[derive(Clone, Copy, Debug, PartialEq, Eq, Error)]
pub enum RebuildFault {
    /// More than `M` shares have no good block of the stripe of this number, from 0, or none that can be read.
    #[error("too few shares have a block of stripe {0}")]
    TooFew(u64),
    #[error("a write failed")]
    WriteFault,
    #[error("out of memory")]
    OutOfMemory,
}

impl From<AllocError> for RebuildFault {
    ghost from_gives = { λ _ e. e ≡ OutOfMemory };

    fn from(_: AllocError) -> Self {
        RebuildFault::OutOfMemory
    }
}

// The block of the lost share for a stripe, from the blocks of shares.
fn rebuilt_block<S: SourceAt>(
    alloc: Global,
    crc: &Crc64,
    sources: &mut [S],
    geometry: AloofGeometry,
    lost: u32,
    stripe: u64,
) -> Result<Vec<u8>, RebuildFault>
    requires lost { lost < all_chunks geometry }
    requires sources { length sources.old ≡ all_chunks geometry }
    requires place { block_start geometry stripe + block_length geometry < 2 ^ 64 }
    ensures block { IfOk result (λ block. IsRebuiltBlock geometry lost (map (λ s. seen (S.given s) (S.ends s) (S.failed s)) sources.old) (map (λ s. seen (S.given s) (S.ends s) (S.failed s)) sources.new) stripe block.items) }
    ensures lack { IfErr result (Lacks geometry (map (λ s. seen (S.given s) (S.ends s) (S.failed s)) sources.old) (map (λ s. seen (S.given s) (S.ends s) (S.failed s)) sources.new) stripe) }
    ensures unwritten { IsErrOf result RebuildFault.WriteFault → ⊥ }
    ensures asked { AreAskedIn geometry stripe (map (λ s. seen (S.given s) (S.ends s) (S.failed s)) sources.old) (map (λ s. seen (S.given s) (S.ends s) (S.failed s)) sources.new) }
{
    let blocks = find_blocks(alloc, crc, sources, geometry, stripe)?;
    let chunk = match recover_chunk(alloc, geometry, &blocks, lost) {
        Ok(chunk) => chunk,
        Err(DecodeFault::TooFew) => return Err(RebuildFault::TooFew(stripe)),
        Err(DecodeFault::OutOfMemory) => return Err(RebuildFault::OutOfMemory),
    };
    let block = make_block(alloc, geometry, crc, &chunk)?;
    Ok(block)
}

// Puts the block of the lost share for a stripe into its place.
fn rebuild_one<S: SourceAt, K: SinkAt>(
    alloc: Global,
    crc: &Crc64,
    sources: &mut [S],
    geometry: AloofGeometry,
    lost: u32,
    sink: &mut K,
    stripe: u64,
) -> Result<(), RebuildFault>
    requires lost { lost < all_chunks geometry }
    requires sources { length sources.old ≡ all_chunks geometry }
    requires place { block_start geometry stripe + block_length geometry < 2 ^ 64 }
    ensures put { OnOk result (PutsBlock geometry (IsRebuilt geometry lost (map (λ s. seen (S.given s) (S.ends s) (S.failed s)) sources.old) (map (λ s. seen (S.given s) (S.ends s) (S.failed s)) sources.new)) stripe (K.put sink.old) (K.put sink.new)) }
    ensures unput { (few : ℕ) → IsErrOf result (RebuildFault.TooFew few) → K.put sink.new ≡ K.put sink.old }
    ensures part { OnErr result (PutsAtMost geometry (IsRebuilt geometry lost (map (λ s. seen (S.given s) (S.ends s) (S.failed s)) sources.old) (map (λ s. seen (S.given s) (S.ends s) (S.failed s)) sources.new)) stripe (K.put sink.old) (K.put sink.new)) }
    ensures lack { IfErr result (Lacks geometry (map (λ s. seen (S.given s) (S.ends s) (S.failed s)) sources.old) (map (λ s. seen (S.given s) (S.ends s) (S.failed s)) sources.new) stripe) }
    ensures asked { AreAskedIn geometry stripe (map (λ s. seen (S.given s) (S.ends s) (S.failed s)) sources.old) (map (λ s. seen (S.given s) (S.ends s) (S.failed s)) sources.new) }
    ensures write { IsErrOf result RebuildFault.WriteFault → Rises (K.faults sink.old) (K.faults sink.new) }
    ensures writes { (IsErrOf result RebuildFault.WriteFault → ⊥) → K.faults sink.new ≡ K.faults sink.old }
{
    let block = match rebuilt_block(alloc, crc, sources, geometry, lost, stripe) {
        Ok(block) => block,
        Err(fault) => return Err(fault),
    };
    match write_block(sink, geometry, stripe, &block) {
        Ok(()) => Ok(()),
        Err(WriteFault) => Err(RebuildFault::WriteFault),
    }
}

// Puts the blocks of the lost share for so many stripes into their places.
fn rebuild_stripes<S: SourceAt, K: SinkAt>(
    alloc: Global,
    crc: &Crc64,
    sources: &mut [S],
    geometry: AloofGeometry,
    lost: u32,
    sink: &mut K,
    stripes: u64,
) -> Result<(), RebuildFault>
    requires lost { lost < all_chunks geometry }
    requires sources { length sources.old ≡ all_chunks geometry }
    requires place { block_start geometry stripes < 2 ^ 64 }
    ensures put { OnOk result (PutsBlocks geometry (IsRebuilt geometry lost (map (λ s. seen (S.given s) (S.ends s) (S.failed s)) sources.old) (map (λ s. seen (S.given s) (S.ends s) (S.failed s)) sources.new)) stripes (K.put sink.old) (K.put sink.new)) }
    ensures before { (few : ℕ) → IsErrOf result (RebuildFault.TooFew few) → PutsBlocks geometry (IsRebuilt geometry lost (map (λ s. seen (S.given s) (S.ends s) (S.failed s)) sources.old) (map (λ s. seen (S.given s) (S.ends s) (S.failed s)) sources.new)) few (K.put sink.old) (K.put sink.new) }
    ensures part { OnErr result (PutsSome geometry (IsRebuilt geometry lost (map (λ s. seen (S.given s) (S.ends s) (S.failed s)) sources.old) (map (λ s. seen (S.given s) (S.ends s) (S.failed s)) sources.new)) stripes (K.put sink.old) (K.put sink.new)) }
    ensures lack { IfErr result (IsLack geometry stripes (map (λ s. seen (S.given s) (S.ends s) (S.failed s)) sources.old) (map (λ s. seen (S.given s) (S.ends s) (S.failed s)) sources.new)) }
    ensures write { IsErrOf result RebuildFault.WriteFault → Rises (K.faults sink.old) (K.faults sink.new) }
    ensures writes { (IsErrOf result RebuildFault.WriteFault → ⊥) → K.faults sink.new ≡ K.faults sink.old }
{
    for stripe in 0..stripes {
        match rebuild_one(alloc, crc, sources, geometry, lost, sink, stripe) {
            Ok(()) => {}
            Err(fault) => return Err(fault),
        }
    }
    Ok(())
}

/// Writes the lost share anew, from the whole blocks of any `K` shares. The header tells the lost share's number. It is written last.
///
/// There is a source for each number; a missing share is an empty file. A block that can't be read counts as missing. The sink's file is
/// to be no longer than a share: what it has behind one stays.
pub fn mend_whole<S: SourceAt, K: SinkAt>(
    alloc: Global,
    crc: &Crc64,
    header: &ShareHeader,
    sources: &mut [S],
    sink: &mut K,
) -> Result<(), RebuildFault>
    requires { length sources.old ≡ all_chunks header.now.shape }
    // Whatever files the sources show: if they are shares of a file, with rot that its checksums find, the sink took the lost share.
    ensures share { (file : List ℕ) (files : List (List ℕ)) → Show (map (λ s. seen (S.given s) (S.ends s) (S.failed s)) sources.new) files → NoRotPasses header.now file files → OnOk result (PutsShare header.now.shape file header.now.share (K.put sink.old) (K.put sink.new)) }
    // Of any: the header, and the blocks of what their blocks recover. Where no codeword has these, it is some bytes.
    ensures made { OnOk result (PutsFile (HasChunks header.now (IsRebuilt header.now.shape header.now.share (map (λ s. seen (S.given s) (S.ends s) (S.failed s)) sources.old) (map (λ s. seen (S.given s) (S.ends s) (S.failed s)) sources.new))) (K.put sink.old) (K.put sink.new)) }
    // After an error it took the rebuilt blocks' bytes up to some place, or all and a part of the padded header.
    ensures part { OnErr result (PutsPart header.now (IsRebuilt header.now.shape header.now.share (map (λ s. seen (S.given s) (S.ends s) (S.failed s)) sources.old) (map (λ s. seen (S.given s) (S.ends s) (S.failed s)) sources.new)) (K.put sink.old) (K.put sink.new)) }
    // TooFew comes after just the blocks of the stripes before.
    ensures before { (few : ℕ) → IsErrOf result (RebuildFault.TooFew few) → PutsBlocks header.now.shape (IsRebuilt header.now.shape header.now.share (map (λ s. seen (S.given s) (S.ends s) (S.failed s)) sources.old) (map (λ s. seen (S.given s) (S.ends s) (S.failed s)) sources.new)) few (K.put sink.old) (K.put sink.new) }
    ensures lack { IfErr result (IsLack header.now.shape (stripe_count header.now.shape header.now.size) (map (λ s. seen (S.given s) (S.ends s) (S.failed s)) sources.old) (map (λ s. seen (S.given s) (S.ends s) (S.failed s)) sources.new)) }
    ensures write { IsErrOf result RebuildFault.WriteFault → Rises (K.faults sink.old) (K.faults sink.new) }
    ensures writes { (IsErrOf result RebuildFault.WriteFault → ⊥) → K.faults sink.new ≡ K.faults sink.old }
{
    let geometry = header.geometry();
    let stripes = header.stripe_count();
    let lost = header.share();
    match rebuild_stripes(alloc, crc, sources, geometry, lost, sink, stripes) {
        Ok(()) => {}
        Err(fault) => return Err(fault),
    }
    match write_header(alloc, crc, sink, header) {
        Ok(()) => Ok(()),
        Err(PutFault::WriteFault) => Err(RebuildFault::WriteFault),
        Err(PutFault::OutOfMemory) => Err(RebuildFault::OutOfMemory),
    }
}
