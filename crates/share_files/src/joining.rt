//! A file from the blocks of its shares, a stripe at a time.
ghost use Rattle.std.specs.Prelude.{◌≡◌, ℕ, List, None, map, length, min, slice_index_or, OnOk, IfOk, IfErr, IsErrOf, OnErr};
ghost use Rattle.clay_bytes.specs.Stream.{Rises, Accepts, AcceptsPrefix};
ghost use Rattle.clay_model.specs.Left.{AreLong};
ghost use Rattle.clay_aloof.specs.Shape.{all_chunks};
ghost use Rattle.share_format.specs.Cut.{stripe_count};
ghost use Rattle.share_format.specs.Blocks.{block_length};
ghost use Rattle.share_files.specs.Seen.{seen, Show};
ghost use Rattle.share_files.specs.Missed.{AreFirstMissed, IsParityUnread};
ghost use Rattle.share_files.specs.Joined.{NoRotPasses, IsOfFile, IsWhyNot};
ghost use Rattle.share_files.specs.Taken.{TakesFile, TakesUntil};
ghost use Rattle.share_files.specs.SoFar.{TakesSoFar, AreReadSoFar, IsStop};
ghost use Rattle.share_files.specs.declared.joining.JoinFault.TheVariants.{OutOfMemory};

use crate::fetching::no_blocks;
use crate::missed::forget;
use crate::passing::pass_on;
use crate::stripe_reading::next_stripe;
use clay_bytes::{Sink, WriteFault};
use crc64::{Combiner, Crc64};
use file_bytes::SourceAt;
use share_format::ShareHeader;
use std::alloc::{AllocError, Global};
use thiserror::Error;

/// Why a file can't be joined from its shares.
#[derive(Clone, Copy, Debug, PartialEq, Eq, Error)]
pub enum JoinFault {
    /// More than `M` shares have no good block of the stripe of this number, from 0, or none that can be read.
    #[error("too few shares have a block of stripe {0}")]
    TooFew(u64),
    #[error("the joined file has not the checksum in the shares' headers")]
    Mismatch,
    #[error("a write failed")]
    WriteFault,
    #[error("out of memory")]
    OutOfMemory,
}

impl From<AllocError> for JoinFault {
    ghost from_gives = { λ _ e. e ≡ OutOfMemory };

    fn from(_: AllocError) -> Self {
        JoinFault::OutOfMemory
    }
}

// How many of a stripe's bytes are the file's, where so many are left.
fn first_count(left: u64, len: u32) -> usize
    ensures { result ≡ min left len }
{
    left.min(u64::from(len)) as usize
}

// Hands on the bytes of all stripes, as far as the file goes, with room for the blocks of one of them, and gives their checksum.
fn join_stripes<S: SourceAt, K: Sink>(
    alloc: Global,
    crc: &Crc64,
    combiner: &Combiner,
    header: &ShareHeader,
    sources: &mut [S],
    sink: &mut K,
    blocks: &mut [Option<Vec<u8>>],
    missed: &mut [Option<u64>],
) -> Result<u64, JoinFault>
    requires combiner { combiner.now ≡ header.now.shape.width }
    requires sources { length sources.old ≡ all_chunks header.now.shape }
    requires blocks { length blocks.old ≡ all_chunks header.now.shape }
    requires lengths { AreLong (block_length header.now.shape) blocks.old }
    requires missed { length missed.old ≡ all_chunks header.now.shape }
    requires fresh { (c : ℕ) → slice_index_or missed.old c None ≡ None }
    ensures taken { IfOk result (TakesSoFar header.now (stripe_count header.now.shape header.now.size) 0 (map (λ s. seen (S.given s) (S.ends s) (S.failed s)) sources.old) (map (λ s. seen (S.given s) (S.ends s) (S.failed s)) sources.new) (K.accepted sink.old) (K.written sink.old) (K.accepted sink.new) (K.written sink.new)) }
    ensures until { IfErr result (TakesUntil header.now (map (λ s. seen (S.given s) (S.ends s) (S.failed s)) sources.old) (map (λ s. seen (S.given s) (S.ends s) (S.failed s)) sources.new) (K.accepted sink.old) (K.written sink.old) (K.accepted sink.new) (K.written sink.new)) }
    ensures read { OnOk result (AreReadSoFar header.now (stripe_count header.now.shape header.now.size) (map (λ s. seen (S.given s) (S.ends s) (S.failed s)) sources.old) (map (λ s. seen (S.given s) (S.ends s) (S.failed s)) sources.new) missed.new) }
    ensures stop { IfErr result (IsStop header.now (map (λ s. seen (S.given s) (S.ends s) (S.failed s)) sources.old) (map (λ s. seen (S.given s) (S.ends s) (S.failed s)) sources.new) missed.new) }
    ensures write { IsErrOf result JoinFault.WriteFault → Rises (K.faults sink.old) (K.faults sink.new) }
    ensures writes { (IsErrOf result JoinFault.WriteFault → ⊥) → K.faults sink.new ≡ K.faults sink.old }
{
    let geometry = header.geometry();
    let stripes = header.stripe_count();
    let len = geometry.stripe_len();
    let mut checksum = crc.checksum(&[]);
    let mut left = header.size();
    for stripe in 0..stripes {
        let joined = match next_stripe(alloc, crc, geometry, sources, stripe, blocks, missed) {
            Ok(joined) => joined,
            Err(fault) => return Err(fault),
        };
        let count = first_count(left, len);
        checksum = match pass_on(
            crc, combiner, geometry, sink, blocks, &joined, count, checksum,
        ) {
            Ok(sum) => sum,
            Err(WriteFault) => return Err(JoinFault::WriteFault),
        };
        left -= count as u64;
    }
    Ok(checksum)
}

// The same, once there is room for the blocks.
fn join_all<S: SourceAt, K: Sink>(
    alloc: Global,
    crc: &Crc64,
    header: &ShareHeader,
    sources: &mut [S],
    sink: &mut K,
    missed: &mut [Option<u64>],
) -> Result<u64, JoinFault>
    requires sources { length sources.old ≡ all_chunks header.now.shape }
    requires missed { length missed.old ≡ all_chunks header.now.shape }
    requires fresh { (c : ℕ) → slice_index_or missed.old c None ≡ None }
    ensures taken { IfOk result (TakesSoFar header.now (stripe_count header.now.shape header.now.size) 0 (map (λ s. seen (S.given s) (S.ends s) (S.failed s)) sources.old) (map (λ s. seen (S.given s) (S.ends s) (S.failed s)) sources.new) (K.accepted sink.old) (K.written sink.old) (K.accepted sink.new) (K.written sink.new)) }
    ensures until { IfErr result (TakesUntil header.now (map (λ s. seen (S.given s) (S.ends s) (S.failed s)) sources.old) (map (λ s. seen (S.given s) (S.ends s) (S.failed s)) sources.new) (K.accepted sink.old) (K.written sink.old) (K.accepted sink.new) (K.written sink.new)) }
    ensures read { OnOk result (AreReadSoFar header.now (stripe_count header.now.shape header.now.size) (map (λ s. seen (S.given s) (S.ends s) (S.failed s)) sources.old) (map (λ s. seen (S.given s) (S.ends s) (S.failed s)) sources.new) missed.new) }
    ensures stop { IfErr result (IsStop header.now (map (λ s. seen (S.given s) (S.ends s) (S.failed s)) sources.old) (map (λ s. seen (S.given s) (S.ends s) (S.failed s)) sources.new) missed.new) }
    ensures write { IsErrOf result JoinFault.WriteFault → Rises (K.faults sink.old) (K.faults sink.new) }
    ensures writes { (IsErrOf result JoinFault.WriteFault → ⊥) → K.faults sink.new ≡ K.faults sink.old }
{
    let geometry = header.geometry();
    let combiner = Combiner::new(alloc, crc, geometry.w())?;
    let mut blocks = no_blocks(alloc, geometry.n() as usize)?;
    join_stripes(
        alloc,
        crc,
        &combiner,
        header,
        sources,
        sink,
        &mut blocks,
        missed,
    )
}

/// Joins a file from its shares, a source for each number, and hands its bytes to a sink. A missing share is an empty file, the header any share's.
///
/// A data share's block is read of each stripe, a parity share's where a data share's is missing. One that can't be read counts as missing.
/// Unless memory is short `missed` has for each share the first stripe of which its block was read and was missing, and None where all that
/// were read are good. After an error what the sink has is no file to keep.
pub fn join<S: SourceAt, K: Sink>(
    alloc: Global,
    crc: &Crc64,
    header: &ShareHeader,
    sources: &mut [S],
    sink: &mut K,
    missed: &mut [Option<u64>],
) -> Result<(), JoinFault>
    requires sources { length sources.old ≡ all_chunks header.now.shape }
    requires missed { length missed.old ≡ all_chunks header.now.shape }
    // Whatever files the sources show: if they are shares of a file, with rot that its checksums find, the sink took that file. This follows
    // from what is said of any files.
    ensures joined { (file : List ℕ) (files : List (List ℕ)) → Show (map (λ s. seen (S.given s) (S.ends s) (S.failed s)) sources.new) files → NoRotPasses header.now file files → OnOk result (Accepts (K.accepted sink.old) (K.written sink.old) file (K.accepted sink.new) (K.written sink.new)) }
    ensures matching { (file : List ℕ) (files : List (List ℕ)) → Show (map (λ s. seen (S.given s) (S.ends s) (S.failed s)) sources.new) files → NoRotPasses header.now file files → IsErrOf result JoinFault.Mismatch → ⊥ }
    ensures prefix { (file : List ℕ) (files : List (List ℕ)) → Show (map (λ s. seen (S.given s) (S.ends s) (S.failed s)) sources.new) files → NoRotPasses header.now file files → OnErr result (AcceptsPrefix (K.accepted sink.old) (K.written sink.old) file (K.accepted sink.new) (K.written sink.new)) }
    // Of any files: the sink took the stripes as they were joined, with Ok all, of the header's length and checksum.
    ensures taken { OnOk result (TakesFile header.now (map (λ s. seen (S.given s) (S.ends s) (S.failed s)) sources.old) (map (λ s. seen (S.given s) (S.ends s) (S.failed s)) sources.new) (K.accepted sink.old) (K.written sink.old) (K.accepted sink.new) (K.written sink.new)) }
    // After any error: the stripes that were joined before, or a prefix of them.
    ensures until { IfErr result (TakesUntil header.now (map (λ s. seen (S.given s) (S.ends s) (S.failed s)) sources.old) (map (λ s. seen (S.given s) (S.ends s) (S.failed s)) sources.new) (K.accepted sink.old) (K.written sink.old) (K.accepted sink.new) (K.written sink.new)) }
    // What each share missed, and that nothing came of it but from blocks that count.
    ensures missed { (files : List (List ℕ)) → Show (map (λ s. seen (S.given s) (S.ends s) (S.failed s)) sources.new) files → OnOk result (AreFirstMissed header.now.shape (stripe_count header.now.shape header.now.size) files (map (λ s. seen (S.given s) (S.ends s) (S.failed s)) sources.old) (map (λ s. seen (S.given s) (S.ends s) (S.failed s)) sources.new) missed.new) }
    // Where no data share's block was missing, no parity share was asked for anything.
    ensures unread { (IsErrOf result JoinFault.OutOfMemory → ⊥) → IsParityUnread header.now.shape (map (λ s. seen (S.given s) (S.ends s) (S.failed s)) sources.old) (map (λ s. seen (S.given s) (S.ends s) (S.failed s)) sources.new) missed.new }
    ensures why_not { (files : List (List ℕ)) → Show (map (λ s. seen (S.given s) (S.ends s) (S.failed s)) sources.new) files → IfErr result (IsWhyNot header.now files (map (λ s. seen (S.given s) (S.ends s) (S.failed s)) sources.old) (map (λ s. seen (S.given s) (S.ends s) (S.failed s)) sources.new) missed.new) }
    ensures of_file { IfErr result (IsOfFile header.now) }
    ensures write { IsErrOf result JoinFault.WriteFault → Rises (K.faults sink.old) (K.faults sink.new) }
    ensures writes { (IsErrOf result JoinFault.WriteFault → ⊥) → K.faults sink.new ≡ K.faults sink.old }
{
    forget(missed);
    let checksum = match join_all(alloc, crc, header, sources, sink, missed) {
        Ok(checksum) => checksum,
        Err(fault) => return Err(fault),
    };
    if checksum != header.checksum() {
        return Err(JoinFault::Mismatch);
    }
    Ok(())
}
