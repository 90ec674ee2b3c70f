//! A file cut into its share files, a stripe at a time.
ghost use Rattle.std.specs.Prelude.{◌≡◌, ◌+◌, ◌*◌, ◌^◌, ◌≤◌, ◌<◌, ◌++◌, [], ℕ, List, true, map, take, length, All, OnOk, IfOk, IsErrOf};
ghost use Rattle.crc64.specs.Remainder.{checksum_of};
ghost use Rattle.clay_bytes.specs.Stream.{Rises, HandsOut, IsSpent};
ghost use Rattle.clay_aloof.specs.Shape.{all_chunks, stripe_bytes};
ghost use Rattle.clay_aloof.specs.Limits.{IsAloof};
ghost use Rattle.file_bytes.specs.Laid.{laid};
ghost use Rattle.share_files.specs.Written.{OneRises};
ghost use Rattle.share_files.specs.Cut.{GoOn, AreCutSoFar, AreCut, HandsOutTooMuch};
ghost use Rattle.share_files.specs.declared.cutting.CutFault.TheVariants.{OutOfMemory};

use crate::block_writing::PutFault;
use crate::stripe_filling::read_stripe;
use crate::stripe_writing::{write_headers, write_stripe};
use clay_aloof::AloofGeometry;
use clay_bytes::{Failed, Source};
use crc64::Crc64;
use file_bytes::SinkAt;
use std::alloc::{AllocError, Global};
use thiserror::Error;

// The bytes of the longest file.
const MAX_SIZE: u64 = 1 << 56;

/// Why a file can't be cut.
#[derive(Clone, Copy, Debug, PartialEq, Eq, Error)]
pub enum CutFault {
    #[error("a read failed")]
    ReadFault,
    #[error("a write failed")]
    WriteFault,
    #[error("the file has more than 2^56 bytes")]
    TooLong,
    #[error("out of memory")]
    OutOfMemory,
}

impl From<AllocError> for CutFault {
    ghost from_gives = { λ _ e. e ≡ OutOfMemory };

    fn from(_: AllocError) -> Self {
        CutFault::OutOfMemory
    }
}

// The bytes and the checksum of a file.
#[derive(Clone, Copy)]
struct FileSum {
    size: u64,
    checksum: u64,
}

fn make_stripe(alloc: Global, len: usize) -> Result<Vec<u8>, AllocError>
    ensures { IfOk result (λ stripe. length stripe.items ≡ len) }
{
    vec![in alloc; 0u8; len]
}

// Reads the next stripe of a file of which `size` bytes are cut, and puts its blocks into their places. Says how many bytes it has: fewer
// than a stripe's where the file ends in it.
fn cut_next<S: Source, K: SinkAt>(
    alloc: Global,
    crc: &Crc64,
    geometry: AloofGeometry,
    source: &mut S,
    sinks: &mut [K],
    number: u64,
    size: u64,
    stripe: &mut [u8],
) -> Result<usize, CutFault>
    requires aloof { IsAloof geometry }
    requires shares { length sinks.old ≡ all_chunks geometry }
    requires stripe { length stripe.old ≡ stripe_bytes geometry }
    requires whole { size ≡ number * stripe_bytes geometry }
    requires bounded { size ≤ 2 ^ 56 }
    ensures within { IfOk result (λ n. n ≤ length stripe.new) }
    ensures handed_out { IfOk result (λ n. HandsOut (S.given source.old) (S.left source.old) (take n stripe.new) (S.given source.new) (S.left source.new)) }
    ensures told { IfOk result (λ n. n < length stripe.new → S.ended source.new ≡ true) }
    ensures spent { IfOk result (λ n. n < length stripe.new → IsSpent (S.left source.new)) }
    ensures fits { IfOk result (λ n. size + n ≤ 2 ^ 56) }
    ensures on { IfOk result (λ n. GoOn geometry (take n stripe.new) size (map (λ sink. laid (K.put sink)) sinks.old) (map (λ sink. laid (K.put sink)) sinks.new)) }
    ensures long { IsErrOf result CutFault.TooLong → HandsOutTooMuch (S.given source.old) (S.left source.old) size (S.given source.new) (S.left source.new) }
    ensures read { IsErrOf result CutFault.ReadFault → Rises (S.faults source.old) (S.faults source.new) }
    ensures reads { (IsErrOf result CutFault.ReadFault → ⊥) → S.faults source.new ≡ S.faults source.old }
    ensures write { IsErrOf result CutFault.WriteFault → OneRises (map K.faults sinks.old) (map K.faults sinks.new) }
    ensures writes { (IsErrOf result CutFault.WriteFault → ⊥) → map K.faults sinks.new ≡ map K.faults sinks.old }
{
    let n = match read_stripe(source, stripe) {
        Ok(n) => n,
        Err(Failed) => return Err(CutFault::ReadFault),
    };
    if n == 0 {
        return Ok(n);
    }
    if n as u64 > MAX_SIZE - size {
        return Err(CutFault::TooLong);
    }
    match write_stripe(alloc, crc, sinks, geometry, number, stripe) {
        Ok(()) => Ok(n),
        Err(PutFault::WriteFault) => Err(CutFault::WriteFault),
        Err(PutFault::OutOfMemory) => Err(CutFault::OutOfMemory),
    }
}

// The checksum of what `checksum` is that of, and the first bytes of a stripe behind it.
fn sum_more(crc: &Crc64, checksum: u64, stripe: &[u8], count: usize) -> u64
    requires { count ≤ length stripe.now }
    ensures { (before : List ℕ) → checksum ≡ checksum_of before → result ≡ checksum_of (before ++ take count stripe.now) }
{
    crc.extended(checksum, &stripe[..count])
}

// Puts the blocks of all stripes of a file into their places, with room for one of them.
fn cut_stripes<S: Source, K: SinkAt>(
    alloc: Global,
    crc: &Crc64,
    geometry: AloofGeometry,
    source: &mut S,
    sinks: &mut [K],
    stripe: &mut [u8],
) -> Result<FileSum, CutFault>
    requires aloof { IsAloof geometry }
    requires shares { length sinks.old ≡ all_chunks geometry }
    requires stripe { length stripe.old ≡ stripe_bytes geometry }
    requires empty { All (λ sink. K.put sink ≡ []) sinks.old }
    ensures cut { IfOk result (λ sum. AreCutSoFar geometry (S.given source.old) (S.left source.old) (S.given source.new) (S.left source.new) sum.size sum.checksum (map (λ sink. laid (K.put sink)) sinks.new)) }
    ensures fits { IfOk result (λ sum. sum.size ≤ 2 ^ 56) }
    ensures told { OnOk result (S.ended source.new ≡ true) }
    ensures spent { OnOk result (IsSpent (S.left source.new)) }
    ensures long { IsErrOf result CutFault.TooLong → HandsOutTooMuch (S.given source.old) (S.left source.old) 0 (S.given source.new) (S.left source.new) }
    ensures read { IsErrOf result CutFault.ReadFault → Rises (S.faults source.old) (S.faults source.new) }
    ensures reads { (IsErrOf result CutFault.ReadFault → ⊥) → S.faults source.new ≡ S.faults source.old }
    ensures write { IsErrOf result CutFault.WriteFault → OneRises (map K.faults sinks.old) (map K.faults sinks.new) }
    ensures writes { (IsErrOf result CutFault.WriteFault → ⊥) → map K.faults sinks.new ≡ map K.faults sinks.old }
{
    let mut checksum = crc.checksum(&[]);
    let mut size = 0;
    let mut number = 0;
    let mut last = stripe.len();
    'stripes: while last == stripe.len() {
        let count = match cut_next(alloc, crc, geometry, source, sinks, number, size, stripe) {
            Ok(count) => count,
            Err(fault) => return Err(fault),
        };
        checksum = sum_more(crc, checksum, stripe, count);
        size += count as u64;
        number += 1;
        last = count;
    }
    Ok(FileSum { size, checksum })
}

/// Cuts the file that a source gives, as far as its end is told, into its shares, a sink for each.
pub fn cut<S: Source, K: SinkAt>(
    alloc: Global,
    crc: &Crc64,
    geometry: AloofGeometry,
    source: &mut S,
    sinks: &mut [K],
) -> Result<(), CutFault>
    requires shares { length sinks.old ≡ all_chunks geometry }
    // Nothing was written yet. `laid` is the file that the writes make of an empty one: so the sinks' files are empty, for the caller to see to.
    requires empty { All (λ sink. K.put sink ≡ []) sinks.old }
    ensures cut { OnOk result (AreCut geometry (S.given source.old) (S.left source.old) (S.given source.new) (S.left source.new) (S.ended source.new) (map (λ sink. laid (K.put sink)) sinks.new)) }
    ensures long { IsErrOf result CutFault.TooLong → HandsOutTooMuch (S.given source.old) (S.left source.old) 0 (S.given source.new) (S.left source.new) }
    ensures read { IsErrOf result CutFault.ReadFault → Rises (S.faults source.old) (S.faults source.new) }
    ensures reads { (IsErrOf result CutFault.ReadFault → ⊥) → S.faults source.new ≡ S.faults source.old }
    ensures write { IsErrOf result CutFault.WriteFault → OneRises (map K.faults sinks.old) (map K.faults sinks.new) }
    ensures writes { (IsErrOf result CutFault.WriteFault → ⊥) → map K.faults sinks.new ≡ map K.faults sinks.old }
{
    let len = geometry.stripe_len() as usize;
    let mut stripe = make_stripe(alloc, len)?;
    let sum = match cut_stripes(alloc, crc, geometry, source, sinks, &mut stripe) {
        Ok(sum) => sum,
        Err(fault) => return Err(fault),
    };
    match write_headers(alloc, crc, sinks, geometry, sum.size, sum.checksum) {
        Ok(()) => Ok(()),
        Err(PutFault::WriteFault) => Err(CutFault::WriteFault),
        Err(PutFault::OutOfMemory) => Err(CutFault::OutOfMemory),
    }
}
