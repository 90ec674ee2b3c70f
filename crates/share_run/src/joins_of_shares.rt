//! A file joined from its shares, which is put into its place once it is whole.
ghost use Rattle.std.specs.Prelude.{◌≡◌, [], length, map};
ghost use Rattle.clay_aloof.specs.Shape.{all_chunks};
ghost use Rattle.share_files.specs.Seen.{seen};
ghost use Rattle.share_run.specs.Places.{kept};
ghost use Rattle.share_run.specs.Join.{join_run, JoinEnds};

use crate::ShareStatus;
use crate::share_places::FilePlace;
use clay_bytes::{Failed, Sink};
use crc64::Crc64;
use file_bytes::SourceAt;
use share_files::{JoinFault, join};
use share_format::ShareHeader;
use std::alloc::Global;

/// Joins a file from its shares beside its place, and then puts it there. `missed` has an entry for each share, as `join` sets it.
pub fn join_main<S: SourceAt, K: Sink, P: FilePlace<K>>(
    alloc: Global,
    crc: &Crc64,
    header: &ShareHeader,
    sources: &mut [S],
    sink: &mut K,
    place: &mut P,
    missed: &mut [Option<u64>],
) -> ShareStatus
    requires sources { length sources.old ≡ all_chunks header.now.shape }
    requires missed { length missed.old ≡ all_chunks header.now.shape }
    // Nothing was written yet.
    requires empty { K.accepted sink.old ≡ [] }
    ensures { JoinEnds result (join_run header.now
        (map (λ s. seen (S.given s) (S.ends s) (S.failed s)) sources.old) (map (λ s. seen (S.given s) (S.ends s) (S.failed s)) sources.new)
        (K.faults sink.old) (K.faults sink.new)
        (kept (P.filled_in place.old) (P.faults place.old)) (kept (P.filled_in place.new) (P.faults place.new)) missed.new) }
{
    match join(alloc, crc, header, sources, sink, missed) {
        Ok(()) => {}
        Err(JoinFault::TooFew(_)) => return ShareStatus::TooFew,
        Err(JoinFault::Mismatch) => return ShareStatus::BadShare,
        Err(JoinFault::WriteFault) => return ShareStatus::WriteFault,
        Err(JoinFault::OutOfMemory) => return ShareStatus::OutOfMemory,
    }
    match place.fill(sink) {
        Ok(()) => ShareStatus::Done,
        Err(Failed) => ShareStatus::WriteFault,
    }
}
