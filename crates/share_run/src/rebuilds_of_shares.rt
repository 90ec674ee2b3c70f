//! A lost share mended from whole blocks, which is put into its place once it is whole.
ghost use Rattle.std.specs.Prelude.{◌≡◌, [], length, map};
ghost use Rattle.clay_aloof.specs.Shape.{all_chunks};
ghost use Rattle.share_files.specs.Seen.{seen};
ghost use Rattle.share_run.specs.Places.{kept};
ghost use Rattle.share_run.specs.Mend.{mend_run};
ghost use Rattle.share_run.specs.Rebuild.{RebuildEnds};

use crate::ShareStatus;
use crate::share_places::FilePlaces;
use clay_bytes::Failed;
use crc64::Crc64;
use file_bytes::{SinkAt, SourceAt};
use share_format::ShareHeader;
use share_mends::{RebuildFault, mend_whole};
use std::alloc::Global;

/// Mends the share of the header's number from whole blocks of any `K` shares, beside its place, and then puts it there.
pub fn rebuild_main<S: SourceAt, K: SinkAt, P: FilePlaces<K>>(
    alloc: Global,
    crc: &Crc64,
    header: &ShareHeader,
    sources: &mut [S],
    sink: &mut K,
    places: &mut P,
) -> ShareStatus
    requires sources { length sources.old ≡ all_chunks header.now.shape }
    // Nothing was written yet.
    requires empty { K.put sink.old ≡ [] }
    ensures { RebuildEnds result (mend_run header.now
        (map (λ s. seen (S.given s) (S.ends s) (S.failed s)) sources.old) (map (λ s. seen (S.given s) (S.ends s) (S.failed s)) sources.new)
        (K.faults sink.old) (K.faults sink.new)
        (kept (P.filled_in places.old) (P.faults places.old)) (kept (P.filled_in places.new) (P.faults places.new))) }
{
    match mend_whole(alloc, crc, header, sources, sink) {
        Ok(()) => {}
        Err(RebuildFault::TooFew(_)) => return ShareStatus::TooFew,
        Err(RebuildFault::WriteFault) => return ShareStatus::WriteFault,
        Err(RebuildFault::OutOfMemory) => return ShareStatus::OutOfMemory,
    }
    match places.fill(0, sink) {
        Ok(()) => ShareStatus::Done,
        Err(Failed) => ShareStatus::WriteFault,
    }
}
