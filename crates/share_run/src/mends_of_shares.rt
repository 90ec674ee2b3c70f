//! A lost share mended from parts of others, which is put into its place once it is whole.
ghost use Rattle.std.specs.Prelude.{◌≡◌, [], length, map, IfOk, IfErr};
ghost use Rattle.clay_aloof.specs.Shape.{all_chunks};
ghost use Rattle.share_files.specs.Seen.{seen};
ghost use Rattle.share_mends.specs.Asked.{AreHelpers};
ghost use Rattle.share_run.specs.Places.{kept};
ghost use Rattle.share_run.specs.Mend.{mend_run, MendEnds, MendStops};

use crate::ShareStatus;
use crate::share_places::FilePlaces;
use clay_bytes::Failed;
use crc64::Crc64;
use file_bytes::{SinkAt, SourceAt};
use share_format::ShareHeader;
use share_mends::{MendFault, RottenPart, mend};
use std::alloc::Global;

/// Why the marked helpers' parts don't mend a share.
#[derive(Clone, Copy, Debug, PartialEq, Eq)]
pub enum MendStop {
    /// This is the first part that isn't good.
    RottenHelper(RottenPart),
    /// A read of a helper failed.
    UnreadHelper,
}

/// Mends the share of the header's number from the marked helpers' parts, beside its place, and then puts it there.
pub fn mend_main<S: SourceAt, K: SinkAt, P: FilePlaces<K>>(
    alloc: Global,
    crc: &Crc64,
    header: &ShareHeader,
    sources: &mut [S],
    helpers: &[bool],
    sink: &mut K,
    places: &mut P,
) -> Result<ShareStatus, MendStop>
    requires sources { length sources.old ≡ all_chunks header.now.shape }
    requires helpers { AreHelpers header.now.shape header.now.share helpers.now }
    // Nothing was written yet.
    requires empty { K.put sink.old ≡ [] }
    ensures ends { IfOk result (MendEnds helpers.now (mend_run header.now
        (map (λ s. seen (S.given s) (S.ends s) (S.failed s)) sources.old) (map (λ s. seen (S.given s) (S.ends s) (S.failed s)) sources.new)
        (K.faults sink.old) (K.faults sink.new)
        (kept (P.filled_in places.old) (P.faults places.old)) (kept (P.filled_in places.new) (P.faults places.new)))) }
    ensures stops { IfErr result (MendStops helpers.now (mend_run header.now
        (map (λ s. seen (S.given s) (S.ends s) (S.failed s)) sources.old) (map (λ s. seen (S.given s) (S.ends s) (S.failed s)) sources.new)
        (K.faults sink.old) (K.faults sink.new)
        (kept (P.filled_in places.old) (P.faults places.old)) (kept (P.filled_in places.new) (P.faults places.new)))) }
{
    match mend(alloc, crc, header, sources, helpers, sink) {
        Ok(()) => {}
        Err(MendFault::Rotten(part)) => return Err(MendStop::RottenHelper(part)),
        Err(MendFault::ReadFault) => return Err(MendStop::UnreadHelper),
        Err(MendFault::WriteFault) => return Ok(ShareStatus::WriteFault),
        Err(MendFault::OutOfMemory) => return Ok(ShareStatus::OutOfMemory),
    }
    match places.fill(0, sink) {
        Ok(()) => Ok(ShareStatus::Done),
        Err(Failed) => Ok(ShareStatus::WriteFault),
    }
}
