//! A file cut into shares, which are put into their places once all are whole.
ghost use Rattle.std.specs.Prelude.{◌≡◌, ◌<◌, ◌++◌, [], ℕ, All, length, map, take, OnOk, OnErr, IsErrOf};
ghost use Rattle.clay_bytes.specs.Stream.{Rises};
ghost use Rattle.clay_aloof.specs.Shape.{all_chunks};
ghost use Rattle.file_bytes.specs.Laid.{laid};
ghost use Rattle.share_files.specs.Written.{OneRises};
ghost use Rattle.share_files.specs.Cut.{AreCut, HandsOutTooMuch};
ghost use Rattle.share_run.specs.Places.{filled_from, kept};
ghost use Rattle.share_run.specs.Cut.{heard, cut_run, CutEnds};

use crate::ShareStatus;
use crate::share_places::FilePlaces;
use clay_aloof::AloofGeometry;
use clay_bytes::{Failed, Source};
use crc64::Crc64;
use file_bytes::SinkAt;
use share_files::{CutFault, cut};
use std::alloc::Global;

// Puts the shares of a code into the places of their numbers.
fn fill_all<K: SinkAt, P: FilePlaces<K>>(
    geometry: AloofGeometry,
    sinks: &[K],
    places: &mut P,
) -> Result<(), Failed>
    requires { length sinks.now ≡ all_chunks geometry }
    ensures filled { OnOk result (P.filled_in places.new ≡ P.filled_in places.old ++ filled_from 0 (map (λ sink. laid (K.put sink)) sinks.now)) }
    ensures part { OnErr result ((count : ℕ) × (count < all_chunks geometry)
        × (P.filled_in places.new ≡ P.filled_in places.old ++ filled_from 0 (take count (map (λ sink. laid (K.put sink)) sinks.now)))) }
    ensures cause { OnErr result (Rises (P.faults places.old) (P.faults places.new)) }
    ensures steady { OnOk result (P.faults places.new ≡ P.faults places.old) }
{
    let shares = geometry.n();
    for place in 0..shares {
        let at = place as usize;
        let made = &sinks[at];
        match places.fill(place, made) {
            Ok(()) => {}
            Err(Failed) => return Err(Failed),
        }
    }
    Ok(())
}

// Cuts a file into shares beside their places.
fn cut_beside<S: Source, K: SinkAt>(
    alloc: Global,
    geometry: AloofGeometry,
    source: &mut S,
    sinks: &mut [K],
) -> Result<(), CutFault>
    requires shares { length sinks.old ≡ all_chunks geometry }
    requires empty { All (λ sink. K.put sink ≡ []) sinks.old }
    ensures cut { OnOk result (AreCut geometry (S.given source.old) (S.left source.old) (S.given source.new) (S.left source.new) (S.ended source.new) (map (λ sink. laid (K.put sink)) sinks.new)) }
    ensures long { IsErrOf result CutFault.TooLong → HandsOutTooMuch (S.given source.old) (S.left source.old) 0 (S.given source.new) (S.left source.new) }
    ensures read { IsErrOf result CutFault.ReadFault → Rises (S.faults source.old) (S.faults source.new) }
    ensures reads { (IsErrOf result CutFault.ReadFault → ⊥) → S.faults source.new ≡ S.faults source.old }
    ensures write { IsErrOf result CutFault.WriteFault → OneRises (map K.faults sinks.old) (map K.faults sinks.new) }
    ensures writes { (IsErrOf result CutFault.WriteFault → ⊥) → map K.faults sinks.new ≡ map K.faults sinks.old }
{
    let crc = match Crc64::new(alloc) {
        Ok(crc) => crc,
        Err(_) => return Err(CutFault::OutOfMemory),
    };
    cut(alloc, &crc, geometry, source, sinks)
}

/// Cuts the file that a source gives into shares beside their places, a sink for each, and then puts them there.
pub fn cut_main<S: Source, K: SinkAt, P: FilePlaces<K>>(
    alloc: Global,
    geometry: AloofGeometry,
    source: &mut S,
    sinks: &mut [K],
    places: &mut P,
) -> ShareStatus
    requires shares { length sinks.old ≡ all_chunks geometry }
    // Nothing was written yet.
    requires empty { All (λ sink. K.put sink ≡ []) sinks.old }
    ensures { CutEnds result (cut_run geometry
        (heard (S.given source.old) (S.left source.old) (S.ended source.old) (S.faults source.old))
        (heard (S.given source.new) (S.left source.new) (S.ended source.new) (S.faults source.new))
        (map K.faults sinks.old) (map K.faults sinks.new)
        (kept (P.filled_in places.old) (P.faults places.old)) (kept (P.filled_in places.new) (P.faults places.new))) }
{
    match cut_beside(alloc, geometry, source, sinks) {
        Ok(()) => {}
        Err(CutFault::ReadFault) => return ShareStatus::ReadFault,
        Err(CutFault::WriteFault) => return ShareStatus::WriteFault,
        Err(CutFault::TooLong) => return ShareStatus::Usage,
        Err(CutFault::OutOfMemory) => return ShareStatus::OutOfMemory,
    }
    match fill_all(geometry, sinks, places) {
        Ok(()) => ShareStatus::Done,
        Err(Failed) => ShareStatus::WriteFault,
    }
}
