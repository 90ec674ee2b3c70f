//! The commands over open files, and the exit status that each of them ends with.
ghost use Rattle.std.specs.Prelude.{◌≡◌, [], All, length, map, IfOk, IfErr};
ghost use Rattle.std.specs.Process.{exit_status};
ghost use Rattle.clay_aloof.specs.Shape.{all_chunks};
ghost use Rattle.share_files.specs.Seen.{seen};
ghost use Rattle.share_mends.specs.Asked.{AreHelpers};
ghost use Rattle.share_run.specs.Places.{kept};
ghost use Rattle.share_run.specs.Status.{status_number};
ghost use Rattle.share_run.specs.Cut.{heard, cut_run, CutEnds};
ghost use Rattle.share_run.specs.Join.{join_run, JoinEnds};
ghost use Rattle.share_run.specs.Mend.{mend_run, MendEnds, MendStops};
ghost use Rattle.share_run.specs.Rebuild.{RebuildEnds};
ghost use Rattle.share_run.specs.Check.{CheckEnds};

use crate::ShareStatus;
use crate::checks_of_shares::check_main;
use crate::cuts_of_files::cut_main;
use crate::joins_of_shares::join_main;
use crate::mends_of_shares::{MendStop, mend_main};
use crate::rebuilds_of_shares::rebuild_main;
use crate::said::{ends, exit_with};
use crate::share_places::{FilePlace, FilePlaces};
use clay_aloof::AloofGeometry;
use clay_bytes::{Sink, Source};
use crc64::Crc64;
use file_bytes::{SinkAt, SourceAt};
use share_files::ShareFault;
use share_format::ShareHeader;
use std::alloc::Global;
use std::io::Eprint;
use std::process::ExitCode;

// Says why a command didn't end well, of a file at a path.
fn ended<R: Eprint>(rt: &R, status: ShareStatus, path: &str, why: &str) -> ExitCode
    ensures { exit_status result ≡ status_number status }
{
    if status == ShareStatus::Done {
        return exit_with(status);
    }
    ends(rt, status, path, why)
}

// What a status says of a file that was to be cut.
fn cut_trouble(status: ShareStatus) -> &'static str {
    match status {
        ShareStatus::ReadFault => "it could not be read",
        ShareStatus::WriteFault => "its shares could not be written",
        ShareStatus::Usage => "it has more than 2^56 bytes",
        ShareStatus::OutOfMemory => "there was not enough memory",
        _ => "it was cut",
    }
}

/// Cuts the file that a source gives into shares beside their places, a sink for each, and then puts them there. Says why it ended, if not
/// well, and ends with the number of that status.
pub fn serve_cut<R: Eprint, S: Source, K: SinkAt, P: FilePlaces<K>>(
    rt: &R,
    alloc: Global,
    geometry: AloofGeometry,
    path: &str,
    source: &mut S,
    sinks: &mut [K],
    places: &mut P,
) -> ExitCode
    requires shares { length sinks.old ≡ all_chunks geometry }
    requires empty { All (λ sink. K.put sink ≡ []) sinks.old }
    ensures exit { (status : ShareStatus) × (exit_status result ≡ status_number status) × CutEnds status (cut_run geometry
        (heard (S.given source.old) (S.left source.old) (S.ended source.old) (S.faults source.old))
        (heard (S.given source.new) (S.left source.new) (S.ended source.new) (S.faults source.new))
        (map K.faults sinks.old) (map K.faults sinks.new)
        (kept (P.filled_in places.old) (P.faults places.old)) (kept (P.filled_in places.new) (P.faults places.new))) }
{
    let status = cut_main(alloc, geometry, source, sinks, places);
    ended(rt, status, path, cut_trouble(status))
}

// What a status says of a file that was to be joined.
fn join_trouble(status: ShareStatus) -> &'static str {
    match status {
        ShareStatus::TooFew => "too few of its shares are good",
        ShareStatus::BadShare => "what its shares give has not the checksum in their headers",
        ShareStatus::WriteFault => "it could not be written",
        ShareStatus::OutOfMemory => "there was not enough memory",
        _ => "it was joined",
    }
}

/// Joins a file from its shares beside its place, and then puts it there. Says why it ended, if not well, and ends with the number of that
/// status. `missed` has an entry for each share, as `join` sets it.
pub fn serve_join<R: Eprint, S: SourceAt, K: Sink, P: FilePlace<K>>(
    rt: &R,
    alloc: Global,
    crc: &Crc64,
    header: &ShareHeader,
    path: &str,
    sources: &mut [S],
    sink: &mut K,
    place: &mut P,
    missed: &mut [Option<u64>],
) -> ExitCode
    requires sources { length sources.old ≡ all_chunks header.now.shape }
    requires missed { length missed.old ≡ all_chunks header.now.shape }
    requires empty { K.accepted sink.old ≡ [] }
    ensures exit { (status : ShareStatus) × (exit_status result ≡ status_number status) × JoinEnds status (join_run header.now
        (map (λ s. seen (S.given s) (S.ends s) (S.failed s)) sources.old) (map (λ s. seen (S.given s) (S.ends s) (S.failed s)) sources.new)
        (K.faults sink.old) (K.faults sink.new)
        (kept (P.filled_in place.old) (P.faults place.old)) (kept (P.filled_in place.new) (P.faults place.new)) missed.new) }
{
    let status = join_main(alloc, crc, header, sources, sink, place, missed);
    ended(rt, status, path, join_trouble(status))
}

// What a status says of a share that was to be mended.
fn mend_trouble(status: ShareStatus) -> &'static str {
    match status {
        ShareStatus::TooFew => "too few of the other shares are good",
        ShareStatus::WriteFault => "it could not be written",
        ShareStatus::OutOfMemory => "there was not enough memory",
        _ => "it was mended",
    }
}

/// Mends the share of the header's number from the marked helpers' parts, beside its place, and then puts it there. Says why it ended, if not
/// well, and ends with the number of that status. Where it stops at a helper, whole chunks may still do.
pub fn serve_mend<R: Eprint, S: SourceAt, K: SinkAt, P: FilePlaces<K>>(
    rt: &R,
    alloc: Global,
    crc: &Crc64,
    header: &ShareHeader,
    path: &str,
    sources: &mut [S],
    helpers: &[bool],
    sink: &mut K,
    places: &mut P,
) -> Result<ExitCode, MendStop>
    requires sources { length sources.old ≡ all_chunks header.now.shape }
    requires helpers { AreHelpers header.now.shape header.now.share helpers.now }
    requires empty { K.put sink.old ≡ [] }
    ensures exit { IfOk result (λ exit. (status : ShareStatus) × (exit_status exit ≡ status_number status) × MendEnds helpers.now (mend_run header.now
        (map (λ s. seen (S.given s) (S.ends s) (S.failed s)) sources.old) (map (λ s. seen (S.given s) (S.ends s) (S.failed s)) sources.new)
        (K.faults sink.old) (K.faults sink.new)
        (kept (P.filled_in places.old) (P.faults places.old)) (kept (P.filled_in places.new) (P.faults places.new))) status) }
    ensures stops { IfErr result (MendStops helpers.now (mend_run header.now
        (map (λ s. seen (S.given s) (S.ends s) (S.failed s)) sources.old) (map (λ s. seen (S.given s) (S.ends s) (S.failed s)) sources.new)
        (K.faults sink.old) (K.faults sink.new)
        (kept (P.filled_in places.old) (P.faults places.old)) (kept (P.filled_in places.new) (P.faults places.new)))) }
{
    match mend_main(alloc, crc, header, sources, helpers, sink, places) {
        Ok(status) => Ok(ended(rt, status, path, mend_trouble(status))),
        Err(stop) => Err(stop),
    }
}

/// Mends the share of the header's number from whole blocks of any `K` shares, beside its place, and then puts it there. Says why it ended, if
/// not well, and ends with the number of that status.
pub fn serve_rebuild<R: Eprint, S: SourceAt, K: SinkAt, P: FilePlaces<K>>(
    rt: &R,
    alloc: Global,
    crc: &Crc64,
    header: &ShareHeader,
    path: &str,
    sources: &mut [S],
    sink: &mut K,
    places: &mut P,
) -> ExitCode
    requires sources { length sources.old ≡ all_chunks header.now.shape }
    requires empty { K.put sink.old ≡ [] }
    ensures exit { (status : ShareStatus) × (exit_status result ≡ status_number status) × RebuildEnds status (mend_run header.now
        (map (λ s. seen (S.given s) (S.ends s) (S.failed s)) sources.old) (map (λ s. seen (S.given s) (S.ends s) (S.failed s)) sources.new)
        (K.faults sink.old) (K.faults sink.new)
        (kept (P.filled_in places.old) (P.faults places.old)) (kept (P.filled_in places.new) (P.faults places.new))) }
{
    let status = rebuild_main(alloc, crc, header, sources, sink, places);
    ended(rt, status, path, mend_trouble(status))
}

// What a status says of a folder whose shares were judged.
fn check_trouble(status: ShareStatus) -> &'static str {
    match status {
        ShareStatus::TooFew => "fewer of its shares are whole than its file needs",
        ShareStatus::BadShare => "not all shares in it are whole ones of its file",
        ShareStatus::OutOfMemory => "there was not enough memory",
        _ => "its shares are whole",
    }
}

/// Judges each share of the header's cut, and notes the first fault of each. Strays are as in `check_main`. Says why it ended, if not well, and ends with the number of that status.
pub fn serve_check<R: Eprint, S: SourceAt>(
    rt: &R,
    alloc: Global,
    crc: &Crc64,
    header: &ShareHeader,
    folder: &str,
    strays: bool,
    sources: &mut [S],
    verdicts: &mut [Option<ShareFault>],
) -> ExitCode
    requires sources { length sources.old ≡ all_chunks header.now.shape }
    requires verdicts { length verdicts.old ≡ all_chunks header.now.shape }
    ensures exit { (status : ShareStatus) × (exit_status result ≡ status_number status)
        × CheckEnds status header.now strays (map (λ s. seen (S.given s) (S.ends s) (S.failed s)) sources.old) (map (λ s. seen (S.given s) (S.ends s) (S.failed s)) sources.new) verdicts.new }
{
    let status = check_main(alloc, crc, header, strays, sources, verdicts);
    ended(rt, status, folder, check_trouble(status))
}
