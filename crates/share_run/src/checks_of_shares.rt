//! All shares of a file judged.
ghost use Rattle.std.specs.Prelude.{◌≡◌, ◌^◌, ◌<◌, length, map, IfOk, OnOk};
ghost use Rattle.clay_grid.specs.Score.{count_below};
ghost use Rattle.clay_aloof.specs.Shape.{all_chunks};
ghost use Rattle.share_files.specs.Seen.{seen};
ghost use Rattle.share_run.specs.Heads.{numbered};
ghost use Rattle.share_run.specs.Check.{IsVerdictOf, AreJudged, is_whole, CheckEnds};

use crate::ShareStatus;
use crate::share_heads::header_of_share;
use crc64::Crc64;
use file_bytes::SourceAt;
use share_files::{ShareFault, check_share};
use share_format::ShareHeader;
use std::alloc::{AllocError, Global};

// The first fault of the share of a number. The error is an allocation failure.
fn fault_of<S: SourceAt>(
    alloc: Global,
    crc: &Crc64,
    header: &ShareHeader,
    share: u32,
    source: &mut S,
) -> Result<Option<ShareFault>, AllocError>
    requires { share < all_chunks header.now.shape }
    ensures { IfOk result (IsVerdictOf (numbered header.now share) (seen (S.given source.old) (S.ends source.old) (S.failed source.old)) (seen (S.given source.new) (S.ends source.new) (S.failed source.new))) }
{
    let own = header_of_share(header, share);
    let fault = match check_share(alloc, crc, &own, source) {
        Ok(()) => return Ok(None),
        Err(fault) => fault,
    };
    match fault {
        ShareFault::OutOfMemory => Err(AllocError),
        _ => Ok(Some(fault)),
    }
}

// Judges each share.
fn judge_all<S: SourceAt>(
    alloc: Global,
    crc: &Crc64,
    header: &ShareHeader,
    sources: &mut [S],
    verdicts: &mut [Option<ShareFault>],
) -> Result<(), AllocError>
    requires sources { length sources.old ≡ all_chunks header.now.shape }
    requires verdicts { length verdicts.old ≡ all_chunks header.now.shape }
    ensures judged { OnOk result (AreJudged header.now (map (λ s. seen (S.given s) (S.ends s) (S.failed s)) sources.old) (map (λ s. seen (S.given s) (S.ends s) (S.failed s)) sources.new) verdicts.new) }
    ensures verdicts { length verdicts.new ≡ length verdicts.old }
{
    let shares = header.geometry().n();
    for share in 0..shares {
        let at = share as usize;
        let source = &mut sources[at];
        let verdict = fault_of(alloc, crc, header, share, source)?;
        verdicts[at] = verdict;
    }
    Ok(())
}

// How many shares are whole.
fn whole_count(verdicts: &[Option<ShareFault>]) -> usize
    requires { length verdicts.now < 2 ^ 32 }
    ensures { result ≡ count_below (length verdicts.now) (is_whole verdicts.now) }
{
    let mut count = 0;
    for verdict in verdicts {
        if verdict.is_none() {
            count += 1;
        }
    }
    count
}

/// Judges each share of the header's cut, and notes the first fault of each. Strays are files with a share's name whose number no
/// share of the cut has.
pub fn check_main<S: SourceAt>(
    alloc: Global,
    crc: &Crc64,
    header: &ShareHeader,
    strays: bool,
    sources: &mut [S],
    verdicts: &mut [Option<ShareFault>],
) -> ShareStatus
    requires sources { length sources.old ≡ all_chunks header.now.shape }
    requires verdicts { length verdicts.old ≡ all_chunks header.now.shape }
    ensures { CheckEnds result header.now strays
        (map (λ s. seen (S.given s) (S.ends s) (S.failed s)) sources.old) (map (λ s. seen (S.given s) (S.ends s) (S.failed s)) sources.new) verdicts.new }
{
    let shares = header.geometry().n() as usize;
    let enough = header.geometry().k() as usize;
    match judge_all(alloc, crc, header, sources, verdicts) {
        Ok(()) => {}
        Err(AllocError) => return ShareStatus::OutOfMemory,
    }
    let whole = whole_count(verdicts);
    if whole < enough {
        return ShareStatus::TooFew;
    }
    if whole < shares {
        return ShareStatus::BadShare;
    }
    if strays {
        return ShareStatus::BadShare;
    }
    ShareStatus::Done
}
