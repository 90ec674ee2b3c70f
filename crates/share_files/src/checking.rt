//! A share's file judged from its front to its end.
ghost use Rattle.std.specs.Prelude.{◌≡◌, ◌↔◌, ◌+◌, ◌^◌, ◌≤◌, ◌<◌, ℕ, List, None, length, take, IfOk, IfErr, OnOk, IsErrOf, IsTrue};
ghost use Rattle.file_bytes.specs.Places.{Shows};
ghost use Rattle.share_format.specs.Header.{header_bytes};
ghost use Rattle.share_files.specs.Whole.{BeginsWith, IsWhole, IsFirstFault, OneFails};

use crate::block_places::{block_place, header_room};
use crate::block_writing::padded_header;
use crate::finding::{BlockFault, first_rotten};
use crate::share_fault::{ShareFault, refused, unread};
use crate::share_reading::read_share_header;
use crc64::Crc64;
use file_bytes::{ReadFault, SourceAt, read_exact_at};
use share_format::ShareHeader;
use std::alloc::{AllocError, Global};

fn make_room(alloc: Global, len: usize) -> Result<Vec<u8>, AllocError>
    ensures { IfOk result (λ room. length room.items ≡ len) }
{
    vec![in alloc; 0u8; len]
}

fn are_same(bytes: &[u8], others: &[u8]) -> bool
    ensures { IsTrue result ↔ (bytes.now ≡ others.now) }
{
    bytes == others
}

// Whether a share begins with its header and the zeros behind it.
fn begins_with<S: SourceAt>(
    alloc: Global,
    crc: &Crc64,
    source: &mut S,
    header: &ShareHeader,
) -> Result<bool, BlockFault>
    ensures begins { (file : List ℕ) → Shows file (S.given source.new) (S.ends source.new) → IfOk result (λ is. IsTrue is ↔ BeginsWith header.now file) }
    ensures shown { (file : List ℕ) → Shows file (S.given source.new) (S.ends source.new) → Shows file (S.given source.old) (S.ends source.old) }
    ensures cause { IsErrOf result BlockFault.ReadFault → OneFails (S.failed source.old) (S.failed source.new) }
    ensures steady { (IsErrOf result BlockFault.ReadFault → ⊥) → S.failed source.new ≡ S.failed source.old }
{
    let wanted = padded_header(alloc, crc, header)?;
    let mut front = make_room(alloc, header_room(header.geometry()) as usize)?;
    match read_exact_at(source, 0, &mut front) {
        Ok(()) => Ok(are_same(&front, &wanted)),
        Err(ReadFault::Failed) => Err(BlockFault::ReadFault),
        Err(ReadFault::Ended) => Ok(false),
    }
}

// Whether a file ends at a place or before.
fn ends_at<S: SourceAt>(source: &mut S, place: u64) -> Result<bool, BlockFault>
    requires { place + 1 < 2 ^ 64 }
    ensures ends { (file : List ℕ) → Shows file (S.given source.new) (S.ends source.new) → IfOk result (λ is. IsTrue is ↔ length file ≤ place) }
    ensures shown { (file : List ℕ) → Shows file (S.given source.new) (S.ends source.new) → Shows file (S.given source.old) (S.ends source.old) }
    ensures cause { IsErrOf result BlockFault.ReadFault → OneFails (S.failed source.old) (S.failed source.new) }
    ensures steady { (IsErrOf result BlockFault.ReadFault → ⊥) → S.failed source.new ≡ S.failed source.old }
{
    let mut next = [0u8; 1];
    match read_exact_at(source, place, &mut next) {
        Ok(()) => Ok(false),
        Err(ReadFault::Failed) => Err(BlockFault::ReadFault),
        Err(ReadFault::Ended) => Ok(true),
    }
}

// The first fault behind the header's own bytes.
fn check_rest<S: SourceAt>(
    alloc: Global,
    crc: &Crc64,
    source: &mut S,
    header: &ShareHeader,
) -> Result<(), ShareFault>
    ensures whole { (file : List ℕ) → Shows file (S.given source.new) (S.ends source.new) → OnOk result (IsWhole header.now file) }
    ensures fault { (file : List ℕ) → Shows file (S.given source.new) (S.ends source.new) → take 64 file ≡ header_bytes header.now → IfErr result (IsFirstFault header.now file) }
    ensures shown { (file : List ℕ) → Shows file (S.given source.new) (S.ends source.new) → Shows file (S.given source.old) (S.ends source.old) }
    ensures cause { IsErrOf result ShareFault.ReadFault → OneFails (S.failed source.old) (S.failed source.new) }
    ensures steady { (IsErrOf result ShareFault.ReadFault → ⊥) → S.failed source.new ≡ S.failed source.old }
{
    let begins = match begins_with(alloc, crc, source, header) {
        Ok(begins) => begins,
        Err(fault) => return Err(unread(fault)),
    };
    if !begins {
        return Err(ShareFault::Padding);
    }
    let geometry = header.geometry();
    let stripes = header.stripe_count();
    match first_rotten(alloc, crc, source, geometry, stripes) {
        Ok(None) => {}
        Ok(Some(stripe)) => return Err(ShareFault::Block(stripe)),
        Err(fault) => return Err(unread(fault)),
    }
    let ends = match ends_at(source, block_place(geometry, stripes)) {
        Ok(ends) => ends,
        Err(fault) => return Err(unread(fault)),
    };
    if !ends {
        return Err(ShareFault::Longer);
    }
    Ok(())
}

// Whether two headers tell the same.
fn is_header(found: &ShareHeader, header: &ShareHeader) -> bool
    ensures { IsTrue result ↔ (found.now ≡ header.now) }
{
    found == header
}

/// Judges a file that should be the share of the header, from its front to its end: the header, the zeros behind it, each block with its
/// checksums and zeros, and that nothing stands behind the last.
pub fn check_share<S: SourceAt>(
    alloc: Global,
    crc: &Crc64,
    header: &ShareHeader,
    source: &mut S,
) -> Result<(), ShareFault>
    // Whatever file the source shows: it is that share, whole, or this is its first fault.
    ensures whole { (file : List ℕ) → Shows file (S.given source.new) (S.ends source.new) → OnOk result (IsWhole header.now file) }
    ensures fault { (file : List ℕ) → Shows file (S.given source.new) (S.ends source.new) → IfErr result (IsFirstFault header.now file) }
    ensures cause { IsErrOf result ShareFault.ReadFault → OneFails (S.failed source.old) (S.failed source.new) }
    ensures steady { (IsErrOf result ShareFault.ReadFault → ⊥) → S.failed source.new ≡ S.failed source.old }
{
    let found = match read_share_header(source, crc) {
        Ok(found) => found,
        Err(refusal) => return Err(refused(refusal)),
    };
    if !is_header(&found, header) {
        return Err(ShareFault::Foreign);
    }
    check_rest(alloc, crc, source, header)
}
