//! The headers of shares, by their numbers, and the cut that most of them are of.
ghost use Rattle.std.specs.Prelude.{◌≡◌, ◌↔◌, ◌<◌, length, map, IfOk, IsTrue, Ok};
ghost use Rattle.clay_aloof.specs.Shape.{all_chunks};
ghost use Rattle.share_files.specs.Seen.{seen};
ghost use Rattle.share_run.specs.Heads.{AreHeads, numbered, is_of, share_count, Tell};
ghost use Rattle.share_run.specs.Told.{TellsNext};

use crc64::Crc64;
use file_bytes::SourceAt;
use share_files::{HeaderRefusal, read_share_header};
use share_format::ShareHeader;
use std::alloc::{AllocError, Global};

/// A share's header, or why it has none.
pub type Head = Result<ShareHeader, HeaderRefusal>;

/// The header of each share.
pub fn read_heads<S: SourceAt>(
    alloc: Global,
    crc: &Crc64,
    sources: &mut [S],
) -> Result<Vec<Head>, AllocError>
    ensures count { IfOk result (λ heads. length heads.items ≡ length sources.new) }
    ensures heads { IfOk result (λ heads. AreHeads (map (λ s. seen (S.given s) (S.ends s) (S.failed s)) sources.old) (map (λ s. seen (S.given s) (S.ends s) (S.failed s)) sources.new) heads.items) }
{
    let mut heads = Vec::with_capacity(alloc, sources.len())?;
    for share in 0..sources.len() {
        let source = &mut sources[share];
        let head = read_share_header(source, crc);
        heads.push(head)?;
    }
    Ok(heads)
}

// Whether two headers are of one cut.
fn of_one_cut(one: &ShareHeader, other: &ShareHeader) -> bool
    ensures { IsTrue result ↔ ((one.now.shape ≡ other.now.shape) × (one.now.size ≡ other.now.size) × (one.now.checksum ≡ other.now.checksum)) }
{
    one.geometry() == other.geometry()
        && one.size() == other.size()
        && one.checksum() == other.checksum()
}

// Whether a header is that of a share of the same cut.
fn is_share_of(cut: &ShareHeader, share: usize, header: &ShareHeader) -> bool
    ensures { result ≡ is_of cut.now share (Ok header.now) }
{
    header.share() as usize == share && of_one_cut(header, cut)
}

/// Whether a share has the header of its number, of a cut.
pub fn is_of_cut(cut: &ShareHeader, share: usize, head: &Head) -> bool
    ensures { result ≡ is_of cut.now share head.now }
{
    match head {
        Ok(header) => is_share_of(cut, share, header),
        Err(_) => false,
    }
}

// How many shares have the header of their number, of a cut.
fn shares_of(heads: &[Head], cut: &ShareHeader) -> usize
    ensures { result ≡ share_count heads.now cut.now }
{
    let mut count = 0;
    for share in 0..heads.len() {
        if is_of_cut(cut, share, &heads[share]) {
            count += 1;
        }
    }
    count
}

// What headers tell with one more: that of whose cut there are more shares.
fn next_told(heads: &[Head], told: Option<ShareHeader>, head: &Head) -> Option<ShareHeader>
    ensures { TellsNext heads.now told head.now result }
{
    let header = match head {
        Ok(header) => header,
        Err(_) => return told,
    };
    let Some(first) = told else {
        return Some(*header);
    };
    if shares_of(heads, &first) < shares_of(heads, header) {
        Some(*header)
    } else {
        Some(first)
    }
}

/// What the headers of all shares tell: the cut that most of them are of, as the first of its headers; and none where no share has a header. Of
/// two cuts with as many shares it is that of the first header.
pub fn told_header(heads: &[Head]) -> Option<ShareHeader>
    ensures told { Tell heads.now (length heads.now) result }
{
    let mut told = None;
    for share in 0..heads.len() {
        told = next_told(heads, told, &heads[share]);
    }
    told
}

/// The header of the share of a number, of the same cut.
pub fn header_of_share(cut: &ShareHeader, share: u32) -> ShareHeader
    requires { share < all_chunks cut.now.shape }
    ensures { result ≡ numbered cut.now share }
{
    // a header's limits are known once its stripes are counted
    let _stripes = cut.stripe_count();
    ShareHeader::new(cut.geometry(), share, cut.size(), cut.checksum())
}
