//! The blocks of a stripe, read from some shares or from all.
ghost use Rattle.std.specs.Prelude.{◌≡◌, ◌+◌, ◌^◌, ◌<◌, ◌≤◌, ℕ, None, map, length, get_or, IfOk, IfSome, OnOk};
ghost use Rattle.clay_model.specs.Left.{AreLong};
ghost use Rattle.share_format.specs.Blocks.{block_length, IsBlock};
ghost use Rattle.share_format.specs.Shares.{block_start};
ghost use Rattle.share_files.specs.Seen.{seen};
ghost use Rattle.share_files.specs.Asked.{IsIn, IsAskedAt, AreAskedIn};
ghost use Rattle.share_files.specs.Gathered.{Reads, AreRead, AreReadIn};

use crate::finding::{make_block_room, read_good};
use clay_aloof::AloofGeometry;
use clay_bytes::Failed;
use crc64::Crc64;
use file_bytes::SourceAt;
use std::alloc::{AllocError, Global};

// The room of an earlier block, or a new one.
fn room_for_block(
    alloc: Global,
    geometry: AloofGeometry,
    earlier: Option<Vec<u8>>,
) -> Result<Vec<u8>, AllocError>
    requires { IfSome earlier (λ v. length v.items ≡ block_length geometry) }
    ensures { IfOk result (λ v. length v.items ≡ block_length geometry) }
{
    match earlier {
        Some(room) => Ok(room),
        None => make_block_room(alloc, geometry),
    }
}

// The block of a stripe in a share, in the room of an earlier one. None where it isn't there or a read fails.
fn block_or_none<S: SourceAt>(
    alloc: Global,
    crc: &Crc64,
    source: &mut S,
    geometry: AloofGeometry,
    stripe: u64,
    earlier: Option<Vec<u8>>,
) -> Result<Option<Vec<u8>>, AllocError>
    requires place { block_start geometry stripe + block_length geometry < 2 ^ 64 }
    requires room { IfSome earlier (λ v. length v.items ≡ block_length geometry) }
    ensures block { IfOk result (λ found. IfSome found (λ block. IsBlock geometry block.items)) }
    ensures read { IfOk result (Reads geometry stripe (seen (S.given source.old) (S.ends source.old) (S.failed source.old)) (seen (S.given source.new) (S.ends source.new) (S.failed source.new))) }
    ensures asked { IsAskedAt (IsIn geometry stripe) (seen (S.given source.old) (S.ends source.old) (S.failed source.old)) (seen (S.given source.new) (S.ends source.new) (S.failed source.new)) }
{
    let mut block = room_for_block(alloc, geometry, earlier)?;
    match read_good(crc, source, geometry, stripe, &mut block) {
        Ok(true) => Ok(Some(block)),
        Ok(false) => Ok(None),
        Err(Failed) => Ok(None),
    }
}

/// Reads a stripe's block in each share from one on, up to another, into the room of what stands there: none where it isn't there or a read fails.
pub(crate) fn read_blocks<S: SourceAt>(
    alloc: Global,
    crc: &Crc64,
    sources: &mut [S],
    geometry: AloofGeometry,
    stripe: u64,
    from: usize,
    to: usize,
    blocks: &mut [Option<Vec<u8>>],
) -> Result<(), AllocError>
    requires place { block_start geometry stripe + block_length geometry < 2 ^ 64 }
    requires range { (from ≤ to) × (to ≤ length sources.old) }
    requires count { length blocks.old ≡ length sources.old }
    requires lengths { AreLong (block_length geometry) blocks.old }
    ensures lengths { OnOk result (AreLong (block_length geometry) blocks.new) }
    ensures read { OnOk result (AreReadIn geometry stripe from to (map (λ s. seen (S.given s) (S.ends s) (S.failed s)) sources.old) (map (λ s. seen (S.given s) (S.ends s) (S.failed s)) sources.new) blocks.old blocks.new) }
    ensures asked { AreAskedIn geometry stripe (map (λ s. seen (S.given s) (S.ends s) (S.failed s)) sources.old) (map (λ s. seen (S.given s) (S.ends s) (S.failed s)) sources.new) }
{
    for share in from..to {
        let earlier = blocks[share].take();
        let source = &mut sources[share];
        blocks[share] = block_or_none(alloc, crc, source, geometry, stripe, earlier)?;
    }
    Ok(())
}

/// Room for a block of each of so many shares, none of which is made yet.
pub(crate) fn no_blocks(alloc: Global, count: usize) -> Result<Vec<Option<Vec<u8>>>, AllocError>
    ensures count { IfOk result (λ blocks. length blocks.items ≡ count) }
    ensures none { IfOk result (λ blocks. (c : ℕ) → get_or blocks.items c None ≡ None) }
{
    let mut blocks = Vec::with_capacity(alloc, count)?;
    for _share in 0..count {
        blocks.push(None)?;
    }
    Ok(blocks)
}

/// The block of a stripe in each share, none where it isn't there or a read fails.
pub fn find_blocks<S: SourceAt>(
    alloc: Global,
    crc: &Crc64,
    sources: &mut [S],
    geometry: AloofGeometry,
    stripe: u64,
) -> Result<Vec<Option<Vec<u8>>>, AllocError>
    requires { block_start geometry stripe + block_length geometry < 2 ^ 64 }
    ensures count { IfOk result (λ blocks. length blocks.items ≡ length sources.new) }
    ensures lengths { IfOk result (λ blocks. AreLong (block_length geometry) blocks.items) }
    ensures read { IfOk result (λ blocks. AreRead geometry stripe (length sources.new) (map (λ s. seen (S.given s) (S.ends s) (S.failed s)) sources.old) (map (λ s. seen (S.given s) (S.ends s) (S.failed s)) sources.new) blocks.items) }
    ensures asked { AreAskedIn geometry stripe (map (λ s. seen (S.given s) (S.ends s) (S.failed s)) sources.old) (map (λ s. seen (S.given s) (S.ends s) (S.failed s)) sources.new) }
{
    let count = sources.len();
    let mut blocks = no_blocks(alloc, count)?;
    read_blocks(alloc, crc, sources, geometry, stripe, 0, count, &mut blocks)?;
    Ok(blocks)
}
