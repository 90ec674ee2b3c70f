//! The blocks of a share that are whole.
ghost use Rattle.std.specs.Prelude.{◌≡◌, ◌+◌, ◌*◌, ◌^◌, ◌<◌, ℕ, List, length, IfOk, OnOk, OnErr, IsTrue, IsErrOf};
ghost use Rattle.file_bytes.specs.Places.{Shows, FailsIn};
ghost use Rattle.share_format.specs.Blocks.{block_length, IsBlock};
ghost use Rattle.share_format.specs.Shares.{block_start};
ghost use Rattle.share_files.specs.Found.{block_in, IsTold, IsFirstRotten};
ghost use Rattle.share_files.specs.Seen.{seen};
ghost use Rattle.share_files.specs.Asked.{IsIn, IsAskedAt};
ghost use Rattle.share_files.specs.declared.finding.BlockFault.TheVariants.{OutOfMemory};

use crate::block_places::block_len;
use crate::share_reading::read_block;
use clay_aloof::AloofGeometry;
use clay_bytes::Failed;
use crc64::Crc64;
use file_bytes::{ReadFault, SourceAt};
use share_format::is_block;
use std::alloc::{AllocError, Global};
use thiserror::Error;

/// Why it can't be said whether a share has a block.
#[derive(Clone, Copy, Debug, PartialEq, Eq, Error)]
pub enum BlockFault {
    #[error("a read failed")]
    ReadFault,
    #[error("out of memory")]
    OutOfMemory,
}

impl From<AllocError> for BlockFault {
    ghost from_gives = { λ _ e. e ≡ OutOfMemory };

    fn from(_: AllocError) -> Self {
        BlockFault::OutOfMemory
    }
}

fn zeros(alloc: Global, len: usize) -> Result<Vec<u8>, AllocError>
    ensures { IfOk result (λ block. length block.items ≡ len) }
{
    vec![in alloc; 0u8; len]
}

/// Room for a block.
pub(crate) fn make_block_room(alloc: Global, geometry: AloofGeometry) -> Result<Vec<u8>, AllocError>
    ensures { IfOk result (λ block. length block.items ≡ block_length geometry) }
{
    zeros(alloc, block_len(geometry) as usize)
}

/// Reads a share's block of a stripe into a room for it: whether one stands there then. None does where the share has none, or ends before.
pub(crate) fn read_good<S: SourceAt>(
    crc: &Crc64,
    source: &mut S,
    geometry: AloofGeometry,
    stripe: u64,
    room: &mut [u8],
) -> Result<bool, Failed>
    requires size { length room.old ≡ block_length geometry }
    requires place { block_start geometry stripe + block_length geometry < 2 ^ 64 }
    ensures block { IfOk result (λ good. IsTrue good → IsBlock geometry room.new) }
    // Whatever file the source shows, its block is read or missed as it is.
    ensures found { (file : List ℕ) → Shows file (S.given source.new) (S.ends source.new) → IfOk result (IsTold geometry (block_in geometry stripe file) room.new) }
    // It is a file that the source showed before.
    ensures shown { (file : List ℕ) → Shows file (S.given source.new) (S.ends source.new) → Shows file (S.given source.old) (S.ends source.old) }
    ensures asked { IsAskedAt (IsIn geometry stripe) (seen (S.given source.old) (S.ends source.old) (S.failed source.old)) (seen (S.given source.new) (S.ends source.new) (S.failed source.new)) }
    ensures cause { OnErr result (FailsIn (block_start geometry stripe) (block_length geometry) (S.failed source.old) (S.failed source.new)) }
    ensures steady { OnOk result (S.failed source.new ≡ S.failed source.old) }
{
    let _len = block_len(geometry);
    match read_block(source, geometry, stripe, room) {
        Ok(()) => Ok(is_block(geometry, crc, room)),
        Err(ReadFault::Failed) => Err(Failed),
        Err(ReadFault::Ended) => Ok(false),
    }
}

/// The first of so many stripes whose block isn't whole in a share.
pub fn first_rotten<S: SourceAt>(
    alloc: Global,
    crc: &Crc64,
    source: &mut S,
    geometry: AloofGeometry,
    stripes: u64,
) -> Result<Option<u64>, BlockFault>
    requires { block_start geometry stripes < 2 ^ 64 }
    ensures rotten { (file : List ℕ) → Shows file (S.given source.new) (S.ends source.new) → IfOk result (IsFirstRotten geometry stripes file) }
    ensures shown { (file : List ℕ) → Shows file (S.given source.new) (S.ends source.new) → Shows file (S.given source.old) (S.ends source.old) }
    ensures cause { IsErrOf result BlockFault.ReadFault → FailsIn (block_start geometry 0) (stripes * block_length geometry) (S.failed source.old) (S.failed source.new) }
    ensures steady { (IsErrOf result BlockFault.ReadFault → ⊥) → S.failed source.new ≡ S.failed source.old }
{
    let mut room = make_block_room(alloc, geometry)?;
    for stripe in 0..stripes {
        match read_good(crc, source, geometry, stripe, &mut room) {
            Ok(true) => {}
            Ok(false) => return Ok(Some(stripe)),
            Err(Failed) => return Err(BlockFault::ReadFault),
        }
    }
    Ok(None)
}
