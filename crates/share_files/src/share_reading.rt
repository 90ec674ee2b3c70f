//! The header and the blocks of a share.
ghost use Rattle.std.specs.Prelude.{◌≡◌, ◌+◌, ◌^◌, ◌<◌, ℕ, List, length, take, drop, ◌++◌, IfOk, IfErr, OnOk, IsErrOf};
ghost use Rattle.file_bytes.specs.Places.{Shows, placed_from, EndsBefore, FailsBefore, FailsIn};
ghost use Rattle.share_format.specs.Blocks.{block_length};
ghost use Rattle.share_format.specs.Shares.{block_start};
ghost use Rattle.share_format.specs.Header.{IsHeader, header_bytes};
ghost use Rattle.share_files.specs.Refused.{IsRefusal};

use crate::block_places::block_place;
use clay_aloof::AloofGeometry;
use crc64::Crc64;
use file_bytes::{ReadFault, SourceAt, read_exact_at};
use share_format::{BadHeader, HEADER_LEN, ShareHeader, read_header};
use thiserror::Error;

/// Reads the block of a stripe of a share, and no other byte of it.
pub fn read_block<S: SourceAt>(
    source: &mut S,
    geometry: AloofGeometry,
    stripe: u64,
    block: &mut [u8],
) -> Result<(), ReadFault>
    requires size { length block.old ≡ block_length geometry }
    requires place { block_start geometry stripe + block_length geometry < 2 ^ 64 }
    ensures given { OnOk result (S.given source.new ≡ S.given source.old ++ placed_from (block_start geometry stripe) block.new) }
    ensures failed { IsErrOf result ReadFault.Failed → FailsBefore (S.given source.old) (S.failed source.old) (block_start geometry stripe) (block_length geometry) (S.given source.new) (S.failed source.new) }
    ensures ended { IsErrOf result ReadFault.Ended → EndsBefore (S.given source.old) (S.ends source.old) (block_start geometry stripe) (block_length geometry) (S.given source.new) (S.ends source.new) }
    ensures on { (IsErrOf result ReadFault.Ended → ⊥) → S.ends source.new ≡ S.ends source.old }
    // Whatever file the source shows, these are its bytes in the block's place, and it is too short only where it ends there.
    ensures shown { (file : List ℕ) → Shows file (S.given source.new) (S.ends source.new) → OnOk result (block.new ≡ take (block_length geometry) (drop (block_start geometry stripe) file)) }
    ensures short { (file : List ℕ) → Shows file (S.given source.new) (S.ends source.new) → IsErrOf result ReadFault.Ended → length file < block_start geometry stripe + block_length geometry }
    ensures steady { (IsErrOf result ReadFault.Failed → ⊥) → S.failed source.new ≡ S.failed source.old }
{
    let at = block_place(geometry, stripe);
    read_exact_at(source, at, block)
}

/// Why a share's header can't be had.
#[derive(Clone, Copy, Debug, PartialEq, Eq, Error)]
pub enum HeaderRefusal {
    #[error("a read failed")]
    ReadFault,
    #[error("the file is shorter than a header")]
    Short,
    #[error("{0}")]
    Bad(BadHeader),
}

/// Reads the header of a share.
#[tactic(auto, using(crate::proofs::WrittenLemmas::header_first, crate::proofs::WrittenLemmas::first_refused))]
pub fn read_share_header<S: SourceAt>(
    source: &mut S,
    crc: &Crc64,
) -> Result<ShareHeader, HeaderRefusal>
    // Whatever file the source shows, the header stands first in it, or it is refused for what the file is.
    ensures header { (file : List ℕ) → Shows file (S.given source.new) (S.ends source.new) → IfOk result (λ header. take 64 file ≡ header_bytes header) }
    ensures bounded { IfOk result IsHeader }
    ensures refused { (file : List ℕ) → Shows file (S.given source.new) (S.ends source.new) → IfErr result (IsRefusal file) }
    // It is a file that the source showed before.
    ensures shown { (file : List ℕ) → Shows file (S.given source.new) (S.ends source.new) → Shows file (S.given source.old) (S.ends source.old) }
    ensures cause { IsErrOf result HeaderRefusal.ReadFault → FailsIn 0 64 (S.failed source.old) (S.failed source.new) }
    ensures steady { (IsErrOf result HeaderRefusal.ReadFault → ⊥) → S.failed source.new ≡ S.failed source.old }
{
    let mut bytes = [0u8; HEADER_LEN];
    match read_exact_at(source, 0, &mut bytes) {
        Ok(()) => {}
        Err(ReadFault::Failed) => return Err(HeaderRefusal::ReadFault),
        Err(ReadFault::Ended) => return Err(HeaderRefusal::Short),
    }
    match read_header(crc, &bytes) {
        Ok(header) => Ok(header),
        Err(fault) => Err(HeaderRefusal::Bad(fault)),
    }
}
