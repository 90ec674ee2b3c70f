//! A share's blocks written in a row, and its header at last.
ghost use Rattle.std.specs.Prelude.{◌≡◌, ◌+◌, ◌^◌, ◌≤◌, ◌<◌, ◌++◌, length, OnOk, OnErr, IsErrOf, IfOk};
ghost use Rattle.clay_bytes.specs.Stream.{Rises};
ghost use Rattle.file_bytes.specs.Places.{placed_from};
ghost use Rattle.file_bytes.specs.Laid.{laid, PutsFewer};
ghost use Rattle.clay_model.specs.Code.{padded};
ghost use Rattle.share_format.specs.Blocks.{aligned, block_length};
ghost use Rattle.share_format.specs.Header.{header_bytes};
ghost use Rattle.share_format.specs.Shares.{block_start};
ghost use Rattle.share_files.specs.Written.{GainsBlock, GainsHeader};
ghost use Rattle.share_files.specs.declared.block_writing.PutFault.TheVariants.{OutOfMemory};

use crate::block_places::{block_len, block_place, header_room};
use clay_aloof::AloofGeometry;
use clay_bytes::WriteFault;
use crc64::Crc64;
use file_bytes::{SinkAt, write_all_at};
use share_format::ShareHeader;
use std::alloc::{AllocError, Global};
use thiserror::Error;

/// Why a part of a share can't be written.
#[derive(Clone, Copy, Debug, PartialEq, Eq, Error)]
pub enum PutFault {
    #[error("a write failed")]
    WriteFault,
    #[error("out of memory")]
    OutOfMemory,
}

impl From<AllocError> for PutFault {
    ghost from_gives = { λ _ e. e ≡ OutOfMemory };

    fn from(_: AllocError) -> Self {
        PutFault::OutOfMemory
    }
}

/// Puts the block of a stripe into its place in a share.
pub fn write_block<K: SinkAt>(
    sink: &mut K,
    geometry: AloofGeometry,
    stripe: u64,
    block: &[u8],
) -> Result<(), WriteFault>
    requires size { length block.now ≡ block_length geometry }
    requires place { block_start geometry stripe + block_length geometry < 2 ^ 64 }
    ensures written { OnOk result (GainsBlock geometry stripe block.now (laid (K.put sink.old)) (laid (K.put sink.new))) }
    ensures put { OnOk result (K.put sink.new ≡ K.put sink.old ++ placed_from (block_start geometry stripe) block.now) }
    ensures part { OnErr result (PutsFewer (K.put sink.old) (block_start geometry stripe) block.now (K.put sink.new)) }
    ensures cause { OnErr result (Rises (K.faults sink.old) (K.faults sink.new)) }
    ensures steady { OnOk result (K.faults sink.new ≡ K.faults sink.old) }
    ensures count { K.faults sink.old ≤ K.faults sink.new }
{
    let _len = block_len(geometry);
    let at = block_place(geometry, stripe);
    write_all_at(sink, at, block)
}

// Fills bytes up with zeros to so many.
fn fill_with_zeros(alloc: Global, bytes: &mut Vec<u8>, size: usize) -> Result<(), AllocError>
    ensures { OnOk result (bytes.new.items ≡ padded size bytes.old.items) }
{
    let zeros = vec![in alloc; 0u8; size.saturating_sub(bytes.len())]?;
    bytes.extend_from_slice(&zeros)
}

/// The bytes of a header, and the zeros behind it up to a share's first block.
#[tactic(auto, using(crate::proofs::WrittenLemmas::aligned_header))]
pub fn padded_header(
    alloc: Global,
    crc: &Crc64,
    header: &ShareHeader,
) -> Result<Vec<u8>, AllocError>
    ensures { IfOk result (λ bytes. bytes.items ≡ aligned header.now.shape (header_bytes header.now)) }
{
    let mut bytes = header.bytes(alloc, crc)?;
    let room = header_room(header.geometry()) as usize;
    fill_with_zeros(alloc, &mut bytes, room)?;
    Ok(bytes)
}

/// Puts the header of a share into its place. Where the share has just the blocks of the file's stripes, it is whole then.
pub fn write_header<K: SinkAt>(
    alloc: Global,
    crc: &Crc64,
    sink: &mut K,
    header: &ShareHeader,
) -> Result<(), PutFault>
    ensures share { OnOk result (GainsHeader header.now.shape header.now.size header.now.checksum header.now.share (laid (K.put sink.old)) (laid (K.put sink.new))) }
    ensures put { OnOk result (K.put sink.new ≡ K.put sink.old ++ placed_from 0 (aligned header.now.shape (header_bytes header.now))) }
    ensures part { IsErrOf result PutFault.WriteFault → PutsFewer (K.put sink.old) 0 (aligned header.now.shape (header_bytes header.now)) (K.put sink.new) }
    ensures cause { IsErrOf result PutFault.WriteFault → Rises (K.faults sink.old) (K.faults sink.new) }
    ensures unwritten { IsErrOf result PutFault.OutOfMemory → K.put sink.new ≡ K.put sink.old }
    ensures steady { (IsErrOf result PutFault.WriteFault → ⊥) → K.faults sink.new ≡ K.faults sink.old }
    ensures count { K.faults sink.old ≤ K.faults sink.new }
{
    let bytes = padded_header(alloc, crc, header)?;
    match write_all_at(sink, 0, &bytes) {
        Ok(()) => Ok(()),
        Err(WriteFault) => Err(PutFault::WriteFault),
    }
}
