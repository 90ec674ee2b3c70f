//! What all shares of a file gain: the blocks of a stripe, and the headers at last.
ghost use Rattle.std.specs.Prelude.{◌≡◌, ◌+◌, ◌^◌, ◌≤◌, ◌<◌, ℕ, [], map, get_or, length, OnOk, OnErr, IsErrOf};
ghost use Rattle.clay_model.specs.Chunks.{contents};
ghost use Rattle.clay_aloof.specs.Shape.{all_chunks, stripe_bytes};
ghost use Rattle.file_bytes.specs.Laid.{laid};
ghost use Rattle.share_format.specs.Blocks.{block_length};
ghost use Rattle.share_format.specs.Shares.{block_start};
ghost use Rattle.share_files.specs.Written.{GainsBlock, GainsHeader, AreChanged, GainStripe, OneRises};

use crate::block_writing::{PutFault, write_block, write_header};
use clay_aloof::AloofGeometry;
use clay_bytes::WriteFault;
use crc64::Crc64;
use file_bytes::SinkAt;
use share_format::{ShareHeader, cut_stripe};
use std::alloc::Global;

// Puts each block into its place in its share.
fn write_blocks<K: SinkAt>(
    sinks: &mut [K],
    geometry: AloofGeometry,
    stripe: u64,
    blocks: &[Vec<u8>],
) -> Result<(), WriteFault>
    requires shares { length sinks.old ≡ length blocks.now }
    requires sizes { (c : ℕ) → c < length blocks.now → length (get_or (contents blocks.now) c []) ≡ block_length geometry }
    requires place { block_start geometry stripe + block_length geometry < 2 ^ 64 }
    ensures written { OnOk result (AreChanged (λ c. GainsBlock geometry stripe (get_or (contents blocks.now) c [])) (length blocks.now) (map (λ sink. laid (K.put sink)) sinks.old) (map (λ sink. laid (K.put sink)) sinks.new)) }
    ensures cause { OnErr result (OneRises (map K.faults sinks.old) (map K.faults sinks.new)) }
    ensures steady { OnOk result (map K.faults sinks.new ≡ map K.faults sinks.old) }
{
    for share in 0..blocks.len() {
        let sink = &mut sinks[share];
        match write_block(sink, geometry, stripe, &blocks[share]) {
            Ok(()) => {}
            Err(WriteFault) => return Err(WriteFault),
        }
    }
    Ok(())
}

/// Puts the block of each chunk of a stripe into its place in its share.
pub(crate) fn write_stripe<K: SinkAt>(
    alloc: Global,
    crc: &Crc64,
    sinks: &mut [K],
    geometry: AloofGeometry,
    number: u64,
    stripe: &[u8],
) -> Result<(), PutFault>
    requires shares { length sinks.old ≡ all_chunks geometry }
    requires stripe { length stripe.now ≡ stripe_bytes geometry }
    requires place { block_start geometry number + block_length geometry < 2 ^ 64 }
    ensures written { OnOk result (GainStripe geometry number stripe.now (map (λ sink. laid (K.put sink)) sinks.old) (map (λ sink. laid (K.put sink)) sinks.new)) }
    ensures cause { IsErrOf result PutFault.WriteFault → OneRises (map K.faults sinks.old) (map K.faults sinks.new) }
    ensures steady { (IsErrOf result PutFault.WriteFault → ⊥) → map K.faults sinks.new ≡ map K.faults sinks.old }
{
    let blocks = cut_stripe(alloc, geometry, crc, stripe)?;
    match write_blocks(sinks, geometry, number, &blocks) {
        Ok(()) => Ok(()),
        Err(WriteFault) => Err(PutFault::WriteFault),
    }
}

/// Puts the header of each share into its place.
pub(crate) fn write_headers<K: SinkAt>(
    alloc: Global,
    crc: &Crc64,
    sinks: &mut [K],
    geometry: AloofGeometry,
    size: u64,
    checksum: u64,
) -> Result<(), PutFault>
    requires shares { length sinks.old ≡ all_chunks geometry }
    requires bounded { size ≤ 2 ^ 56 }
    ensures written { OnOk result (AreChanged (λ c. GainsHeader geometry size checksum c) (all_chunks geometry) (map (λ sink. laid (K.put sink)) sinks.old) (map (λ sink. laid (K.put sink)) sinks.new)) }
    ensures cause { IsErrOf result PutFault.WriteFault → OneRises (map K.faults sinks.old) (map K.faults sinks.new) }
    ensures steady { (IsErrOf result PutFault.WriteFault → ⊥) → map K.faults sinks.new ≡ map K.faults sinks.old }
{
    let shares = geometry.n();
    for share in 0..shares {
        let header = ShareHeader::new(geometry, share, size, checksum);
        let at = share as usize;
        let sink = &mut sinks[at];
        match write_header(alloc, crc, sink, &header) {
            Ok(()) => {}
            Err(fault) => return Err(fault),
        }
    }
    Ok(())
}
