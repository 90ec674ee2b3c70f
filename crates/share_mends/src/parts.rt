//! What a mend reads of a helper's block.
ghost use Rattle.std.specs.Prelude.{◌≡◌, ◌+◌, ◌^◌, ◌≤◌, ◌<◌, ℕ, List, [], ◌∷◌, length, take, slice_range, All, IfOk, IfSome, OnOk, IsErrOf};
ghost use Rattle.clay_aloof.specs.Repair.{part_bytes};
ghost use Rattle.file_bytes.specs.Places.{Shows, FailsIn};
ghost use Rattle.share_format.specs.Blocks.{block_length, chunk_start};
ghost use Rattle.share_format.specs.Mend.{block_ranges};
ghost use Rattle.share_format.specs.Shares.{block_start};
ghost use Rattle.share_mends.specs.Places.{GivesAt, GivesJust};
ghost use Rattle.share_mends.specs.Spans.{range_at, ranges_at, span_bytes, IsShort, AreShort, IsMendPlan};
ghost use Rattle.share_mends.specs.Parts.{piece_in, IsFoundPart};

use crate::spans::{MendPlan, Span};
use crc64::Crc64;
use file_bytes::{ReadFault, SourceAt, read_exact_at};
use share_files::{BlockFault, block_place, chunk_place};
use share_format::is_part;
use std::alloc::{AllocError, Global};

// Reads a span of the block that begins at a place, into the buffer from an index on.
fn read_span<S: SourceAt>(
    source: &mut S,
    place: u64,
    span: Span,
    at: usize,
    buf: &mut [u8],
) -> Result<(), ReadFault>
    requires room { at + span.size ≤ length buf.old }
    requires place { place + span.start + span.size < 2 ^ 64 }
    ensures given { OnOk result (GivesAt (S.given source.old) (range_at place span ∷ []) (slice_range buf.new at (at + span.size)) (S.given source.new)) }
    ensures kept { take at buf.new ≡ take at buf.old }
    ensures on { (IsErrOf result ReadFault.Ended → ⊥) → S.ends source.new ≡ S.ends source.old }
    ensures shown { (file : List ℕ) → Shows file (S.given source.new) (S.ends source.new) → Shows file (S.given source.old) (S.ends source.old) }
    ensures short { (file : List ℕ) → Shows file (S.given source.new) (S.ends source.new) → IsErrOf result ReadFault.Ended → IsShort place span file }
    ensures cause { IsErrOf result ReadFault.Failed → FailsIn (place + span.start) span.size (S.failed source.old) (S.failed source.new) }
    ensures steady { (IsErrOf result ReadFault.Failed → ⊥) → S.failed source.new ≡ S.failed source.old }
{
    let end = at + span.size as usize;
    let piece = &mut buf[at..end];
    read_exact_at(source, place + span.start, piece)
}

// Reads the spans of the block that begins at a place, one behind another into the buffer.
fn read_spans<S: SourceAt>(
    source: &mut S,
    place: u64,
    spans: &[Span],
    buf: &mut [u8],
) -> Result<(), ReadFault>
    requires room { length buf.old ≡ span_bytes spans.now }
    requires place { All (λ span. place + span.start + span.size < 2 ^ 64) spans.now }
    ensures given { OnOk result (GivesAt (S.given source.old) (ranges_at place spans.now) buf.new (S.given source.new)) }
    ensures on { (IsErrOf result ReadFault.Ended → ⊥) → S.ends source.new ≡ S.ends source.old }
    ensures shown { (file : List ℕ) → Shows file (S.given source.new) (S.ends source.new) → Shows file (S.given source.old) (S.ends source.old) }
    ensures short { (file : List ℕ) → Shows file (S.given source.new) (S.ends source.new) → IsErrOf result ReadFault.Ended → AreShort place spans.now file }
    // The read that failed is within what all spans are within.
    ensures cause { (most : ℕ) → All (λ span. span.start + span.size ≤ most) spans.now → IsErrOf result ReadFault.Failed → FailsIn place most (S.failed source.old) (S.failed source.new) }
    ensures steady { (IsErrOf result ReadFault.Failed → ⊥) → S.failed source.new ≡ S.failed source.old }
{
    let mut at = 0;
    for span in spans {
        match read_span(source, place, *span, at, buf) {
            Ok(()) => at += span.size as usize,
            Err(fault) => return Err(fault),
        }
    }
    Ok(())
}

// The room of earlier bytes, or a new one.
fn next_room(alloc: Global, rooms: &mut Vec<Vec<u8>>) -> Vec<u8> {
    match rooms.pop() {
        Some(room) => room,
        None => Vec::new(alloc),
    }
}

// Room for so many bytes. What stands in it doesn't matter.
fn room_for(alloc: Global, rooms: &mut Vec<Vec<u8>>, len: usize) -> Result<Vec<u8>, AllocError>
    ensures { IfOk result (λ room. length room.items ≡ len) }
{
    let mut room = next_room(alloc, rooms);
    room.resize(len, 0)?;
    Ok(room)
}

// A copy of some bytes.
fn copy_of(alloc: Global, rooms: &mut Vec<Vec<u8>>, bytes: &[u8]) -> Result<Vec<u8>, AllocError>
    ensures { IfOk result (λ copy. copy.items ≡ bytes.now) }
{
    let mut copy = next_room(alloc, rooms);
    copy.clear();
    copy.extend_from_slice(bytes)?;
    Ok(copy)
}

/// Keeps the rooms of parts for those of the next stripe.
pub(crate) fn keep_rooms(
    parts: Vec<Option<Vec<u8>>>,
    rooms: &mut Vec<Vec<u8>>,
) -> Result<(), AllocError> {
    for part in parts {
        if let Some(room) = part {
            rooms.push(room)?;
        }
    }
    Ok(())
}

// The part behind the table in front of it, none where a subchunk hasn't the checksum that the table has for it.
fn good_part(
    alloc: Global,
    crc: &Crc64,
    plan: &MendPlan,
    rooms: &mut Vec<Vec<u8>>,
    piece: &[u8],
) -> Result<Option<Vec<u8>>, AllocError>
    requires plan { IsMendPlan plan.now }
    requires size { length piece.now ≡ chunk_start plan.now.geometry + part_bytes plan.now.geometry }
    ensures found { IfOk result (IsFoundPart plan.now.geometry plan.now.lost piece.now) }
    ensures long { IfOk result (λ part. IfSome part (λ v. length v.items ≡ part_bytes plan.now.geometry)) }
{
    let start = chunk_place(plan.geometry) as usize;
    if !is_part(
        crc,
        plan.geometry,
        &plan.layers,
        &piece[..start],
        &piece[start..],
    ) {
        return Ok(None);
    }
    let part = copy_of(alloc, rooms, &piece[start..])?;
    Ok(Some(part))
}

/// A helper's part for a mend of a stripe, read from its share: none where a byte of it is missing or a checksum is another. It is read and
/// stands in rooms of earlier ones, where there are some.
pub(crate) fn read_part<S: SourceAt>(
    alloc: Global,
    crc: &Crc64,
    source: &mut S,
    plan: &MendPlan,
    rooms: &mut Vec<Vec<u8>>,
    stripe: u64,
) -> Result<Option<Vec<u8>>, BlockFault>
    requires plan { IsMendPlan plan.now }
    requires place { block_start plan.now.geometry stripe + block_length plan.now.geometry < 2 ^ 64 }
    // Whatever file the source shows, its part is found or missed as it is.
    ensures found { (file : List ℕ) → Shows file (S.given source.new) (S.ends source.new) → IfOk result (IsFoundPart plan.now.geometry plan.now.lost (piece_in plan.now.geometry plan.now.lost stripe file)) }
    ensures long { IfOk result (λ part. IfSome part (λ v. length v.items ≡ part_bytes plan.now.geometry)) }
    // It is a file that the source showed before.
    ensures shown { (file : List ℕ) → Shows file (S.given source.new) (S.ends source.new) → Shows file (S.given source.old) (S.ends source.old) }
    ensures given { IfOk result (λ part. IfSome part (λ v. GivesJust (S.given source.old) (block_ranges plan.now.geometry plan.now.lost stripe) (S.given source.new))) }
    ensures on { IfOk result (λ part. IfSome part (λ v. S.ends source.new ≡ S.ends source.old)) }
    ensures cause { IsErrOf result BlockFault.ReadFault → FailsIn (block_start plan.now.geometry stripe) (block_length plan.now.geometry) (S.failed source.old) (S.failed source.new) }
    ensures steady { (IsErrOf result BlockFault.ReadFault → ⊥) → S.failed source.new ≡ S.failed source.old }
{
    let len = chunk_place(plan.geometry) as usize + plan.geometry.part_len() as usize;
    let mut piece = room_for(alloc, rooms, len)?;
    let place = block_place(plan.geometry, stripe);
    match read_spans(source, place, &plan.spans, &mut piece) {
        Ok(()) => {}
        Err(ReadFault::Failed) => return Err(BlockFault::ReadFault),
        Err(ReadFault::Ended) => return Ok(None),
    }
    let part = good_part(alloc, crc, plan, rooms, &piece)?;
    match rooms.push(piece) {
        Ok(()) => Ok(part),
        Err(_) => Err(BlockFault::OutOfMemory),
    }
}
