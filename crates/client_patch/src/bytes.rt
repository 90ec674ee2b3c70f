//! The bytes of one stripe of a put or a write.
ghost use Rattle.std.specs.Prelude.{◌≡◌, ◌+◌, ◌-◌, ◌*◌, ◌/◌, ◌%◌, ◌^◌, ◌<◌, ◌≤◌, true, Some, length, map, take, drop, replicate, IfOk};
ghost use Rattle.std.specs.List.{range_with_len};
ghost use Rattle.clay_grid.specs.Shape.{stripe_length};
ghost use Rattle.store_map.specs.Content.{content_bytes, content_length};
ghost use Rattle.store_core.specs.Note.{note_of};
ghost use Rattle.store_core.specs.Content.{written_by, lay_over};
ghost use Rattle.client_patch.specs.Kept.{kept_count, kept_from, old_in};
ghost use Rattle.client_patch.specs.Patches.{is_drawing};

use clay_grid::Geometry;
use std::alloc::{AllocError, Global};
use store_map::{Call, Content};

/// Where the bytes that a call writes begin in its object, and what they are.
pub(crate) fn bytes_of(call: &Call) -> (u32, &Content)
    requires { is_drawing call.now ≡ true }
    ensures offset { result.0 ≡ (note_of call.now).offset }
    ensures length { content_length result.1.now ≡ (note_of call.now).length }
    ensures begins { result.0 ≡ (written_by (Some call.now)).0 }
    ensures bytes { content_bytes result.1.now ≡ (written_by (Some call.now)).1 }
{
    match call {
        Call::Put { content, .. } => (0, content),
        Call::Write {
            offset,
            content,
            ..
        } => (*offset, content),
        _ => unreachable!(),
    }
}

/// The bytes of an object, from `start` up to `end`, that a write writes, and the object's size at its
/// look.
#[derive(Clone, Copy)]
pub(crate) struct Span {
    pub(crate) size: u64,
    pub(crate) start: u64,
    pub(crate) end: u64,
}

// How many old bytes a write keeps of a stripe.
fn kept_count(geometry: Geometry, span: Span, stripe: u32) -> usize
    ensures { result ≡ kept_count geometry span.size span.start span.end stripe }
{
    let long = u64::from(geometry.stripe_len());
    let first = u64::from(stripe) * long;
    if first < span.start.min(span.size) || span.end < (first + long).min(span.size) {
        span.size.saturating_sub(first).min(long) as usize
    } else {
        0
    }
}

// Where they begin among all that it keeps: at most two stripes keep some, the first and the last.
fn kept_from(geometry: Geometry, span: Span, stripe: u32) -> usize
    requires { span.start < 2 ^ 32 }
    ensures { result ≡ kept_from geometry span.size span.start span.end stripe }
{
    let first = (span.start / u64::from(geometry.stripe_len())) as u32;
    if stripe == first {
        0
    } else {
        kept_count(geometry, span, first)
    }
}

// The old bytes of a stripe, filled up with zeros.
fn old_bytes(
    alloc: Global,
    geometry: Geometry,
    span: Span,
    kept: &[u8],
    stripe: u32,
) -> Result<Vec<u8>, AllocError>
    requires { span.start < 2 ^ 32 }
    ensures bytes { IfOk result (λ bytes. bytes.items ≡ old_in geometry span.size span.start span.end kept.now stripe) }
    ensures length { IfOk result (λ bytes. length bytes.items ≡ stripe_length geometry) }
{
    let long = geometry.stripe_len() as usize;
    let from = kept_from(geometry, span, stripe).min(kept.len());
    let count = kept_count(geometry, span, stripe).min(kept.len() - from);
    let mut bytes = Vec::with_capacity(alloc, long)?;
    bytes.extend_from_slice(&kept[from..from + count])?;
    bytes.resize(long, 0)?;
    Ok(bytes)
}

/// The bytes of a new stripe: those of a content that begins at an offset of its object, laid over the
/// old ones.
pub(crate) fn stripe_bytes(
    alloc: Global,
    geometry: Geometry,
    size: u64,
    offset: u32,
    content: &Content,
    kept: &[u8],
    stripe: u32,
) -> Result<Vec<u8>, AllocError>
    ensures bytes { IfOk result (λ bytes. bytes.items ≡ lay_over geometry stripe
        (old_in geometry size offset (offset + content_length content.now) kept.now stripe) offset (content_bytes content.now)) }
    ensures length { IfOk result (λ bytes. length bytes.items ≡ stripe_length geometry) }
{
    let start = u64::from(offset);
    let end = start + u64::from(content.length());
    let span = Span { size, start, end };
    let mut bytes = old_bytes(alloc, geometry, span, kept, stripe)?;
    lay(geometry, stripe, start, content, &mut bytes);
    Ok(bytes)
}

// A content that begins at an offset of its object is laid over a stripe.
fn lay(geometry: Geometry, stripe: u32, offset: u64, content: &Content, bytes: &mut [u8])
    requires whole { length bytes.old ≡ stripe_length geometry }
    requires fits { offset < 2 ^ 32 }
    ensures laid { bytes.new ≡ lay_over geometry stripe bytes.old offset (content_bytes content.now) }
    ensures length { length bytes.new ≡ stripe_length geometry }
{
    let long = u64::from(geometry.stripe_len());
    let first = u64::from(stripe) * long;
    let start = first.max(offset);
    let end = (first + long).min(offset + u64::from(content.length()));
    if start < end {
        let from = (start - first) as usize;
        let to = (end - first) as usize;
        copy_piece(content, (start - offset) as usize, &mut bytes[from..to]);
    }
}

// As many bytes of a content as there is place for, behind the first ones.
fn copy_piece(content: &Content, skipped: usize, piece: &mut [u8])
    requires within { skipped + length piece.old ≤ content_length content.now }
    requires fits { skipped < 2 ^ 32 }
    ensures bytes { piece.new ≡ take (length piece.old) (drop skipped (content_bytes content.now)) }
    ensures length { length piece.new ≡ length piece.old }
{
    match content {
        Content::Hex(bytes) => {
            piece.copy_from_slice(&bytes.as_slice()[skipped..skipped + piece.len()]);
        }
        Content::Fill { byte, .. } => repeat(piece, *byte),
        Content::Ramp { first, .. } => count_up(piece, *first, skipped),
    }
}

fn repeat(piece: &mut [u8], value: u8)
    ensures { piece.new ≡ replicate (length piece.old) value }
{
    for byte in piece.iter_mut() {
        *byte = value;
    }
}

// After so many bytes a ramp's come again.
const PERIOD: usize = 256;

// The bytes of a ramp from a byte on.
fn count_from(piece: &mut [u8], first: u8)
    ensures { piece.new ≡ map (λ i. (first + i) % 256) (range_with_len 0 (length piece.old)) }
{
    let mut next = first;
    for byte in piece.iter_mut() {
        *byte = next;
        next = next.wrapping_add(1);
    }
}

// The bytes of a ramp, behind the first ones: copies of what is counted once.
fn copy_periods(piece: &mut [u8], first: u8, skipped: usize)
    requires { skipped < 2 ^ 32 }
    ensures { piece.new ≡ map (λ i. (first + i) % 256) (range_with_len skipped (length piece.old)) }
{
    let mut period = [0u8; PERIOD];
    count_from(&mut period, first.wrapping_add((skipped % PERIOD) as u8));
    for block in 0..piece.len().div_ceil(PERIOD) {
        let start = block * PERIOD;
        let len = PERIOD.min(piece.len() - start);
        piece[start..start + len].copy_from_slice(&period[..len]);
    }
}

// The bytes of a ramp, behind the first ones. A short piece is counted: its bytes don't come again.
fn count_up(piece: &mut [u8], first: u8, skipped: usize)
    requires { skipped < 2 ^ 32 }
    ensures { piece.new ≡ map (λ i. (first + i) % 256) (range_with_len skipped (length piece.old)) }
{
    if piece.len() <= PERIOD {
        count_from(piece, first.wrapping_add((skipped % PERIOD) as u8));
    } else {
        copy_periods(piece, first, skipped);
    }
}
