//! Which bytes of a block a mend reads: its table and the subchunks of the repair layers, neighbours in one read.
ghost use Rattle.std.specs.Prelude.{◌≡◌, ℕ, ◌+◌, ◌*◌, ◌^◌, ◌≤◌, ◌<◌, [], ◌∷◌, ◌++◌, All, IfOk, OnOk};
ghost use Rattle.clay_grid.specs.Shape.{layer_count};
ghost use Rattle.clay_aloof.specs.Shape.{all_chunks, grid_of};
ghost use Rattle.clay_aloof.specs.Repair.{aloof_layers_of};
ghost use Rattle.share_format.specs.Blocks.{chunk_start, block_length};
ghost use Rattle.share_mends.specs.Places.{places_in};
ghost use Rattle.share_mends.specs.Spans.{ranges_at, AreSpans, IsMendPlan};

use clay_aloof::{AloofGeometry, aloof_layers};
use share_files::chunk_place;
use std::alloc::{AllocError, Global};

/// Bytes of a block in a row: where they begin in it, and how many there are.
#[derive(Clone, Copy)]
pub(crate) struct Span {
    pub start: u64,
    pub size: u64,
}

// The subchunk of a layer.
fn layer_span(geometry: AloofGeometry, layer: u32) -> Span
    requires { layer < layer_count (grid_of geometry) }
    ensures start { result.start ≡ chunk_start geometry + layer * geometry.width }
    ensures size { result.size ≡ geometry.width }
    ensures within { result.start + result.size ≤ block_length geometry }
    ensures bounded { result.start + result.size < 2 ^ 21 }
{
    let width = u64::from(geometry.w());
    Span {
        start: chunk_place(geometry) + u64::from(layer) * width,
        size: width,
    }
}

// Puts the last span so far behind others where the next one doesn't touch it, and says which is the last then: else both are one.
fn last_after(spans: &mut Vec<Span>, last: Span, next: Span) -> Result<Span, AllocError>
    requires last { last.start + last.size < 2 ^ 32 }
    requires next { next.start + next.size < 2 ^ 32 }
    ensures places { IfOk result (λ now. (place : ℕ) → places_in (ranges_at place (spans.new.items ++ now ∷ []))
        ≡ places_in (ranges_at place ((spans.old.items ++ last ∷ []) ++ next ∷ []))) }
    ensures end { IfOk result (λ now. now.start + now.size ≡ next.start + next.size) }
    ensures within { (most : ℕ) → last.start + last.size ≤ most → All (λ span. span.start + span.size ≤ most) spans.old.items
        → OnOk result (All (λ span. span.start + span.size ≤ most) spans.new.items) }
{
    if last.start + last.size == next.start {
        return Ok(Span {
            start: last.start,
            size: last.size + next.size,
        });
    }
    spans.push(last)?;
    Ok(next)
}

/// The reads of a block by which a mend of the lost share has what it needs. The layers are those of the repair.
pub(crate) fn block_spans(
    alloc: Global,
    geometry: AloofGeometry,
    lost: u32,
    layers: &[u32],
) -> Result<Vec<Span>, AllocError>
    requires lost { lost < all_chunks geometry }
    requires layers { layers.now ≡ aloof_layers_of geometry lost }
    ensures { IfOk result (λ spans. AreSpans geometry lost spans.items) }
{
    let mut spans = Vec::new(alloc);
    let mut last = Span {
        start: 0,
        size: chunk_place(geometry),
    };
    for layer in layers {
        let next = layer_span(geometry, *layer);
        last = last_after(&mut spans, last, next)?;
    }
    spans.push(last)?;
    Ok(spans)
}

/// What a mend of a share takes of each stripe: the layers of the repair, and the reads of a block that have their subchunks.
#[derive(Drop)]
pub(crate) struct MendPlan {
    pub geometry: AloofGeometry,
    pub lost: u32,
    pub layers: Vec<u32>,
    pub spans: Vec<Span>,
}

/// The plan of a mend of the share of this number.
pub(crate) fn make_plan(
    alloc: Global,
    geometry: AloofGeometry,
    lost: u32,
) -> Result<MendPlan, AllocError>
    requires { lost < all_chunks geometry }
    ensures plan { IfOk result IsMendPlan }
    ensures geometry { IfOk result (λ plan. plan.geometry ≡ geometry) }
    ensures lost { IfOk result (λ plan. plan.lost ≡ lost) }
{
    // the geometry's limits are known once it is read
    let _chunks = geometry.n();
    let layers = aloof_layers(alloc, geometry, lost)?;
    let spans = block_spans(alloc, geometry, lost, &layers)?;
    Ok(MendPlan {
        geometry,
        lost,
        layers,
        spans,
    })
}
