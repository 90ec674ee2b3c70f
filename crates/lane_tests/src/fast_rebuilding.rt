//! Chunks rebuilt by the fast coder from parts of the others.
ghost use Rattle.std.specs.Prelude.{◌≡◌, ◌<◌, length, IfOk, IfSome, is_none};
ghost use Rattle.clay_grid.specs.Shape.{chunk_count};
ghost use Rattle.clay_model.specs.RepairParts.{AreParts};

use crate::expect_bytes;
use crate::fast_encoding::{geometries, word_of};
use clay_grid::Geometry;
use clay_lanes::LaneCoder;
use clay_model::Coder;
use std::alloc::{AllocError, Global};
use std::process::Abort;
use std::thread::Threads;

// The subchunks of a chunk at some layers, one after another, `len` bytes together.
fn part_at(
    rt: &impl Abort,
    alloc: Global,
    g: Geometry,
    chunk: &[u8],
    layers: &[u32],
    len: usize,
) -> Result<Vec<u8>, AllocError>
    ensures { IfOk result (λ v. length v.items ≡ len) }
{
    let w = g.w() as usize;
    let mut part = Vec::new(alloc);
    for z in layers.iter() {
        let start = *z as usize * w;
        assert!(rt; start + w <= chunk.len());
        part.extend_from_slice(&chunk[start..start + w])?;
    }
    assert!(rt; part.len() == len);
    Ok(part)
}

fn unless_lost(part: Vec<u8>, lost: bool) -> Option<Vec<u8>>
    ensures none { is_none result ≡ lost }
    ensures len { IfSome result (λ v. length v.items ≡ length part.items) }
{
    if lost {
        return None;
    }
    Some(part)
}

// What a repair of a lost chunk reads of the others.
fn parts_of(
    rt: &impl Abort,
    alloc: Global,
    g: Geometry,
    word: &[Vec<u8>],
    lost: u32,
) -> Result<Vec<Option<Vec<u8>>>, AllocError>
    requires { lost < chunk_count g }
    ensures { IfOk result (λ parts. AreParts g lost parts.items) }
{
    let layers = g.repair_layers(alloc, lost)?;
    let len = g.stride(0) as usize * g.w() as usize;
    assert!(rt; word.len() == g.n() as usize);
    let mut parts = Vec::new(alloc);
    for c in 0..g.n() {
        let part = part_at(rt, alloc, g, &word[c as usize], &layers, len)?;
        parts.push(unless_lost(part, c == lost))?;
    }
    Ok(parts)
}

// Rebuilds a chunk from the parts of the others.
pub fn check_rebuild<R: Abort + Threads + Sync, C: Coder>(
    rt: &R,
    alloc: Global,
    coder: &C,
    g: Geometry,
    word: &[Vec<u8>],
    lost: u32,
)
    requires { lost < chunk_count g }
{
    let parts = parts_of(rt, alloc, g, word, lost).expect(rt, "parts");
    let chunk = coder
        .rebuild(rt, alloc, g, lost, &parts)
        .expect(rt, "rebuild");
    assert!(rt; word.len() == g.n() as usize);
    expect_bytes(rt, &chunk, &word[lost as usize]);
}

/// Rebuilds each chunk by the fast coder.
pub fn check_rebuilds<R: Abort + Threads + Sync>(rt: &R, alloc: Global, g: Geometry) {
    let word = word_of(rt, alloc, g);
    for lost in 0..g.n() {
        check_rebuild(rt, alloc, &LaneCoder, g, &word, lost);
    }
}

#[test]
fn codes_rebuild_alike(rt: HostRuntime) {
    for g in geometries(&rt, rt.alloc()).iter() {
        check_rebuilds(&rt, rt.alloc(), *g);
    }
}
