//! The erased nodes' uncoupled values, by runs of layers of one score, of which none waits for another.
ghost use Rattle.std.specs.Prelude.{◌≡◌, ◌≢◌, ℕ, ◌+◌, ◌*◌, ◌<◌, ◌≤◌, length, slice_index_or, IfOk};
ghost use Rattle.clay_grid.specs.Shape.{node_count, layer_count};
ghost use Rattle.clay_grid.specs.Score.{IsByScore};
ghost use Rattle.clay_lanes.specs.Recovered.{IsLanePlan, HoldsLayersOf, AreNextOf, AreRowsOfLayersFor};
ghost use Rattle.clay_par.specs.Scores.{IsRun, HoldsFirst, IsRowByte, IsShare};

use clay_grid::Geometry;
use clay_kernels::zeros;
use clay_lanes::{DecodePlan, solve_some_layers};
use rayon::current_num_threads;
use rayon::prelude::*;
use std::alloc::{AllocError, Global};
use std::thread::Threads;

/// How many bytes of the nodes are worth a thread.
const SHARE: usize = 1 << 15;

// How many layers a thread takes of so many.
fn share_count<R: Threads>(rt: &R, g: Geometry, len: usize, count: usize) -> usize
    requires some { 0 < count }
    requires few { count ≤ layer_count g }
    requires short { len ≤ 4096 }
    ensures some { 0 < result }
    ensures few { result ≤ count }
{
    let bytes = count * (g.nodes() as usize * len);
    let threads = current_num_threads(rt).min(bytes / SHARE).max(1);
    count.div_ceil(threads)
}

// Writes some of the rows of the layers, from a place on.
fn solve_share(
    g: Geometry,
    have: &[Option<Vec<u8>>],
    plan: &DecodePlan,
    at: usize,
    len: usize,
    solved: &[u8],
    layers: &[u32],
    start: usize,
    share: &mut [u8],
)
    requires plan { IsLanePlan g have.now plan.now }
    requires within { at + len ≤ g.width }
    requires short { len ≤ 4096 }
    requires some { 0 < length plan.now.points.items * len }
    requires solved_len { length solved.now ≡ layer_count g * (length plan.now.points.items * len) }
    requires next { AreNextOf g have.now plan.now at len layers.now solved.now }
    requires share { IsShare (length plan.now.points.items * len) layers.now start (length share.old) }
    ensures { (o : ℕ) → o < length share.old →
        IsRowByte g have.now plan.now at len layers.now (start + o) (slice_index_or share.new o 0) }
{
    let part = plan.points.len() * len;
    let first = start / part;
    let count = share.len() / part;
    let layers = &layers[first..first + count];
    solve_some_layers(g, have, plan, at, len, solved, layers, share);
}

// Writes the rows of some layers, in threads.
fn solve_rows<R: Threads + Sync>(
    rt: &R,
    g: Geometry,
    have: &[Option<Vec<u8>>],
    plan: &DecodePlan,
    at: usize,
    len: usize,
    solved: &[u8],
    layers: &[u32],
    rows: &mut [u8],
)
    requires plan { IsLanePlan g have.now plan.now }
    requires within { at + len ≤ g.width }
    requires short { len ≤ 4096 }
    requires some { 0 < length plan.now.points.items * len }
    requires solved_len { length solved.now ≡ layer_count g * (length plan.now.points.items * len) }
    requires layers { 0 < length layers.now }
    requires few { length layers.now ≤ layer_count g }
    requires next { AreNextOf g have.now plan.now at len layers.now solved.now }
    requires rows_len { length rows.old ≡ length layers.now * (length plan.now.points.items * len) }
    ensures { AreRowsOfLayersFor g have.now plan.now at len layers.now rows.new }
{
    let size = share_count(rt, g, len, layers.len()) * (plan.points.len() * len);
    par_chunks_mut_for_each(
        rt,
        rows,
        size,
        |start: usize, share: &mut [u8]|
            requires { IsLanePlan g have.now plan.now × (at + len ≤ g.width) × (len ≤ 4096) × (0 < length plan.now.points.items * len) × (length solved.now ≡ layer_count g * (length plan.now.points.items * len)) × AreNextOf g have.now plan.now at len layers.now solved.now × IsShare (length plan.now.points.items * len) layers.now start (length share.old) }
            ensures { (o : ℕ) → o < length share.old → IsRowByte g have.entry.now plan.entry.now at len layers.entry.now (start + o) (slice_index_or share.new o 0) }
        { solve_share(g, have, plan, at, len, solved, layers, start, share) },
    );
}

// Copies the rows of some layers, of so many bytes each, to the places of these layers among all.
fn place_rows(part: usize, layers: &[u32], rows: &[u8], solved: &mut [u8])
    requires rows_len { length rows.now ≡ length layers.now * part }
    requires inside { (i : ℕ) → i < length layers.now → slice_index_or layers.now i 0 * part + part ≤ length solved.old }
    requires different { (i j : ℕ) → i < j → j < length layers.now → slice_index_or layers.now i 0 ≢ slice_index_or layers.now j 0 }
    ensures placed { (i o : ℕ) → i < length layers.now → o < part →
        slice_index_or solved.new (slice_index_or layers.now i 0 * part + o) 0 ≡ slice_index_or rows.now (i * part + o) 0 }
    ensures kept { (z o : ℕ) → o < part → ((i : ℕ) → i < length layers.now → slice_index_or layers.now i 0 ≢ z) →
        slice_index_or solved.new (z * part + o) 0 ≡ slice_index_or solved.old (z * part + o) 0 }
{
    for (i, z) in layers.iter().enumerate() {
        let from = i * part;
        let to = *z as usize * part;
        solved[to..to + part].copy_from_slice(&rows[from..from + part]);
    }
}

// Solves the layers of a run, where those before it are solved.
fn solve_run<R: Threads + Sync>(
    rt: &R,
    alloc: Global,
    g: Geometry,
    have: &[Option<Vec<u8>>],
    plan: &DecodePlan,
    at: usize,
    len: usize,
    from: usize,
    count: usize,
    solved: &mut [u8],
) -> Result<(), AllocError>
    requires plan { IsLanePlan g have.now plan.now }
    requires within { at + len ≤ g.width }
    requires short { len ≤ 4096 }
    requires some { 0 < length plan.now.points.items * len }
    requires run { IsRun g plan.now from count }
    requires solved_len { length solved.old ≡ layer_count g * (length plan.now.points.items * len) }
    requires before { HoldsFirst g have.now plan.now at len from solved.old }
    ensures { IfOk result (λ _. HoldsFirst g have.now plan.now at len (from + count) solved.new) }
{
    let part = plan.points.len() * len;
    let layers = &plan.layers[from..from + count];
    let mut rows = zeros(alloc, count * part)?;
    solve_rows(rt, g, have, plan, at, len, solved, layers, &mut rows);
    place_rows(part, layers, &rows, solved);
    Ok(())
}

// How many layers have the score of the one at a place in the order, from there on.
fn run_len(g: Geometry, plan: &DecodePlan, from: usize) -> usize
    requires nodes { length plan.now.erased.items ≡ node_count g }
    requires order { IsByScore g plan.now.erased.items plan.now.layers.items }
    requires from { from < length plan.now.layers.items }
    ensures { IsRun g plan.now from result }
{
    let most = (plan.layers.len() - from).min(g.alpha() as usize);
    let score = g.score(&plan.erased, plan.layers[from]);
    let mut count = 1;
    while count < most && g.score(&plan.erased, plan.layers[from + count]) == score {
        count += 1;
    }
    count
}

/// Writes the uncoupled values of the erased nodes in the bytes from `at` on of each layer.
pub fn solve_by_scores<R: Threads + Sync>(
    rt: &R,
    alloc: Global,
    g: Geometry,
    have: &[Option<Vec<u8>>],
    plan: &DecodePlan,
    at: usize,
    len: usize,
    solved: &mut [u8],
) -> Result<(), AllocError>
    requires plan { IsLanePlan g have.now plan.now }
    requires within { at + len ≤ g.width }
    requires short { len ≤ 4096 }
    requires some { 0 < length plan.now.points.items * len }
    requires solved_len { length solved.old ≡ layer_count g * (length plan.now.points.items * len) }
    ensures { IfOk result (λ _. HoldsLayersOf g have.now plan.now at len solved.new) }
{
    let mut from = 0;
    while from < plan.layers.len() {
        let count = run_len(g, plan, from);
        solve_run(rt, alloc, g, have, plan, at, len, from, count, solved)?;
        from += count;
    }
    Ok(())
}
