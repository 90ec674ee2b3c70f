//! The missing chunks, from the others, each written to its place.
ghost use Rattle.std.specs.Prelude.{◌≡◌, ℕ, ◌*◌, ◌<◌, length, IfOk, OnOk, OnErr, slice_index_or, true, false, cond, Some, None};
ghost use Rattle.clay_grid.specs.Shape.{node_count, layer_count, chunk_length};
ghost use Rattle.clay_grid.specs.Score.{count_below};
ghost use Rattle.clay_model.specs.Erased.{erased_below};
ghost use Rattle.lane_repair.specs.Views.{pieces_of, HasRoom as HasViewRoom};
ghost use Rattle.clay_aloof.specs.Shape.{all_chunks, grid_of, node_of};
ghost use Rattle.clay_aloof.specs.Known.{node_bytes, shown_bytes, IsKnown};
ghost use Rattle.clay_aloof.specs.Solved.{HoldsSubchunks};
ghost use Rattle.clay_aloof.specs.Recovered.{is_gone, is_gone_node, AreFew, IsRecovered};
ghost use Rattle.aloof_recovery.specs.Recoveries.{IsMissingPlan, AreChunkTables, starts_left, AreChunks, IsRecovery, others_in, others_around, StandAround, told_by, AreSolvedBy, IsPut};

use clay_aloof::{
    AloofGeometry, Known, Plan, Source, Tables, chunk_of, chunks_of_nodes, couple_chunk, numbers,
    solved_values, whole_plan,
};
use clay_kernels::zeros;
use lane_repair::ChunkView;
use std::alloc::{AllocError, Global};

// Whether the chunk of a node is missing. A virtual node has none.
fn is_missing(g: AloofGeometry, missing: &[bool], node: u32) -> bool
    requires count { length missing.now ≡ all_chunks g }
    requires node { node < node_count (grid_of g) }
    ensures { result ≡ is_gone_node g missing.now node }
{
    match chunk_of(g, node) {
        Some(chunk) => missing[chunk as usize],
        None => false,
    }
}

// For each node, whether its chunk is missing.
fn missing_nodes(alloc: Global, g: AloofGeometry, missing: &[bool]) -> Result<Vec<bool>, AllocError>
    requires { length missing.now ≡ all_chunks g }
    ensures len { IfOk result (λ v. length v.items ≡ node_count (grid_of g)) }
    ensures value { IfOk result (λ v. (i : ℕ) → i < node_count (grid_of g) →
        slice_index_or v.items i false ≡ is_gone_node g missing.now i) }
    ensures count { IfOk result (λ v. length (erased_below v.items (node_count (grid_of g))) ≡ count_below (all_chunks g) (is_gone missing.now)) }
{
    let grid = g.grid();
    let mut nodes = Vec::new(alloc);
    for node in 0..grid.nodes() {
        nodes.push(is_missing(g, missing, node))?;
    }
    Ok(nodes)
}

// The plan of the missing chunks' nodes.
fn missing_plan(alloc: Global, g: AloofGeometry, missing: &[bool]) -> Result<Plan, AllocError>
    requires { AreFew g missing.now }
    ensures { IfOk result (IsMissingPlan g missing.now) }
{
    let erased = missing_nodes(alloc, g, missing)?;
    let plan = whole_plan(alloc, g, erased)?;
    Ok(plan)
}

// For each node its chunk, and each layer at its own place.
fn chunk_tables(alloc: Global, g: AloofGeometry) -> Result<Tables, AllocError>
    ensures { IfOk result (AreChunkTables g) }
{
    let grid = g.grid();
    let chunks = chunks_of_nodes(alloc, g)?;
    let places = numbers(alloc, grid.alpha())?;
    let zeros = zeros(alloc, grid.w() as usize)?;
    Ok(Tables {
        chunks,
        places,
        zeros,
    })
}

// Where a chunk that isn't missing begins.
fn chunk_start(gone: bool, c: u32, len: u32) -> Option<usize>
    ensures { result ≡ cond gone None (Some (c * len)) }
{
    if gone {
        return None;
    }
    Some(c as usize * len as usize)
}

// Where each chunk that isn't missing begins.
fn chunk_starts(
    alloc: Global,
    g: AloofGeometry,
    missing: &[bool],
) -> Result<Vec<Option<usize>>, AllocError>
    requires { length missing.now ≡ all_chunks g }
    ensures { IfOk result (λ starts. starts.items ≡ starts_left g missing.now (all_chunks g)) }
{
    let len = g.chunk_len();
    let mut starts = Vec::with_capacity(alloc, g.n() as usize)?;
    for c in 0..g.n() {
        starts.push(chunk_start(missing[c as usize], c, len))?;
    }
    Ok(starts)
}

// What the chunks that a view shows tell of the nodes.
fn known_chunks<'a>(g: AloofGeometry, view: ChunkView<'a>, tables: &'a Tables) -> Known<'a>
    requires chunks { AreChunks g (pieces_of view) }
    requires room { HasViewRoom view }
    requires tables { AreChunkTables g tables.now }
    ensures known { IsKnown (grid_of g) result }
    ensures bytes { node_bytes (grid_of g) result ≡ shown_bytes (grid_of g) (pieces_of view.entry) tables.now }
{
    Known {
        source: Source::Shown(view),
        tables,
    }
}

/// The missing ones of all chunks, which stand one behind another.
#[derive(Clone, Copy)]
pub(crate) struct Recovery<'a> {
    pub(crate) g: AloofGeometry,
    pub(crate) missing: &'a [bool],
    /// Where each chunk that isn't missing begins.
    pub(crate) starts: &'a [Option<usize>],
    /// The plan of the missing chunks' nodes.
    pub(crate) plan: &'a Plan,
    pub(crate) tables: &'a Tables,
}

impl<'a> Recovery<'a> {
    // Whether a chunk is missing.
    fn is_gone(&self, c: u32) -> bool
        requires { c < length self.now.missing.now }
        ensures { result ≡ is_gone self.now.missing.now c }
    {
        self.missing[c as usize]
    }

    // The uncoupled values of the missing chunks' nodes in all layers.
    fn solve(&self, alloc: Global, chunks: &[u8]) -> Result<Vec<u8>, AllocError>
        requires recovery { IsRecovery self.now }
        requires chunks_len { length chunks.now ≡ all_chunks self.now.g * chunk_length (grid_of self.now.g) }
        ensures { IfOk result (λ v. AreSolvedBy self.now (others_in self.now chunks.now) v.items) }
    {
        let view = ChunkView::Laid {
            bytes: chunks,
            starts: self.starts,
            len: self.g.chunk_len() as usize,
        };
        let known = known_chunks(self.g, view, self.tables);
        let grid = self.g.grid();
        solved_values(alloc, grid, self.plan, &known)
    }

    // Writes a missing chunk, which stands between these.
    fn couple(&self, solved: &[u8], c: u32, before: &[u8], chunk: &mut [u8], after: &[u8])
        requires recovery { IsRecovery self.now }
        requires chunks { AreChunks self.now.g (others_around self.now before.now after.now) }
        requires room { StandAround self.now before.now after.now }
        requires solved { AreSolvedBy self.now (others_around self.now before.now after.now) solved.now }
        requires number { c < all_chunks self.now.g }
        requires missing { is_gone self.now.missing.now c ≡ true }
        requires chunk_len { length chunk.old ≡ chunk_length (grid_of self.now.g) }
        ensures { HoldsSubchunks (grid_of self.now.g) self.now.plan.now (told_by self.now (others_around self.now before.now after.now))
            (node_of self.now.g c) (layer_count (grid_of self.now.g)) chunk.new }
    {
        let view = ChunkView::Around {
            before,
            after,
            starts: self.starts,
            len: self.g.chunk_len() as usize,
        };
        let known = known_chunks(self.g, view, self.tables);
        let grid = self.g.grid();
        let node = self.g.node_of_chunk(c);
        couple_chunk(grid, self.plan, &known, solved, node, chunk);
    }

    // Writes a chunk to its place among all, if it is missing.
    fn put(&self, solved: &[u8], c: u32, chunks: &mut [u8])
        requires recovery { IsRecovery self.now }
        requires chunks_len { length chunks.old ≡ all_chunks self.now.g * chunk_length (grid_of self.now.g) }
        requires solved { AreSolvedBy self.now (others_in self.now chunks.old) solved.now }
        requires number { c < all_chunks self.now.g }
        ensures { IsPut self.now.g self.now.missing.now c chunks.old chunks.new }
    {
        if !self.is_gone(c) {
            return;
        }
        let len = self.g.chunk_len() as usize;
        let (before, rest) = chunks.split_at_mut(c as usize * len);
        let (chunk, after) = rest.split_at_mut(len);
        self.couple(solved, c, before, chunk, after);
    }

    // Writes the missing chunks to their places.
    fn put_all(&self, solved: &[u8], chunks: &mut [u8])
        requires recovery { IsRecovery self.now }
        requires chunks_len { length chunks.old ≡ all_chunks self.now.g * chunk_length (grid_of self.now.g) }
        requires solved { AreSolvedBy self.now (others_in self.now chunks.old) solved.now }
        ensures { IsRecovered self.now.g self.now.missing.now chunks.old chunks.new }
    {
        for c in 0..self.g.n() {
            self.put(solved, c, chunks);
        }
    }

    // Writes the missing chunks, solved from the others, to their places.
    fn recover(&self, alloc: Global, chunks: &mut [u8]) -> Result<(), AllocError>
        requires recovery { IsRecovery self.now }
        requires chunks_len { length chunks.old ≡ all_chunks self.now.g * chunk_length (grid_of self.now.g) }
        ensures recovered { OnOk result (IsRecovered self.now.g self.now.missing.now chunks.old chunks.new) }
        ensures kept { OnErr result (chunks.new ≡ chunks.old) }
    {
        let solved = self.solve(alloc, chunks)?;
        self.put_all(&solved, chunks);
        Ok(())
    }
}

// Writes the missing chunks to their places by the plan of their nodes.
fn recover_by(
    alloc: Global,
    g: AloofGeometry,
    missing: &[bool],
    plan: &Plan,
    chunks: &mut [u8],
) -> Result<(), AllocError>
    requires missing { length missing.now ≡ all_chunks g }
    requires plan { IsMissingPlan g missing.now plan.now }
    requires chunks { length chunks.old ≡ all_chunks g * chunk_length (grid_of g) }
    ensures recovered { OnOk result (IsRecovered g missing.now chunks.old chunks.new) }
    ensures kept { OnErr result (chunks.new ≡ chunks.old) }
{
    let starts = chunk_starts(alloc, g, missing)?;
    let tables = chunk_tables(alloc, g)?;
    let recovery = Recovery {
        g,
        missing,
        starts: &starts,
        plan,
        tables: &tables,
    };
    recovery.recover(alloc, chunks)
}

/// Writes the missing chunks of the codeword that has the others, where one does, to their places among all chunks, which stand one behind
/// another. `missing` has an entry for each chunk.
///
/// What stood in the places of the missing ones doesn't matter. The others are read where they stand, and they stay; all stay as they are
/// where memory is wanting. Where no codeword has the others, some bytes are written.
pub fn recover_into(
    alloc: Global,
    g: AloofGeometry,
    missing: &[bool],
    chunks: &mut [u8],
) -> Result<(), AllocError>
    requires missing { AreFew g missing.now }
    requires chunks { length chunks.old ≡ all_chunks g * chunk_length (grid_of g) }
    ensures recovered { OnOk result (IsRecovered g missing.now chunks.old chunks.new) }
    ensures kept { OnErr result (chunks.new ≡ chunks.old) }
{
    let plan = missing_plan(alloc, g, missing)?;
    recover_by(alloc, g, missing, &plan, chunks)
}
