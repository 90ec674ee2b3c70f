//! The lost chunk, from parts of the helpers' chunks.
ghost use Rattle.std.specs.Prelude.{◌≡◌, ◌≢◌, ℕ, ◌+◌, ◌*◌, ◌/◌, ◌%◌, ◌^◌, ◌<◌, ◌≤◌, ◌↔◌, ◌||◌, ◌&&◌, List, length, IfOk, OnOk, OnErr, IfSome, IsTrue, MatchOption, slice_index, slice_index_or, slice_range, true, false, eqb, is_none, is_some, count_by, None, Some, filter, nat_eq};
ghost use Rattle.clay_field.specs.Coupling.{gamma_inverse};
ghost use Rattle.clay_grid.specs.Shape.{Shape, row_count, column_count, node_count, layer_count, chunk_length};
ghost use Rattle.clay_grid.specs.Layers.{layer_of};
ghost use Rattle.clay_grid.specs.Score.{count_below};
ghost use Rattle.clay_aloof.specs.Shape.{AloofShape, all_chunks, rows_of, grid_of, node_of, is_virtual_node, chunk_at};
ghost use Rattle.clay_aloof.specs.Repair.{aloof_layers_of, HelpersFit, AreParts, IsRebuilt};
ghost use Rattle.clay_aloof.specs.Pieces.{PiecesFit, ArePieces, HaveBytes, IsRebuiltFrom};
ghost use Rattle.lane_repair.specs.Views.{pieces_of, HasRoom as HasViewRoom};
ghost use Rattle.clay_aloof.specs.Known.{node_bytes, IsKnown};
ghost use Rattle.clay_aloof.specs.Solved.{IsPlan, IsIn, AreSolved};
ghost use Rattle.clay_aloof.specs.Ordered.{AreKept};
ghost use Rattle.clay_aloof.specs.Rebuilt.{is_missing_node, is_unknown, IsBetween, IsEntry, IsGap, IsRepairPlan, ArePartTables, ArePut, IsLostPiece, HoldsLost, IsLostChunk, HasColumn, kept_layers};

use crate::aloof_geometry::AloofGeometry;
use crate::known::{Known, Source, Tables, piece};
use crate::layer_solving::{Plan, partner_of, places_of, plan_of, solved_piece, solved_values};
use clay_grid::Geometry;
use clay_kernels::{Products, cross, halves, zeros};
use lane_repair::ChunkView;
use std::alloc::{AllocError, Global};

/// The layers that a repair of a chunk reads from each helper, rising: those whose digit in the column of the chunk's node is the node's
/// row.
pub fn aloof_layers(alloc: Global, g: AloofGeometry, lost: u32) -> Result<Vec<u32>, AllocError>
    requires { lost < all_chunks g }
    ensures { IfOk result (λ v. v.items ≡ aloof_layers_of g lost) }
{
    let grid = g.grid();
    let node = g.node_of_chunk(lost);
    let (x, y) = grid.place(node);
    let mut layers = Vec::new(alloc);
    for z in 0..grid.alpha() {
        if grid.digit(z, y) == x {
            layers.push(z)?;
        }
    }
    Ok(layers)
}

// How many parts are there.
fn helper_count(parts: &[Option<Vec<u8>>]) -> usize
    requires { length parts.now < 2 ^ 32 }
    ensures { result ≡ count_below (length parts.now) (λ c. is_some (slice_index_or parts.now c None)) }
{
    let mut count = 0;
    for part in parts {
        if part.is_some() {
            count += 1;
        }
    }
    count
}

/// Whether these entries are those of helpers from whose parts a lost chunk is rebuilt: none for the lost chunk, `d` that are there, and
/// among them each other chunk of the lost one's column. It takes no memory.
pub fn helpers_fit(g: AloofGeometry, lost: u32, parts: &[Option<Vec<u8>>]) -> bool
    requires { lost < all_chunks g }
    ensures { IsTrue result ↔ HelpersFit g lost parts.now }
{
    if parts.len() != g.n() as usize {
        return false;
    }
    if parts[lost as usize].is_some() {
        return false;
    }
    if helper_count(parts) != g.d() as usize {
        return false;
    }
    column_is_there(g, lost, parts)
}

// Whether another chunk of the lost one's column isn't there.
fn is_gap(g: AloofGeometry, lost: u32, parts: &[Option<Vec<u8>>], c: u32) -> bool
    requires lost { lost < all_chunks g }
    requires count { length parts.now ≡ all_chunks g }
    requires chunk { c < all_chunks g }
    ensures { IsTrue result ↔ IsGap g lost parts.now c }
{
    let q = g.grid().q();
    let own = g.node_of_chunk(lost) / q;
    let column = g.node_of_chunk(c) / q;
    if c == lost {
        return false;
    }
    if column != own {
        return false;
    }
    parts[c as usize].is_none()
}

// Whether each other chunk of the lost one's column is there.
fn column_is_there(g: AloofGeometry, lost: u32, parts: &[Option<Vec<u8>>]) -> bool
    requires lost { lost < all_chunks g }
    requires count { length parts.now ≡ all_chunks g }
    ensures { IsTrue result ↔ HasColumn g lost parts.now (all_chunks g) }
{
    for c in 0..g.n() {
        if is_gap(g, lost, parts, c) {
            return false;
        }
    }
    true
}

/// The chunk of a node, or `None` for a virtual node.
pub fn chunk_of(g: AloofGeometry, node: u32) -> Option<u32>
    requires { node < node_count (grid_of g) }
    ensures { MatchOption result (IsBetween g node) (λ c. (c < all_chunks g) × (node_of g c ≡ node)) }
{
    let nu = g.grid().nu();
    if node < g.k() {
        Some(node)
    } else if node < g.k() + nu {
        None
    } else {
        Some(node - nu)
    }
}

// Whether the chunk of a node isn't there. That of a virtual node always is.
fn is_missing(g: AloofGeometry, parts: ChunkView<'_>, node: u32) -> bool
    requires count { length (pieces_of parts) ≡ all_chunks g }
    requires room { HasViewRoom parts }
    requires node { node < node_count (grid_of g) }
    ensures { result ≡ is_missing_node g (pieces_of parts.entry) node }
{
    match chunk_of(g, node) {
        Some(chunk) => parts.get(chunk as usize).is_none(),
        None => false,
    }
}

// Whether a node is solved: it stands in the lost node's column, or its chunk isn't there.
fn is_solved(g: AloofGeometry, lost: u32, parts: ChunkView<'_>, node: u32) -> bool
    requires lost { lost < all_chunks g }
    requires count { length (pieces_of parts) ≡ all_chunks g }
    requires room { HasViewRoom parts }
    requires node { node < node_count (grid_of g) }
    ensures { result ≡ is_unknown g lost (pieces_of parts.entry) node }
{
    let q = g.grid().q();
    let column = g.node_of_chunk(lost) / q;
    let missing = is_missing(g, parts, node);
    node / q == column || missing
}

// For each node, whether it is solved.
fn solved_nodes(
    alloc: Global,
    g: AloofGeometry,
    lost: u32,
    parts: ChunkView<'_>,
) -> Result<Vec<bool>, AllocError>
    requires lost { lost < all_chunks g }
    requires count { length (pieces_of parts) ≡ all_chunks g }
    requires room { HasViewRoom parts }
    ensures len { IfOk result (λ v. length v.items ≡ node_count (grid_of g)) }
    ensures value { IfOk result (λ v. (i : ℕ) → i < node_count (grid_of g) →
        slice_index_or v.items i false ≡ is_unknown g lost (pieces_of parts.entry) i) }
{
    let grid = g.grid();
    let mut nodes = Vec::new(alloc);
    for node in 0..grid.nodes() {
        nodes.push(is_solved(g, lost, parts, node))?;
    }
    Ok(nodes)
}

// Of layers by rising score those of which digit `y` is `x`, in their order.
fn ordered_layers(
    alloc: Global,
    g: Geometry,
    order: &[u32],
    x: u32,
    y: u32,
) -> Result<Vec<u32>, AllocError>
    requires column { y < column_count g }
    requires layers { (i : ℕ) → i < length order.now → slice_index order.now i < layer_count g }
    ensures { IfOk result (λ v. v.items ≡ kept_layers g x y order.now) }
{
    let mut layers = Vec::new(alloc);
    for z in order {
        if g.digit(*z, y) == x {
            layers.push(*z)?;
        }
    }
    Ok(layers)
}

// The layers that the helpers give, by rising score.
fn given_layers(
    alloc: Global,
    g: AloofGeometry,
    lost: u32,
    erased: &[bool],
) -> Result<Vec<u32>, AllocError>
    requires lost { lost < all_chunks g }
    requires nodes { length erased.now ≡ node_count (grid_of g) }
    ensures { IfOk result (λ v. AreKept g lost erased.now v.items) }
{
    let grid = g.grid();
    let (x, y) = grid.place(g.node_of_chunk(lost));
    // a layer's score is one more than the number of aloof nodes that are unpaired in it
    let order = grid.layers_by_score(alloc, erased)?;
    ordered_layers(alloc, grid, &order, x, y)
}

// The plan of a repair: the nodes of the lost node's column and the aloof nodes are solved, in the layers that the helpers give.
fn repair_plan(
    alloc: Global,
    g: AloofGeometry,
    lost: u32,
    parts: ChunkView<'_>,
) -> Result<Plan, AllocError>
    requires chunk { lost < all_chunks g }
    requires fit { PiecesFit g lost (pieces_of parts) }
    requires room { HasViewRoom parts }
    ensures { IfOk result (IsRepairPlan g lost (pieces_of parts.entry)) }
{
    let erased = solved_nodes(alloc, g, lost, parts)?;
    let layers = given_layers(alloc, g, lost, &erased)?;
    plan_of(alloc, g.grid(), erased, layers)
}

/// For each node the chunk that stands for it.
pub fn chunks_of_nodes(alloc: Global, g: AloofGeometry) -> Result<Vec<Option<u32>>, AllocError>
    ensures len { IfOk result (λ v. length v.items ≡ node_count (grid_of g)) }
    ensures value { IfOk result (λ v. (i : ℕ) → i < node_count (grid_of g) → IsEntry g i (slice_index_or v.items i None)) }
{
    let grid = g.grid();
    let mut chunks = Vec::new(alloc);
    for node in 0..grid.nodes() {
        chunks.push(chunk_of(g, node))?;
    }
    Ok(chunks)
}

// For each node its chunk, and the places of the layers that the helpers give.
fn part_tables(alloc: Global, g: AloofGeometry, lost: u32) -> Result<Tables, AllocError>
    requires { lost < all_chunks g }
    ensures { IfOk result (ArePartTables g lost) }
{
    let grid = g.grid();
    let layers = aloof_layers(alloc, g, lost)?;
    let places = places_of(alloc, grid, &layers)?;
    let chunks = chunks_of_nodes(alloc, g)?;
    let zeros = zeros(alloc, grid.w() as usize)?;
    Ok(Tables {
        chunks,
        places,
        zeros,
    })
}

// What the helpers' parts tell of the nodes.
fn known_parts<'a>(
    g: AloofGeometry,
    lost: u32,
    parts: ChunkView<'a>,
    tables: &'a Tables,
) -> Known<'a>
    requires parts { ArePieces g lost (pieces_of parts) }
    requires room { HasViewRoom parts }
    requires tables { ArePartTables g lost tables.now }
    ensures known { IsKnown (grid_of g) result }
    ensures put { ArePut g lost (pieces_of parts.entry) (all_chunks g) (node_bytes (grid_of g) result) }
{
    Known {
        source: Source::Shown(parts),
        tables,
    }
}

// The numbers of a part are bytes. It does nothing when it runs.
fn keeps_bytes(part: &[u8])
    ensures { (i : ℕ) → slice_index part.now i < 2 ^ 8 }
{}

// The same of a part that is there.
fn keeps_part(parts: ChunkView<'_>, c: usize)
    requires room { HasViewRoom parts }
    requires number { c < length (pieces_of parts) }
    ensures { (piece : List ℕ) → slice_index_or (pieces_of parts.entry) c None ≡ Some piece → (i : ℕ) → slice_index piece i < 2 ^ 8 }
{
    if let Some(bytes) = parts.get(c) {
        keeps_bytes(bytes);
    }
}

// The same of all parts.
fn are_bytes(g: AloofGeometry, parts: ChunkView<'_>)
    requires room { HasViewRoom parts }
    requires count { length (pieces_of parts) ≡ all_chunks g }
    ensures { HaveBytes (pieces_of parts.entry) }
{
    for c in 0..g.n() as usize {
        keeps_part(parts, c);
    }
}

// Writes the lost chunk's subchunk `z`.
fn lost_piece(
    g: AloofGeometry,
    lost: u32,
    parts: ChunkView<'_>,
    plan: &Plan,
    halves: &Products,
    known: &Known<'_>,
    solved: &[u8],
    z: u32,
    out: &mut [u8],
)
    requires parts { ArePieces g lost (pieces_of parts) }
    requires halves { halves.now ≡ gamma_inverse }
    requires plan { IsRepairPlan g lost (pieces_of parts) plan.now }
    requires known { IsKnown (grid_of g) known.now }
    requires put { ArePut g lost (pieces_of parts) (all_chunks g) (node_bytes (grid_of g) known.now) }
    requires solved { AreSolved (grid_of g) plan.now (node_bytes (grid_of g) known.now) solved.now }
    requires layer { z < layer_count (grid_of g) }
    requires out_len { length out.old ≡ g.width }
    ensures { IsLostPiece g lost (pieces_of parts.entry) z out.new }
{
    let grid = g.grid();
    let node = g.node_of_chunk(lost);
    // the vertex of the lost node's column that is coupled with the subchunk stands in a layer that is solved
    let partner = partner_of(grid, plan, node, z);
    let own = solved_piece(grid, plan, known, solved, partner.node, partner.layer);
    if partner.node == node {
        out.copy_from_slice(own);
    } else {
        let coupled = piece(grid, known, partner.node, partner.layer);
        cross(halves, own, coupled, out);
    }
}

// Writes the lost chunk.
fn write_lost(
    g: AloofGeometry,
    lost: u32,
    parts: ChunkView<'_>,
    plan: &Plan,
    known: &Known<'_>,
    solved: &[u8],
    chunk: &mut [u8],
)
    requires parts { ArePieces g lost (pieces_of parts) }
    requires plan { IsRepairPlan g lost (pieces_of parts) plan.now }
    requires known { IsKnown (grid_of g) known.now }
    requires put { ArePut g lost (pieces_of parts) (all_chunks g) (node_bytes (grid_of g) known.now) }
    requires solved { AreSolved (grid_of g) plan.now (node_bytes (grid_of g) known.now) solved.now }
    requires chunk_len { length chunk.old ≡ chunk_length (grid_of g) }
    ensures { IsLostChunk g lost (pieces_of parts.entry) chunk.new }
{
    let grid = g.grid();
    let w = grid.w() as usize;
    let halves = halves();
    for z in 0..grid.alpha() {
        let at = z as usize * w;
        let out = &mut chunk[at..at + w];
        lost_piece(g, lost, parts, plan, &halves, known, solved, z, out);
    }
}

// Writes the lost chunk by its plan.
fn rebuild_by(
    alloc: Global,
    g: AloofGeometry,
    lost: u32,
    parts: ChunkView<'_>,
    plan: &Plan,
    chunk: &mut [u8],
) -> Result<(), AllocError>
    requires parts { ArePieces g lost (pieces_of parts) }
    requires room { HasViewRoom parts }
    requires plan { IsRepairPlan g lost (pieces_of parts) plan.now }
    requires chunk { length chunk.old ≡ chunk_length (grid_of g) }
    ensures rebuilt { OnOk result (IsRebuiltFrom g lost (pieces_of parts.entry) chunk.new) }
    ensures kept { OnErr result (chunk.new ≡ chunk.old) }
{
    are_bytes(g, parts);
    let tables = part_tables(alloc, g, lost)?;
    let known = known_parts(g, lost, parts, &tables);
    let solved = solved_values(alloc, g.grid(), plan, &known)?;
    write_lost(g, lost, parts, plan, &known, &solved, chunk);
    Ok(())
}

/// Writes the lost chunk of the codewords whose chunks have these parts. Any parts are those of some codeword.
///
/// `parts` shows for `d` helpers, among them each other chunk of the lost one's column, the subchunks of the layers of
/// `aloof_layers(alloc, g, lost)`, one after another, and nothing of the lost chunk and the aloof ones. They are read where they stand. What
/// `chunk` held before doesn't matter, and it stays as it is where memory is wanting.
pub fn rebuild_into(
    alloc: Global,
    g: AloofGeometry,
    lost: u32,
    parts: ChunkView<'_>,
    chunk: &mut [u8],
) -> Result<(), AllocError>
    requires parts { ArePieces g lost (pieces_of parts) }
    requires room { HasViewRoom parts }
    requires chunk { length chunk.old ≡ chunk_length (grid_of g) }
    ensures rebuilt { OnOk result (IsRebuiltFrom g lost (pieces_of parts.entry) chunk.new) }
    ensures kept { OnErr result (chunk.new ≡ chunk.old) }
{
    let plan = repair_plan(alloc, g, lost, parts)?;
    rebuild_by(alloc, g, lost, parts, &plan, chunk)
}

// The same from parts that are vectors.
fn rebuild_apart(
    alloc: Global,
    g: AloofGeometry,
    lost: u32,
    parts: &[Option<Vec<u8>>],
    chunk: &mut [u8],
) -> Result<(), AllocError>
    requires parts { AreParts g lost parts.now }
    requires chunk { length chunk.old ≡ chunk_length (grid_of g) }
    ensures rebuilt { OnOk result (IsRebuilt g lost parts.now chunk.new) }
    ensures kept { OnErr result (chunk.new ≡ chunk.old) }
{
    rebuild_into(alloc, g, lost, ChunkView::Apart(parts), chunk)?;
    Ok(())
}

/// The lost chunk, as `rebuild_into` writes it. `parts` has an entry for each chunk, `None` for the lost one and the aloof ones.
pub fn rebuild(
    alloc: Global,
    g: AloofGeometry,
    lost: u32,
    parts: &[Option<Vec<u8>>],
) -> Result<Vec<u8>, AllocError>
    requires { AreParts g lost parts.now }
    ensures { IfOk result (λ chunk. IsRebuilt g lost parts.now chunk.items) }
{
    let mut chunk = zeros(alloc, g.chunk_len() as usize)?;
    rebuild_apart(alloc, g, lost, parts, &mut chunk)?;
    Ok(chunk)
}
