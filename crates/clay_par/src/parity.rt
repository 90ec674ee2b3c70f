//! The parity chunks of a stripe, by groups of layers and then by chunks.
ghost use Rattle.std.specs.Prelude.{◌≡◌, ℕ, ◌+◌, ◌*◌, ◌/◌, ◌<◌, ◌≤◌, length, slice_index_or, slice_range, IfOk, OnOk, OnErr, All};
ghost use Rattle.clay_grid.specs.Shape.{row_count, layer_count, chunk_length, stripe_length};
ghost use Rattle.clay_model.specs.Code.{Codes};
ghost use Rattle.clay_model.specs.Chunks.{contents};
ghost use Rattle.clay_parity.specs.Blocks.{HoldsGroup};
ghost use Rattle.generator_matrix.specs.Generated.{IsLastGenerator};
ghost use Rattle.clay_parity.specs.Solved.{layer_value};
ghost use Rattle.clay_parity.specs.Flat.{HoldsGroups, IsParity};
ghost use Rattle.clay_parity.specs.Parity.{data_pieces, AreParity};
ghost use Rattle.clay_par.specs.Groups.{HasRoom, AreGroups, AreWhole, AreSolved, HoldGroups, HoldsRow, IsRow, AreRows};

use crate::made::all_made;
use clay_grid::Geometry;
use clay_kernels::{BLOCK, fifths, zeros};
use clay_parity::{last_column, solve_group, write_pieces};
use generator_matrix::Generator;
use rayon::prelude::*;
use std::alloc::{AllocError, Global};
use std::thread::Threads;

/// A group of layers that differ in the last digit alone: the last column's uncoupled values in them, and room for a block of one node's.
#[derive(Drop)]
pub struct Group {
    pub number: u32,
    pub values: Vec<u8>,
    pub solved: Vec<u8>,
}

// A group of layers, with room for its values.
fn make_group(alloc: Global, g: Geometry, number: u32) -> Result<Group, AllocError>
    requires { number * row_count g + row_count g ≤ layer_count g }
    ensures room { IfOk result (HasRoom g) }
    ensures number { IfOk result (λ group. group.number ≡ number) }
{
    let q = g.q() as usize;
    let w = g.w() as usize;
    let values = zeros(alloc, w.min(BLOCK))?;
    let solved = zeros(alloc, q * (q * w))?;
    Ok(Group {
        number,
        values,
        solved,
    })
}

// The groups of all layers, rising.
fn make_groups(alloc: Global, g: Geometry) -> Result<Vec<Group>, AllocError>
    ensures { IfOk result (λ groups. AreGroups g groups.items) }
{
    let count = g.alpha() / g.q();
    let mut groups = Vec::with_capacity(alloc, count as usize)?;
    for number in 0..count {
        groups.push(make_group(alloc, g, number)?)?;
    }
    Ok(groups)
}

// Writes the last column's uncoupled values in the layers of a group.
fn solve(g: Geometry, generator: &Generator, stripe: &[u8], group: &mut Group)
    requires whole { length stripe.now ≡ stripe_length g }
    requires generator { IsLastGenerator g generator.now.unknown generator.now.each }
    requires room { HasRoom g group.old }
    ensures room { HasRoom g group.new }
    ensures number { group.new.number ≡ group.old.number }
    ensures values { HoldsGroup g.parity_count g.width group.old.number g.parity_count
        (layer_value g generator.now.each stripe.now) group.new.solved.items }
{
    solve_group(
        g,
        generator,
        stripe,
        group.number,
        &mut group.values,
        &mut group.solved,
    );
}

// Writes the last column's uncoupled values in the layers of all groups.
fn solve_all<R: Threads + Sync>(
    rt: &R,
    g: Geometry,
    generator: &Generator,
    stripe: &[u8],
    groups: &mut [Group],
)
    requires whole { length stripe.now ≡ stripe_length g }
    requires generator { IsLastGenerator g generator.now.unknown generator.now.each }
    requires room { All (HasRoom g) groups.old }
    ensures room { All (HasRoom g) groups.new }
    ensures values { (i : ℕ) (d : _) → i < length groups.old →
        HoldsGroup g.parity_count g.width (slice_index_or groups.old i d).number g.parity_count
        (layer_value g generator.now.each stripe.now) (slice_index_or groups.new i d).solved.items }
{
    par_for_each_mut(rt, groups, |_, group| solve(g, generator, stripe, group));
}

// The groups of all layers, with the last column's uncoupled values.
fn solved_groups<R: Threads + Sync>(
    rt: &R,
    alloc: Global,
    g: Geometry,
    stripe: &[u8],
) -> Result<Vec<Group>, AllocError>
    requires { length stripe.now ≡ stripe_length g }
    ensures { IfOk result (λ groups. AreSolved g stripe.now groups.items) }
{
    let generator = last_column(alloc, g)?;
    let mut groups = make_groups(alloc, g)?;
    solve_all(rt, g, &generator, stripe, &mut groups);
    Ok(groups)
}

// Writes the parity chunk of a row, from the values of all groups.
fn write_row(g: Geometry, groups: &[Group], row: usize, chunk: &mut [u8])
    requires row { row < row_count g }
    requires groups { AreWhole g groups.now }
    requires chunk_len { length chunk.old ≡ chunk_length g }
    ensures { HoldsRow g groups.now row chunk.new }
{
    let fifths = fifths();
    let len = g.q() as usize * g.w() as usize;
    for (number, group) in groups.iter().enumerate() {
        let from = number * len;
        let out = &mut chunk[from..from + len];
        write_pieces(g, &fifths, &group.solved, row as u32, out);
    }
}

// The parity chunk of a row, from the values of all groups.
fn parity_chunk(
    alloc: Global,
    g: Geometry,
    groups: &[Group],
    row: usize,
) -> Result<Vec<u8>, AllocError>
    requires row { row < row_count g }
    requires groups { AreWhole g groups.now }
    ensures { IfOk result (λ chunk. IsRow g groups.now row chunk.items) }
{
    let mut chunk = zeros(alloc, g.chunk_len() as usize)?;
    write_row(g, groups, row, &mut chunk);
    Ok(chunk)
}

// For each row its parity chunk, or that memory ran out.
fn each_row<R: Threads + Sync>(
    rt: &R,
    alloc: Global,
    g: Geometry,
    groups: &[Group],
) -> Result<Vec<Result<Vec<u8>, AllocError>>, AllocError>
    requires { AreWhole g groups.now }
    ensures count { IfOk result (λ rows. length rows.items ≡ row_count g) }
    ensures each { IfOk result (λ rows. (x : ℕ) (d : _) → x < row_count g →
        IfOk (slice_index_or rows.items x d) (λ chunk. IsRow g groups.now x chunk.items)) }
{
    (0..g.q() as usize)
        .into_par_iter()
        .with_min_len(1)
        .map(
            |row: usize| -> Result<Vec<u8>, AllocError>
                requires { AreWhole g groups.now × (row < row_count g) }
                ensures { IfOk result (λ chunk. IsRow g groups.entry.now row chunk.items) }
            { parity_chunk(alloc, g, groups, row) },
        )
        .collect(rt, alloc)
}

// The parity chunks, by rising row, from the values of all groups.
fn parity_chunks<R: Threads + Sync>(
    rt: &R,
    alloc: Global,
    g: Geometry,
    groups: &[Group],
) -> Result<Vec<Vec<u8>>, AllocError>
    requires { AreWhole g groups.now }
    ensures count { IfOk result (λ chunks. length chunks.items ≡ row_count g) }
    ensures rows { IfOk result (λ chunks. AreRows g groups.now (contents chunks.items)) }
{
    let rows = each_row(rt, alloc, g, groups)?;
    all_made(alloc, rows)
}

/// The parity chunks of the stripe's codeword, by rising row.
pub fn parity<R: Threads + Sync>(
    rt: &R,
    alloc: Global,
    g: Geometry,
    stripe: &[u8],
) -> Result<Vec<Vec<u8>>, AllocError>
    requires { length stripe.now ≡ stripe_length g }
    ensures { IfOk result (λ chunks. AreParity g stripe.now (contents chunks.items)) }
{
    let groups = solved_groups(rt, alloc, g, stripe)?;
    parity_chunks(rt, alloc, g, &groups)
}

// Writes the parity chunk that begins at `start` among all of them, from the values of all groups.
fn write_row_at(g: Geometry, groups: &[Group], start: usize, chunk: &mut [u8])
    requires groups { AreWhole g groups.now }
    requires start { start < g.parity_count * chunk_length g }
    requires chunk_len { length chunk.old ≡ chunk_length g }
    ensures { HoldsRow g groups.now (start / chunk_length g) chunk.new }
{
    write_row(g, groups, start / g.chunk_len() as usize, chunk);
}

// Writes the parity chunks, one behind another, from the values of all groups.
fn write_rows<R: Threads + Sync>(rt: &R, g: Geometry, groups: &[Group], chunks: &mut [u8])
    requires groups { AreWhole g groups.now }
    requires chunks { length chunks.old ≡ g.parity_count * chunk_length g }
    ensures { (value : ℕ → ℕ → ℕ → ℕ) → HoldGroups g value groups.now → HoldsGroups g value (layer_count g / row_count g) chunks.new }
{
    let len = g.chunk_len() as usize;
    par_chunks_mut_for_each(
        rt,
        chunks,
        len,
        |start: usize, chunk: &mut [u8]|
            requires { AreWhole g groups.now × (start < g.parity_count * chunk_length g) × (length chunk.old ≡ chunk_length g) }
            ensures { HoldsRow g groups.entry.now (start / chunk_length g) chunk.new }
        { write_row_at(g, groups, start, chunk) },
    );
}

/// Writes the parity chunks of the stripe's codeword, by rising row, one behind another.
pub fn parity_into<R: Threads + Sync>(
    rt: &R,
    alloc: Global,
    g: Geometry,
    stripe: &[u8],
    chunks: &mut [u8],
) -> Result<(), AllocError>
    requires stripe { length stripe.now ≡ stripe_length g }
    requires chunks { length chunks.old ≡ g.parity_count * chunk_length g }
    ensures parity { OnOk result (IsParity g stripe.now chunks.new) }
    ensures kept { OnErr result (chunks.new ≡ chunks.old) }
{
    let groups = solved_groups(rt, alloc, g, stripe)?;
    write_rows(rt, g, &groups, chunks);
    Ok(())
}

// A data chunk, which is a piece of the stripe.
fn data_chunk(
    alloc: Global,
    g: Geometry,
    stripe: &[u8],
    chunk: usize,
) -> Result<Vec<u8>, AllocError>
    requires whole { length stripe.now ≡ stripe_length g }
    requires data { chunk < g.data_count }
    ensures { IfOk result (λ v. v.items ≡ slice_range stripe.now (chunk * chunk_length g) ((chunk + 1) * chunk_length g)) }
{
    let len = g.chunk_len() as usize;
    Vec::from_slice(alloc, &stripe[chunk * len..(chunk + 1) * len])
}

// Each data chunk, or that memory ran out.
fn each_piece<R: Threads + Sync>(
    rt: &R,
    alloc: Global,
    g: Geometry,
    stripe: &[u8],
) -> Result<Vec<Result<Vec<u8>, AllocError>>, AllocError>
    requires { length stripe.now ≡ stripe_length g }
    ensures count { IfOk result (λ pieces. length pieces.items ≡ g.data_count) }
    ensures each { IfOk result (λ pieces. (c : ℕ) (d : _) → c < g.data_count →
        IfOk (slice_index_or pieces.items c d) (λ v. v.items ≡ slice_range stripe.now (c * chunk_length g) ((c + 1) * chunk_length g))) }
{
    (0..g.k() as usize)
        .into_par_iter()
        .with_min_len(1)
        .map(
            |c: usize| -> Result<Vec<u8>, AllocError>
                requires { (length stripe.now ≡ stripe_length g) × (c < g.data_count) }
                ensures { IfOk result (λ v. v.items ≡ slice_range stripe.entry.now (c * chunk_length g) ((c + 1) * chunk_length g)) }
            { data_chunk(alloc, g, stripe, c) },
        )
        .collect(rt, alloc)
}

// The chunks that are pieces of the stripe.
fn data_chunks<R: Threads + Sync>(
    rt: &R,
    alloc: Global,
    g: Geometry,
    stripe: &[u8],
) -> Result<Vec<Vec<u8>>, AllocError>
    requires { length stripe.now ≡ stripe_length g }
    ensures { IfOk result (λ chunks. contents chunks.items ≡ data_pieces g stripe.now) }
{
    let pieces = each_piece(rt, alloc, g, stripe)?;
    all_made(alloc, pieces)
}

/// The chunks of the stripe's codeword: the data chunks, which joined are the stripe, then the parity chunks.
pub fn encode<R: Threads + Sync>(
    rt: &R,
    alloc: Global,
    g: Geometry,
    stripe: &[u8],
) -> Result<Vec<Vec<u8>>, AllocError>
    requires { length stripe.now ≡ stripe_length g }
    ensures { IfOk result (λ chunks. Codes g stripe.now (contents chunks.items)) }
{
    let mut chunks = data_chunks(rt, alloc, g, stripe)?;
    let mut others = parity(rt, alloc, g, stripe)?;
    chunks.append(&mut others)?;
    Ok(chunks)
}
