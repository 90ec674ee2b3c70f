//! The parity chunks of a stripe.
ghost use Rattle.std.specs.Prelude.{◌≡◌, ℕ, ◌+◌, ◌-◌, ◌*◌, ◌%◌, ◌<◌, ◌≤◌, slice_index, length, min, bit_xor, slice_index_or, [], IfOk};
ghost use Rattle.clay_field.specs.Coupling.{determinant_inverse};
ghost use Rattle.clay_field.specs.Field.{product};
ghost use Rattle.clay_grid.specs.Shape.{row_count, layer_count, stripe_length};
ghost use Rattle.clay_grid.specs.Layers.{layer_of};
ghost use Rattle.clay_grid.specs.Limits.{IsGeometry};
ghost use Rattle.clay_model.specs.Code.{Codes};
ghost use Rattle.clay_model.specs.Chunks.{contents};
ghost use Rattle.code_laws.specs.Columns.{data_byte, uncoupled_value, first_parity};
ghost use Rattle.clay_kernels.specs.Lanes.{AddsRows};
ghost use Rattle.clay_parity.specs.Blocks.{HoldsLayer, Appends, HoldsGroup, group_byte, coupled_byte, piece_bytes};
ghost use Rattle.clay_parity.specs.Short.{HoldsShort, short_coupled};
ghost use Rattle.clay_parity.specs.Parity.{data_pieces, AreParity, AppendsGroups};
ghost use Rattle.generator_matrix.specs.Generated.{IsLastGenerator, factor_at};
ghost use Rattle.clay_parity.specs.Solved.{solved_value, layer_value};

use crate::short::{couple_row, transpose};
use crate::stripe::{piece, uncouple_node, write_column};
use clay_grid::Geometry;
use clay_kernels::{BLOCK, Products, add_rows, column_room, couple, fifths, zeros};
use generator_matrix::{Generator, add_column, end_column, nodes};
use std::alloc::{AllocError, Global};

/// The most bytes of a node in a group of layers that are coded together. A call for each of short subchunks costs more than its work.
pub const SHORT: usize = 1024;

// Adds what the bytes of a node outside the last column add, as if it had no partner.
fn add_own(
    g: Geometry,
    factors: &[Products],
    stripe: &[u8],
    node: u32,
    z: u32,
    at: usize,
    len: usize,
    rows: &mut [u8],
)
    requires whole { length stripe.now ≡ stripe_length g }
    requires factor_count { length factors.now ≡ g.parity_count }
    requires layer { z < layer_count g }
    requires within { at + len ≤ (row_count g - z % row_count g) * g.width }
    requires rows_len { length rows.old ≡ g.parity_count * len }
    ensures { AddsRows g.parity_count len (λ e. slice_index factors.now e)
        (λ b. data_byte g stripe.now (at + b) node z) rows.old rows.new }
{
    if node < g.k() {
        add_rows(factors, piece(g, stripe, node, z, at, len), rows);
    }
}

// Adds what a node outside the last column adds to the values of the last column, in the bytes from `at` on of layer `z`.
fn add_node(
    g: Geometry,
    generator: &Generator,
    stripe: &[u8],
    node: u32,
    z: u32,
    at: usize,
    values: &mut [u8],
    rows: &mut [u8],
)
    requires whole { length stripe.now ≡ stripe_length g }
    requires generator { IsLastGenerator g generator.now.unknown generator.now.each }
    requires known { node < first_parity g }
    requires layer { z < layer_count g }
    requires within { at + length values.old ≤ (row_count g - z % row_count g) * g.width }
    requires rows_len { length rows.old ≡ g.parity_count * length values.old }
    ensures { AddsRows g.parity_count (length values.old)
        (λ e. factor_at generator.now.each g.parity_count node e)
        (λ b. uncoupled_value g stripe.now (at + b) node (layer_of g z)) rows.old rows.new }
{
    let len = values.len();
    let factors = generator.of_node(node as usize);
    let (x, y) = g.place(node);
    let partner = g.partner(x, y, z);
    let other = y * g.q() + partner.x;
    if partner.x == x {
        add_own(g, factors, stripe, node, z, at, len, rows);
    } else if other >= g.k() {
        // the partner is of a virtual node
        add_own(g, factors, stripe, node, z, at, len, rows);
    } else {
        let theirs = piece(g, stripe, other, partner.z, at, len);
        uncouple_node(g, stripe, node, z, at, theirs, values);
        add_rows(factors, values, rows);
    }
}

// Writes the uncoupled values of the last column in the bytes from `at` on of layer `z`, a node after another.
fn solve_by_nodes(
    g: Geometry,
    generator: &Generator,
    stripe: &[u8],
    z: u32,
    at: usize,
    values: &mut [u8],
    rows: &mut [u8],
)
    requires whole { length stripe.now ≡ stripe_length g }
    requires generator { IsLastGenerator g generator.now.unknown generator.now.each }
    requires layer { z < layer_count g }
    requires within { at + length values.old ≤ (row_count g - z % row_count g) * g.width }
    requires rows_len { length rows.old ≡ g.parity_count * length values.old }
    ensures { (e b : ℕ) → e < g.parity_count → b < length values.old →
        slice_index rows.new (e * length values.old + b)
        ≡ solved_value g generator.now.each stripe.now (at + b) e (layer_of g z) }
{
    rows.fill(0);
    for node in 0..g.nodes() - g.q() {
        add_node(g, generator, stripe, node, z, at, values, rows);
    }
}

// The same, the nodes of a column together, with room for the values of one.
fn solve_by_whole_columns(
    g: Geometry,
    generator: &Generator,
    stripe: &[u8],
    z: u32,
    at: usize,
    len: usize,
    column: &mut [u8],
    rows: &mut [u8],
)
    requires whole { length stripe.now ≡ stripe_length g }
    requires generator { IsLastGenerator g generator.now.unknown generator.now.each }
    requires layer { z < layer_count g }
    requires within { at + len ≤ (row_count g - z % row_count g) * g.width }
    requires column_len { length column.old ≡ g.parity_count * len }
    requires rows_len { length rows.old ≡ g.parity_count * len }
    ensures { (e b : ℕ) → e < g.parity_count → b < len →
        slice_index rows.new (e * len + b) ≡ solved_value g generator.now.each stripe.now (at + b) e (layer_of g z) }
{
    rows.fill(0);
    for y in 0..g.t() - 1 {
        write_column(g, stripe, y, z, at, len, column);
        let first = y * g.q();
        generator.add_nodes(first as usize, len, column, rows);
    }
}

// The same where the generator has the factors of columns of four, with room for the values of one.
fn solve_by_columns(
    g: Geometry,
    generator: &Generator,
    stripe: &[u8],
    z: u32,
    at: usize,
    len: usize,
    column: &mut [u8],
    rows: &mut [u8],
)
    requires whole { length stripe.now ≡ stripe_length g }
    requires generator { IsLastGenerator g generator.now.unknown generator.now.each }
    requires columns { 0 < length generator.now.columns }
    requires layer { z < layer_count g }
    requires within { at + len ≤ (row_count g - z % row_count g) * g.width }
    requires column_len { length column.old ≡ 4 * len }
    requires rows_len { length rows.old ≡ g.parity_count * len }
    ensures { (e b : ℕ) → e < g.parity_count → b < len →
        slice_index rows.new (e * len + b) ≡ solved_value g generator.now.each stripe.now (at + b) e (layer_of g z) }
{
    let columns = generator.columns();
    rows.fill(0);
    for y in 0..g.t() - 1 {
        write_column(g, stripe, y, z, at, len, column);
        add_column(len, &columns[y as usize], column, rows);
    }
    end_column(len, rows);
}

// Writes the uncoupled values of the last column in the bytes from `at` on of layer `z`, with room for the values of a node and of a column.
fn solve_block(
    g: Geometry,
    generator: &Generator,
    stripe: &[u8],
    z: u32,
    at: usize,
    values: &mut [u8],
    column: &mut [u8],
    rows: &mut [u8],
)
    requires whole { length stripe.now ≡ stripe_length g }
    requires generator { IsLastGenerator g generator.now.unknown generator.now.each }
    requires layer { z < layer_count g }
    requires within { at + length values.old ≤ (row_count g - z % row_count g) * g.width }
    requires column_len { length column.old ≡ 4 * length values.old }
    requires rows_len { length rows.old ≡ g.parity_count * length values.old }
    ensures { (e b : ℕ) → e < g.parity_count → b < length values.old →
        slice_index rows.new (e * length values.old + b)
        ≡ solved_value g generator.now.each stripe.now (at + b) e (layer_of g z) }
{
    let len = values.len();
    if !generator.columns().is_empty() {
        solve_by_columns(g, generator, stripe, z, at, len, column, rows);
        return;
    }
    let q = g.q() as usize;
    if q < 4 {
        // sums of the nodes of a column take fewer products
        let column = &mut column[..q * len];
        solve_by_whole_columns(g, generator, stripe, z, at, len, column, rows);
        return;
    }
    solve_by_nodes(g, generator, stripe, z, at, values, rows);
}

/// Writes the uncoupled values of the last column in a group of layers with short subchunks, all together, those of a node one behind
/// another, with room for the values of a node and of a column.
pub fn solve_rows(
    g: Geometry,
    generator: &Generator,
    stripe: &[u8],
    number: u32,
    values: &mut [u8],
    column: &mut [u8],
    rows: &mut [u8],
)
    requires whole { length stripe.now ≡ stripe_length g }
    requires generator { IsLastGenerator g generator.now.unknown generator.now.each }
    requires in_layers { number * row_count g + row_count g ≤ layer_count g }
    requires values_len { length values.old ≡ g.parity_count * g.width }
    requires column_len { length column.old ≡ 4 * (g.parity_count * g.width) }
    requires rows_len { length rows.old ≡ g.parity_count * (g.parity_count * g.width) }
    ensures { HoldsShort g.parity_count g.width number (layer_value g generator.now.each stripe.now) rows.new }
{
    solve_block(
        g,
        generator,
        stripe,
        number * g.q(),
        0,
        values,
        column,
        rows,
    );
}

// The same with the layers one behind another, with room for the values of a column and the rows.
fn solve_short(
    g: Geometry,
    generator: &Generator,
    stripe: &[u8],
    number: u32,
    room: &mut [u8],
    group: &mut [u8],
)
    requires whole { length stripe.now ≡ stripe_length g }
    requires generator { IsLastGenerator g generator.now.unknown generator.now.each }
    requires in_layers { number * row_count g + row_count g ≤ layer_count g }
    requires short { row_count g * g.width ≤ 1024 }
    requires room_len { 12 * (row_count g * g.width) ≤ length room.old }
    requires group_len { length group.old ≡ g.parity_count * (g.parity_count * g.width) }
    ensures { HoldsGroup g.parity_count g.width number g.parity_count
        (layer_value g generator.now.each stripe.now) group.new }
{
    let q = g.q() as usize;
    let w = g.w() as usize;
    let len = q * w;
    let (column, rest) = room.split_at_mut(4 * len);
    let rows = &mut rest[..q * len];
    let values = &mut group[..len];
    solve_rows(g, generator, stripe, number, values, column, rows);
    transpose(q, w, rows, group);
}

// Writes the uncoupled values of the last column in layer `z`, by blocks with a row for each node.
fn solve_layer(
    g: Geometry,
    generator: &Generator,
    stripe: &[u8],
    z: u32,
    values: &mut [u8],
    column: &mut [u8],
    layer: &mut [u8],
)
    requires whole { length stripe.now ≡ stripe_length g }
    requires generator { IsLastGenerator g generator.now.unknown generator.now.each }
    requires in_layers { z < layer_count g }
    requires values_len { length values.old ≡ min g.width 4096 }
    requires column_len { 4 * min g.width 4096 ≤ length column.old }
    requires layer_len { length layer.old ≡ g.parity_count * g.width }
    ensures { HoldsLayer g.parity_count g.width g.width
        (λ e b. solved_value g generator.now.each stripe.now b e (layer_of g z)) layer.new }
{
    let w = g.w() as usize;
    let m = g.m() as usize;
    let mut at = 0;
    while at < w {
        let end = (at + BLOCK).min(w);
        solve_block(
            g,
            generator,
            stripe,
            z,
            at,
            &mut values[..end - at],
            &mut column[..4 * (end - at)],
            &mut layer[m * at..m * at + m * (end - at)],
        );
        at = end;
    }
}

/// Writes the uncoupled values of the last column in a group of layers, one after another, with room for the values of a node and of a
/// column.
pub fn solve_layers(
    g: Geometry,
    generator: &Generator,
    stripe: &[u8],
    number: u32,
    values: &mut [u8],
    column: &mut [u8],
    group: &mut [u8],
)
    requires whole { length stripe.now ≡ stripe_length g }
    requires generator { IsLastGenerator g generator.now.unknown generator.now.each }
    requires in_layers { number * row_count g + row_count g ≤ layer_count g }
    requires values_len { length values.old ≡ min g.width 4096 }
    requires column_len { 4 * min g.width 4096 ≤ length column.old }
    requires group_len { length group.old ≡ g.parity_count * (g.parity_count * g.width) }
    ensures { HoldsGroup g.parity_count g.width number g.parity_count
        (layer_value g generator.now.each stripe.now) group.new }
{
    let layer_len = g.m() as usize * g.w() as usize;
    for digit in 0..g.q() {
        let at = digit as usize * layer_len;
        solve_layer(
            g,
            generator,
            stripe,
            number * g.q() + digit,
            values,
            column,
            &mut group[at..at + layer_len],
        );
    }
}

/// Writes the uncoupled values of the last column in a group of layers, which differ in the last digit alone.
pub fn solve_group(
    g: Geometry,
    generator: &Generator,
    stripe: &[u8],
    number: u32,
    values: &mut [u8],
    group: &mut [u8],
)
    requires whole { length stripe.now ≡ stripe_length g }
    requires generator { IsLastGenerator g generator.now.unknown generator.now.each }
    requires in_layers { number * row_count g + row_count g ≤ layer_count g }
    requires values_len { length values.old ≡ min g.width 4096 }
    requires group_len { length group.old ≡ g.parity_count * (g.parity_count * g.width) }
    ensures { HoldsGroup g.parity_count g.width number g.parity_count
        (layer_value g generator.now.each stripe.now) group.new }
{
    let mut room = column_room();
    if g.q() as usize * g.w() as usize <= SHORT {
        solve_short(g, generator, stripe, number, &mut room, group);
    } else {
        solve_layers(g, generator, stripe, number, values, &mut room, group);
    }
}

/// The bytes from `at` on of row `x` in a layer of the group, as many as `len`, which are a block.
pub fn block(g: Geometry, group: &[u8], layer: u32, x: u32, at: usize, len: usize) -> &[u8]
    requires group_len { length group.now ≡ g.parity_count * (g.parity_count * g.width) }
    requires in_group { layer < row_count g }
    requires row { x < row_count g }
    requires start { at % 4096 ≡ 0 }
    requires inside { at < g.width }
    requires block { len ≡ min 4096 (g.width - at) }
    ensures geometry { IsGeometry g }
    ensures len { length result.now ≡ len }
    ensures bytes { (b : ℕ) → b < len →
        slice_index result.now b ≡ group_byte g.parity_count g.width group.now layer x (at + b) }
{
    let m = g.m() as usize;
    let start = layer as usize * (m * g.w() as usize) + m * at + x as usize * len;
    &group[start..start + len]
}

// Adds to the parity chunk of row `x` its subchunk of a layer of the group.
fn add_piece(
    g: Geometry,
    fifths: &Products,
    group: &[u8],
    x: u32,
    digit: u32,
    values: &mut [u8],
    chunk: &mut Vec<u8>,
) -> Result<(), AllocError>
    requires fifths { fifths.now ≡ determinant_inverse }
    requires group_len { length group.now ≡ g.parity_count * (g.parity_count * g.width) }
    requires row { x < row_count g }
    requires digit { digit < row_count g }
    requires values_len { length values.old ≡ min g.width 4096 }
    ensures { IfOk result (λ _. Appends g.width (coupled_byte g.parity_count g.width group.now x digit)
        chunk.old.items chunk.new.items) }
{
    let w = g.w() as usize;
    let mut at = 0;
    while at < w {
        let end = (at + BLOCK).min(w);
        let len = end - at;
        let own = block(g, group, digit, x, at, len);
        if x == digit {
            chunk.extend_from_slice(own)?;
        } else {
            let coupled = &mut values[..len];
            couple(fifths, own, block(g, group, x, digit, at, len), coupled);
            chunk.extend_from_slice(coupled)?;
        }
        at = end;
    }
    Ok(())
}

/// The generator of the last column.
pub fn last_column(alloc: Global, g: Geometry) -> Result<Generator, AllocError>
    ensures { IfOk result (λ made. IsLastGenerator g made.unknown made.each) }
{
    let first = g.nodes() - g.q();
    let known = nodes(alloc, 0, first)?;
    let unknown = nodes(alloc, first, g.q())?;
    let generator = Generator::new(alloc, &unknown, &known)?;
    Ok(generator)
}

// As many empty chunks, each with room for its bytes.
fn empty_chunks(alloc: Global, count: usize, len: usize) -> Result<Vec<Vec<u8>>, AllocError>
    ensures count { IfOk result (λ v. length v.items ≡ count) }
    ensures empty { IfOk result (λ v. (x : ℕ) → slice_index_or (contents v.items) x [] ≡ []) }
{
    let mut chunks = Vec::with_capacity(alloc, count)?;
    for _ in 0..count {
        chunks.push(Vec::with_capacity(alloc, len)?)?;
    }
    Ok(chunks)
}

// Adds to the parity chunk of row `x` its subchunks of a group of layers, which differ in the last digit alone.
fn add_pieces(
    g: Geometry,
    fifths: &Products,
    group: &[u8],
    x: u32,
    values: &mut [u8],
    chunk: &mut Vec<u8>,
) -> Result<(), AllocError>
    requires fifths { fifths.now ≡ determinant_inverse }
    requires group_len { length group.now ≡ g.parity_count * (g.parity_count * g.width) }
    requires row { x < row_count g }
    requires values_len { length values.old ≡ min g.width 4096 }
    ensures { IfOk result (λ _. Appends (g.parity_count * g.width) (piece_bytes g.parity_count g.width group.now x)
        chunk.old.items chunk.new.items) }
{
    for digit in 0..g.q() {
        add_piece(g, fifths, group, x, digit, values, chunk)?;
    }
    Ok(())
}

// Adds to each parity chunk its subchunks of a group of layers.
fn add_group(
    g: Geometry,
    fifths: &Products,
    group: &[u8],
    values: &mut [u8],
    chunks: &mut [Vec<u8>],
) -> Result<(), AllocError>
    requires fifths { fifths.now ≡ determinant_inverse }
    requires group_len { length group.now ≡ g.parity_count * (g.parity_count * g.width) }
    requires values_len { length values.old ≡ min g.width 4096 }
    requires chunk_count { length chunks.old ≡ g.parity_count }
    ensures { IfOk result (λ _. (x : ℕ) → x < g.parity_count →
        Appends (g.parity_count * g.width) (piece_bytes g.parity_count g.width group.now x)
        (slice_index_or (contents chunks.old) x []) (slice_index_or (contents chunks.new) x [])) }
{
    for x in 0..g.q() {
        add_pieces(g, fifths, group, x, values, &mut chunks[x as usize])?;
    }
    Ok(())
}

// Adds to each parity chunk its bytes, with room for the uncoupled values of a group of layers and for those of a node and of a column.
fn add_long_groups(
    g: Geometry,
    generator: &Generator,
    stripe: &[u8],
    values: &mut [u8],
    column: &mut [u8],
    group: &mut [u8],
    chunks: &mut [Vec<u8>],
) -> Result<(), AllocError>
    requires whole { length stripe.now ≡ stripe_length g }
    requires generator { IsLastGenerator g generator.now.unknown generator.now.each }
    requires values_len { length values.old ≡ min g.width 4096 }
    requires column_len { 4 * min g.width 4096 ≤ length column.old }
    requires group_len { length group.old ≡ g.parity_count * (g.parity_count * g.width) }
    requires chunk_count { length chunks.old ≡ g.parity_count }
    ensures { IfOk result (λ _. AppendsGroups g generator.now.each stripe.now (contents chunks.old) (contents chunks.new)) }
{
    let fifths = fifths();
    for number in 0..g.alpha() / g.q() {
        solve_layers(g, generator, stripe, number, values, column, group);
        add_group(g, &fifths, group, values, chunks)?;
    }
    Ok(())
}

// Adds to the parity chunk of row `x` its subchunks of a short group, with room for its partners' and its own.
fn add_short_row(
    g: Geometry,
    fifths: &Products,
    rows: &[u8],
    x: u32,
    partners: &mut [u8],
    coupled: &mut [u8],
    chunk: &mut Vec<u8>,
) -> Result<(), AllocError>
    requires fifths { fifths.now ≡ determinant_inverse }
    requires rows_len { length rows.now ≡ g.parity_count * (g.parity_count * g.width) }
    requires row { x < row_count g }
    requires partners_len { length partners.old ≡ g.parity_count * g.width }
    requires coupled_len { length coupled.old ≡ g.parity_count * g.width }
    ensures { IfOk result (λ _. Appends (g.parity_count * g.width) (short_coupled g.parity_count g.width rows.now x)
        chunk.old.items chunk.new.items) }
{
    let q = g.q() as usize;
    let w = g.w() as usize;
    couple_row(fifths, q, w, rows, x as usize, partners, coupled);
    chunk.extend_from_slice(coupled)?;
    Ok(())
}

// Adds to each parity chunk its subchunks of a short group.
fn add_short_group(
    g: Geometry,
    fifths: &Products,
    rows: &[u8],
    partners: &mut [u8],
    coupled: &mut [u8],
    chunks: &mut [Vec<u8>],
) -> Result<(), AllocError>
    requires fifths { fifths.now ≡ determinant_inverse }
    requires rows_len { length rows.now ≡ g.parity_count * (g.parity_count * g.width) }
    requires partners_len { length partners.old ≡ g.parity_count * g.width }
    requires coupled_len { length coupled.old ≡ g.parity_count * g.width }
    requires chunk_count { length chunks.old ≡ g.parity_count }
    ensures { IfOk result (λ _. (x : ℕ) → x < g.parity_count →
        Appends (g.parity_count * g.width) (short_coupled g.parity_count g.width rows.now x)
        (slice_index_or (contents chunks.old) x []) (slice_index_or (contents chunks.new) x [])) }
{
    for x in 0..g.q() {
        add_short_row(
            g,
            fifths,
            rows,
            x,
            partners,
            coupled,
            &mut chunks[x as usize],
        )?;
    }
    Ok(())
}

// The same as `add_long_groups` where subchunks are short, all layers of a group together.
fn add_short_groups(
    g: Geometry,
    generator: &Generator,
    stripe: &[u8],
    column: &mut [u8],
    partners: &mut [u8],
    coupled: &mut [u8],
    rows: &mut [u8],
    chunks: &mut [Vec<u8>],
) -> Result<(), AllocError>
    requires whole { length stripe.now ≡ stripe_length g }
    requires generator { IsLastGenerator g generator.now.unknown generator.now.each }
    requires column_len { length column.old ≡ 4 * (g.parity_count * g.width) }
    requires partners_len { length partners.old ≡ g.parity_count * g.width }
    requires coupled_len { length coupled.old ≡ g.parity_count * g.width }
    requires rows_len { length rows.old ≡ g.parity_count * (g.parity_count * g.width) }
    requires chunk_count { length chunks.old ≡ g.parity_count }
    ensures { IfOk result (λ _. AppendsGroups g generator.now.each stripe.now (contents chunks.old) (contents chunks.new)) }
{
    let fifths = fifths();
    let count = g.alpha() / g.q();
    for number in 0..count {
        solve_rows(g, generator, stripe, number, partners, column, rows);
        add_short_group(g, &fifths, rows, partners, coupled, chunks)?;
    }
    Ok(())
}

// Adds to each parity chunk its bytes, with room for the values of a node, for those of a column or of six nodes in a short group, and for
// the uncoupled values of a group.
fn add_groups(
    g: Geometry,
    generator: &Generator,
    stripe: &[u8],
    values: &mut [u8],
    room: &mut [u8],
    group: &mut [u8],
    chunks: &mut [Vec<u8>],
) -> Result<(), AllocError>
    requires whole { length stripe.now ≡ stripe_length g }
    requires generator { IsLastGenerator g generator.now.unknown generator.now.each }
    requires values_len { length values.old ≡ min g.width 4096 }
    requires column_room { 4 * min g.width 4096 ≤ length room.old }
    requires short_room { 6 * min (row_count g * g.width) 1024 ≤ length room.old }
    requires group_len { length group.old ≡ g.parity_count * (g.parity_count * g.width) }
    requires chunk_count { length chunks.old ≡ g.parity_count }
    ensures { IfOk result (λ _. AppendsGroups g generator.now.each stripe.now (contents chunks.old) (contents chunks.new)) }
{
    let len = g.q() as usize * g.w() as usize;
    if len > SHORT {
        return add_long_groups(g, generator, stripe, values, room, group, chunks);
    }
    let (column, rest) = room.split_at_mut(4 * len);
    let (partners, rest) = rest.split_at_mut(len);
    let coupled = &mut rest[..len];
    add_short_groups(
        g, generator, stripe, column, partners, coupled, group, chunks,
    )
}

/// The parity chunks of the stripe's codeword, by rising row.
pub fn parity(alloc: Global, g: Geometry, stripe: &[u8]) -> Result<Vec<Vec<u8>>, AllocError>
    requires { length stripe.now ≡ stripe_length g }
    ensures count { IfOk result (λ chunks. length chunks.items ≡ g.parity_count) }
    ensures value { IfOk result (λ chunks. AreParity g stripe.now (contents chunks.items)) }
{
    let w = g.w() as usize;
    let q = g.q() as usize;
    let generator = last_column(alloc, g)?;
    let len = w.min(BLOCK);
    let mut values = zeros(alloc, len)?;
    let mut room = zeros(alloc, 4 * len + 6 * (q * w).min(SHORT))?;
    let mut group = vec![in alloc; 0u8; q * (q * w)]?;
    let mut chunks = empty_chunks(alloc, q, g.alpha() as usize * w)?;
    add_groups(
        g,
        &generator,
        stripe,
        &mut values,
        &mut room,
        &mut group,
        &mut chunks,
    )?;
    Ok(chunks)
}

// The chunks that are pieces of the stripe, with room for the parity chunks.
fn data_chunks(alloc: Global, g: Geometry, stripe: &[u8]) -> Result<Vec<Vec<u8>>, AllocError>
    requires { length stripe.now ≡ stripe_length g }
    ensures { IfOk result (λ v. contents v.items ≡ data_pieces g stripe.now) }
{
    let len = g.alpha() as usize * g.w() as usize;
    let mut chunks = Vec::with_capacity(alloc, g.n() as usize)?;
    for c in 0..g.k() as usize {
        chunks.push(Vec::from_slice(alloc, &stripe[c * len..(c + 1) * len])?)?;
    }
    Ok(chunks)
}

/// The chunks of the stripe's codeword: the data chunks, which joined are the stripe, then the parity chunks.
pub fn encode(alloc: Global, g: Geometry, stripe: &[u8]) -> Result<Vec<Vec<u8>>, AllocError>
    requires { length stripe.now ≡ stripe_length g }
    ensures { IfOk result (λ chunks. Codes g stripe.now (contents chunks.items)) }
{
    let mut chunks = data_chunks(alloc, g, stripe)?;
    let mut others = parity(alloc, g, stripe)?;
    chunks.append(&mut others)?;
    Ok(chunks)
}
