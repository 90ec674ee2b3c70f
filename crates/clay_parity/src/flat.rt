//! The parity chunks of a stripe, written one behind another into the caller's bytes.
ghost use Rattle.std.specs.Prelude.{◌≡◌, ℕ, ◌+◌, ◌-◌, ◌*◌, ◌%◌, ◌<◌, ◌≤◌, slice_index, length, min, OnOk, OnErr};
ghost use Rattle.clay_field.specs.Coupling.{determinant_inverse};
ghost use Rattle.clay_grid.specs.Shape.{row_count, layer_count, chunk_length, stripe_length};
ghost use Rattle.generator_matrix.specs.Generated.{IsLastGenerator};
ghost use Rattle.clay_parity.specs.Blocks.{coupled_byte, piece_bytes};
ghost use Rattle.clay_parity.specs.Short.{short_coupled};
ghost use Rattle.clay_parity.specs.Flat.{WritesGroup, HoldsAllGroups, IsParity};

use crate::parity_layers::{SHORT, block, solve_layers, solve_rows};
use crate::prepared::Prepared;
use crate::short::couple_row;
use clay_grid::Geometry;
use clay_kernels::{BLOCK, Products, couple, fifths, zeros};
use generator_matrix::Generator;
use std::alloc::{AllocError, Global};

// Writes the coupled bytes from `at` on of row `x` in a layer of the group, which are a block.
fn write_block(
    g: Geometry,
    fifths: &Products,
    group: &[u8],
    x: u32,
    digit: u32,
    at: usize,
    out: &mut [u8],
)
    requires fifths { fifths.now ≡ determinant_inverse }
    requires group_len { length group.now ≡ g.parity_count * (g.parity_count * g.width) }
    requires row { x < row_count g }
    requires digit { digit < row_count g }
    requires start { at % 4096 ≡ 0 }
    requires inside { at < g.width }
    requires block { length out.old ≡ min 4096 (g.width - at) }
    ensures { (b : ℕ) → b < length out.old →
        slice_index out.new b ≡ coupled_byte g.parity_count g.width group.now x digit (at + b) }
{
    let len = out.len();
    let own = block(g, group, digit, x, at, len);
    if x == digit {
        out.copy_from_slice(own);
    } else {
        couple(fifths, own, block(g, group, x, digit, at, len), out);
    }
}

// Writes the coupled bytes of row `x` in a layer of the group, a subchunk.
fn write_piece(g: Geometry, fifths: &Products, group: &[u8], x: u32, digit: u32, out: &mut [u8])
    requires fifths { fifths.now ≡ determinant_inverse }
    requires group_len { length group.now ≡ g.parity_count * (g.parity_count * g.width) }
    requires row { x < row_count g }
    requires digit { digit < row_count g }
    requires out_len { length out.old ≡ g.width }
    ensures { (b : ℕ) → b < g.width → slice_index out.new b ≡ coupled_byte g.parity_count g.width group.now x digit b }
{
    let w = g.w() as usize;
    let mut at = 0;
    while at < w {
        let end = (at + BLOCK).min(w);
        write_block(g, fifths, group, x, digit, at, &mut out[at..end]);
        at = end;
    }
}

/// Writes the coupled bytes of row `x` in all layers of the group, one subchunk after another.
pub fn write_pieces(g: Geometry, fifths: &Products, group: &[u8], x: u32, out: &mut [u8])
    requires fifths { fifths.now ≡ determinant_inverse }
    requires group_len { length group.now ≡ g.parity_count * (g.parity_count * g.width) }
    requires row { x < row_count g }
    requires out_len { length out.old ≡ g.parity_count * g.width }
    ensures { (o : ℕ) → o < g.parity_count * g.width → slice_index out.new o ≡ piece_bytes g.parity_count g.width group.now x o }
{
    let w = g.w() as usize;
    for digit in 0..g.q() {
        let from = digit as usize * w;
        write_piece(g, fifths, group, x, digit, &mut out[from..from + w]);
    }
}

// Writes to each parity chunk its subchunks of a group of layers.
fn write_long_group(g: Geometry, fifths: &Products, number: u32, group: &[u8], out: &mut [u8])
    requires fifths { fifths.now ≡ determinant_inverse }
    requires in_layers { number * row_count g + row_count g ≤ layer_count g }
    requires group_len { length group.now ≡ g.parity_count * (g.parity_count * g.width) }
    requires out_len { length out.old ≡ g.parity_count * chunk_length g }
    ensures { WritesGroup g number (piece_bytes g.parity_count g.width group.now) out.old out.new }
{
    let chunk_len = g.chunk_len() as usize;
    let len = g.q() as usize * g.w() as usize;
    for x in 0..g.q() {
        let from = x as usize * chunk_len + number as usize * len;
        write_pieces(g, fifths, group, x, &mut out[from..from + len]);
    }
}

// The same of a group with short subchunks, with room for the partners of a row.
fn write_short_group(
    g: Geometry,
    fifths: &Products,
    number: u32,
    rows: &[u8],
    partners: &mut [u8],
    out: &mut [u8],
)
    requires fifths { fifths.now ≡ determinant_inverse }
    requires in_layers { number * row_count g + row_count g ≤ layer_count g }
    requires rows_len { length rows.now ≡ g.parity_count * (g.parity_count * g.width) }
    requires partners_len { length partners.old ≡ g.parity_count * g.width }
    requires out_len { length out.old ≡ g.parity_count * chunk_length g }
    ensures { WritesGroup g number (short_coupled g.parity_count g.width rows.now) out.old out.new }
{
    let chunk_len = g.chunk_len() as usize;
    let q = g.q() as usize;
    let w = g.w() as usize;
    let len = q * w;
    for x in 0..q {
        let from = x * chunk_len + number as usize * len;
        couple_row(fifths, q, w, rows, x, partners, &mut out[from..from + len]);
    }
}

// Writes the parity chunks, with room for the uncoupled values of a node, of a column and of a group of layers.
fn write_long_groups(
    g: Geometry,
    generator: &Generator,
    stripe: &[u8],
    values: &mut [u8],
    column: &mut [u8],
    group: &mut [u8],
    out: &mut [u8],
)
    requires whole { length stripe.now ≡ stripe_length g }
    requires generator { IsLastGenerator g generator.now.unknown generator.now.each }
    requires values_len { length values.old ≡ min g.width 4096 }
    requires column_len { 4 * min g.width 4096 ≤ length column.old }
    requires group_len { length group.old ≡ g.parity_count * (g.parity_count * g.width) }
    requires out_len { length out.old ≡ g.parity_count * chunk_length g }
    ensures { HoldsAllGroups g generator.now.each stripe.now out.new }
{
    let fifths = fifths();
    for number in 0..g.alpha() / g.q() {
        solve_layers(g, generator, stripe, number, values, column, group);
        write_long_group(g, &fifths, number, group, out);
    }
}

// The same where subchunks are short, all layers of a group together: `values` serves for a row's partners too.
fn write_short_groups(
    g: Geometry,
    generator: &Generator,
    stripe: &[u8],
    column: &mut [u8],
    values: &mut [u8],
    rows: &mut [u8],
    out: &mut [u8],
)
    requires whole { length stripe.now ≡ stripe_length g }
    requires generator { IsLastGenerator g generator.now.unknown generator.now.each }
    requires column_len { length column.old ≡ 4 * (g.parity_count * g.width) }
    requires values_len { length values.old ≡ g.parity_count * g.width }
    requires rows_len { length rows.old ≡ g.parity_count * (g.parity_count * g.width) }
    requires out_len { length out.old ≡ g.parity_count * chunk_length g }
    ensures { HoldsAllGroups g generator.now.each stripe.now out.new }
{
    let fifths = fifths();
    for number in 0..g.alpha() / g.q() {
        solve_rows(g, generator, stripe, number, values, column, rows);
        write_short_group(g, &fifths, number, rows, values, out);
    }
}

// Writes the parity chunks, with room for the values of a node, for those of a column or of five nodes in a short group, and for the
// uncoupled values of a group.
fn write_groups(
    g: Geometry,
    generator: &Generator,
    stripe: &[u8],
    values: &mut [u8],
    room: &mut [u8],
    group: &mut [u8],
    out: &mut [u8],
)
    requires whole { length stripe.now ≡ stripe_length g }
    requires generator { IsLastGenerator g generator.now.unknown generator.now.each }
    requires values_len { length values.old ≡ min g.width 4096 }
    requires column_room { 4 * min g.width 4096 ≤ length room.old }
    requires short_room { 5 * min (row_count g * g.width) 1024 ≤ length room.old }
    requires group_len { length group.old ≡ g.parity_count * (g.parity_count * g.width) }
    requires out_len { length out.old ≡ g.parity_count * chunk_length g }
    ensures { HoldsAllGroups g generator.now.each stripe.now out.new }
{
    let len = g.q() as usize * g.w() as usize;
    if len > SHORT {
        write_long_groups(g, generator, stripe, values, room, group, out);
        return;
    }
    let (column, rest) = room.split_at_mut(4 * len);
    let row = &mut rest[..len];
    write_short_groups(g, generator, stripe, column, row, group, out);
}

/// Writes the parity chunks of the stripe's codeword with the generator of the last column, as `parity_into` does.
pub fn write_parity(
    alloc: Global,
    g: Geometry,
    generator: &Generator,
    stripe: &[u8],
    chunks: &mut [u8],
) -> Result<(), AllocError>
    requires stripe { length stripe.now ≡ stripe_length g }
    requires generator { IsLastGenerator g generator.now.unknown generator.now.each }
    requires chunks { length chunks.old ≡ g.parity_count * chunk_length g }
    ensures parity { OnOk result (IsParity g stripe.now chunks.new) }
    ensures kept { OnErr result (chunks.new ≡ chunks.old) }
{
    let w = g.w() as usize;
    let q = g.q() as usize;
    let len = w.min(BLOCK);
    let mut values = zeros(alloc, len)?;
    let mut room = zeros(alloc, 4 * len + 5 * (q * w).min(SHORT))?;
    let mut group = vec![in alloc; 0u8; q * (q * w)]?;
    write_groups(
        g,
        generator,
        stripe,
        &mut values,
        &mut room,
        &mut group,
        chunks,
    );
    Ok(())
}

/// Writes the parity chunks of the stripe's codeword, by rising row, one behind another. `chunks` has room for just them; what it held before
/// doesn't matter, and it stays as it is where memory is wanting.
pub fn parity_into(
    alloc: Global,
    g: Geometry,
    stripe: &[u8],
    chunks: &mut [u8],
) -> Result<(), AllocError>
    requires stripe { length stripe.now ≡ stripe_length g }
    requires chunks { length chunks.old ≡ g.parity_count * chunk_length g }
    ensures parity { OnOk result (IsParity g stripe.now chunks.new) }
    ensures kept { OnErr result (chunks.new ≡ chunks.old) }
{
    let prepared = Prepared::new(alloc, g)?;
    prepared.parity_into(alloc, stripe, chunks)
}
