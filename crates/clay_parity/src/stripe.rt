//! The uncoupled values of the columns that a stripe fills.
//!
//! The layers that differ in the last digit alone lie side by side in a chunk, and outside the last column so do their partners' subchunks.
//! So bytes of a layer may run on into the later layers of its group.
ghost use Rattle.std.specs.Prelude.{◌≡◌, ℕ, ◌+◌, ◌-◌, ◌*◌, ◌%◌, ◌<◌, ◌≤◌, slice_index, length, bit_xor};
ghost use Rattle.clay_field.specs.Coupling.{gamma};
ghost use Rattle.clay_field.specs.Field.{product};
ghost use Rattle.clay_grid.specs.Shape.{row_count, column_count, layer_count, stripe_length};
ghost use Rattle.clay_grid.specs.Layers.{layer_of, vertex_at, partner_of};
ghost use Rattle.clay_grid.specs.Limits.{IsGeometry};
ghost use Rattle.code_laws.specs.Columns.{data_byte, uncoupled_value, first_parity, HoldsPieces};

use clay_grid::{Geometry, Vertex};
use clay_kernels::{double, uncouple};

/// The bytes from `at` on of subchunk `z` of a data chunk, as many as `len`, which may run on up to the end of the layer's group.
pub fn piece(g: Geometry, stripe: &[u8], chunk: u32, z: u32, at: usize, len: usize) -> &[u8]
    requires whole { length stripe.now ≡ stripe_length g }
    requires data { chunk < g.data_count }
    requires layer { z < layer_count g }
    requires within { at + len ≤ (row_count g - z % row_count g) * g.width }
    ensures geometry { IsGeometry g }
    ensures len { length result.now ≡ len }
    ensures bytes { (b : ℕ) → b < len → slice_index result.now b ≡ data_byte g stripe.now (at + b) chunk z }
{
    let start = (chunk as usize * g.alpha() as usize + z as usize) * g.w() as usize + at;
    &stripe[start..start + len]
}

/// Writes the bytes of a node outside the last column plus twice those of its partner.
pub fn uncouple_node(
    g: Geometry,
    stripe: &[u8],
    node: u32,
    z: u32,
    at: usize,
    theirs: &[u8],
    values: &mut [u8],
)
    requires whole { length stripe.now ≡ stripe_length g }
    requires layer { z < layer_count g }
    requires within { at + length theirs.now ≤ (row_count g - z % row_count g) * g.width }
    requires values_len { length values.old ≡ length theirs.now }
    ensures { (b : ℕ) → b < length theirs.now → slice_index values.new b
        ≡ bit_xor (data_byte g stripe.now (at + b) node z) (product gamma (slice_index theirs.now b)) }
{
    if node < g.k() {
        uncouple(piece(g, stripe, node, z, at, theirs.len()), theirs, values);
    } else {
        double(theirs, values);
    }
}

// Writes the bytes of a node outside the last column, which are 0 at a virtual one.
fn write_own(g: Geometry, stripe: &[u8], node: u32, z: u32, at: usize, out: &mut [u8])
    requires whole { length stripe.now ≡ stripe_length g }
    requires layer { z < layer_count g }
    requires within { at + length out.old ≤ (row_count g - z % row_count g) * g.width }
    ensures { (b : ℕ) → b < length out.old → slice_index out.new b ≡ data_byte g stripe.now (at + b) node z }
{
    if node < g.k() {
        out.copy_from_slice(piece(g, stripe, node, z, at, out.len()));
    } else {
        out.fill(0);
    }
}

// Writes the uncoupled value of the node in row `x` of a column other than the last, of which this is the partner, in the bytes from `at` on of
// layer `z`.
fn write_value(
    g: Geometry,
    stripe: &[u8],
    column: u32,
    x: u32,
    z: u32,
    partner: Vertex,
    at: usize,
    out: &mut [u8],
)
    requires whole { length stripe.now ≡ stripe_length g }
    requires known { column * row_count g + row_count g ≤ first_parity g }
    requires row { x < row_count g }
    requires layer { z < layer_count g }
    requires partner { vertex_at g partner.x partner.y partner.z ≡ partner_of (vertex_at g x column z) }
    requires other_row { partner.x < row_count g }
    requires other_layer { partner.z < layer_count g }
    requires within { at + length out.old ≤ (row_count g - z % row_count g) * g.width }
    ensures { (b : ℕ) → b < length out.old →
        slice_index out.new b ≡ uncoupled_value g stripe.now (at + b) (column * row_count g + x) (layer_of g z) }
{
    let first = column * g.q();
    let node = first + x;
    let other = first + partner.x;
    if partner.x == x {
        write_own(g, stripe, node, z, at, out);
    } else if other >= g.k() {
        // the partner is of a virtual node
        write_own(g, stripe, node, z, at, out);
    } else {
        let theirs = piece(g, stripe, other, partner.z, at, out.len());
        uncouple_node(g, stripe, node, z, at, theirs, out);
    }
}

/// Writes the uncoupled values of the nodes of a column other than the last in the bytes from `at` on of layer `z`, a row for each.
pub fn write_column(
    g: Geometry,
    stripe: &[u8],
    column: u32,
    z: u32,
    at: usize,
    len: usize,
    values: &mut [u8],
)
    requires whole { length stripe.now ≡ stripe_length g }
    requires known { column + 1 < column_count g }
    requires layer { z < layer_count g }
    requires within { at + len ≤ (row_count g - z % row_count g) * g.width }
    requires values_len { length values.old ≡ row_count g * len }
    ensures { HoldsPieces len (row_count g) (λ x b. uncoupled_value g stripe.now (at + b) (column * row_count g + x) (layer_of g z)) values.new }
{
    // all nodes of the column have a partner in the row that the layer's digit names
    let stride = g.stride(column);
    let digit = z / stride % g.q();
    for x in 0..g.q() {
        let from = x as usize * len;
        let partner = Vertex {
            x: digit,
            y: column,
            z: z - digit * stride + x * stride,
        };
        write_value(
            g,
            stripe,
            column,
            x,
            z,
            partner,
            at,
            &mut values[from..from + len],
        );
    }
}
