//! Squares of short pieces: the subchunks of a group of layers, those of a node one behind another as in its chunk.
ghost use Rattle.std.specs.Prelude.{◌≡◌, ℕ, ◌+◌, ◌*◌, ◌/◌, ◌%◌, ◌<◌, ◌≤◌, slice_index, length};
ghost use Rattle.clay_field.specs.Coupling.{determinant_inverse};
ghost use Rattle.code_laws.specs.Columns.{HoldsPieces};
ghost use Rattle.clay_parity.specs.Short.{short_coupled};

use clay_kernels::{Products, couple};

// Writes the pieces of `width` bytes at place `x` of each row, one behind another.
fn gather(count: usize, width: usize, rows: &[u8], x: usize, out: &mut [u8])
    requires few { count ≤ 8 }
    requires narrow { width ≤ 65536 }
    requires rows_len { length rows.now ≡ count * (count * width) }
    requires place { x < count }
    requires out_len { length out.old ≡ count * width }
    ensures { HoldsPieces width count (λ d b. slice_index rows.now ((d * count + x) * width + b)) out.new }
{
    for d in 0..count {
        let from = (d * count + x) * width;
        let to = d * width;
        out[to..to + width].copy_from_slice(&rows[from..from + width]);
    }
}

/// Writes a square of `count` rows of as many pieces with its rows as columns.
pub fn transpose(count: usize, width: usize, rows: &[u8], out: &mut [u8])
    requires few { count ≤ 8 }
    requires narrow { width ≤ 65536 }
    requires rows_len { length rows.now ≡ count * (count * width) }
    requires out_len { length out.old ≡ count * (count * width) }
    ensures { HoldsPieces (count * width) count
        (λ x o. slice_index rows.now ((o / width * count + x) * width + o % width)) out.new }
{
    let len = count * width;
    for x in 0..count {
        gather(count, width, rows, x, &mut out[x * len..x * len + len]);
    }
}

/// Writes the coupled bytes of row `x`, with room for those of its partners.
pub fn couple_row(
    fifths: &Products,
    count: usize,
    width: usize,
    rows: &[u8],
    x: usize,
    partners: &mut [u8],
    out: &mut [u8],
)
    requires fifths { fifths.now ≡ determinant_inverse }
    requires few { count ≤ 8 }
    requires narrow { width ≤ 65536 }
    requires rows_len { length rows.now ≡ count * (count * width) }
    requires row { x < count }
    requires partners_len { length partners.old ≡ count * width }
    requires out_len { length out.old ≡ count * width }
    ensures { (o : ℕ) → o < count * width → slice_index out.new o ≡ short_coupled count width rows.now x o }
{
    let len = count * width;
    let own = &rows[x * len..x * len + len];
    gather(count, width, rows, x, partners);
    couple(fifths, own, partners, out);
    // the subchunk of the layer whose last digit is the row has no partner
    let at = x * width;
    out[at..at + width].copy_from_slice(&own[at..at + width]);
}
