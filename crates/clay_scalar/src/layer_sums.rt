//! The weighted sums of a layer's values at the nodes that aren't erased.
ghost use Rattle.std.specs.Prelude.{◌≡◌, ℕ, ◌+◌, ◌*◌, ◌<◌, ◌≤◌, slice_index, length, bit_xor};
ghost use Rattle.clay_field.specs.Field.{product, power_of};
ghost use Rattle.clay_grid.specs.Shape.{Shape, node_count};
ghost use Rattle.clay_model.specs.Sums.{weighted_sum, present_value};
ghost use Rattle.clay_model.specs.Points.{byte_of};

use clay_field::{add_scaled, mul};
use clay_grid::Geometry;

/// Writes, for each power below `count`, the weighted sum of the values of the nodes that are not
/// erased: `w` bytes a power, where `w` is the geometry's width.
///
/// The weight of a node's value in the sum of power `j` is the node's number to the power `j`, which
/// is 1 for `j` = 0, at node 0 too. `values` has `w` bytes for each node of the grid. Those of erased
/// nodes are not read. It takes no memory.
pub fn syndromes(g: Geometry, values: &[u8], erased: &[bool], count: u32, out: &mut [u8])
    requires nodes { length erased.now ≡ node_count g }
    requires values_len { length values.now ≡ node_count g * g.width }
    requires out_len { length out.old ≡ count * g.width }
    ensures { (j b : ℕ) → j < count → b < g.width
        → byte_of out.new g.width b j
        ≡ weighted_sum (node_count g) (present_value values.now erased.now g.width b) j }
{
    let w = g.w() as usize;
    out.fill(0);
    for (node, missing) in erased.iter().enumerate() {
        if !*missing {
            add_values(node as u8, &values[node * w..(node + 1) * w], count, out);
        }
    }
}

// Adds the values at a point to the sums of `count` powers: to part `j` of `sums` the power `j` of
// the point times the values.
fn add_values(point: u8, values: &[u8], count: u32, sums: &mut [u8])
    requires { length sums.old ≡ count * length values.now }
    ensures { (j b : ℕ) → j < count → b < length values.now
        → byte_of sums.new (length values.now) b j
        ≡ bit_xor
        (byte_of sums.old (length values.now) b j)
        (product (power_of point j) (slice_index values.now b)) }
{
    let w = values.len();
    let mut power = 1;
    for j in 0..count as usize {
        add_scaled(&mut sums[j * w..(j + 1) * w], power, values);
        power = mul(point, power);
    }
}
