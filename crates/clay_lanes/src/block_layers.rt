//! The uncoupled values of the erased nodes in a block of bytes, layer by layer.
ghost use Rattle.std.specs.Prelude.{◌≡◌, ℕ, ◌+◌, ◌*◌, ◌<◌, ◌≤◌, length, slice_index, slice_index_or, true, false, Contains};
ghost use Rattle.clay_grid.specs.Shape.{row_count, node_count, layer_count};
ghost use Rattle.clay_lanes.specs.Recovered.{IsLanePlan, HoldsLayersOf, AreNextOf, AreRowsOfLayersFor};
ghost use Rattle.clay_lanes.specs.Blocks.{IsBlock, rows_length, solved_length, IsCoupledIn, IsUncoupledIn, IsPresentIn, HoldsColumnIn, HoldsNodesIn, HoldsRowsIn, HoldsLayerIn, HoldsLayersIn, HoldsLowerIn, AreNextIn, AreRowsOfLayersIn};

use crate::block::Block;
use crate::recovery_plan::DecodePlan;
use clay_grid::Geometry;
use clay_kernels::{column_room, uncouple, uncouple_from};
use clay_model::partner_of;
use generator_matrix::{add_column, end_column};
use lane_repair::{ChunkView, is_column_erased};

// The place of an erased node among them.
fn place_of(points: &[u8], node: u32) -> usize
    requires { Contains points.now node }
    ensures within { result < length points.now }
    ensures place { slice_index points.now result ≡ node }
{
    for (place, point) in points.iter().enumerate() {
        if u32::from(*point) == node {
            return place;
        }
    }
    unreachable!()
}

// Whether the erased nodes are those of one column.
fn are_column(points: &[u8], q: u32) -> bool
    requires some { 0 < q }
    requires few { q ≤ 8 }
    ensures { result ≡ true → length points.now ≡ q }
{
    if points.len() != q as usize {
        return false;
    }
    let first = u32::from(points[0]);
    let last = u32::from(points[points.len() - 1]);
    first % q == 0 && last + 1 == first + q
}

impl<'a> Block<'a> {
    /// The block's bytes of subchunk `z` of a node that is not erased.
    pub(crate) fn piece(&self, node: u32, z: u32) -> &'a [u8]
        requires block { IsBlock self.now }
        requires node { node < node_count self.now.g }
        requires there { slice_index_or self.now.plan.now.erased.items node false ≡ false }
        requires layer { z < layer_count self.now.g }
        ensures len { length result.now ≡ self.now.len }
        ensures value { IsCoupledIn self.now node z result.now }
    {
        let start = z as usize * self.g.w() as usize + self.at;
        match self.g.chunk_of_node(node) {
            Some(chunk) => match self.have.get(chunk as usize) {
                Some(bytes) => &bytes[start..start + self.len],
                None => &self.plan.zeros[..self.len],
            },
            None => &self.plan.zeros[..self.len],
        }
    }

    /// The uncoupled value of an erased node in a layer that is solved.
    pub(crate) fn solved_piece<'s>(&self, solved: &'s [u8], node: u32, z: u32) -> &'s [u8]
        requires block { IsBlock self.now }
        requires solved_len { length solved.now ≡ solved_length self.now }
        requires node { node < node_count self.now.g }
        requires erased { slice_index_or self.now.plan.now.erased.items node false ≡ true }
        requires layer { z < layer_count self.now.g }
        requires holds { HoldsLayerIn self.now z solved.now }
        ensures len { length result.now ≡ self.now.len }
        ensures value { IsUncoupledIn self.now node z result.now }
    {
        let points = &self.plan.points;
        let start = (z as usize * points.len() + place_of(points, node)) * self.len;
        &solved[start..start + self.len]
    }

    // Writes the uncoupled value of a node that is not erased in layer `z`, where the layers of lower score are solved.
    fn uncouple_node(&self, solved: &[u8], node: u32, z: u32, out: &mut [u8])
        requires block { IsBlock self.now }
        requires solved_len { length solved.now ≡ solved_length self.now }
        requires lower { HoldsLowerIn self.now z solved.now }
        requires node { node < node_count self.now.g }
        requires there { slice_index_or self.now.plan.now.erased.items node false ≡ false }
        requires layer { z < layer_count self.now.g }
        requires out_len { length out.old ≡ self.now.len }
        ensures { IsUncoupledIn self.now node z out.new }
    {
        let own = self.piece(node, z);
        let partner = partner_of(self.g, node, z);
        if partner.node == node {
            out.copy_from_slice(own);
        } else if self.plan.erased[partner.node as usize] {
            // the partner's layer has a score one less
            let theirs = self.solved_piece(solved, partner.node, partner.layer);
            uncouple_from(own, theirs, out);
        } else {
            uncouple(own, self.piece(partner.node, partner.layer), out);
        }
    }

    // Writes the uncoupled values of the erased nodes in layer `z`, a row for each, where the layers of lower score are solved, from one
    // node after another.
    fn solve_by_nodes(&self, solved: &[u8], z: u32, values: &mut [u8], rows: &mut [u8])
        requires block { IsBlock self.now }
        requires solved_len { length solved.now ≡ solved_length self.now }
        requires lower { HoldsLowerIn self.now z solved.now }
        requires layer { z < layer_count self.now.g }
        requires values_len { length values.old ≡ self.now.len }
        requires rows_len { length rows.old ≡ rows_length self.now }
        ensures { HoldsRowsIn self.now z rows.new }
    {
        rows.fill(0);
        for node in 0..self.g.nodes() {
            if !self.plan.erased[node as usize] {
                self.uncouple_node(solved, node, z, values);
                self.plan.generator.add(node as usize, values, rows);
            }
        }
    }

    // Writes the uncoupled value of a node in layer `z`, where the layers of lower score are solved; zeros if it is erased.
    fn write_value(&self, solved: &[u8], node: u32, z: u32, out: &mut [u8])
        requires block { IsBlock self.now }
        requires solved_len { length solved.now ≡ solved_length self.now }
        requires lower { HoldsLowerIn self.now z solved.now }
        requires node { node < node_count self.now.g }
        requires layer { z < layer_count self.now.g }
        requires out_len { length out.old ≡ self.now.len }
        ensures { IsPresentIn self.now node z out.new }
    {
        if self.plan.erased[node as usize] {
            out.fill(0);
        } else {
            self.uncouple_node(solved, node, z, out);
        }
    }

    // Writes the uncoupled values of the nodes of a column in layer `z`, a row for each, where the layers of lower score are solved.
    fn write_nodes(&self, solved: &[u8], first: u32, z: u32, values: &mut [u8])
        requires block { IsBlock self.now }
        requires solved_len { length solved.now ≡ solved_length self.now }
        requires lower { HoldsLowerIn self.now z solved.now }
        requires nodes { first + row_count self.now.g ≤ node_count self.now.g }
        requires layer { z < layer_count self.now.g }
        requires values_len { length values.old ≡ row_count self.now.g * self.now.len }
        ensures { HoldsNodesIn self.now first z values.new }
    {
        let len = self.len;
        for x in 0..self.g.q() {
            let from = x as usize * len;
            let out = &mut values[from..from + len];
            self.write_value(solved, first + x, z, out);
        }
    }

    // Whether all nodes of a column are erased.
    fn is_erased_column(&self, first: u32) -> bool
        requires block { IsBlock self.now }
        requires nodes { first + row_count self.now.g ≤ node_count self.now.g }
        ensures { result ≡ true → (x : ℕ) → x < row_count self.now.g →
            slice_index_or self.now.plan.now.erased.items (first + x) false ≡ true }
    {
        for x in 0..self.g.q() {
            if !self.plan.erased[(first + x) as usize] {
                return false;
            }
        }
        true
    }

    // The same as `solve_by_nodes` where as many nodes are erased as a column has, the nodes of a column together, with room for the values of
    // one.
    fn solve_by_whole_columns(&self, solved: &[u8], z: u32, column: &mut [u8], rows: &mut [u8])
        requires block { IsBlock self.now }
        requires solved_len { length solved.now ≡ solved_length self.now }
        requires lower { HoldsLowerIn self.now z solved.now }
        requires points { length self.now.plan.now.points.items ≡ row_count self.now.g }
        requires layer { z < layer_count self.now.g }
        requires column_len { length column.old ≡ row_count self.now.g * self.now.len }
        requires rows_len { length rows.old ≡ rows_length self.now }
        ensures { HoldsRowsIn self.now z rows.new }
    {
        let len = self.len;
        rows.fill(0);
        for y in 0..self.g.t() {
            let first = y * self.g.q();
            if !self.is_erased_column(first) {
                self.write_nodes(solved, first, z, column);
                self.plan
                    .generator
                    .add_nodes(first as usize, len, column, rows);
            }
        }
    }

    // Writes the uncoupled values of the four nodes of a column in layer `z`, a row for each, where the layers of lower score are solved.
    fn write_column(&self, solved: &[u8], column: u32, z: u32, values: &mut [u8])
        requires block { IsBlock self.now }
        requires solved_len { length solved.now ≡ solved_length self.now }
        requires lower { HoldsLowerIn self.now z solved.now }
        requires column { column * 4 + 4 ≤ node_count self.now.g }
        requires layer { z < layer_count self.now.g }
        requires values_len { length values.old ≡ 4 * self.now.len }
        ensures { HoldsColumnIn self.now column z values.new }
    {
        let len = self.len;
        for x in 0..4u32 {
            let from = x as usize * len;
            let out = &mut values[from..from + len];
            self.write_value(solved, column * 4 + x, z, out);
        }
    }

    // The same as `solve_by_nodes` where the generator has the factors of columns, with room for the values of one.
    fn solve_by_columns(&self, solved: &[u8], z: u32, column: &mut [u8], rows: &mut [u8])
        requires block { IsBlock self.now }
        requires solved_len { length solved.now ≡ solved_length self.now }
        requires lower { HoldsLowerIn self.now z solved.now }
        requires columns { 0 < length self.now.plan.now.generator.columns }
        requires layer { z < layer_count self.now.g }
        requires column_len { length column.old ≡ 4 * self.now.len }
        requires rows_len { length rows.old ≡ rows_length self.now }
        ensures { HoldsRowsIn self.now z rows.new }
    {
        let len = self.len;
        let columns = self.plan.generator.columns();
        rows.fill(0);
        for y in 0..self.g.nodes() / 4 {
            if !is_column_erased(&self.plan.erased, y as usize) {
                self.write_column(solved, y, z, column);
                add_column(len, &columns[y as usize], column, rows);
            }
        }
        end_column(len, rows);
    }

    // Writes the uncoupled values of the erased nodes in layer `z`, a row for each, where the layers of lower score are solved, with room
    // for the values of a node and of a column.
    fn solve_layer(
        &self,
        solved: &[u8],
        z: u32,
        values: &mut [u8],
        column: &mut [u8],
        rows: &mut [u8],
    )
        requires block { IsBlock self.now }
        requires solved_len { length solved.now ≡ solved_length self.now }
        requires lower { HoldsLowerIn self.now z solved.now }
        requires layer { z < layer_count self.now.g }
        requires values_len { length values.old ≡ self.now.len }
        requires rows_len { length rows.old ≡ rows_length self.now }
        ensures { HoldsRowsIn self.now z rows.new }
    {
        let len = self.len;
        let q = self.g.q() as usize;
        if len > column.len() / 4 {
            self.solve_by_nodes(solved, z, values, rows);
        } else if q < 4 && are_column(&self.plan.points, self.g.q()) {
            // sums of the nodes of a column take fewer products
            let column = &mut column[..q * len];
            self.solve_by_whole_columns(solved, z, column, rows);
        } else if self.plan.generator.columns().is_empty() {
            self.solve_by_nodes(solved, z, values, rows);
        } else {
            let column = &mut column[..4 * len];
            self.solve_by_columns(solved, z, column, rows);
        }
    }

    /// Writes the uncoupled values of the erased nodes in each layer, with room for those of a node and for those of one layer.
    pub fn solve(&self, values: &mut [u8], rows: &mut [u8], solved: &mut [u8])
        requires block { IsBlock self.now }
        requires values_len { length values.old ≡ self.now.len }
        requires rows_len { length rows.old ≡ rows_length self.now }
        requires solved_len { length solved.old ≡ solved_length self.now }
        ensures { HoldsLayersIn self.now solved.new }
    {
        let part = rows.len();
        let mut column = column_room();
        for z in &self.plan.layers {
            self.solve_layer(solved, *z, values, &mut column, rows);
            let start = *z as usize * part;
            solved[start..start + part].copy_from_slice(rows);
        }
    }

    /// Writes the uncoupled values of the erased nodes in each of some layers, the rows of one layer behind those of the one before, where
    /// the layers of a lower score are solved.
    pub(crate) fn solve_some(&self, solved: &[u8], layers: &[u32], rows: &mut [u8])
        requires block { IsBlock self.now }
        requires short { self.now.len ≤ 4096 }
        requires solved_len { length solved.now ≡ solved_length self.now }
        requires next { AreNextIn self.now layers.now solved.now }
        requires rows_len { length rows.old ≡ length layers.now * rows_length self.now }
        ensures { AreRowsOfLayersIn self.now layers.now rows.new }
    {
        let part = self.plan.points.len() * self.len;
        let mut room = column_room();
        let mut column = column_room();
        let values = &mut room[..self.len];
        for (i, z) in layers.iter().enumerate() {
            let start = i * part;
            let out = &mut rows[start..start + part];
            self.solve_layer(solved, *z, values, &mut column, out);
        }
    }
}

/// Writes the uncoupled values of the erased nodes in the bytes from `at` on of some layers, as many bytes as `len`, the rows of one layer
/// behind those of the one before, where the layers of a lower score are solved.
pub fn solve_some_layers(
    g: Geometry,
    have: &[Option<Vec<u8>>],
    plan: &DecodePlan,
    at: usize,
    len: usize,
    solved: &[u8],
    layers: &[u32],
    rows: &mut [u8],
)
    requires plan { IsLanePlan g have.now plan.now }
    requires within { at + len ≤ g.width }
    requires short { len ≤ 4096 }
    requires solved_len { length solved.now ≡ layer_count g * (length plan.now.points.items * len) }
    requires next { AreNextOf g have.now plan.now at len layers.now solved.now }
    requires rows_len { length rows.old ≡ length layers.now * (length plan.now.points.items * len) }
    ensures { AreRowsOfLayersFor g have.now plan.now at len layers.now rows.new }
{
    let block = Block {
        g,
        have: ChunkView::Apart(have),
        plan,
        at,
        len,
    };
    block.solve_some(solved, layers, rows);
}

/// Writes the uncoupled values of the erased nodes in the bytes from `at` on of each layer.
pub fn solve_layers(
    g: Geometry,
    have: &[Option<Vec<u8>>],
    plan: &DecodePlan,
    at: usize,
    values: &mut [u8],
    rows: &mut [u8],
    solved: &mut [u8],
)
    requires plan { IsLanePlan g have.now plan.now }
    requires within { at + length values.old ≤ g.width }
    requires rows_len { length rows.old ≡ length plan.now.points.items * length values.old }
    requires solved_len { length solved.old ≡ layer_count g * (length plan.now.points.items * length values.old) }
    ensures { HoldsLayersOf g have.now plan.now at (length values.old) solved.new }
{
    let block = Block {
        g,
        have: ChunkView::Apart(have),
        plan,
        at,
        len: values.len(),
    };
    block.solve(values, rows, solved);
}
