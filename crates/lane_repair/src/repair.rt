//! The lost chunk, from parts of the others, a block of bytes of a layer after another.
ghost use Rattle.std.specs.Prelude.{◌≡◌, ◌≢◌, ◌+◌, ◌*◌, ◌/◌, ◌<◌, ◌≤◌, length, min, IfOk, OnOk, OnErr};
ghost use Rattle.clay_grid.specs.Shape.{row_count, node_count, node_of_chunk, chunk_length};
ghost use Rattle.clay_model.specs.RepairParts.{AreParts, IsRebuilt};
ghost use Rattle.code_laws.specs.Rebuilt.{IsReadFor, with_digit};
ghost use Rattle.lane_repair.specs.Repaired.{IsRepairPlan};
ghost use Rattle.lane_repair.specs.Views.{pieces_of, HasRoom, ArePieces, IsRebuiltFrom};
ghost use Rattle.lane_repair.specs.ReadBlocks.{IsReadBlock, IsCoupledIn, IsUncoupledIn, IsPresentIn, HoldsColumnIn, HoldsNodesIn, HoldsRowsIn, HoldsSubchunksIn, KeepsBytesIn};

use crate::erased_column::is_column_erased;
use crate::read_block::ReadBlock;
use crate::repair_plan::{RepairPlan, layer_place, make_repair_plan};
use crate::view::ChunkView;
use clay_grid::Geometry;
use clay_kernels::{BLOCK, cross, uncouple, zeros};
use clay_model::partner_of;
use generator_matrix::{add_column, end_column};
use std::alloc::{AllocError, Global};

impl<'a> ReadBlock<'a> {
    // The block's bytes of a subchunk of a node other than the lost one, in a layer that is read.
    fn part_piece(&self, node: u32, z: u32) -> &'a [u8]
        requires block { IsReadBlock self.now }
        requires node { node < node_count self.now.g }
        requires other { node ≢ node_of_chunk self.now.g self.now.plan.now.lost }
        requires read { IsReadFor self.now.g self.now.plan.now.lost z }
        ensures len { length result.now ≡ self.now.len }
        ensures value { IsCoupledIn self.now node z result.now }
    {
        let start = layer_place(self.g, self.plan.column, z) as usize * self.g.w() as usize
            + self.at;
        match self.g.chunk_of_node(node) {
            Some(chunk) => match self.parts.get(chunk as usize) {
                Some(bytes) => &bytes[start..start + self.len],
                None => &self.plan.zeros[..self.len],
            },
            None => &self.plan.zeros[..self.len],
        }
    }

    // Writes the uncoupled value of a node outside the lost node's column, whose partner stands in a layer that is read too.
    fn uncouple_other(&self, node: u32, out: &mut [u8])
        requires block { IsReadBlock self.now }
        requires node { node < node_count self.now.g }
        requires column { node / row_count self.now.g ≢ self.now.plan.now.column }
        requires out_len { length out.old ≡ self.now.len }
        ensures { IsUncoupledIn self.now node out.new }
    {
        let own = self.part_piece(node, self.z);
        let partner = partner_of(self.g, node, self.z);
        if partner.node == node {
            out.copy_from_slice(own);
        } else {
            uncouple(own, self.part_piece(partner.node, partner.layer), out);
        }
    }

    // Writes the uncoupled values of the lost node's column, a row for each node, from one other node after another.
    fn solve_by_nodes(&self, values: &mut [u8], rows: &mut [u8])
        requires block { IsReadBlock self.now }
        requires values_len { length values.old ≡ self.now.len }
        requires rows_len { length rows.old ≡ row_count self.now.g * self.now.len }
        ensures { HoldsRowsIn self.now rows.new }
    {
        rows.fill(0);
        for node in 0..self.g.nodes() {
            if !self.plan.erased[node as usize] {
                self.uncouple_other(node, values);
                self.plan.generator.add(node as usize, values, rows);
            }
        }
    }

    // Writes the uncoupled value of a node; zeros if it stands in the lost node's column.
    fn write_value(&self, node: u32, out: &mut [u8])
        requires block { IsReadBlock self.now }
        requires node { node < node_count self.now.g }
        requires out_len { length out.old ≡ self.now.len }
        ensures { IsPresentIn self.now node out.new }
    {
        if self.plan.erased[node as usize] {
            out.fill(0);
        } else {
            self.uncouple_other(node, out);
        }
    }

    // Writes the uncoupled values of the nodes of a column, a row for each.
    fn write_nodes(&self, first: u32, values: &mut [u8])
        requires block { IsReadBlock self.now }
        requires nodes { first + row_count self.now.g ≤ node_count self.now.g }
        requires values_len { length values.old ≡ row_count self.now.g * self.now.len }
        ensures { HoldsNodesIn self.now first values.new }
    {
        let len = self.len;
        for x in 0..self.g.q() {
            let from = x as usize * len;
            let out = &mut values[from..from + len];
            self.write_value(first + x, out);
        }
    }

    // The same as `solve_by_nodes`, the nodes of a column together, with room for the values of one.
    fn solve_by_whole_columns(&self, column: &mut [u8], rows: &mut [u8])
        requires block { IsReadBlock self.now }
        requires column_len { length column.old ≡ row_count self.now.g * self.now.len }
        requires rows_len { length rows.old ≡ row_count self.now.g * self.now.len }
        ensures { HoldsRowsIn self.now rows.new }
    {
        let len = self.len;
        rows.fill(0);
        for y in 0..self.g.t() {
            if y != self.plan.column {
                let first = y * self.g.q();
                self.write_nodes(first, column);
                self.plan
                    .generator
                    .add_nodes(first as usize, len, column, rows);
            }
        }
    }

    // Writes the uncoupled values of the four nodes of a column, a row for each.
    fn write_column(&self, column: u32, values: &mut [u8])
        requires block { IsReadBlock self.now }
        requires column { column * 4 + 4 ≤ node_count self.now.g }
        requires values_len { length values.old ≡ 4 * self.now.len }
        ensures { HoldsColumnIn self.now column values.new }
    {
        let len = self.len;
        for x in 0..4u32 {
            let from = x as usize * len;
            let out = &mut values[from..from + len];
            self.write_value(column * 4 + x, out);
        }
    }

    // The same as `solve_by_nodes` where the generator has the factors of columns, with room for the values of one.
    fn solve_by_columns(&self, column: &mut [u8], rows: &mut [u8])
        requires block { IsReadBlock self.now }
        requires columns { 0 < length self.now.plan.now.generator.columns }
        requires column_len { length column.old ≡ 4 * self.now.len }
        requires rows_len { length rows.old ≡ row_count self.now.g * self.now.len }
        ensures { HoldsRowsIn self.now rows.new }
    {
        let len = self.len;
        let columns = self.plan.generator.columns();
        rows.fill(0);
        for y in 0..self.g.nodes() / 4 {
            if !is_column_erased(&self.plan.erased, y as usize) {
                self.write_column(y, column);
                add_column(len, &columns[y as usize], column, rows);
            }
        }
        end_column(len, rows);
    }

    // Writes the uncoupled values of the lost node's column, a row for each node, with room for the values of a node and of a column.
    fn solve(&self, values: &mut [u8], column: &mut [u8], rows: &mut [u8])
        requires block { IsReadBlock self.now }
        requires values_len { length values.old ≡ self.now.len }
        requires rows_len { length rows.old ≡ row_count self.now.g * self.now.len }
        ensures { HoldsRowsIn self.now rows.new }
    {
        let len = self.len;
        let q = self.g.q() as usize;
        if len > column.len() / 4 {
            self.solve_by_nodes(values, rows);
        } else if q < 4 {
            // sums of the nodes of a column take fewer products
            let column = &mut column[..q * len];
            self.solve_by_whole_columns(column, rows);
        } else if self.plan.generator.columns().is_empty() {
            self.solve_by_nodes(values, rows);
        } else {
            let column = &mut column[..4 * len];
            self.solve_by_columns(column, rows);
        }
    }

    // Writes the block's bytes of the lost chunk's subchunk in the layer that has the digit `x` of its column and differs from the block's
    // nowhere else, from the uncoupled value of row `x` of that column.
    fn write_subchunk(&self, x: u32, own: &[u8], out: &mut [u8])
        requires block { IsReadBlock self.now }
        requires row { x < row_count self.now.g }
        requires own_len { length own.now ≡ self.now.len }
        requires own { IsUncoupledIn self.now (self.now.plan.now.column * row_count self.now.g + x) own.now }
        requires out_len { length out.old ≡ self.now.len }
        ensures { IsCoupledIn self.now (node_of_chunk self.now.g self.now.plan.now.lost) (with_digit self.now.g self.now.plan.now.lost self.now.z x) out.new }
    {
        if x == self.plan.row {
            out.copy_from_slice(own);
        } else {
            // the lost node is the partner of the one in row x
            let theirs = self.part_piece(self.plan.column * self.g.q() + x, self.z);
            cross(&self.plan.halves, own, theirs, out);
        }
    }

    // Writes the block's bytes of the lost chunk's subchunks in the layers that differ from the block's at most in the digit of its column.
    fn write(&self, rows: &[u8], chunk: &mut [u8])
        requires block { IsReadBlock self.now }
        requires rows_len { length rows.now ≡ row_count self.now.g * self.now.len }
        requires rows { HoldsRowsIn self.now rows.now }
        requires chunk_len { length chunk.old ≡ chunk_length self.now.g }
        ensures written { HoldsSubchunksIn self.now chunk.new }
        ensures kept { KeepsBytesIn self.now chunk.old chunk.new }
    {
        let w = self.g.w() as usize;
        let len = self.len;
        for x in 0..self.g.q() {
            let from = x as usize * len;
            let start = self.g.partner(x, self.plan.column, self.z).z as usize * w + self.at;
            let own = &rows[from..from + len];
            self.write_subchunk(x, own, &mut chunk[start..start + len]);
        }
    }

    // The same, by parts of at most 4096 positions one after another, with room for one of these.
    fn write_parts(&self, values: &mut [u8], column: &mut [u8], rows: &mut [u8], chunk: &mut [u8])
        requires block { IsReadBlock self.now }
        requires values_len { length values.old ≡ min self.now.len 4096 }
        requires rows_len { length rows.old ≡ row_count self.now.g * min self.now.len 4096 }
        requires chunk_len { length chunk.old ≡ chunk_length self.now.g }
        ensures written { HoldsSubchunksIn self.now chunk.new }
        ensures kept { KeepsBytesIn self.now chunk.old chunk.new }
    {
        let q = self.g.q() as usize;
        let mut from = 0;
        while from < self.len {
            let len = BLOCK.min(self.len - from);
            let block = ReadBlock {
                g: self.g,
                parts: self.parts,
                plan: self.plan,
                z: self.z,
                at: self.at + from,
                len,
            };
            let part = &mut rows[..q * len];
            block.solve(&mut values[..len], column, part);
            block.write(part, chunk);
            from += len;
        }
    }
}

// Writes the lost chunk, with room for a block: of one node's values, of four nodes', and of its column's.
fn write_chunk(
    g: Geometry,
    parts: ChunkView<'_>,
    plan: &RepairPlan,
    values: &mut [u8],
    column: &mut [u8],
    rows: &mut [u8],
    chunk: &mut [u8],
)
    requires plan { IsRepairPlan g plan.now }
    requires parts { ArePieces g plan.now.lost (pieces_of parts) }
    requires room { HasRoom parts }
    requires values_len { length values.old ≡ min g.width 4096 }
    requires rows_len { length rows.old ≡ row_count g * min g.width 4096 }
    requires chunk_len { length chunk.old ≡ chunk_length g }
    ensures { IsRebuiltFrom g plan.now.lost (pieces_of parts.entry) chunk.new }
{
    for z in &plan.layers {
        let layer = ReadBlock {
            g,
            parts,
            plan,
            z: *z,
            at: 0,
            len: g.w() as usize,
        };
        layer.write_parts(values, column, rows, chunk);
    }
}

// Room for a block.
#[derive(Drop)]
struct Rooms {
    // Of the values of one node.
    values: Vec<u8>,
    // Of the values of the four nodes of a column.
    column: Vec<u8>,
    // Of the values of the lost node's column.
    rows: Vec<u8>,
}

impl Rooms {
    // Room for the largest block.
    fn new(alloc: Global, g: Geometry) -> Result<Rooms, AllocError>
        ensures values_len { IfOk result (λ rooms. length rooms.values.items ≡ min g.width 4096) }
        ensures rows_len { IfOk result (λ rooms. length rooms.rows.items ≡ row_count g * min g.width 4096) }
    {
        let len = BLOCK.min(g.w() as usize);
        let values = zeros(alloc, len)?;
        let column = zeros(alloc, 4 * len)?;
        let rows = zeros(alloc, g.q() as usize * len)?;
        Ok(Rooms {
            values,
            column,
            rows,
        })
    }
}

// Writes the lost chunk by its plan.
fn rebuild_by(
    alloc: Global,
    g: Geometry,
    parts: ChunkView<'_>,
    plan: &RepairPlan,
    chunk: &mut [u8],
) -> Result<(), AllocError>
    requires plan { IsRepairPlan g plan.now }
    requires parts { ArePieces g plan.now.lost (pieces_of parts) }
    requires room { HasRoom parts }
    requires chunk { length chunk.old ≡ chunk_length g }
    ensures rebuilt { OnOk result (IsRebuiltFrom g plan.now.lost (pieces_of parts.entry) chunk.new) }
    ensures kept { OnErr result (chunk.new ≡ chunk.old) }
{
    let mut rooms = Rooms::new(alloc, g)?;
    write_chunk(
        g,
        parts,
        plan,
        &mut rooms.values,
        &mut rooms.column,
        &mut rooms.rows,
        chunk,
    );
    Ok(())
}

/// Writes the lost chunk of the codeword whose other chunks have these parts, where one does.
///
/// `parts` has each other chunk's subchunks of the repair layers in rising order, which are read where they stand. Where no codeword has
/// these parts, some bytes are written. What `chunk` held before doesn't matter, and it stays as it is where memory is wanting.
pub fn rebuild_into(
    alloc: Global,
    g: Geometry,
    lost: u32,
    parts: ChunkView<'_>,
    chunk: &mut [u8],
) -> Result<(), AllocError>
    requires parts { ArePieces g lost (pieces_of parts) }
    requires room { HasRoom parts }
    requires chunk { length chunk.old ≡ chunk_length g }
    ensures rebuilt { OnOk result (IsRebuiltFrom g lost (pieces_of parts.entry) chunk.new) }
    ensures kept { OnErr result (chunk.new ≡ chunk.old) }
{
    let plan = make_repair_plan(alloc, g, lost)?;
    rebuild_by(alloc, g, parts, &plan, chunk)
}

// The same from parts that are vectors.
fn rebuild_apart(
    alloc: Global,
    g: Geometry,
    lost: u32,
    parts: &[Option<Vec<u8>>],
    chunk: &mut [u8],
) -> Result<(), AllocError>
    requires parts { AreParts g lost parts.now }
    requires chunk { length chunk.old ≡ chunk_length g }
    ensures rebuilt { OnOk result (IsRebuilt g lost parts.now chunk.new) }
    ensures kept { OnErr result (chunk.new ≡ chunk.old) }
{
    rebuild_into(alloc, g, lost, ChunkView::Apart(parts), chunk)?;
    Ok(())
}

/// The lost chunk, as `rebuild_into` writes it. `parts` has an entry for each chunk, `None` for the lost one.
pub fn rebuild(
    alloc: Global,
    g: Geometry,
    lost: u32,
    parts: &[Option<Vec<u8>>],
) -> Result<Vec<u8>, AllocError>
    requires { AreParts g lost parts.now }
    ensures { IfOk result (λ chunk. IsRebuilt g lost parts.now chunk.items) }
{
    let mut chunk = zeros(alloc, g.chunk_len() as usize)?;
    rebuild_apart(alloc, g, lost, parts, &mut chunk)?;
    Ok(chunk)
}
