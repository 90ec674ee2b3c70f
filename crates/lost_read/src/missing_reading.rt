//! The reading of a run: the values of unknown nodes layer by layer, and the wanted subchunks of them.
ghost use Rattle.std.specs.Prelude.{◌≡◌, ◌≢◌, ◌-◌, ◌*◌, ◌<◌, length, true, false, OnOk, OnErr};
ghost use Rattle.clay_grid.specs.Shape.{chunk_count, node_count, layer_count, node_of_chunk};
ghost use Rattle.clay_model.specs.Partners.{ArePartners};
ghost use Rattle.lost_layers.specs.LostLayers.{is_wanted};
ghost use Rattle.lost_read.specs.Plan.{StandsFor};
ghost use Rattle.lost_layers.specs.Erased.{is_missing, is_unknown};
ghost use Rattle.lost_layers.specs.ErasedLayers.{is_solved};
ghost use Rattle.lost_layers.specs.ErasedPieces.{is_piece, pieces_of};
ghost use Rattle.lost_read.specs.MissingReadings.{run_of, IsReading, IsCoupledIn, IsUncoupledIn, IsMateIn, HoldsRunIn, IsRunIn};
ghost use Rattle.lost_read.specs.Values.{values_length, HoldsRowsIn, AddsNodeIn, HoldsLayerIn, HoldsLowerIn, HoldsAllIn, AddsLayerIn};

use crate::missing_plan::MissingReadPlan;
use crate::read_places::{bytes_at, place_of};
use clay_kernels::{couple, cross, uncouple, uncouple_from, zeros};
use clay_model::{Subchunk, partner_of};
use lost_layers::SolvedRun;
use std::alloc::{AllocError, Global};

/// A run with its plan, and the pieces' bytes.
#[derive(Clone, Copy)]
pub(crate) struct Reading<'a> {
    pub(crate) run: &'a SolvedRun<'a>,
    pub(crate) plan: &'a MissingReadPlan,
    pub(crate) pieces: &'a [&'a [u8]],
}

impl<'a> Reading<'a> {
    // The place of a subchunk among the pieces.
    fn place(&self, chunk: u32, layer: u32) -> usize
        requires reading { IsReading self.now }
        requires chunk { chunk < chunk_count (run_of self.now).g }
        requires layer { layer < layer_count (run_of self.now).g }
        requires read { is_piece (run_of self.now) (node_of_chunk (run_of self.now).g chunk) layer ≡ true }
        ensures { StandsFor (pieces_of (run_of self.now)) result chunk layer }
    {
        self.plan.places[(chunk * self.run.placed.g.alpha() + layer) as usize]
    }

    // A subchunk that is read; zeros of a virtual node.
    fn piece(&self, node: u32, layer: u32) -> &'a [u8]
        requires reading { IsReading self.now }
        requires node { node < node_count (run_of self.now).g }
        requires layer { layer < layer_count (run_of self.now).g }
        requires read { is_piece (run_of self.now) node layer ≡ true }
        ensures len { length result.now ≡ (run_of self.now).g.width }
        ensures value { IsCoupledIn self.now node layer result.now }
    {
        let Some(chunk) = self.run.placed.g.chunk_of_node(node) else {
            return &self.plan.zeros;
        };
        bytes_at(self.pieces, self.place(chunk, layer))
    }

    // The value of an unknown node in a layer that is solved.
    fn value<'b>(&self, values: &'b [u8], node: u32, layer: u32) -> &'b [u8]
        requires reading { IsReading self.now }
        requires node { node < node_count (run_of self.now).g }
        requires unknown { is_unknown (run_of self.now) node ≡ true }
        requires layer { layer < layer_count (run_of self.now).g }
        requires solved { is_solved (run_of self.now) layer ≡ true }
        requires values_len { length values.now ≡ values_length self.now }
        requires holds { HoldsLayerIn self.now layer values.now }
        ensures len { length result.now ≡ (run_of self.now).g.width }
        ensures value { IsUncoupledIn self.now node layer result.now }
    {
        let w = self.run.placed.g.w() as usize;
        let rank = self.plan.ranks[layer as usize] as usize;
        let at = (rank * self.plan.points.len() + place_of(&self.plan.points, node)) * w;
        &values[at..at + w]
    }

    // Writes the value of a known node in a layer to solve, where another node is its partner.
    fn uncouple_node(&self, values: &[u8], node: u32, layer: u32, partner: Subchunk, out: &mut [u8])
        requires reading { IsReading self.now }
        requires values_len { length values.now ≡ values_length self.now }
        requires lower { HoldsLowerIn self.now layer values.now }
        requires node { node < node_count (run_of self.now).g }
        requires known { is_unknown (run_of self.now) node ≡ false }
        requires layer { layer < layer_count (run_of self.now).g }
        requires solved { is_solved (run_of self.now) layer ≡ true }
        requires partners { ArePartners (run_of self.now).g node layer partner.node partner.layer }
        requires in_grid { partner.node < node_count (run_of self.now).g }
        requires in_layers { partner.layer < layer_count (run_of self.now).g }
        requires other { partner.node ≢ node }
        requires out_len { length out.old ≡ (run_of self.now).g.width }
        ensures { IsUncoupledIn self.now node layer out.new }
    {
        let own = self.piece(node, layer);
        if self.run.is_unknown(partner.node) {
            // the partner's layer has a score one less
            uncouple_from(own, self.value(values, partner.node, partner.layer), out);
        } else {
            uncouple(own, self.piece(partner.node, partner.layer), out);
        }
    }

    // Adds to the rows of the unknown nodes what a known node adds in a layer to solve, with room for its value.
    fn add_node(&self, values: &[u8], node: u32, layer: u32, value: &mut [u8], rows: &mut [u8])
        requires reading { IsReading self.now }
        requires values_len { length values.now ≡ values_length self.now }
        requires lower { HoldsLowerIn self.now layer values.now }
        requires node { node < node_count (run_of self.now).g }
        requires known { is_unknown (run_of self.now) node ≡ false }
        requires layer { layer < layer_count (run_of self.now).g }
        requires solved { is_solved (run_of self.now) layer ≡ true }
        requires value_len { length value.old ≡ (run_of self.now).g.width }
        requires rows_len { length rows.old ≡ length self.now.plan.now.points.items * (run_of self.now).g.width }
        ensures { AddsNodeIn self.now layer node rows.old rows.new }
    {
        let partner = partner_of(self.run.placed.g, node, layer);
        if partner.node == node {
            let own = self.piece(node, layer);
            self.plan.generator.add(node as usize, own, rows);
        } else {
            self.uncouple_node(values, node, layer, partner, value);
            self.plan.generator.add(node as usize, value, rows);
        }
    }

    // Writes the values of the unknown nodes in a layer to solve, a row for each, with room for the value of a node.
    fn solve_layer(&self, values: &[u8], layer: u32, value: &mut [u8], rows: &mut [u8])
        requires reading { IsReading self.now }
        requires values_len { length values.now ≡ values_length self.now }
        requires lower { HoldsLowerIn self.now layer values.now }
        requires layer { layer < layer_count (run_of self.now).g }
        requires solved { is_solved (run_of self.now) layer ≡ true }
        requires value_len { length value.old ≡ (run_of self.now).g.width }
        requires rows_len { length rows.old ≡ length self.now.plan.now.points.items * (run_of self.now).g.width }
        ensures { HoldsRowsIn self.now layer rows.new }
    {
        rows.fill(0);
        for node in 0..self.run.placed.g.nodes() {
            if !self.run.is_unknown(node) {
                self.add_node(values, node, layer, value, rows);
            }
        }
    }

    // Writes the rows of a layer to their place among the values.
    fn put_rows(&self, layer: u32, rows: &[u8], values: &mut [u8])
        requires reading { IsReading self.now }
        requires values_len { length values.old ≡ values_length self.now }
        requires layer { layer < layer_count (run_of self.now).g }
        requires solved { is_solved (run_of self.now) layer ≡ true }
        requires rows_len { length rows.now ≡ length self.now.plan.now.points.items * (run_of self.now).g.width }
        requires rows { HoldsRowsIn self.now layer rows.now }
        ensures { AddsLayerIn self.now layer values.old values.new }
    {
        let at = self.plan.ranks[layer as usize] as usize * rows.len();
        values[at..at + rows.len()].copy_from_slice(rows);
    }

    // Solves a layer, if it is to be solved, with room for the value of a node and for a layer's rows.
    fn add_layer(&self, layer: u32, value: &mut [u8], rows: &mut [u8], values: &mut [u8])
        requires reading { IsReading self.now }
        requires values_len { length values.old ≡ values_length self.now }
        requires lower { HoldsLowerIn self.now layer values.old }
        requires layer { layer < layer_count (run_of self.now).g }
        requires value_len { length value.old ≡ (run_of self.now).g.width }
        requires rows_len { length rows.old ≡ length self.now.plan.now.points.items * (run_of self.now).g.width }
        ensures { AddsLayerIn self.now layer values.old values.new }
    {
        if !self.run.is_solved(layer) {
            return;
        }
        self.solve_layer(values, layer, value, rows);
        self.put_rows(layer, rows, values);
    }

    // Solves the layers, each after those of a lower score, with room for the value of a node and for a layer's rows.
    fn solve(&self, value: &mut [u8], rows: &mut [u8], values: &mut [u8])
        requires reading { IsReading self.now }
        requires values_len { length values.old ≡ values_length self.now }
        requires value_len { length value.old ≡ (run_of self.now).g.width }
        requires rows_len { length rows.old ≡ length self.now.plan.now.points.items * (run_of self.now).g.width }
        ensures { HoldsAllIn self.now values.new }
    {
        for layer in &self.plan.order {
            self.add_layer(*layer, value, rows, values);
        }
    }

    // Writes a wanted subchunk whose partner's chunk is there.
    fn write_paired(&self, values: &[u8], z: u32, mate: Subchunk, out: &mut [u8])
        requires reading { IsReading self.now }
        requires values_len { length values.now ≡ values_length self.now }
        requires values { HoldsAllIn self.now values.now }
        requires layer { z < layer_count (run_of self.now).g }
        requires wanted { is_wanted (run_of self.now).run z ≡ true }
        requires mate { IsMateIn self.now z mate }
        requires other { mate.node ≢ self.now.run.now.placed.node }
        requires there { is_missing (run_of self.now) mate.node ≡ false }
        requires out_len { length out.old ≡ (run_of self.now).g.width }
        ensures { IsCoupledIn self.now self.now.run.now.placed.node z out.new }
    {
        let theirs = self.piece(mate.node, mate.layer);
        if self.run.is_unknown(mate.node) {
            let solved = self.value(values, mate.node, mate.layer);
            cross(&self.plan.halves, solved, theirs, out);
        } else {
            uncouple(self.value(values, self.run.placed.node, z), theirs, out);
        }
    }

    // Writes a wanted subchunk.
    fn write_layer(&self, values: &[u8], z: u32, out: &mut [u8])
        requires reading { IsReading self.now }
        requires values_len { length values.now ≡ values_length self.now }
        requires values { HoldsAllIn self.now values.now }
        requires layer { z < layer_count (run_of self.now).g }
        requires wanted { is_wanted (run_of self.now).run z ≡ true }
        requires out_len { length out.old ≡ (run_of self.now).g.width }
        ensures { IsCoupledIn self.now self.now.run.now.placed.node z out.new }
    {
        let node = self.run.placed.node;
        let mate = partner_of(self.run.placed.g, node, z);
        if mate.node == node {
            out.copy_from_slice(self.value(values, node, z));
        } else if self.run.is_missing(mate.node) {
            let own = self.value(values, node, z);
            let theirs = self.value(values, mate.node, mate.layer);
            couple(&self.plan.fifths, own, theirs, out);
        } else {
            self.write_paired(values, z, mate, out);
        }
    }

    // Writes the wanted subchunks.
    fn write_run(&self, values: &[u8], out: &mut [u8])
        requires reading { IsReading self.now }
        requires values_len { length values.now ≡ values_length self.now }
        requires values { HoldsAllIn self.now values.now }
        requires out_len { length out.old ≡ ((run_of self.now).run.to - (run_of self.now).run.from) * (run_of self.now).g.width }
        ensures { HoldsRunIn self.now ((run_of self.now).run.to - (run_of self.now).run.from) out.new }
    {
        let run = self.run.placed.run;
        let w = self.run.placed.g.w() as usize;
        for i in 0..run.to - run.from {
            let at = i as usize * w;
            self.write_layer(values, run.from + i, &mut out[at..at + w]);
        }
    }

    /// Writes the wanted subchunks.
    pub(crate) fn read(&self, alloc: Global, out: &mut [u8]) -> Result<(), AllocError>
        requires reading { IsReading self.now }
        requires out_len { length out.old ≡ ((run_of self.now).run.to - (run_of self.now).run.from) * (run_of self.now).g.width }
        ensures read { OnOk result (IsRunIn self.now out.new) }
        ensures kept { OnErr result (out.new ≡ out.old) }
    {
        let g = self.run.placed.g;
        let w = g.w() as usize;
        let part = self.plan.points.len() * w;
        let mut value = zeros(alloc, w)?;
        let mut rows = zeros(alloc, part)?;
        let mut values = zeros(alloc, self.plan.ranks[g.alpha() as usize] as usize * part)?;
        self.solve(&mut value, &mut rows, &mut values);
        self.write_run(&values, out);
        Ok(())
    }
}
