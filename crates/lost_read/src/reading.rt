//! The reading of a run, layer by layer.
ghost use Rattle.std.specs.Prelude.{◌≡◌, ◌≢◌, ◌+◌, ◌-◌, ◌*◌, ◌<◌, length, true, false};
ghost use Rattle.clay_grid.specs.Shape.{chunk_count, node_count, layer_count, node_of_chunk};
ghost use Rattle.lost_layers.specs.LostLayers.{is_wanted, is_solved, is_unknown};
ghost use Rattle.lost_layers.specs.LostPieces.{is_piece, lost_pieces_of};
ghost use Rattle.lost_read.specs.Plan.{StandsFor};
ghost use Rattle.lost_read.specs.Readings.{IsReading, IsCoupledIn, IsUncoupledIn, HoldsSumIn, IsMateIn, HoldsRunIn};

use crate::read_places::{bytes_at, place_of};
use crate::read_plan::ReadPlan;
use clay_kernels::{add_rows, cross, uncouple};
use clay_model::{Subchunk, partner_of};

/// A run's plan, and the pieces' bytes.
#[derive(Clone, Copy)]
pub(crate) struct Reading<'a> {
    pub(crate) plan: &'a ReadPlan,
    pub(crate) pieces: &'a [&'a [u8]],
}

impl<'a> Reading<'a> {
    // The place of a subchunk among the pieces.
    fn place(&self, chunk: u32, layer: u32) -> usize
        requires reading { IsReading self.now }
        requires chunk { chunk < chunk_count self.now.plan.now.placed.g }
        requires layer { layer < layer_count self.now.plan.now.placed.g }
        requires read { is_piece self.now.plan.now.placed.g self.now.plan.now.placed.run (node_of_chunk self.now.plan.now.placed.g chunk) layer ≡ true }
        ensures { StandsFor (lost_pieces_of self.now.plan.now.placed.g self.now.plan.now.placed.run) result chunk layer }
    {
        self.plan.places[(chunk * self.plan.placed.g.alpha() + layer) as usize]
    }

    // A subchunk that is read; zeros of a virtual node.
    fn piece(&self, node: u32, layer: u32) -> &'a [u8]
        requires reading { IsReading self.now }
        requires node { node < node_count self.now.plan.now.placed.g }
        requires layer { layer < layer_count self.now.plan.now.placed.g }
        requires read { is_piece self.now.plan.now.placed.g self.now.plan.now.placed.run node layer ≡ true }
        ensures len { length result.now ≡ self.now.plan.now.placed.g.width }
        ensures value { IsCoupledIn self.now node layer result.now }
    {
        let Some(chunk) = self.plan.placed.g.chunk_of_node(node) else {
            return &self.plan.zeros;
        };
        bytes_at(self.pieces, self.place(chunk, layer))
    }

    // Writes the value of a node that isn't erased, in a layer that is solved.
    fn uncouple_known(&self, node: u32, layer: u32, out: &mut [u8])
        requires reading { IsReading self.now }
        requires node { node < node_count self.now.plan.now.placed.g }
        requires layer { layer < layer_count self.now.plan.now.placed.g }
        requires solved { is_solved self.now.plan.now.placed.g self.now.plan.now.placed.run layer ≡ true }
        requires known { is_unknown self.now.plan.now.placed.g self.now.plan.now.placed.run layer node ≡ false }
        requires out_len { length out.old ≡ self.now.plan.now.placed.g.width }
        ensures { IsUncoupledIn self.now node layer out.new }
    {
        let own = self.piece(node, layer);
        let partner = partner_of(self.plan.placed.g, node, layer);
        if partner.node == node {
            out.copy_from_slice(own);
        } else {
            uncouple(own, self.piece(partner.node, partner.layer), out);
        }
    }

    // Adds to a sum a node's value times its factor in the value of the erased node at a place. An erased one adds nothing.
    fn add_value(&self, place: usize, node: u32, layer: u32, value: &mut [u8], sum: &mut [u8])
        requires reading { IsReading self.now }
        requires place { place < length self.now.plan.now.points.items }
        requires node { node < node_count self.now.plan.now.placed.g }
        requires layer { layer < layer_count self.now.plan.now.placed.g }
        requires solved { is_solved self.now.plan.now.placed.g self.now.plan.now.placed.run layer ≡ true }
        requires value_len { length value.old ≡ self.now.plan.now.placed.g.width }
        requires sum_len { length sum.old ≡ self.now.plan.now.placed.g.width }
        requires sum { HoldsSumIn self.now layer place node sum.old }
        ensures { HoldsSumIn self.now layer place (node + 1) sum.new }
    {
        if self.plan.erased[node as usize] {
            return;
        }
        self.uncouple_known(node, layer, value);
        let factors = self.plan.generator.of_node(node as usize);
        add_rows(&factors[place..place + 1], value, sum);
    }

    // Writes the value of an erased node in a layer that is solved, with room for another one's.
    fn solve(&self, node: u32, layer: u32, value: &mut [u8], sum: &mut [u8])
        requires reading { IsReading self.now }
        requires node { node < node_count self.now.plan.now.placed.g }
        requires layer { layer < layer_count self.now.plan.now.placed.g }
        requires solved { is_solved self.now.plan.now.placed.g self.now.plan.now.placed.run layer ≡ true }
        requires unknown { is_unknown self.now.plan.now.placed.g self.now.plan.now.placed.run layer node ≡ true }
        requires value_len { length value.old ≡ self.now.plan.now.placed.g.width }
        requires sum_len { length sum.old ≡ self.now.plan.now.placed.g.width }
        ensures { IsUncoupledIn self.now node layer sum.new }
    {
        let place = place_of(&self.plan.points, node);
        sum.fill(0);
        for other in 0..self.plan.placed.g.nodes() {
            self.add_value(place, other, layer, value, sum);
        }
    }

    // Writes a wanted subchunk that is paired with another node's, from a value of the two that is solved for.
    fn write_paired(&self, z: u32, mate: Subchunk, value: &mut [u8], sum: &mut [u8], out: &mut [u8])
        requires reading { IsReading self.now }
        requires layer { z < layer_count self.now.plan.now.placed.g }
        requires wanted { is_wanted self.now.plan.now.placed.run z ≡ true }
        requires mate { IsMateIn self.now z mate }
        requires other { mate.node ≢ self.now.plan.now.placed.node }
        requires value_len { length value.old ≡ self.now.plan.now.placed.g.width }
        requires sum_len { length sum.old ≡ self.now.plan.now.placed.g.width }
        requires out_len { length out.old ≡ self.now.plan.now.placed.g.width }
        ensures { IsCoupledIn self.now self.now.plan.now.placed.node z out.new }
    {
        let plan = self.plan;
        let theirs = self.piece(mate.node, mate.layer);
        if plan.placed.is_solved(z) {
            self.solve(plan.placed.node, z, value, sum);
            uncouple(sum, theirs, out);
        } else {
            self.solve(mate.node, mate.layer, value, sum);
            cross(&plan.halves, sum, theirs, out);
        }
    }

    // Writes a wanted subchunk, with room for two values.
    fn write_layer(&self, z: u32, value: &mut [u8], sum: &mut [u8], out: &mut [u8])
        requires reading { IsReading self.now }
        requires layer { z < layer_count self.now.plan.now.placed.g }
        requires wanted { is_wanted self.now.plan.now.placed.run z ≡ true }
        requires value_len { length value.old ≡ self.now.plan.now.placed.g.width }
        requires sum_len { length sum.old ≡ self.now.plan.now.placed.g.width }
        requires out_len { length out.old ≡ self.now.plan.now.placed.g.width }
        ensures { IsCoupledIn self.now self.now.plan.now.placed.node z out.new }
    {
        let placed = self.plan.placed;
        let mate = partner_of(placed.g, placed.node, z);
        if mate.node == placed.node {
            self.solve(placed.node, z, value, out);
        } else {
            self.write_paired(z, mate, value, sum, out);
        }
    }

    /// Writes the wanted subchunks, with room for two values.
    pub(crate) fn write_run(&self, value: &mut [u8], sum: &mut [u8], out: &mut [u8])
        requires reading { IsReading self.now }
        requires value_len { length value.old ≡ self.now.plan.now.placed.g.width }
        requires sum_len { length sum.old ≡ self.now.plan.now.placed.g.width }
        requires out_len { length out.old ≡ (self.now.plan.now.placed.run.to - self.now.plan.now.placed.run.from) * self.now.plan.now.placed.g.width }
        ensures { HoldsRunIn self.now (self.now.plan.now.placed.run.to - self.now.plan.now.placed.run.from) out.new }
    {
        let run = self.plan.placed.run;
        let w = self.plan.placed.g.w() as usize;
        for i in 0..run.to - run.from {
            let at = i as usize * w;
            self.write_layer(run.from + i, value, sum, &mut out[at..at + w]);
        }
    }
}
