//! A choice of the nodes that count as unknown. Any choice will do (`missing_pieces_determine`); by this one little is read.
ghost use Rattle.std.specs.Prelude.{◌≡◌, ◌<◌, ◌≤◌, length, slice_index_or, false, IfOk, fold};
ghost use Rattle.clay_grid.specs.Shape.{column_count, node_count, layer_count};
ghost use Rattle.clay_grid.specs.Score.{count_below};
ghost use Rattle.lost_layers.specs.LostLayers.{unpaired_node};
ghost use Rattle.lost_layers.specs.Placing.{IsPlaced};
ghost use Rattle.lost_layers.specs.Unknown.{is_chosen, chosen, with_node, unknown_from};

use crate::erased::unpaired_in;
use crate::placed::PlacedRun;
use clay_grid::Geometry;
use std::alloc::{AllocError, Global};

/// Which nodes are marked first, while there is room.
#[derive(Clone, Copy, PartialEq, Eq)]
enum Choice {
    /// Those of the lost node's column, where it is solved for as a whole.
    OwnColumn,
    /// Those of columns of which the run's first layer leaves a missing node unpaired.
    MetColumns,
    /// Those that are paired in that layer: each takes two subchunks.
    Paired,
}

// How many nodes have a mark.
fn marked_count(marks: &[bool]) -> u32
    requires { length marks.now ≤ 24 }
    ensures { result ≡ count_below (length marks.now) (λ i. slice_index_or marks.now i false) }
{
    let mut count = 0;
    for mark in marks {
        count += u32::from(*mark);
    }
    count
}

// Marks a node, while there is room.
fn mark(g: Geometry, node: u32, marks: &mut [bool])
    requires marks { length marks.old ≡ node_count g }
    requires nodes { node_count g ≤ 24 }
    requires node { node < node_count g }
    ensures { marks.new ≡ with_node g marks.old node }
{
    if marked_count(marks) >= g.m() {
        return;
    }
    marks[node as usize] = true;
}

// Whether the node that a layer leaves unpaired in a column is missing.
fn is_met(g: Geometry, missing: &[bool], layer: u32, column: u32) -> bool
    requires nodes { length missing.now ≡ node_count g }
    requires layer { layer < layer_count g }
    requires column { column < column_count g }
    ensures { result ≡ slice_index_or missing.now (unpaired_node g column layer) false }
{
    missing[unpaired_in(g, column, layer) as usize]
}

// Whether a node is one of those that are marked first.
fn is_chosen(placed: &PlacedRun, missing: &[bool], choice: Choice, node: u32) -> bool
    requires placed { IsPlaced placed.now }
    requires some { placed.now.run.from < placed.now.run.to }
    requires nodes { length missing.now ≡ node_count placed.now.g }
    requires node { node < node_count placed.now.g }
    ensures { result ≡ is_chosen placed.now.g placed.now.run missing.now choice node }
{
    let layer = placed.run.from;
    let (row, column) = placed.g.place(node);
    match choice {
        Choice::OwnColumn => {
            column == placed.column
                && (placed.run.to > layer + 1 || is_met(placed.g, missing, layer, column))
        }
        Choice::MetColumns => is_met(placed.g, missing, layer, column),
        Choice::Paired => placed.g.digit(layer, column) != row,
    }
}

// Marks nodes of a choice, while there is room.
fn mark_more(placed: &PlacedRun, missing: &[bool], choice: Choice, marks: &mut [bool])
    requires placed { IsPlaced placed.now }
    requires some { placed.now.run.from < placed.now.run.to }
    requires nodes { length missing.now ≡ node_count placed.now.g }
    requires marks { length marks.old ≡ node_count placed.now.g }
    ensures { marks.new ≡ fold (with_node placed.now.g) marks.old (chosen placed.now.g placed.now.run missing.now choice) }
{
    for node in 0..placed.g.nodes() {
        if is_chosen(placed, missing, choice, node) {
            mark(placed.g, node, marks);
        }
    }
}

// Marks nodes of each choice, while there is room.
fn mark_all(placed: &PlacedRun, missing: &[bool], marks: &mut [bool])
    requires placed { IsPlaced placed.now }
    requires some { placed.now.run.from < placed.now.run.to }
    requires nodes { length missing.now ≡ node_count placed.now.g }
    requires marks { marks.old ≡ missing.now }
    ensures { marks.new ≡ unknown_from placed.now.g placed.now.run missing.now }
{
    mark_more(placed, missing, Choice::OwnColumn, marks);
    mark_more(placed, missing, Choice::MetColumns, marks);
    mark_more(placed, missing, Choice::Paired, marks);
}

/// The nodes that count as unknown for a run that isn't empty: the missing ones, and more while there is room.
pub fn unknown_nodes(
    alloc: Global,
    placed: &PlacedRun,
    missing: &[bool],
) -> Result<Vec<bool>, AllocError>
    requires placed { IsPlaced placed.now }
    requires some { placed.now.run.from < placed.now.run.to }
    requires nodes { length missing.now ≡ node_count placed.now.g }
    ensures { IfOk result (λ marks. marks.items ≡ unknown_from placed.now.g placed.now.run missing.now) }
{
    let mut marks = Vec::from_slice(alloc, missing)?;
    mark_all(placed, missing, &mut marks);
    Ok(marks)
}
