//! The subchunks with which subchunks are coupled, by tables: a division costs more than the work on a short subchunk.
ghost use Rattle.std.specs.Prelude.{◌≡◌, ◌<◌, IfOk};
ghost use Rattle.clay_grid.specs.Shape.{column_count, node_count, layer_count};
ghost use Rattle.clay_grid.specs.Limits.{IsGeometry};
ghost use Rattle.clay_model.specs.Partners.{ArePartners};
ghost use Rattle.clay_aloof.specs.Partners.{IsPlace, HoldsPlaces, HoldsDigits, HoldsColumns};

use clay_grid::Geometry;
use clay_model::Subchunk;
use std::alloc::{AllocError, Global};
use std::marker::Model;

/// Where a node stands.
#[derive(Clone, Copy)]
pub struct NodePlace {
    /// Its column.
    pub column: u32,
    /// The first node of the column.
    pub first: u32,
    /// What its row counts as the column's digit in a layer's number.
    pub counts: u32,
}

/// A digit of a layer.
#[derive(Clone, Copy)]
pub struct Digit {
    pub value: u32,
    /// The layer's number with 0 in its place.
    pub rest: u32,
}

/// The places of a grid's nodes and the digits of its layers.
#[derive(Drop)]
pub struct Partners {
    grid: Geometry,
    places: Vec<NodePlace>,
    /// For each column its digit of each layer.
    columns: Vec<Vec<Digit>>,
}

impl Model for Partners {
    ghost use Rattle.clay_grid.specs.Shape.{Shape};
    ghost use Rattle.clay_aloof.specs.Partners.{HasTables};

    ghost Value = { Shape };

    ghost view = { λ p. p.grid };

    ghost invariant = { λ p. HasTables p.grid p.places.items p.columns.items };
}

// Where a node stands.
fn place_of(g: Geometry, node: u32) -> NodePlace
    requires { node < node_count g }
    ensures { IsPlace g node result }
{
    let (row, column) = g.place(node);
    NodePlace {
        column,
        first: column * g.q(),
        counts: row * g.stride(column),
    }
}

// The places of all nodes.
fn places_of_nodes(alloc: Global, g: Geometry) -> Result<Vec<NodePlace>, AllocError>
    ensures places { IfOk result (λ v. HoldsPlaces g (node_count g) v.items) }
    ensures geometry { IsGeometry g }
{
    let mut places = Vec::with_capacity(alloc, g.nodes() as usize)?;
    for node in 0..g.nodes() {
        places.push(place_of(g, node))?;
    }
    Ok(places)
}

// The digit of a column of each layer.
fn digits_of(alloc: Global, g: Geometry, column: u32) -> Result<Vec<Digit>, AllocError>
    requires { column < column_count g }
    ensures { IfOk result (λ v. HoldsDigits g column (layer_count g) v.items) }
{
    let q = g.q();
    let stride = g.stride(column);
    let mut digits = Vec::with_capacity(alloc, g.alpha() as usize)?;
    for z in 0..g.alpha() {
        let value = z / stride % q;
        let rest = z - value * stride;
        digits.push(Digit { value, rest })?;
    }
    Ok(digits)
}

// For each column its digit of each layer.
fn all_digits(alloc: Global, g: Geometry) -> Result<Vec<Vec<Digit>>, AllocError>
    ensures { IfOk result (λ v. HoldsColumns g (column_count g) v.items) }
{
    let mut columns = Vec::with_capacity(alloc, g.t() as usize)?;
    for column in 0..g.t() {
        columns.push(digits_of(alloc, g, column)?)?;
    }
    Ok(columns)
}

impl Partners {
    /// The partners in a grid.
    pub fn new(alloc: Global, grid: Geometry) -> Result<Partners, AllocError>
        ensures { IfOk result (λ p. p ≡ grid) }
    {
        let places = places_of_nodes(alloc, grid)?;
        let columns = all_digits(alloc, grid)?;
        Ok(Partners {
            grid,
            places,
            columns,
        })
    }

    /// The subchunk with which subchunk `z` of a node is coupled, which is that subchunk itself where it is not paired.
    pub fn of(&self, node: u32, z: u32) -> Subchunk
        requires node { node < node_count self.now }
        requires layer { z < layer_count self.now }
        ensures partners { ArePartners self.now node z result.node result.layer }
        ensures in_grid { result.node < node_count self.now }
        ensures in_layers { result.layer < layer_count self.now }
    {
        let place = self.places[node as usize];
        let digit = self.columns[place.column as usize][z as usize];
        Subchunk {
            node: place.first + digit.value,
            layer: digit.rest + place.counts,
        }
    }
}
