//! The values of unknown nodes as fixed sums of those of the known nodes.
ghost use Rattle.std.specs.Prelude.{◌≡◌, ℕ, ◌+◌, ◌*◌, ◌<◌, ◌≤◌, ◌/◌, ◌%◌, IfOk, slice_index, slice_range, length};
ghost use Rattle.clay_model.specs.Points.{AreDistinct};
ghost use Rattle.clay_kernels.specs.Lanes.{AddsRows};
ghost use Rattle.generator_matrix.specs.Generated.{IsGenerator, IsGeneratorOf, factor_at};
ghost use Rattle.generator_matrix.specs.Columns.{AreColumns};
ghost use Rattle.generator_matrix.specs.SmallColumns.{AddsNodes};

use crate::column::ColumnFactors;
use crate::factors::{in_blocks, lagrange_factors};
use crate::small_columns::add_nodes;
use clay_grid::Geometry;
use clay_kernels::{Products, add_rows};
use std::alloc::{AllocError, Global};
use std::marker::Model;

/// For some known and some unknown nodes, the factors by which the known values make up the unknown ones.
#[derive(Drop)]
pub struct Generator {
    unknown: usize,
    factors: Vec<Products>,
    columns: Vec<ColumnFactors>,
}

impl Model for Generator {
    ghost use Rattle.generator_matrix.specs.Generated.{Factors};
    ghost use Rattle.generator_matrix.specs.Columns.{AreColumns};

    ghost Value = { Factors };

    ghost view = { λ g. record { unknown = g.unknown; each = g.factors.items; columns = g.columns.items } };

    ghost invariant = { λ g. AreColumns g.unknown g.factors.items g.columns.items };
}

/// The nodes from `first` on, as many as `count`.
pub fn nodes(alloc: Global, first: u32, count: u32) -> Result<Vec<u8>, AllocError>
    requires { first + count ≤ 256 }
    ensures len { IfOk result (λ v. length v.items ≡ count) }
    ensures value { IfOk result (λ v. (e : ℕ) → e < count → slice_index v.items e ≡ first + e) }
{
    let mut nodes = Vec::with_capacity(alloc, count as usize)?;
    for e in 0..count {
        nodes.push((first + e) as u8)?;
    }
    Ok(nodes)
}

// The products of the values, of which those of one known node stand side by side in place of those of one unknown one. A row has `width`
// values, of which those of the first `n` nodes count.
fn turned(
    alloc: Global,
    values: &[u8],
    m: usize,
    n: usize,
    width: usize,
) -> Result<Vec<Products>, AllocError>
    requires few { m ≤ 8 }
    requires nodes { n ≤ 256 }
    requires within { n ≤ width }
    requires values_len { length values.now ≡ m * width }
    ensures len { IfOk result (λ v. length v.items ≡ m * n) }
    ensures value { IfOk result (λ v. (p : ℕ) → p < m * n →
        slice_index v.items p ≡ slice_index values.now (p % m * width + p / m)) }
{
    let mut factors = Vec::with_capacity(alloc, m * n)?;
    for p in 0..m * n {
        factors.push(Products::new(values[p % m * width + p / m]))?;
    }
    Ok(factors)
}

// The factors of the known columns, if all factors in four unknown nodes' values are made up of them, and else none.
fn columns_of(
    alloc: Global,
    unknown: usize,
    factors: &[Products],
) -> Result<Vec<ColumnFactors>, AllocError>
    ensures { IfOk result (λ columns. AreColumns unknown factors.now columns.items) }
{
    if unknown != 4 || factors.len() % 16 != 0 {
        return Ok(Vec::new(alloc));
    }
    let count = factors.len() / 16;
    let mut columns = Vec::with_capacity(alloc, count)?;
    for column in 0..count {
        let Some(found) = ColumnFactors::of_column(factors, column) else {
            return Ok(Vec::new(alloc));
        };
        columns.push(found)?;
    }
    Ok(columns)
}

impl Generator {
    /// The factors for these nodes.
    pub fn new(alloc: Global, unknown: &[u8], known: &[u8]) -> Result<Generator, AllocError>
        requires few { length unknown.now ≤ 8 }
        requires distinct { AreDistinct unknown.now }
        requires nodes { length known.now ≤ 256 }
        ensures { IfOk result (λ g. IsGenerator unknown.now known.now g.unknown g.each) }
    {
        let m = unknown.len();
        let n = known.len();
        let nodes = in_blocks(alloc, known)?;
        let values = lagrange_factors(alloc, unknown, &nodes)?;
        let factors = turned(alloc, &values, m, n, nodes.len())?;
        let columns = columns_of(alloc, m, &factors)?;
        Ok(Generator {
            unknown: m,
            factors,
            columns,
        })
    }

    /// The factor of a known node's value in each unknown one's.
    pub fn of_node(&self, node: usize) -> &[Products]
        requires { node * self.now.unknown + self.now.unknown ≤ length self.now.each }
        ensures { result.now ≡ slice_range self.now.each
            (node * self.now.unknown)
            (node * self.now.unknown + self.now.unknown) }
    {
        let m = self.unknown;
        &self.factors.as_slice()[node * m..node * m + m]
    }

    /// The factors of each known column of four nodes. There are none unless the factors in four unknown nodes' values are made up of them.
    pub fn columns(&self) -> &[ColumnFactors]
        ensures value { result.now ≡ self.now.columns }
        ensures columns { AreColumns self.now.unknown self.now.each self.now.columns }
    {
        &self.columns
    }

    /// Adds to each unknown node's row what a known node's values add.
    pub fn add(&self, node: usize, values: &[u8], rows: &mut [u8])
        requires node { node * self.now.unknown + self.now.unknown ≤ length self.now.each }
        requires rows_len { length rows.old ≡ self.now.unknown * length values.now }
        ensures { AddsRows self.now.unknown (length values.now)
            (λ e. factor_at self.now.each self.now.unknown node e)
            (λ b. slice_index values.now b) rows.old rows.new }
    {
        let factors = self.of_node(node);
        add_rows(factors, values, rows);
    }

    // How many unknown nodes there are.
    fn unknown(&self) -> usize
        ensures { result ≡ self.now.unknown }
    {
        self.unknown
    }

    // The factors of as many known nodes as there are unknown ones, from `first` on.
    fn of_nodes(&self, first: usize) -> &[Products]
        requires { (first + self.now.unknown) * self.now.unknown ≤ length self.now.each }
        ensures { result.now ≡ slice_range self.now.each
            (first * self.now.unknown)
            ((first + self.now.unknown) * self.now.unknown) }
    {
        let m = self.unknown;
        &self.factors.as_slice()[first * m..(first + m) * m]
    }

    /// Adds to each unknown node's row of `len` bytes what as many known nodes add, from `first` on, with a row of values for each. For the
    /// nodes of a column of two or three it takes fewer products than `add` for each.
    pub fn add_nodes(&self, first: usize, len: usize, values: &[u8], rows: &mut [u8])
        requires few { self.now.unknown ≤ 8 }
        requires nodes { (first + self.now.unknown) * self.now.unknown ≤ length self.now.each }
        requires values_len { length values.now ≡ self.now.unknown * len }
        requires rows_len { length rows.old ≡ self.now.unknown * len }
        ensures { AddsNodes self.now.unknown len
            (λ x e. factor_at self.now.each self.now.unknown (first + x) e)
            (λ x b. slice_index values.now (x * len + b)) rows.old rows.new }
    {
        let factors = self.of_nodes(first);
        add_nodes(self.unknown(), len, factors, values, rows);
    }
}

/// The factors of every node in the values of these nodes. Those of these nodes themselves serve for nothing.
pub fn generator_of(alloc: Global, g: Geometry, points: &[u8]) -> Result<Generator, AllocError>
    requires few { length points.now ≤ 8 }
    requires distinct { AreDistinct points.now }
    ensures { IfOk result (λ made. IsGeneratorOf g points.now made.unknown made.each) }
{
    let all = nodes(alloc, 0, g.nodes())?;
    let generator = Generator::new(alloc, points, &all)?;
    Ok(generator)
}
