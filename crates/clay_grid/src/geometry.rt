//! The geometry of a code: its numbers within the limits, and what follows from them of nodes,
//! layers, partners, scores and repairs.
ghost use Rattle.std.specs.Prelude.{◌≡◌, ◌+◌, ◌-◌, ◌*◌, ◌/◌, ◌%◌, ◌^◌, ◌<◌, ◌≤◌, ℕ, ◌++◌, IfOk, IfErr, OnOk, MatchOption, map, vec_len, slice_index, slice_set, length};
ghost use Rattle.clay_grid.specs.Shape.{shape_of, chunk_count, row_count, column_count, node_count, virtual_count, layer_count, chunk_length, stripe_length, node_of_chunk, IsVirtual};
ghost use Rattle.clay_grid.specs.Layers.{layer_of, index_of, vertex_at, partner_of};
ghost use Rattle.clay_grid.specs.Score.{score_at, IsByScore, places_of};
ghost use Rattle.clay_grid.specs.Repair.{all_layers, repair_layers_of};
ghost use Rattle.clay_grid.specs.Limits.{IsFirstFault, IsGeometry};

use crate::geometry_fault::BadGeometry;
use std::alloc::{AllocError, Global};
use std::marker::Model;

const MIN_DATA: u32 = 2;

const MIN_PARITY: u32 = 2;

const MAX_PARITY: u32 = 8;

const MAX_LAYERS: u32 = 1024;

const MAX_WIDTH: u32 = 65_536;

const MAX_CHUNK_LEN: u32 = 1_048_576;

/// With two rows or more, one column more makes more than `MAX_LAYERS` layers.
const MAX_COLUMNS: u32 = 10;

/// A vertex: row `x` and column `y` of the grid, in layer `z`.
#[derive(Clone, Copy, Debug, PartialEq, Eq)]
pub struct Vertex {
    pub x: u32,
    pub y: u32,
    pub z: u32,
}

/// The shape of a code, within the limits: `k` data chunks, `m` parity chunks, and subchunks of
/// `w` bytes.
#[derive(Clone, Copy, Debug, PartialEq, Eq)]
pub struct Geometry {
    k: u32,
    m: u32,
    w: u32,
    t: u32,
    alpha: u32,
}

impl Model for Geometry {
    ghost use Rattle.clay_grid.specs.Shape.{Shape, shape_of, column_count, layer_count};
    ghost use Rattle.clay_grid.specs.Limits.{IsKept};

    ghost Value = { Shape };

    ghost view = { λ a. shape_of a.k a.m a.w };

    ghost invariant = { λ a. IsKept (shape_of a.k a.m a.w) a.t a.alpha };

    ghost inverse = { λ g. record { k = g.data_count; m = g.parity_count; w = g.width; t = column_count g; alpha = layer_count g } };

    ghost inverse_ok = { λ a h i. record { k = a.k; m = a.m; w = a.w; t = h.columns_are i; alpha = h.layers_are i } };
}

impl Geometry {
    /// The geometry of `k` data chunks, `m` parity chunks and subchunks of `w` bytes.
    pub fn new(k: u32, m: u32, w: u32) -> Result<Geometry, BadGeometry>
        ensures made { IfOk result (λ g. g ≡ shape_of k m w) }
        ensures geometry { IfOk result IsGeometry }
        ensures refused { IfErr result (IsFirstFault (shape_of k m w)) }
    {
        if k < MIN_DATA {
            return Err(BadGeometry::DataCount);
        }
        if m < MIN_PARITY || m > MAX_PARITY {
            return Err(BadGeometry::ParityCount);
        }
        // the columns of the data chunks and the virtual nodes, and the one of the parity chunks
        let t = k.div_ceil(m) + 1;
        if t > MAX_COLUMNS {
            return Err(BadGeometry::Layers);
        }
        let alpha = m.pow(t);
        if alpha > MAX_LAYERS {
            return Err(BadGeometry::Layers);
        }
        if w < 1 || w > MAX_WIDTH {
            return Err(BadGeometry::Width);
        }
        if alpha * w > MAX_CHUNK_LEN {
            return Err(BadGeometry::ChunkSize);
        }
        Ok(Geometry { k, m, w, t, alpha })
    }

    /// The data chunks.
    pub fn k(&self) -> u32
        ensures value { result ≡ self.now.data_count }
        ensures geometry { IsGeometry self.now }
    {
        self.k
    }

    /// The parity chunks.
    pub fn m(&self) -> u32
        ensures value { result ≡ self.now.parity_count }
        ensures geometry { IsGeometry self.now }
    {
        self.m
    }

    /// All chunks of a stripe.
    pub fn n(&self) -> u32
        ensures value { result ≡ chunk_count self.now }
        ensures geometry { IsGeometry self.now }
    {
        self.k + self.m
    }

    /// The bytes of a subchunk.
    pub fn w(&self) -> u32
        ensures value { result ≡ self.now.width }
        ensures geometry { IsGeometry self.now }
    {
        self.w
    }

    /// The rows of the grid, which is also the base of the layers' digits.
    pub fn q(&self) -> u32
        ensures value { result ≡ row_count self.now }
        ensures geometry { IsGeometry self.now }
    {
        self.m
    }

    /// The columns of the grid, which is also the number of a layer's digits.
    pub fn t(&self) -> u32
        ensures value { result ≡ column_count self.now }
        ensures geometry { IsGeometry self.now }
    {
        self.t
    }

    /// The virtual nodes, whose chunks are all zero: as few as make the nodes fill the columns.
    pub fn nu(&self) -> u32
        ensures value { result ≡ virtual_count self.now }
        ensures geometry { IsGeometry self.now }
        ensures fills_columns { (chunk_count self.now + result) % row_count self.now ≡ 0 }
        ensures fewest { (i : ℕ) →
            (chunk_count self.now + i) % row_count self.now ≡ 0 → result ≤ i }
    {
        self.m * self.t - (self.k + self.m)
    }

    /// The nodes of the grid, which are the chunks and the virtual nodes.
    pub fn nodes(&self) -> u32
        ensures value { result ≡ node_count self.now }
        ensures geometry { IsGeometry self.now }
    {
        self.m * self.t
    }

    /// The layers, and so the subchunks of a chunk.
    pub fn alpha(&self) -> u32
        ensures value { result ≡ layer_count self.now }
        ensures geometry { IsGeometry self.now }
    {
        self.alpha
    }

    /// The bytes of a chunk.
    pub fn chunk_len(&self) -> u32
        ensures value { result ≡ chunk_length self.now }
        ensures geometry { IsGeometry self.now }
    {
        self.alpha * self.w
    }

    /// The bytes of a stripe, which are those of its data chunks.
    pub fn stripe_len(&self) -> u32
        ensures value { result ≡ stripe_length self.now }
        ensures geometry { IsGeometry self.now }
    {
        self.k * self.chunk_len()
    }

    /// Row and column of a node.
    pub fn place(&self, node: u32) -> (u32, u32)
        requires { node < node_count self.now }
        ensures row { result.0 ≡ node % row_count self.now }
        ensures column { result.1 ≡ node / row_count self.now }
        ensures in_rows { result.0 < row_count self.now }
        ensures in_columns { result.1 < column_count self.now }
    {
        (node % self.m, node / self.m)
    }

    /// The node that a chunk stands for.
    pub fn node_of_chunk(&self, chunk: u32) -> u32
        requires { chunk < chunk_count self.now }
        ensures value { result ≡ node_of_chunk self.now chunk }
        ensures in_grid { result < node_count self.now }
    {
        if chunk < self.k {
            chunk
        } else {
            chunk + self.nu()
        }
    }

    /// The chunk that stands for a node, or `None` for a virtual node.
    pub fn chunk_of_node(&self, node: u32) -> Option<u32>
        requires { node < node_count self.now }
        ensures { MatchOption result (IsVirtual self.now node) (λ c.
            (c < chunk_count self.now) × (node_of_chunk self.now c ≡ node)) }
    {
        let nu = self.nu();
        if node < self.k {
            Some(node)
        } else if node < self.k + nu {
            None
        } else {
            Some(node - nu)
        }
    }

    /// What digit `y` counts in a layer's number: `z / stride(y) % q` is digit `y` of layer `z`.
    pub fn stride(&self, y: u32) -> u32
        requires { y < column_count self.now }
        ensures value { result ≡ row_count self.now ^ (column_count self.now - 1 - y) }
        ensures nonzero { 0 < result }
        ensures column { row_count self.now * result ≤ layer_count self.now }
    {
        self.m.pow(self.t - 1 - y)
    }

    /// Digit `y` of layer `z`.
    pub fn digit(&self, z: u32, y: u32) -> u32
        requires layer { z < layer_count self.now }
        requires column { y < column_count self.now }
        ensures value { result ≡ slice_index (layer_of self.now z) y }
        ensures in_rows { result < row_count self.now }
    {
        z / self.stride(y) % self.q()
    }

    /// The vertex with which a vertex is coupled. An unpaired vertex is its own answer.
    pub fn partner(&self, x: u32, y: u32, z: u32) -> Vertex
        requires row { x < row_count self.now }
        requires column { y < column_count self.now }
        requires layer { z < layer_count self.now }
        ensures partner { vertex_at self.now result.x result.y result.z
            ≡ partner_of (vertex_at self.now x y z) }
        ensures number { result.z
            ≡ index_of (row_count self.now) (slice_set (layer_of self.now z) y x) }
        ensures in_rows { result.x < row_count self.now }
        ensures in_layers { result.z < layer_count self.now }
    {
        let stride = self.stride(y);
        let digit = z / stride % self.q();
        Vertex {
            x: digit,
            y,
            z: z - digit * stride + x * stride,
        }
    }

    /// The score of layer `z`. `erased` has an entry for each node.
    pub fn score(&self, erased: &[bool], z: u32) -> u32
        requires nodes { length erased.now ≡ node_count self.now }
        requires layer { z < layer_count self.now }
        ensures value { result ≡ score_at self.now erased.now z }
        ensures within { result ≤ column_count self.now }
    {
        let q = self.q();
        let columns = self.t();
        let mut score = 0;
        let mut rest = z;
        for passed in 0..columns {
            // the last column's digit is the lowest
            let y = columns - 1 - passed;
            score += u32::from(erased[(y * q + rest % q) as usize]);
            rest /= q;
        }
        score
    }

    /// All layers by rising score, and those of one score by rising number.
    /// `erased` has an entry for each node.
    pub fn layers_by_score(&self, alloc: Global, erased: &[bool]) -> Result<Vec<u32>, AllocError>
        requires { length erased.now ≡ node_count self.now }
        ensures { IfOk result (λ v. IsByScore self.now erased.now v.items) }
    {
        let scores = self.scores(alloc, erased)?;
        let mut layers = Vec::with_capacity(alloc, scores.len())?;
        for score in 0..self.t() + 1 {
            push_places(&mut layers, &scores, score)?;
        }
        Ok(layers)
    }

    /// The layers that a repair of a chunk reads from each other chunk, rising: those whose digit in
    /// the column of the chunk's node is the node's row (Vajha et al., section 4).
    pub fn repair_layers(&self, alloc: Global, chunk: u32) -> Result<Vec<u32>, AllocError>
        requires { chunk < chunk_count self.now }
        ensures layers { IfOk result (λ v. v.items ≡ repair_layers_of self.now chunk) }
        ensures count { IfOk result (λ v. vec_len v * row_count self.now ≡ layer_count self.now) }
    {
        let (x, y) = self.place(self.node_of_chunk(chunk));
        let mut layers = Vec::with_capacity(alloc, (self.alpha() / self.q()) as usize)?;
        for z in 0..self.alpha() {
            if self.digit(z, y) == x {
                layers.push(z)?;
            }
        }
        Ok(layers)
    }

    // The score of each layer.
    fn scores(&self, alloc: Global, erased: &[bool]) -> Result<Vec<u32>, AllocError>
        requires { length erased.now ≡ node_count self.now }
        ensures { IfOk result (λ v. v.items ≡ map (score_at self.now erased.now) (all_layers self.now)) }
    {
        let mut scores = Vec::with_capacity(alloc, self.alpha() as usize)?;
        for z in 0..self.alpha() {
            scores.push(self.score(erased, z))?;
        }
        Ok(scores)
    }
}

// Appends the places at which a score stands.
fn push_places(places: &mut Vec<u32>, scores: &[u32], score: u32) -> Result<(), AllocError>
    requires { length scores.now < 2 ^ 32 }
    ensures { OnOk result (places.new.items ≡ places.old.items ++ places_of scores.now score) }
{
    for (z, own) in scores.iter().enumerate() {
        if *own == score {
            places.push(z as u32)?;
        }
    }
    Ok(())
}
