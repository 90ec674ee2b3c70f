//! The geometry of a code with fewer helpers: its numbers within the limits, and what follows from
//! them.
ghost use Rattle.std.specs.Prelude.{◌≡◌, ◌+◌, ◌-◌, ◌*◌, ◌^◌, ◌<◌, ◌≤◌, IfOk, IfErr};
ghost use Rattle.clay_grid.specs.Shape.{column_count, node_count, layer_count, chunk_length};
ghost use Rattle.clay_aloof.specs.Shape.{aloof_of, all_chunks, rows_of, grid_of, stripe_bytes, node_of};
ghost use Rattle.clay_aloof.specs.Limits.{IsFirstFault, IsAloof};
ghost use Rattle.clay_aloof.specs.Repair.{part_bytes};

use crate::aloof_fault::BadAloof;
use clay_grid::{BadGeometry, Geometry};
use std::marker::Model;

const MIN_DATA: u32 = 2;

const MIN_PARITY: u32 = 2;

const MAX_PARITY: u32 = 8;

/// With at most 8 rows, more data chunks make more than 10 columns, and so more than 1024 layers.
const MAX_DATA: u32 = 80;

/// The shape of a code, within the limits: `k` data chunks, `m` parity chunks, `d` helpers of a repair, and subchunks of `w` bytes.
#[derive(Clone, Copy, Debug, PartialEq, Eq)]
pub struct AloofGeometry {
    k: u32,
    m: u32,
    d: u32,
    grid: Geometry,
}

impl Model for AloofGeometry {
    ghost use Rattle.clay_aloof.specs.Shape.{AloofShape, aloof_of, grid_of};
    ghost use Rattle.clay_aloof.specs.Limits.{IsKept};

    ghost Value = { AloofShape };

    ghost view = { λ a. aloof_of a.k a.m a.d a.grid.width };

    ghost invariant = { λ a. IsKept (aloof_of a.k a.m a.d a.grid.width) a.grid };

    ghost inverse = { λ s. record { k = s.data_count; m = s.parity_count; d = s.helper_count; grid = grid_of s } };

    ghost inverse_ok = { λ a h i. record { k = a.k; m = a.m; d = a.d; grid = h.grid_is i } };
}

impl AloofGeometry {
    /// The geometry of `k` data chunks, `m` parity chunks, `d` helpers of a repair and subchunks of `w` bytes.
    pub fn new(k: u32, m: u32, d: u32, w: u32) -> Result<AloofGeometry, BadAloof>
        ensures made { IfOk result (λ g. g ≡ aloof_of k m d w) }
        ensures geometry { IfOk result IsAloof }
        ensures refused { IfErr result (IsFirstFault (aloof_of k m d w)) }
    {
        if k < MIN_DATA {
            return Err(BadAloof::DataCount);
        }
        if m < MIN_PARITY || m > MAX_PARITY {
            return Err(BadAloof::ParityCount);
        }
        // as many rows as there are helpers beyond the data chunks, and one more
        if d <= k || d - k >= m {
            return Err(BadAloof::Helpers);
        }
        if k > MAX_DATA {
            return Err(BadAloof::Layers);
        }
        let q = d - k + 1;
        match Geometry::new(k + m - q, q, w) {
            Ok(grid) => Ok(AloofGeometry { k, m, d, grid }),
            Err(BadGeometry::Layers) => Err(BadAloof::Layers),
            Err(BadGeometry::Width) => Err(BadAloof::Width),
            Err(BadGeometry::ChunkSize) => Err(BadAloof::ChunkSize),
            Err(BadGeometry::DataCount) | Err(BadGeometry::ParityCount) => unreachable!(),
        }
    }

    /// The data chunks.
    pub fn k(&self) -> u32
        ensures value { result ≡ self.now.data_count }
        ensures geometry { IsAloof self.now }
    {
        self.k
    }

    /// The parity chunks.
    pub fn m(&self) -> u32
        ensures value { result ≡ self.now.parity_count }
        ensures geometry { IsAloof self.now }
    {
        self.m
    }

    /// The helpers of a repair.
    pub fn d(&self) -> u32
        ensures value { result ≡ self.now.helper_count }
        ensures geometry { IsAloof self.now }
    {
        self.d
    }

    /// All chunks of a stripe.
    pub fn n(&self) -> u32
        ensures value { result ≡ all_chunks self.now }
        ensures geometry { IsAloof self.now }
    {
        self.k + self.m
    }

    /// The bytes of a subchunk.
    pub fn w(&self) -> u32
        ensures value { result ≡ self.now.width }
        ensures geometry { IsAloof self.now }
    {
        self.grid.w()
    }

    /// The grid of its nodes and layers: that of a code of as many chunks that has `d - k + 1` parity chunks.
    pub fn grid(&self) -> Geometry
        ensures value { result ≡ grid_of self.now }
        ensures geometry { IsAloof self.now }
    {
        self.grid
    }

    /// The bytes of a chunk.
    pub fn chunk_len(&self) -> u32
        ensures value { result ≡ chunk_length (grid_of self.now) }
        ensures geometry { IsAloof self.now }
    {
        self.grid.chunk_len()
    }

    /// The bytes of a stripe, which are those of its data chunks.
    pub fn stripe_len(&self) -> u32
        ensures value { result ≡ stripe_bytes self.now }
        ensures geometry { IsAloof self.now }
    {
        self.k * self.grid.chunk_len()
    }

    /// The bytes of a part that a helper gives.
    pub fn part_len(&self) -> u32
        ensures value { result ≡ part_bytes self.now }
        ensures geometry { IsAloof self.now }
    {
        // the digit of the first column counts as many layers
        self.grid.stride(0) * self.grid.w()
    }

    /// The node that a chunk stands for.
    pub fn node_of_chunk(&self, chunk: u32) -> u32
        requires { chunk < all_chunks self.now }
        ensures value { result ≡ node_of self.now chunk }
        ensures in_grid { result < node_count (grid_of self.now) }
    {
        if chunk < self.k {
            chunk
        } else {
            chunk + self.grid.nu()
        }
    }
}
