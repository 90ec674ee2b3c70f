//! The subchunks that are known of the nodes, read where they stand.
ghost use Rattle.std.specs.Prelude.{◌≡◌, ℕ, ◌+◌, ◌*◌, ◌<◌, ◌≤◌, length, slice_index, replicate};
ghost use Rattle.clay_grid.specs.Shape.{node_count, layer_count, chunk_length};
ghost use Rattle.clay_aloof.specs.Known.{source_byte, node_bytes, HasRoom, IsKnown};

use clay_grid::Geometry;
use lane_repair::ChunkView;

/// Where chunks stand of which something is known.
#[derive(Clone, Copy)]
pub enum Source<'a> {
    /// Whole data chunks, one behind another.
    Whole(&'a [u8]),
    /// Of each chunk that a view shows the subchunks of some layers, or all.
    Shown(ChunkView<'a>),
}

/// Which chunks stand for the nodes, and where their subchunks stand.
#[derive(Drop)]
pub struct Tables {
    /// For each node the chunk that stands for it, where a source may have that.
    pub chunks: Vec<Option<u32>>,
    /// For each layer its place among those that a source has.
    pub places: Vec<u32>,
    /// A subchunk of a node without a chunk.
    pub zeros: Vec<u8>,
}

/// What is known of the nodes.
#[derive(Clone, Copy)]
pub struct Known<'a> {
    pub source: Source<'a>,
    pub tables: &'a Tables,
}

// The subchunk at a place of a chunk, of whole data chunks.
fn whole_piece<'a>(g: Geometry, bytes: &'a [u8], chunk: u32, place: u32) -> &'a [u8]
    requires { chunk * chunk_length g + (place * g.width + g.width) ≤ length bytes.now }
    ensures len { length result.now ≡ g.width }
    ensures bytes { (b : ℕ) → b < g.width →
        slice_index result.now b ≡ slice_index bytes.now (chunk * chunk_length g + (place * g.width + b)) }
{
    let w = g.w() as usize;
    let start = chunk as usize * g.chunk_len() as usize + place as usize * w;
    &bytes[start..start + w]
}

// The subchunk at a place of what is there of a chunk.
fn part_piece(g: Geometry, part: &[u8], place: u32) -> &[u8]
    requires { place * g.width + g.width ≤ length part.now }
    ensures len { length result.now ≡ g.width }
    ensures bytes { (b : ℕ) → b < g.width → slice_index result.now b ≡ slice_index part.now (place * g.width + b) }
{
    let w = g.w() as usize;
    let start = place as usize * w;
    &part[start..start + w]
}

impl<'a> Source<'a> {
    // The subchunk at a place of a chunk, zeros where nothing of it is there.
    fn piece(self, g: Geometry, zeros: &'a [u8], chunk: u32, place: u32) -> &'a [u8]
        requires zeros { zeros.now ≡ replicate g.width 0 }
        requires room { HasRoom g self chunk place }
        ensures len { length result.now ≡ g.width }
        ensures bytes { (b : ℕ) → b < g.width → slice_index result.now b ≡ source_byte g self.entry chunk place b }
    {
        match self {
            Source::Whole(bytes) => whole_piece(g, bytes, chunk, place),
            Source::Shown(view) => match view.get(chunk as usize) {
                Some(part) => part_piece(g, part, place),
                None => zeros,
            },
        }
    }
}

/// Subchunk `z` of a node, zeros where it has no chunk.
pub fn piece<'a>(g: Geometry, known: &'a Known<'a>, node: u32, z: u32) -> &'a [u8]
    requires known { IsKnown g known.now }
    requires node { node < node_count g }
    requires layer { z < layer_count g }
    ensures len { length result.now ≡ g.width }
    ensures bytes { (b : ℕ) → b < g.width →
        slice_index result.now b ≡ slice_index (node_bytes g known.now) ((node * layer_count g + z) * g.width + b) }
{
    let place = known.tables.places[z as usize];
    match known.tables.chunks[node as usize] {
        Some(chunk) => known.source.piece(g, &known.tables.zeros, chunk, place),
        None => &known.tables.zeros,
    }
}
