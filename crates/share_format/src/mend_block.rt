//! A lost share's chunk of a stripe, from parts of the helpers' chunks.
ghost use Rattle.std.specs.Prelude.{◌≡◌, ◌+◌, ◌*◌, ◌^◌, ◌<◌, ◌≤◌, ◌↔◌, ℕ, length, slice_index, IsTrue, IfOk};
ghost use Rattle.clay_grid.specs.Shape.{layer_count};
ghost use Rattle.clay_aloof.specs.Shape.{grid_of};
ghost use Rattle.clay_aloof.specs.Repair.{AreParts, IsRebuilt};
ghost use Rattle.share_format.specs.Blocks.{subchunk, chunk_start, HasChecksum};
ghost use Rattle.share_format.specs.Parts.{IsIntactPart};

use crate::share_block::has_entry;
use clay_aloof::{AloofGeometry, rebuild};
use crc64::Crc64;
use std::alloc::{AllocError, Global};

// Where a subchunk begins in a part.
fn piece_start(g: AloofGeometry, number: usize) -> usize
    requires { number * g.width < 2 ^ 64 }
    ensures { result ≡ number * g.width }
{
    number * g.w() as usize
}

// Whether a subchunk of a part has the checksum of its layer.
fn is_piece(
    crc: &Crc64,
    g: AloofGeometry,
    front: &[u8],
    layer: u32,
    part: &[u8],
    number: usize,
) -> bool
    requires layer { layer < layer_count (grid_of g) }
    requires front { length front.now ≡ chunk_start g }
    requires part { number * g.width + g.width ≤ length part.now }
    ensures { IsTrue result ↔ HasChecksum front.now layer (subchunk g part.now number) }
{
    let at = piece_start(g, number);
    has_entry(front, layer, crc.checksum(&part[at..at + g.w() as usize]))
}

/// Whether each subchunk of a helper's part has the checksum that the table in front of its chunk has for its layer.
pub fn is_part(crc: &Crc64, g: AloofGeometry, layers: &[u32], front: &[u8], part: &[u8]) -> bool
    requires layers { (i : ℕ) → i < length layers.now → slice_index layers.now i < layer_count (grid_of g) }
    requires front { length front.now ≡ chunk_start g }
    requires part { length part.now ≡ length layers.now * g.width }
    ensures { IsTrue result ↔ IsIntactPart g layers.now front.now part.now }
{
    for number in 0..layers.len() {
        if !is_piece(crc, g, front, layers[number], part, number) {
            return false;
        }
    }
    true
}

/// The lost share's chunk of a stripe, from the helpers' parts: of each of `d` other chunks the subchunks of the lost one's repair layers.
pub fn mend_stripe(
    alloc: Global,
    g: AloofGeometry,
    lost: u32,
    parts: &[Option<Vec<u8>>],
) -> Result<Vec<u8>, AllocError>
    requires { AreParts g lost parts.now }
    ensures { IfOk result (λ chunk. IsRebuilt g lost parts.now chunk.items) }
{
    rebuild(alloc, g, lost, parts)
}
