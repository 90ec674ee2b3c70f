//! The bytes of a run's pieces, where each piece stands among them, and where a node stands among those that are solved for.
ghost use Rattle.std.specs.Prelude.{◌≡◌, ◌*◌, ◌<◌, ◌↔◌, [], map, length, All, Contains, slice_index, slice_index_or, IfOk, IsTrue};
ghost use Rattle.clay_grid.specs.Shape.{chunk_count, layer_count};
ghost use Rattle.lost_read.specs.Plan.{AreSubchunks, HasPlaces};
ghost use Rattle.lost_read.specs.Read.{AreLong};

use clay_grid::Geometry;
use lost_layers::LostPiece;
use std::alloc::{AllocError, Global};

// Whether each piece has so many bytes.
fn are_long(len: usize, pieces: &[&[u8]]) -> bool
    ensures { IsTrue result ↔ All (λ piece. length piece.now ≡ len) pieces.now }
{
    pieces.iter().all(|piece| piece.len() == len)
}

/// Whether each piece is as long as a subchunk.
pub(crate) fn are_subchunks(g: Geometry, pieces: &[&[u8]]) -> bool
    ensures { IsTrue result ↔ AreLong g.width (map (λ piece. piece.now) pieces.now) }
{
    are_long(g.w() as usize, pieces)
}

/// The bytes of the piece at a place.
pub(crate) fn bytes_at<'a>(pieces: &[&'a [u8]], place: usize) -> &'a [u8]
    requires { place < length pieces.now }
    ensures { result.now ≡ slice_index_or (map (λ piece. piece.now) pieces.now) place [] }
{
    pieces[place]
}

// Writes the place of each piece.
fn write_places(g: Geometry, pieces: &[LostPiece], places: &mut [usize])
    requires subchunks { AreSubchunks g pieces.now }
    requires places_len { length places.old ≡ chunk_count g * layer_count g }
    ensures { HasPlaces g pieces.now (length pieces.now) places.new }
{
    for (at, piece) in pieces.iter().enumerate() {
        places[(piece.chunk * g.alpha() + piece.layer) as usize] = at;
    }
}

/// For each subchunk its place among the pieces, and 0 where it is none of them.
pub(crate) fn places_of(
    alloc: Global,
    g: Geometry,
    pieces: &[LostPiece],
) -> Result<Vec<usize>, AllocError>
    requires { AreSubchunks g pieces.now }
    ensures len { IfOk result (λ v. length v.items ≡ chunk_count g * layer_count g) }
    ensures places { IfOk result (λ v. HasPlaces g pieces.now (length pieces.now) v.items) }
{
    let mut places = vec![in alloc; 0usize; (g.n() * g.alpha()) as usize]?;
    write_places(g, pieces, &mut places);
    Ok(places)
}

/// The place of a node among those that are solved for.
pub(crate) fn place_of(points: &[u8], node: u32) -> usize
    requires { Contains points.now node }
    ensures within { result < length points.now }
    ensures place { slice_index points.now result ≡ node }
{
    for (place, point) in points.iter().enumerate() {
        if u32::from(*point) == node {
            return place;
        }
    }
    unreachable!()
}
