//! What is there of each chunk, wherever it stands.
ghost use Rattle.std.specs.Prelude.{◌≡◌, ◌+◌, ◌<◌, ◌≤◌, [], map, length, MatchOption, IfSome, All, get_or, slice_index_or, slice_range, None, Some};
ghost use Rattle.std.specs.Option.{option_map};
ghost use Rattle.lane_repair.specs.Views.{pieces_of, HasRoom, piece_around, StandsAround};

/// The bytes that are there of each chunk: the whole chunk, or a part of it.
#[derive(Clone, Copy)]
pub enum ChunkView<'a> {
    /// A vector for each.
    Apart(&'a [Option<Vec<u8>>]),
    /// Pieces of `len` bytes each, which begin at these places among others' bytes.
    Laid {
        bytes: &'a [u8],
        starts: &'a [Option<usize>],
        len: usize,
    },
    /// The same where a piece of `len` bytes is left out, which may be written meanwhile: the bytes before it, and those after it.
    Around {
        before: &'a [u8],
        after: &'a [u8],
        starts: &'a [Option<usize>],
        len: usize,
    },
    /// Slices of their own, that of a chunk at its place among these.
    Slices {
        pieces: &'a [&'a [u8]],
        places: &'a [Option<usize>],
    },
}

// The bytes of an entry.
fn bytes_of(entry: &Option<Vec<u8>>) -> Option<&[u8]>
    ensures { MatchOption result (entry.now ≡ None) (λ piece. option_map (λ v. v.items) entry.now ≡ Some piece.now) }
{
    match entry {
        Some(bytes) => Some(bytes),
        None => None,
    }
}

// The bytes of an entry among all.
fn piece_apart(have: &[Option<Vec<u8>>], c: usize) -> Option<&[u8]>
    requires { c < length have.now }
    ensures { MatchOption result (get_or have.now c None ≡ None) (λ piece. option_map (λ v. v.items) (get_or have.now c None) ≡ Some piece.now) }
{
    bytes_of(&have[c])
}

// A piece, from its start on.
fn piece_from<'a>(bytes: &'a [u8], start: &Option<usize>, len: usize) -> Option<&'a [u8]>
    requires { IfSome start.now (λ at. at + len ≤ length bytes.now) }
    ensures { MatchOption result (start.now ≡ None) (λ piece. option_map (λ at. slice_range bytes.now at (at + len)) start.now ≡ Some piece.now) }
{
    match start {
        Some(at) => Some(&bytes[*at..*at + len]),
        None => None,
    }
}

// A piece among all.
fn piece_laid<'a>(
    bytes: &'a [u8],
    starts: &[Option<usize>],
    len: usize,
    c: usize,
) -> Option<&'a [u8]>
    requires number { c < length starts.now }
    requires room { All (λ o. IfSome o (λ start. start + len ≤ length bytes.now)) starts.now }
    ensures { MatchOption result (get_or starts.now c None ≡ None) (λ piece. option_map (λ at. slice_range bytes.now at (at + len)) (get_or starts.now c None) ≡ Some piece.now) }
{
    piece_from(bytes, &starts[c], len)
}

// A piece before or after a gap of as many bytes.
fn piece_past<'a>(before: &'a [u8], after: &'a [u8], at: usize, len: usize) -> &'a [u8]
    requires { StandsAround before.now after.now len at }
    ensures { result.now ≡ piece_around before.now after.now len at }
{
    if at < before.len() {
        return &before[at..at + len];
    }
    let from = at - (before.len() + len);
    &after[from..from + len]
}

// The same, from its start on.
fn piece_from_around<'a>(
    before: &'a [u8],
    after: &'a [u8],
    start: &Option<usize>,
    len: usize,
) -> Option<&'a [u8]>
    requires { IfSome start.now (StandsAround before.now after.now len) }
    ensures { MatchOption result (start.now ≡ None) (λ piece. option_map (piece_around before.now after.now len) start.now ≡ Some piece.now) }
{
    match start {
        Some(at) => Some(piece_past(before, after, *at, len)),
        None => None,
    }
}

// The same among all.
fn piece_laid_around<'a>(
    before: &'a [u8],
    after: &'a [u8],
    starts: &[Option<usize>],
    len: usize,
    c: usize,
) -> Option<&'a [u8]>
    requires number { c < length starts.now }
    requires room { All (λ o. IfSome o (StandsAround before.now after.now len)) starts.now }
    ensures { MatchOption result (get_or starts.now c None ≡ None) (λ piece. option_map (piece_around before.now after.now len) (get_or starts.now c None) ≡ Some piece.now) }
{
    piece_from_around(before, after, &starts[c], len)
}

// The slice at a place.
fn slice_at<'a>(pieces: &[&'a [u8]], place: usize) -> &'a [u8]
    requires { place < length pieces.now }
    ensures { result.now ≡ slice_index_or (map (λ piece. piece.now) pieces.now) place [] }
{
    pieces[place]
}

// The same, where there is one.
fn slice_from<'a>(pieces: &[&'a [u8]], place: &Option<usize>) -> Option<&'a [u8]>
    requires { IfSome place.now (λ at. at < length pieces.now) }
    ensures { MatchOption result (place.now ≡ None) (λ piece. option_map (λ at. slice_index_or (map (λ piece. piece.now) pieces.now) at []) place.now ≡ Some piece.now) }
{
    match place {
        Some(at) => Some(slice_at(pieces, *at)),
        None => None,
    }
}

// The same among all.
fn slice_placed<'a>(pieces: &[&'a [u8]], places: &[Option<usize>], c: usize) -> Option<&'a [u8]>
    requires number { c < length places.now }
    requires room { All (λ o. IfSome o (λ at. at < length pieces.now)) places.now }
    ensures { MatchOption result (get_or places.now c None ≡ None) (λ piece. option_map (λ at. slice_index_or (map (λ piece. piece.now) pieces.now) at []) (get_or places.now c None) ≡ Some piece.now) }
{
    slice_from(pieces, &places[c])
}

impl<'a> ChunkView<'a> {
    /// What is there of a chunk.
    pub fn get(&self, c: usize) -> Option<&'a [u8]>
        requires room { HasRoom self.now }
        requires number { c < length (pieces_of self.now) }
        ensures { MatchOption result (get_or (pieces_of self.now) c None ≡ None) (λ piece. get_or (pieces_of self.now) c None ≡ Some piece.now) }
    {
        match *self {
            ChunkView::Apart(have) => piece_apart(have, c),
            ChunkView::Laid { bytes, starts, len } => piece_laid(bytes, starts, len, c),
            ChunkView::Around {
                before,
                after,
                starts,
                len,
            } => piece_laid_around(before, after, starts, len, c),
            ChunkView::Slices { pieces, places } => slice_placed(pieces, places, c),
        }
    }
}
