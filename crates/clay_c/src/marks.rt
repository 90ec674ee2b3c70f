//! The marks of the chunks that help in a rebuild, or that are there.
ghost use Rattle.std.specs.Prelude.{◌≡◌, ◌^◌, ◌<◌, ◌↔◌, length, IfOk, IsTrue};
ghost use Rattle.clay_grid.specs.Score.{count_below};
ghost use Rattle.clay_aloof.specs.Shape.{all_chunks};
ghost use Rattle.clay_c.specs.Helpers.{is_marked, starts_marked, MarksFit, IsUnmarked, HasMarks};

use crate::piece_starts::piece_start;
use clay_aloof::AloofGeometry;
use std::alloc::{AllocError, Global};

// How many chunks have a mark.
fn marked_count(marks: &[u8]) -> usize
    requires { length marks.now < 2 ^ 32 }
    ensures { result ≡ count_below (length marks.now) (is_marked marks.now) }
{
    let mut count = 0;
    for mark in marks {
        let is_aloof = *mark == 0;
        count += usize::from(!is_aloof);
    }
    count
}

/// Where the piece of each chunk with a mark starts, where these have `len` bytes each and stand one behind another.
pub fn marked_starts(
    alloc: Global,
    marks: &[u8],
    len: u32,
) -> Result<Vec<Option<usize>>, AllocError>
    requires { length marks.now < 2 ^ 32 }
    ensures { IfOk result (λ starts. starts.items ≡ starts_marked marks.now len (length marks.now)) }
{
    let mut starts = Vec::with_capacity(alloc, marks.len())?;
    let mut place = 0;
    for mark in marks {
        let is_aloof = *mark == 0;
        starts.push(piece_start(is_aloof, place, len))?;
        place += usize::from(!is_aloof);
    }
    Ok(starts)
}

// Whether another chunk of the lost one's column has no mark.
fn is_unmarked(g: AloofGeometry, lost: u32, marks: &[u8], c: u32) -> bool
    requires lost { lost < all_chunks g }
    requires count { length marks.now ≡ all_chunks g }
    requires chunk { c < all_chunks g }
    ensures { IsTrue result ↔ IsUnmarked g lost marks.now c }
{
    let q = g.grid().q();
    let own = g.node_of_chunk(lost) / q;
    let column = g.node_of_chunk(c) / q;
    if c == lost {
        return false;
    }
    if column != own {
        return false;
    }
    marks[c as usize] == 0
}

// Whether each other chunk of the lost one's column has a mark.
fn column_is_marked(g: AloofGeometry, lost: u32, marks: &[u8]) -> bool
    requires lost { lost < all_chunks g }
    requires count { length marks.now ≡ all_chunks g }
    ensures { IsTrue result ↔ HasMarks g lost marks.now (all_chunks g) }
{
    for c in 0..g.n() {
        if is_unmarked(g, lost, marks, c) {
            return false;
        }
    }
    true
}

/// Whether the chunks with a mark may help in a rebuild of the lost one: it has none, `d` have one, and among them each other chunk of its
/// column.
pub fn marks_fit(g: AloofGeometry, lost: u32, marks: &[u8]) -> bool
    requires lost { lost < all_chunks g }
    requires count { length marks.now ≡ all_chunks g }
    ensures { IsTrue result ↔ MarksFit g lost marks.now }
{
    if marks[lost as usize] != 0 {
        return false;
    }
    if marked_count(marks) != g.d() as usize {
        return false;
    }
    column_is_marked(g, lost, marks)
}
