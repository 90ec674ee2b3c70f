//! Whether marked shares are the helpers of a repair.
ghost use Rattle.std.specs.Prelude.{◌≡◌, ◌^◌, ◌<◌, ◌↔◌, length, IsTrue};
ghost use Rattle.clay_grid.specs.Score.{count_below};
ghost use Rattle.clay_aloof.specs.Shape.{all_chunks};
ghost use Rattle.share_mends.specs.Asked.{helps, AreHelpers};
ghost use Rattle.share_mends.specs.Column.{IsGap, HasColumn};

use clay_aloof::AloofGeometry;

// How many shares are marked.
fn mark_count(marks: &[bool]) -> usize
    requires { length marks.now < 2 ^ 32 }
    ensures { result ≡ count_below (length marks.now) (helps marks.now) }
{
    let mut count = 0;
    for mark in marks {
        if *mark {
            count += 1;
        }
    }
    count
}

// Whether another share of the lost one's column doesn't help.
fn is_gap(geometry: AloofGeometry, lost: u32, marks: &[bool], c: u32) -> bool
    requires lost { lost < all_chunks geometry }
    requires count { length marks.now ≡ all_chunks geometry }
    requires share { c < all_chunks geometry }
    ensures { IsTrue result ↔ IsGap geometry lost marks.now c }
{
    let rows = geometry.grid().q();
    let own = geometry.node_of_chunk(lost) / rows;
    let column = geometry.node_of_chunk(c) / rows;
    if c == lost {
        return false;
    }
    if column != own {
        return false;
    }
    !marks[c as usize]
}

// Whether each other share of the lost one's column helps.
fn column_helps(geometry: AloofGeometry, lost: u32, marks: &[bool]) -> bool
    requires lost { lost < all_chunks geometry }
    requires count { length marks.now ≡ all_chunks geometry }
    ensures { IsTrue result ↔ HasColumn geometry lost marks.now (all_chunks geometry) }
{
    for c in 0..geometry.n() {
        if is_gap(geometry, lost, marks, c) {
            return false;
        }
    }
    true
}

/// Whether the marked shares can help to mend a lost one: not itself, `d` of them, and among them each other share whose node stands in the
/// lost one's column of the grid. It takes no memory.
pub fn are_helpers(geometry: AloofGeometry, lost: u32, marks: &[bool]) -> bool
    requires { lost < all_chunks geometry }
    ensures { IsTrue result ↔ AreHelpers geometry lost marks.now }
{
    if marks.len() != geometry.n() as usize {
        return false;
    }
    if marks[lost as usize] {
        return false;
    }
    if mark_count(marks) != geometry.d() as usize {
        return false;
    }
    column_helps(geometry, lost, marks)
}
