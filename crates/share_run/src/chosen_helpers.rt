//! Which shares help to mend a lost one.
ghost use Rattle.std.specs.Prelude.{◌≡◌, ◌^◌, ◌<◌, ◌↔◌, ℕ, false, set, length, IfOk, IsTrue};
ghost use Rattle.clay_grid.specs.Score.{count_below};
ghost use Rattle.clay_aloof.specs.Shape.{all_chunks};
ghost use Rattle.share_mends.specs.Asked.{helps};
ghost use Rattle.share_run.specs.Helpers.{IsChoice, IsBeside, IsNext, AreMarked};

use clay_aloof::AloofGeometry;
use share_mends::are_helpers;
use std::alloc::{AllocError, Global};

// Whether a share's node stands in the lost one's column.
fn is_beside(geometry: AloofGeometry, lost: u32, share: u32) -> bool
    requires lost { lost < all_chunks geometry }
    requires share { share < all_chunks geometry }
    ensures { IsTrue result ↔ IsBeside geometry lost share }
{
    let rows = geometry.grid().q();
    let own = geometry.node_of_chunk(lost) / rows;
    let column = geometry.node_of_chunk(share) / rows;
    column == own
}

// Whether a share is marked, and how many may still be left out.
#[derive(Clone, Copy)]
struct Mark {
    helps: bool,
    left: usize,
}

// The mark of a share that can help, or not, where so many may be left out.
fn next_mark(can: bool, beside: bool, left: usize) -> Mark
    ensures { IsNext can beside left result.helps result.left }
{
    if !can {
        return Mark { helps: false, left };
    }
    if beside {
        return Mark { helps: true, left };
    }
    if left == 0 {
        return Mark { helps: true, left };
    }
    Mark {
        helps: false,
        left: left - 1,
    }
}

// Marks those that can help, but for so many outside of the lost one's column, from share 0 on.
fn marks_without(
    alloc: Global,
    geometry: AloofGeometry,
    lost: u32,
    others: &[bool],
    spare: usize,
) -> Result<Vec<bool>, AllocError>
    requires lost { lost < all_chunks geometry }
    requires others { length others.now ≡ all_chunks geometry }
    ensures { IfOk result (λ marks. (left : ℕ) × AreMarked geometry lost others.now spare (all_chunks geometry) left marks.items) }
{
    let mut left = spare;
    let mut marks = Vec::with_capacity(alloc, others.len())?;
    for share in 0..geometry.n() {
        let can = others[share as usize];
        let beside = is_beside(geometry, lost, share);
        let mark = next_mark(can, beside, left);
        marks.push(mark.helps)?;
        left = mark.left;
    }
    Ok(marks)
}

fn mark_count(marks: &[bool]) -> usize
    requires { length marks.now < 2 ^ 32 }
    ensures { result ≡ count_below (length marks.now) (helps marks.now) }
{
    let mut count = 0;
    for mark in marks {
        if *mark {
            count += 1;
        }
    }
    count
}

// The good shares but the lost one.
fn others_than(alloc: Global, lost: u32, good: &[bool]) -> Result<Vec<bool>, AllocError>
    requires { lost < length good.now }
    ensures { IfOk result (λ others. others.items ≡ set good.now lost false) }
{
    let mut others = Vec::from_slice(alloc, good)?;
    others[lost as usize] = false;
    Ok(others)
}

/// Helpers for a mend of a lost share among the good ones: as many as a repair has, and each other share of the lost one's column. None where
/// there are too few, or one of that column isn't good.
pub fn choose_helpers(
    alloc: Global,
    geometry: AloofGeometry,
    lost: u32,
    good: &[bool],
) -> Result<Option<Vec<bool>>, AllocError>
    requires lost { lost < all_chunks geometry }
    requires good { length good.now ≡ all_chunks geometry }
    ensures { IfOk result (IsChoice geometry lost good.now) }
{
    let others = others_than(alloc, lost, good)?;
    let spare = mark_count(&others).saturating_sub(geometry.d() as usize);
    let marks = marks_without(alloc, geometry, lost, &others, spare)?;
    if are_helpers(geometry, lost, &marks) {
        Ok(Some(marks))
    } else {
        Ok(None)
    }
}
