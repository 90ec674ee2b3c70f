//! Rows of placements in which each server took its chunk.

ghost use Rattle.std.specs.Prelude.{◌≡◌, IfOk, length, map, All};
ghost use Rattle.store_core.specs.Placements.{IsRow};

use clay_grid::Geometry;
use std::alloc::{AllocError, Global};
use store_map::Placement;

// A row of placements: each server took its chunk.
fn row(alloc: Global, geometry: Geometry) -> Result<Vec<Placement>, AllocError>
    ensures { IfOk result (λ row. IsRow geometry row.items) }
{
    let servers = geometry.n();
    let mut row = Vec::with_capacity(alloc, servers as usize)?;
    for _ in 0..servers {
        row.push_reserved(Placement::At(0));
    }
    Ok(row)
}

/// Such rows for so many versions.
pub fn rows(
    alloc: Global,
    geometry: Geometry,
    count: usize,
) -> Result<Vec<Vec<Placement>>, AllocError>
    ensures count { IfOk result (λ rows. length rows.items ≡ count) }
    ensures whole { IfOk result (λ rows. All (IsRow geometry) (map (λ row. row.items) rows.items)) }
{
    let mut rows = Vec::with_capacity(alloc, count)?;
    for _ in 0..count {
        rows.push(row(alloc, geometry)?)?;
    }
    Ok(rows)
}
