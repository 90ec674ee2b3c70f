//! The erased nodes.
ghost use Rattle.std.specs.Prelude.{◌≡◌, ℕ, ◌+◌, ◌*◌, ◌<◌, ◌≤◌, length, IfOk, slice_index_or, true, false};
ghost use Rattle.clay_model.specs.Erased.{erased_below};

use std::alloc::{AllocError, Global};

/// The numbers of the erased nodes, rising.
pub fn erased_points(alloc: Global, erased: &[bool]) -> Result<Vec<u8>, AllocError>
    requires { length erased.now ≤ 256 }
    ensures { IfOk result (λ v. v.items ≡ erased_below erased.now (length erased.now)) }
{
    let mut points = Vec::new(alloc);
    for (node, missing) in erased.iter().enumerate() {
        if *missing {
            points.push(node as u8)?;
        }
    }
    Ok(points)
}

/// Whether all four nodes of a column are erased.
pub fn is_column_erased(erased: &[bool], column: usize) -> bool
    requires { column * 4 + 4 ≤ length erased.now }
    ensures { result ≡ true → (x : ℕ) → x < 4 → slice_index_or erased.now (column * 4 + x) false ≡ true }
{
    let node = column * 4;
    erased[node] && erased[node + 1] && erased[node + 2] && erased[node + 3]
}
