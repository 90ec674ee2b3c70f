//! Values that were spread over piles by their numbers come back in their order.
ghost use Rattle.std.specs.Prelude.{◌≡◌, ℕ, All, IfOk, map};
ghost use Rattle.std.specs.List.{range_with_len};
ghost use Rattle.turn_lock.specs.Numbered.{AreAllSpread, IsOn};
ghost use Rattle.turn_lock.specs.Piles.{items_of};

use crate::joined::take_last;
use std::alloc::{AllocError, Global};

/// The values of the numbers from 0 on, in their order, taken from the piles that they were spread over.
pub fn take_spread<T>(
    alloc: Global,
    piles: &mut Vec<Vec<T>>,
    count: usize,
) -> Result<Vec<T>, AllocError>
    requires { (number : T → ℕ) × AreAllSpread number count (items_of piles.old.items) }
    ensures numbers { (number : T → ℕ) → AreAllSpread number count (items_of piles.old.items) →
        IfOk result (λ values. map number values.items ≡ range_with_len 0 count) }
    ensures same { IfOk result (λ values. All (IsOn (items_of piles.old.items)) values.items) }
{
    let mut values = Vec::with_capacity(alloc, count)?;
    for next in 0..count {
        let place = next % piles.len();
        values.push_reserved(take_last(&mut piles[place]));
    }
    Ok(values)
}
