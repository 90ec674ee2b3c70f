//! Values that are taken from the tops of piles.
ghost use Rattle.std.specs.Prelude.{IfOk};
ghost use Rattle.turn_lock.specs.Piles.{AreSome, AreTops, items_of};

use crate::joined::take_last;
use std::alloc::{AllocError, Global};

/// The last value of each pile.
pub fn take_tops<T>(alloc: Global, piles: &mut Vec<Vec<T>>) -> Result<Vec<T>, AllocError>
    requires { AreSome (items_of piles.old.items) }
    ensures { IfOk result (λ tops. AreTops (items_of piles.old.items) (items_of piles.new.items) tops.items) }
{
    let mut tops = Vec::with_capacity(alloc, piles.len())?;
    for place in 0..piles.len() {
        tops.push_reserved(take_last(&mut piles[place]));
    }
    Ok(tops)
}
