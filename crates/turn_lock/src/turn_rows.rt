//! Rows of turns, one at each of several locks.
ghost use Rattle.std.specs.Prelude.{◌≡◌, ◌+◌, IfOk};
ghost use Rattle.turn_lock.specs.Rows.{ArePiles, DealOf, IsNewRow};
ghost use Rattle.turn_lock.specs.Piles.{items_of};

use crate::lock::Turn;
use crate::lock_history::Historied;
use crate::piles::take_tops;
use std::alloc::{AllocError, Global};

/// The turns of the greatest number that is left at several locks.
pub fn deal_row<T: Historied>(
    alloc: Global,
    piles: &mut Vec<Vec<Turn<T>>>,
) -> Result<Vec<Turn<T>>, AllocError>
    requires { (deal : DealOf T.Fixed) × ArePiles deal.identity deal.locks (deal.number + 1) (items_of piles.old.items) }
    ensures { (deal : DealOf T.Fixed) → ArePiles deal.identity deal.locks (deal.number + 1) (items_of piles.old.items) →
        IfOk result (λ row. IsNewRow deal.identity deal.locks deal.number row.items × ArePiles deal.identity deal.locks deal.number (items_of piles.new.items)) }
{
    take_tops(alloc, piles)
}
