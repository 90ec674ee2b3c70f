//! What holds of values at points and of their weighted sums. The functions do nothing: their
//! contracts are the laws.

ghost use Rattle.std.specs.Prelude.{ℕ, Bool, List};
ghost use Rattle.clay_model.specs.Points.{AreDistinct, SumsTellValues};
ghost use Rattle.clay_model.specs.Erased.{erased_below, ErasedValuesAreSolved};

/// Values at distinct points are known by as many of their weighted sums as there are points.
pub fn solutions_are_unique()
    ensures { SumsTellValues }
{}

/// The erased nodes are distinct points.
pub fn erased_nodes_are_distinct()
    ensures { (erased : List Bool) (n : ℕ) → AreDistinct (erased_below erased n) }
{}

/// Where the weighted sums of a layer are zero, what is solved at its erased nodes from the weighted
/// sums of the others is what stood there.
pub fn erased_values_are_solved()
    ensures { ErasedValuesAreSolved }
{}
