//! What the definitions say, as a function that does nothing and whose contract is the law.

ghost use Rattle.std.specs.Prelude.{ℕ, List};
ghost use Rattle.read_ledger.specs.Sums.{Given, AreSums};

/// What a call takes from each server is the sum of what it was given there, up to the last value of
/// 64 bits.
pub fn takes_are_sums()
    ensures { (servers : ℕ) (answers : List Given) → AreSums servers answers }
{}
