//! What the definitions say, as functions that do nothing and whose contracts are the laws.

ghost use Rattle.call_machine.specs.Calls.{MoreStampsAreKnown, FirstCallsKnow};

/// More stamps change nothing of what a call knows of the old bytes that it keeps.
pub fn more_stamps_are_known()
    ensures { MoreStampsAreKnown }
{}

/// A call before its first step keeps no old bytes, so it knows them by any directory's stamps.
pub fn first_calls_know()
    ensures { FirstCallsKnow }
{}
