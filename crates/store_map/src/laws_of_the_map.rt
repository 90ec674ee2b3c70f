//! What the definitions say, as functions that do nothing and whose contracts are the laws.

ghost use Rattle.store_map.specs.Laws.{CallsGoOn, CallsLeadToMaps, ChangesOneName};
ghost use Rattle.store_map.specs.LimitRows.{AreRowsOfTheLimits, AreTheNumbers, PutsRoundUp};
ghost use Rattle.store_map.specs.WorkedRows.{AreRowsOfTheMap};

/// Calls with the replies and the maps that they lead to.
pub fn rows_of_the_map()
    ensures { AreRowsOfTheMap }
{}

/// A put or a delete changes what its name finds, and what no other name finds.
pub fn puts_and_deletes_change_one_name()
    ensures { ChangesOneName }
{}

/// Calls that follow others begin with the map that those leave.
pub fn calls_go_on()
    ensures { CallsGoOn }
{}

/// In each map that calls lead to no name stands twice, and no object is longer than allowed.
pub fn calls_lead_to_maps()
    ensures { CallsLeadToMaps }
{}

/// What scripts ask for of stripes and bytes, and the code's constants.
pub fn rows_of_the_limits()
    ensures rows { AreRowsOfTheLimits }
    ensures numbers { AreTheNumbers }
    ensures puts { PutsRoundUp }
{}
