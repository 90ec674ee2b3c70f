//! What the definitions say, as functions that do nothing and whose contracts are the laws.

ghost use Rattle.session_rules.specs.Maps.{BeginningsAreMaps, BytesAreOwed, MoreCallsLeaveMaps};
ghost use Rattle.session_rules.specs.Going.{CallsLeaveMaps, RebuildsLeaveMaps, HealsLeaveMaps, SweepsLeaveMaps};

/// A session's first state has the map of no points, and a new directory stands for its bytes.
pub fn beginnings_are_maps()
    ensures { BeginningsAreMaps }
{}

/// Where a get or a read looks, the bytes that the session answers are those of the versions that the
/// look pins.
pub fn bytes_are_owed()
    ensures { BytesAreOwed }
{}

/// A state's map stays that of the places where calls come to be known that weren't begun yet.
pub fn more_calls_leave_maps()
    ensures { MoreCallsLeaveMaps }
{}

/// After a client's call that runs alone the places have the map of the state that the session's answer
/// leaves; where the call ends without an answer, as for want of memory, that of the state before it.
pub fn calls_leave_maps()
    ensures { CallsLeaveMaps }
{}

/// After any steps of a rebuild that runs alone the places have the map as before.
pub fn rebuilds_leave_maps()
    ensures { RebuildsLeaveMaps }
{}

/// After the first so many rebuilds of a heal the places have the map as before.
pub fn heals_leave_maps()
    ensures { HealsLeaveMaps }
{}

/// So it is after any steps of the sweeper, and after a loss.
pub fn sweeps_leave_maps()
    ensures { SweepsLeaveMaps }
{}
