//! What the definitions say, as functions that do nothing and whose contracts are the laws.

ghost use Rattle.session_rules.specs.Seats.{SeatsAreKept};
ghost use Rattle.session_rules.specs.Between.{BeginningsAreBetween, MoreCallsStayBetween};
ghost use Rattle.session_rules.specs.Serving.{RequestsAreServed};
ghost use Rattle.session_rules.specs.Runs.{RunsAreServed};
ghost use Rattle.session_rules.specs.AnsweredRuns.{RunsAreAnswered};
ghost use Rattle.session_rules.specs.Answering.{CallsAreAnswered, RebuildsAreAnswered, HealsAreAnswered, HealsAreMade, HealsTakeAnew, SnapReadsAreAnswered};

/// After an actor's call that runs alone to any outcome, wherever memory is wanting, the actor may begin
/// its next call, and each other one the call that it could begin before.
pub fn seats_are_kept()
    ensures { SeatsAreKept }
{}

/// New places stand between two requests of a session, of which none was made.
pub fn beginnings_are_between()
    ensures { BeginningsAreBetween }
{}

/// Places between two requests stay so where calls come to be known that weren't begun yet.
pub fn more_calls_stay_between()
    ensures { MoreCallsStayBetween }
{}

/// A request that is served alone, with its sweep, leads from places between two requests to such places,
/// and ends as the session answers.
pub fn requests_are_served()
    ensures { RequestsAreServed }
{}

/// So does a list of requests, one after another, each ending as the session answers it.
pub fn runs_are_served()
    ensures { RunsAreServed }
{}

/// A call of the map that runs alone, wherever memory is wanting, and its sweep: the call ends as the
/// session answers or for want of memory, and the places are between requests again.
pub fn calls_are_answered()
    ensures { CallsAreAnswered }
{}

/// So it is of a rebuild.
pub fn rebuilds_are_answered()
    ensures { RebuildsAreAnswered }
{}

/// A heal that is cut off for want of memory, between two of its rebuilds or in one, leaves places that
/// are between requests again, with a state in which some of its chunks are made anew.
pub fn heals_are_answered()
    ensures { HealsAreAnswered }
{}

/// A heal in which memory was wanting, but each of whose rebuilds made its chunk, is served.
pub fn heals_are_made()
    ensures { HealsAreMade }
{}

/// Such a heal has taken from each server what the session answers.
pub fn heals_take_anew()
    ensures { HealsTakeAnew }
{}

/// A read of a snapshot, wherever memory is wanting, ends as the session answers or for want of memory.
pub fn snap_reads_are_answered()
    ensures { SnapReadsAreAnswered }
{}

/// Any list of requests, each served with ample memory or ended for want of it, is answered as a session
/// may answer it, and the places are between requests again.
pub fn runs_are_answered()
    ensures { RunsAreAnswered }
{}
