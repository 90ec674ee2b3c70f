//! The laws, as functions that do nothing and whose contracts are the laws.

ghost use Rattle.thread_laws.specs.Seen.{HistoriesHaveAll, NewTurnsBegin};
ghost use Rattle.thread_laws.specs.ListNumbers.{ClientsComeFirst, RepairersFollow};
ghost use Rattle.thread_laws.specs.EndLaws.{ActorsEndRuns};
ghost use Rattle.thread_laws.specs.Stepped.{CallersGoOnAtServers, CallersGoOnAtDirectory, CallersSeeMore};
ghost use Rattle.thread_laws.specs.Plain.{SweepingGoesOn, OperatingGoesOn};
ghost use Rattle.thread_laws.specs.Room.{ActorsHaveRoom};
ghost use Rattle.thread_laws.specs.Others.{OthersAddNothing};
ghost use Rattle.thread_laws.specs.Begin.{AllPlacesBegin, AllBegin};
ghost use Rattle.thread_laws.specs.JoinedTurns.{JoinedTurnsSeeAll};
ghost use Rattle.thread_laws.specs.PlaceWorked.{StatsHaveEnded};
ghost use Rattle.thread_laws.specs.Calling.{CallsKnowThemselves, ActorsHaveNumbers};

/// An actor whose turns have seen nothing is as it should be before its first step.
pub fn new_turns_begin()
    ensures { NewTurnsBegin }
{}

/// Histories that have, of an actor's number, the entries that its turns have seen have all steps of the actor.
pub fn histories_have_all()
    ensures { HistoriesHaveAll }
{}

/// The numbers of a script's clients are their places in it, and those of its repairers follow.
pub fn numbers_are_places()
    ensures clients { ClientsComeFirst }
    ensures repairers { RepairersFollow }
{}

/// Where all actors have ended, the last histories are those of steps made apart, in a core for which the values stand.
pub fn actors_end_runs()
    ensures { ActorsEndRuns }
{}

/// A client or a repairer keeps its own list of steps, its ticket and its count of steps in each step, with fewer
/// left after it, and where its turns see more.
pub fn callers_go_on()
    ensures at_servers { CallersGoOnAtServers }
    ensures at_directory { CallersGoOnAtDirectory }
    ensures see_more { CallersSeeMore }
{}

/// So it is of the sweeper and the operator after their next steps.
pub fn plain_actors_go_on()
    ensures sweeper { SweepingGoesOn }
    ensures operator { OperatingGoesOn }
{}

/// Before their first step all actors are as they should be.
pub fn all_begin()
    ensures { AllBegin }
{}

/// A client or a repairer of a valid script that has made its own list of steps can make one more.
pub fn actors_have_room()
    ensures { ActorsHaveRoom }
{}

/// What others add to a history changes nothing of an actor's own list.
pub fn others_add_nothing()
    ensures { OthersAddNothing }
{}

/// New servers and a new directory stand for no history.
pub fn all_places_begin()
    ensures { AllPlacesBegin }
{}

/// With all turns joined nobody else adds to a history.
pub fn joined_turns_see_all()
    ensures { JoinedTurnsSeeAll }
{}

/// A small run whose places and actors meet all that is asked of them.
pub fn stats_have_ended()
    ensures { StatsHaveEnded }
{}

/// A call in work has the ticket that the own steps of its client or repairer lead to, and the number of its
/// ended calls.
pub fn calls_know_themselves()
    ensures { CallsKnowThemselves }
{}

/// The number of each actor's turn.
pub fn actors_have_numbers()
    ensures { ActorsHaveNumbers }
{}
