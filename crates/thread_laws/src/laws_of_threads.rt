//! The laws, as functions that do nothing and whose contracts are the laws.

ghost use Rattle.thread_laws.specs.RunLaws.{ThreadedRunsAreRuns, StepsShowRuns};
ghost use Rattle.thread_laws.specs.Worked.{StatsAreARun};
ghost use Rattle.thread_laws.specs.OwedLaws.{OwedAreReplies, OwedStay, LooksAreOwed};

/// What a threaded run of a valid script shows, in which each client and repairer has made its steps to its
/// end, is a run's transcript: one history of the script, legal, finished, with a cause for each refusal,
/// an answer for each call that nothing hindered, and no more taken than rebuilds and reads have to.
pub fn threaded_runs_are_runs()
    ensures { ThreadedRunsAreRuns }
{}

/// So it is of steps that were made apart, at places and by actors, where the operator has made all its lines.
pub fn steps_show_runs()
    ensures { StepsShowRuns }
{}

/// Two clients that each ask for an object that isn't there, while the operator empties a server, in threads.
pub fn stats_are_a_run()
    ensures { StatsAreARun }
{}

/// What a client was owed by what its look told it, by the contents of the versions that there were then, is
/// the map's reply to its call at the point of the look, by all points that stand in the directory's history
/// now or later.
pub fn owed_are_replies()
    ensures { OwedAreReplies }
{}

/// It stays so as the history grows, and a look that pins stripes is owed their bytes.
pub fn owed_stay()
    ensures stay { OwedStay }
    ensures begin { LooksAreOwed }
{}
