//! The laws, as functions that do nothing and whose contracts are the laws.

ghost use Rattle.thread_laws.specs.ServedLaws.{OwedAreServed, TranscriptsAreRuns};
ghost use Rattle.thread_laws.specs.StepOwes.{StepsKeepOwing};
ghost use Rattle.thread_laws.specs.SeenOwed.{AllServedStayOwed};
ghost use Rattle.thread_laws.specs.ShowLaws.{ActorsShowRuns};

/// Where each call that was served has the bytes that it was owed by its look, the calls hold for the
/// history what a transcript asks of them: each was served at its pinned point, with the map's reply there.
pub fn owed_are_served()
    ensures { OwedAreServed }
{}

/// So a transcript that is made of the directory, the servers and the calls with which steps end that were
/// made apart is that of a run.
pub fn transcripts_are_runs()
    ensures { TranscriptsAreRuns }
{}

/// A client's step at the directory keeps what its call is owed by the steps there, and makes it owed what its
/// look pins.
pub fn steps_keep_owing()
    ensures { StepsKeepOwing }
{}

/// What each client was owed by what it has seen, all were owed by the whole history.
pub fn all_served_stay_owed()
    ensures { AllServedStayOwed }
{}

/// Where all actors have ended, a transcript that is made of their values is a run's.
pub fn actors_show_runs()
    ensures { ActorsShowRuns }
{}
