//! The laws, as functions that do nothing.
ghost use Rattle.thread_laws.specs.Merging.{Merges};
ghost use Rattle.thread_laws.specs.InOrder.{MergesInOrder};
ghost use Rattle.thread_laws.specs.Threaded.{ShowsThreadedRuns};
ghost use Rattle.thread_laws.specs.OwnSteps.{ActorsKeepLists};
ghost use Rattle.thread_laws.specs.Taken.{ServersCountTakes};
ghost use Rattle.thread_laws.specs.CallTakes.{CallsCountTakes};
ghost use Rattle.thread_laws.specs.StatsExample.{StatsMerge};
ghost use Rattle.thread_laws.specs.ShortExample.{ShortMerges};
ghost use Rattle.thread_laws.specs.ReadMerges.{ReadMerges};

/// Steps that were made apart are a run of the core: in any order in which moments don't fall, and so
/// in that of their moments, and of their actors where two moments are equal.
pub fn steps_merge()
    ensures any { Merges }
    ensures sorted { MergesInOrder }
{}

/// What such steps show is the transcript of a threaded run.
pub fn threaded_runs_are_shown()
    ensures { ShowsThreadedRuns }
{}

/// An actor's own steps at all places, by moment, are a list that a later step only makes longer.
pub fn actors_keep_lists()
    ensures { ActorsKeepLists }
{}

/// What a server counts as taken is the sum, over actors, of what each actor's own list took there,
/// and of what the calls of clients and repairers count, each after its own list.
pub fn servers_count_takes()
    ensures lists { ServersCountTakes }
    ensures calls { CallsCountTakes }
{}

/// Small runs by moments, computed.
pub fn small_runs_merge()
    ensures stats { StatsMerge }
    ensures short { ShortMerges }
    ensures read { ReadMerges }
{}
