//! The laws, as functions that do nothing and whose contracts are the laws.

ghost use Rattle.history_laws.specs.Ample.{AmpleRunsAreOne};
ghost use Rattle.history_laws.specs.FactsLaw.{FactsAreExact};
ghost use Rattle.history_laws.specs.NextSteps.{RunsStepNext};
ghost use Rattle.history_laws.specs.PlayedLaws.{RunsTellEnds, EnoughStepsEndCalls, RunsAnswer, RunsArePlayed};
ghost use Rattle.history_laws.specs.ShowsLaws.{RunsShowHistories, RunsAreLegal};
ghost use Rattle.history_laws.specs.Takes.{RunsTakeLeast};

/// Of every valid script, whatever is wanting of memory, what its run shows is a history.
pub fn runs_show_histories()
    ensures { RunsShowHistories }
{}

/// So its verdict is that it is legal.
pub fn runs_are_legal()
    ensures { RunsAreLegal }
{}

/// In every run of a valid script each step of a call is the one that the call makes next after what its
/// steps before were told.
pub fn runs_step_next()
    ensures { RunsStepNext }
{}

/// In every run of a valid script each call that is over by what its steps were told has a reply, a refusal
/// or a result, a client's one of the first two and a rebuild the last; and no other call has one.
pub fn runs_tell_ends()
    ensures { RunsTellEnds }
{}

/// A call is over that has made all the steps that such a call makes at most, whether or not allocations
/// failed. A get's or a read's bound counts the stripes that it pinned.
pub fn enough_steps_end_calls()
    ensures { EnoughStepsEndCalls }
{}

/// A client's call that is over has a reply, and no refusal, where memory was wanting in none of its steps,
/// it was not given up, of each version no more servers than there are parity chunks lacked their chunk when
/// it asked or were away when it had one for them, and it was told of a change of its object fewer times
/// than a write has tries. A rebuild that is over ended with its chunk at its target, where memory was
/// wanting in none of its steps, it was not given up, no more servers lacked their chunk, its stripe was
/// there and current, and its target never told it that it was away.
pub fn runs_answer_unhindered_calls()
    ensures { RunsAnswer }
{}

/// A run in which memory is wanting in no step is the script's and its tokens' alone.
pub fn ample_runs_are_one()
    ensures { AmpleRunsAreOne }
{}

/// What is computed of a call, by whatever steps, is what it stands for: that the call is over, each thing
/// that can hinder it, and that nothing hindered it. So a worked call with these facts is one of which the
/// law of answers speaks, or one that lacks what the facts say that it lacks.
pub fn facts_are_exact()
    ensures { FactsAreExact }
{}

/// In every run of a valid script a transcript tells of each call what its answers gave it. A rebuild that
/// is rebuilt and found a chunk missing once, which is its target's, took one part of each other chunk, of
/// as many as the grid has rows, and nothing of its target. A get or a read that has its bytes and found no chunk missing
/// took just the subchunks that have them.
pub fn runs_take_least()
    ensures { RunsTakeLeast }
{}

/// What a run of a valid script shows is one history of a plain map, legal, in time, with a cause for each
/// refusal, an end for each call that is over, an answer for each of these that nothing hindered, and no
/// more taken than rebuilds and reads have to.
pub fn runs_are_played()
    ensures { RunsArePlayed }
{}
