//! The laws, as functions that do nothing and whose contracts are the laws.

ghost use Rattle.history_laws.specs.InTimeLaws.{
  DrainsAreSteps,
  RunsHaveLossesInTime,
  RunsHavePointsInTime,
  RunsShowCauses,
};
ghost use Rattle.history_laws.specs.Held.{RunsHoldWhatTheyMay};

/// A drain is the steps of its rounds: a schedule and the same with each drain step by step make one run.
pub fn drains_are_steps()
    ensures { DrainsAreSteps }
{}

/// In every run, of two calls with lines in the history the one that was over before the other began has
/// the smaller point; each point that a refused write lost to, or that made a rebuild too late, came while
/// that call ran; and so did the reap of each call that was given up.
pub fn runs_have_points_in_time()
    ensures { RunsHavePointsInTime }
{}

/// In every run each server that a refusal names told its call, after the call's look and asked for a
/// chunk of the version that the look told, that it lacked the chunk or was away, with the count that it
/// had at that moment; its placement is the one that the look told, and had come about before by a prepare
/// or an install. A put or a write that was refused for servers that were away names those that it had a
/// chunk of one version for. A rebuild that ends as away was told so by a server, whose count of times
/// down was the named one then.
pub fn runs_have_losses_in_time()
    ensures { RunsHaveLossesInTime }
{}

/// In every run each refusal and each rebuild's result that is shown is its call's outcome after all that
/// the steps of the run told it, in their order, which it can be told and which causes it.
pub fn runs_show_causes()
    ensures { RunsShowCauses }
{}

/// At each moment of every run each version that a server holds is current, or superseded and not yet
/// swept, or drawn by a pass that has not ended; or a call that was given up drew it or looked at it.
pub fn runs_hold_what_they_may()
    ensures { RunsHoldWhatTheyMay }
{}
