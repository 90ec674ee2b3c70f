//! The laws, as functions that do nothing and whose contracts are the laws.

ghost use Rattle.history_laws.specs.HistoryLaws.{RunsReply, RunsGiveUp, RunsKeepCallOrder, RunsFinish};
ghost use Rattle.history_laws.specs.HasPoints.{AnswersHavePoints};
ghost use Rattle.history_laws.specs.ServedPoints.{RunsServeAtPins};

/// Each reply that a run shows is the plain map's, and so are the objects at the end.
pub fn runs_reply()
    ensures { RunsReply }
{}

/// No more of a caller's calls are given up than the operator gave up.
pub fn runs_give_up()
    ensures { RunsGiveUp }
{}

/// Each caller's calls come one after another and are answered once, points rise, and each line is of
/// a call of the script.
pub fn runs_keep_call_order()
    ensures { RunsKeepCallOrder }
{}

/// Each call of a client that was answered has its point in the history.
pub fn answers_have_points()
    ensures { AnswersHavePoints }
{}

/// After a drain each call that isn't under a step limit was answered or refused, or has its result.
pub fn runs_finish()
    ensures { RunsFinish }
{}

/// In every run of a valid script a call that was answered and has a pinned point was served there; so no
/// call that ended otherwise has a pinned point that shows a line.
pub fn runs_serve_at_pins()
    ensures { RunsServeAtPins }
{}
