//! What the definitions say, as functions that do nothing and whose contracts are the laws.

ghost use Rattle.frame_session.specs.Fits.{AnswersFit};
ghost use Rattle.frame_session.specs.Written.{AnswersAreCut, AmpleSessionsAreThose};

/// Each answer of a session within its limits has a length that a frame may have, and the servers that it names are counted in a byte.
pub fn answers_fit()
    ensures { AnswersFit }
{}

/// So what is written is cut into frames in one way, each of which is an answer.
pub fn answers_are_cut()
    ensures { AnswersAreCut }
{}

/// A session of which no answer is that memory was wanting is the one that the definitions compute.
pub fn ample_sessions_are_those()
    ensures { AmpleSessionsAreThose }
{}
