//! What the definitions say, as functions that do nothing and whose contracts are the laws.

ghost use Rattle.run_laws.specs.CallLaws.{ActsResume, CallsResume, StatesResume};
ghost use Rattle.run_laws.specs.FitLaws.{AnswersFit};
ghost use Rattle.run_laws.specs.ResumeGatherLaws.{GatheringsResume};

/// A gathering goes on from its stage alone: the server that it asks, those that are left and the
/// missing ones.
pub fn gatherings_resume()
    ensures { GatheringsResume }
{}

/// A call of any kind goes on from its state alone. The act of its state is what the definitions say
/// of all answers; one answer more leads the state on as it leads on what is kept of the answers; so
/// a machine that keeps its state and no answers makes the acts of the definitions.
pub fn calls_resume()
    ensures acts { ActsResume }
    ensures states { StatesResume }
    ensures machines { CallsResume }
{}

/// What a call is told step by step fits its acts, as the other laws of this crate want it: only the
/// commit of a put or a write is answered by a point, and a write's alone by a change.
pub fn answers_fit()
    ensures { AnswersFit }
{}
