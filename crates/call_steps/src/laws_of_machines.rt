//! The laws, as functions that do nothing and whose contracts are the laws.

ghost use Rattle.call_steps.specs.StandLaws.{ActsStand, FirstsStand, StepsAtDirectory, StepsAtServers};
ghost use Rattle.call_steps.specs.NeedLaws.{EndsStay, NeedsTellActs};
ghost use Rattle.call_steps.specs.TokenLaws.{AgreementStays, PassesAreOfCalls, TokensStay};

/// The machine of a call that hasn't begun stands for its actor between two calls.
pub fn first_machines_stand()
    ensures { FirstsStand }
{}

/// A machine that stands for its actor makes the actor's acts, and stands for it after a coding too, in
/// which memory was wanting or not. Where it was, the end of the pass is next.
pub fn standing_machines_make_the_acts()
    ensures { ActsStand }
{}

/// Each step of such a machine, at the directory or at a server that is there, is the step of the
/// definitions: it leaves the place as they say, and either the machine stands for its actor again, or
/// it has come to its end, and with the same outcome and takes the actor's call has ended.
pub fn steps_are_those_of_the_definitions()
    ensures directory { StepsAtDirectory }
    ensures servers { StepsAtServers }
{}

/// Where a call needs the directory or a server its next step is there, and no coding is due before
/// it; where it needs nothing it is over, and then it makes no step.
pub fn needs_tell_acts()
    ensures acts { NeedsTellActs }
    ensures ends { EndsStay }
{}

/// A ticket keeps its actor through all steps of a call; and where the directory agrees with it, the
/// actor's pass is of its call.
pub fn tokens_keep_their_actors()
    ensures tokens { TokensStay }
    ensures passes { PassesAreOfCalls }
{}

/// Where a directory agrees with a call's ticket, it does so after each step of the call, with the ticket
/// that the call has then; and with the tickets of all other actors.
pub fn steps_keep_agreement()
    ensures { AgreementStays }
{}
