//! What the definitions say, as functions that do nothing and whose contracts are the laws.

ghost use Rattle.run_laws.specs.SoundLaws.{StepsKeepSound};
ghost use Rattle.run_laws.specs.DrawnLaws.{StepsKeepDrawn};
ghost use Rattle.run_laws.specs.AgreementLaws.{StepsMayBeMade, AgreementGoesOn};

/// A directory without objects is sound, and each step that may be made leaves a sound directory
/// sound: its points replay to its objects, each object has its versions, all current and each once,
/// and each pass has what it pinned and drew.
pub fn steps_keep_a_directory_sound()
    ensures { StepsKeepSound }
{}

/// Each version that stands as drawn was drawn by a pass that has not ended and wasn't reaped: so it is in
/// a directory without objects, and after each step that may be made at a sound directory where it is so.
pub fn steps_keep_drawn_versions_in_passes()
    ensures { StepsKeepDrawn }
{}

/// What an actor does next with its seat or its pass may be done: with a seat a look of its own under
/// an unused number, with a pass a step of its call. The version that a rebuild pinned is current, or its
/// object was changed after the point that the actor was told.
pub fn agreement_lets_steps_be_made()
    ensures { StepsMayBeMade }
{}

/// A directory without objects agrees with each new seat. Each step that an actor makes with its ticket
/// leaves a sound directory in agreement with the ticket that it gives back, which tells no earlier
/// point than before; and every step leaves it in agreement with every other actor's ticket.
pub fn agreement_goes_on()
    ensures { AgreementGoesOn }
{}
