//! The laws, as functions that do nothing.
ghost use Rattle.thread_laws.specs.AtServer.{ServersStandOn, NumbersAreActors};
ghost use Rattle.thread_laws.specs.AtDirectory.{DirectoriesStandOn, NumbersAreActorsThere};
ghost use Rattle.thread_laws.specs.Epochs.{EpochsAreWipes};
ghost use Rattle.thread_laws.specs.Operated.{LinesAreNext};

/// A server after a step stands for its history with the step.
pub fn servers_stand_on()
    ensures { ServersStandOn }
{}

/// In a server's history the steps of an actor are the entries of its number.
pub fn numbers_are_actors()
    ensures { NumbersAreActors }
{}

/// The directory after a step stands for its history with the step.
pub fn directories_stand_on()
    ensures { DirectoriesStandOn }
{}

/// In the directory's history the steps of an actor are the entries of its number.
pub fn numbers_are_actors_there()
    ensures { NumbersAreActorsThere }
{}

/// An operator that has a line left makes it next at the line's place.
pub fn lines_are_next()
    ensures { LinesAreNext }
{}

/// A server was emptied at most as often as the script says.
pub fn epochs_are_wipes()
    ensures { EpochsAreWipes }
{}
