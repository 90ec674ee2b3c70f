//! What the definitions say, as functions that do nothing and whose contracts are the laws.

ghost use Rattle.run_laws.specs.LengthLaws.{LengthsAreTheMap};
ghost use Rattle.run_laws.specs.ReplayLaws.{SoundReplaysTheMap};

/// The map by names and lengths is the plain map seen by names and lengths: after every call, and in
/// its reply.
pub fn lengths_are_the_map()
    ensures { LengthsAreTheMap }
{}

/// The points of a sound directory replay the plain map: it ends with the objects' names and lengths,
/// and each event says what the map replies there, an answer to the byte, others without the bytes.
pub fn sound_directories_replay_the_map()
    ensures { SoundReplaysTheMap }
{}
