//! The laws, as functions that do nothing and whose contracts are the laws.

ghost use Rattle.clay_cli.specs.FormLaws.{FaithfulRunsAreWellFormed, PlayedAreWellFormed, RunsAreWellFormed, ThreadedAreWellFormed};
ghost use Rattle.clay_cli.specs.BackLaws.{AreReadBack, ShownAreReadLegal};

/// Of a valid script of names, bytes and numbers that texts can have, what a run shows that is faithful to
/// the run's steps is a transcript of as many servers as the code has chunks, whatever was wanting of memory
/// and by whatever tokens, where the operator's lines among them are fewer than 2^32.
pub fn faithful_runs_are_well_formed()
    ensures { FaithfulRunsAreWellFormed }
{}

/// So is each transcript that a script's schedule shows,
pub fn played_are_well_formed()
    ensures played { PlayedAreWellFormed }
    ensures runs { RunsAreWellFormed }
{}

/// and each that a threaded run shows.
pub fn threaded_are_well_formed()
    ensures { ThreadedAreWellFormed }
{}

/// A script's spelling with the text of a well-formed transcript behind it is read back as these two alone;
/// so what is read from a script and the text of what its run shows is what was shown, and legal.
pub fn shown_are_read_back()
    ensures back { AreReadBack }
    ensures legal { ShownAreReadLegal }
{}
