//! The laws, as functions that do nothing and whose contracts are the laws.

ghost use Rattle.history_laws.specs.LeastTakes.{RebuildsTakeLeast, ReadsTakeLeast, CallsHaveLogs};
ghost use Rattle.history_laws.specs.TakesLaws.{RunsAddUp};

/// A rebuild that lacks its target's chunk alone takes one part in q of each other chunk, and
/// nothing from its target.
pub fn rebuilds_take_least()
    ensures { RebuildsTakeLeast }
{}

/// A get or a read that is told of no missing chunk takes just the subchunks that have its bytes.
pub fn reads_take_least()
    ensures { ReadsTakeLeast }
{}

/// In every run each call that has ended took what its answers gave it.
pub fn calls_have_logs()
    ensures { CallsHaveLogs }
{}

/// What calls took from a server is what it gave, and its epoch is how often the operator emptied it.
pub fn runs_add_up()
    ensures { RunsAddUp }
{}
