//! The laws, as functions that do nothing and whose contracts are the laws.

ghost use Rattle.history_laws.specs.FoundMissing.{RunsFindMissing};
ghost use Rattle.history_laws.specs.OwnResults.{RunsNameLosses};
ghost use Rattle.history_laws.specs.KeptChunks.{RunsKeepChunks};

/// A call is unavailable only where one server more than the code can spare was away or had lost its
/// chunk, each of them by the operator.
pub fn runs_find_missing()
    ensures { RunsFindMissing }
{}

/// A rebuild that is unavailable names its own stripe, and one that ends for a server that was away
/// names its own server.
pub fn runs_name_losses()
    ensures { RunsNameLosses }
{}

/// A chunk that a server took is held until the sweeper takes its version, unless the operator emptied
/// the server since.
pub fn runs_keep_chunks()
    ensures { RunsKeepChunks }
{}
