//! The laws, as functions that do nothing and whose contracts are the laws.

ghost use Rattle.actors.specs.LeadLaws.{AllTurnsLead};

/// Where the directory agrees with the tickets of all actors, a turn of a client or a repairer leads the
/// world as its step leads a run of the store's definitions, and the directory agrees again.
pub fn turns_lead()
    ensures { AllTurnsLead }
{}
