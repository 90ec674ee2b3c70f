//! What the definitions say, as functions that do nothing and whose contracts are the laws.

ghost use Rattle.store_core.specs.Calls.{Calls};
ghost use Rattle.run_laws.specs.ReadLaws.{LooksOweTheirPins};
ghost use Rattle.run_laws.specs.PinLaws.{StepsKeepServed};
ghost use Rattle.run_laws.specs.RunContents.{AllRunsStandForTheMap};

/// Where a client's look pins stripes, the map's reply at its point is the bytes of their parts in the
/// pinned versions' contents, also by the contents of a later moment.
pub fn looks_owe_their_pins()
    ensures { LooksOweTheirPins }
{}

/// Of each pass of a get or a read, the map's reply at a point stays the bytes that its pins stand for,
/// whatever is committed later.
pub fn pinned_bytes_stay_owed()
    ensures { (calls : Calls) → StepsKeepServed calls }
{}

/// In every run of a valid script, whatever was wanting of memory, the contents of each object's
/// current versions are the stripes of the bytes that the plain map has after the calls at the points;
/// and each get or read that has a pass is owed the bytes that its pins stand for.
pub fn runs_stand_for_the_map()
    ensures { AllRunsStandForTheMap }
{}
