//! The laws, as functions that do nothing and whose contracts are the laws.

ghost use Rattle.history_laws.specs.DropLaws.{AllCommitsDrop, AllDeletesDrop, AllEndsDrop};
ghost use Rattle.history_laws.specs.RaceLaws.{RunsLoseRaces, RunsNameChanges};

/// A commit makes current what was drawn, each version with its row of placements. Of the object's
/// earlier versions a put drops those of all stripes, a write those of the stripes that it writes
/// into; every other version of any object stays as it was. A commit that tells of a change drops
/// just what was drawn; one that tells of a reap tells its own pass's, and no version changes. A
/// commit that may be made has one of these three answers.
pub fn commits_drop_what_they_replace()
    ensures { AllCommitsDrop }
{}

/// A delete that is answered ok drops the versions of all stripes of its object, and no other.
pub fn deletes_drop_all_of_their_object()
    ensures { AllDeletesDrop }
{}

/// A pass that ends by its step `end`, or that is reaped, drops just what it drew.
pub fn ends_drop_what_was_drawn()
    ensures { AllEndsDrop }
{}

/// A write that is refused as contended has lost as many races as it has tries, each to a change that
/// the history has.
pub fn runs_lose_races()
    ensures { RunsLoseRaces }
{}

/// A rebuild that came too late names a change of its object that the history has.
pub fn runs_name_changes()
    ensures { RunsNameChanges }
{}
