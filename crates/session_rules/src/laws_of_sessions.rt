//! What the definitions say, as functions that do nothing and whose contracts are the laws.

ghost use Rattle.session_rules.specs.ServedLaws.{LossesAreServed, ReadsAreServed, StatsAreServed, DeletesAreServed};
ghost use Rattle.session_rules.specs.Puts.{PutsAreServed};
ghost use Rattle.session_rules.specs.Unseen.{StepsAreUnseen};
ghost use Rattle.session_rules.specs.Moves.{MovesAreUnseen};
ghost use Rattle.session_rules.specs.Sweeps.{SweepsAreUnseen, GarbageIsUnseen};
ghost use Rattle.session_rules.specs.Quiet.{AllGarbageIsSwept};
ghost use Rattle.session_rules.specs.Settled.{QuietIsSettled, PutsAreSettled};
ghost use Rattle.session_rules.specs.SweptCalls.{PutsAreSwept, DeletesAreSwept, WritesAreSwept};
ghost use Rattle.session_rules.specs.Beginnings.{BeginningsAreSeen};
ghost use Rattle.session_rules.specs.Writes.{WritesAreServed};
ghost use Rattle.session_rules.specs.AloneRebuilds.{RebuildsAreServed};
ghost use Rattle.session_rules.specs.AloneHeals.{HealsAreServed};
ghost use Rattle.session_rules.specs.Restored.{HealsRestoreStripes};
ghost use Rattle.session_rules.specs.Wants.{WantsAreUnseen, WantsAreSwept};
ghost use Rattle.session_rules.specs.Takes.{RebuildsAreTaken, HealsAreTaken};
ghost use Rattle.session_rules.specs.Scrubs.{ScrubsAreSeen};
ghost use Rattle.session_rules.specs.Snaps.{SnapsAreSeen};
ghost use Rattle.session_rules.specs.Refusals.{RefusedPutsAreServed, RefusedWritesAreServed};

/// A new directory and new servers are seen as a session's first state, and are quiet.
pub fn beginnings_are_seen()
    ensures { BeginningsAreSeen }
{}

/// A loss of the session is one step at a server: the places are seen as the state after it, and
/// nothing else is kept than what is live.
pub fn losses_are_served()
    ensures { LossesAreServed }
{}

/// A get or a read that runs alone from its look to its end has the outcome that the session
/// answers, and leaves places that are seen as the session's state after it.
pub fn reads_are_served()
    ensures { ReadsAreServed }
{}

/// A put that runs alone and isn't too large ends with the session's answer, and leaves places that
/// are seen as the session's state after it, where each version that it drew stands for a new number.
pub fn puts_are_served()
    ensures { PutsAreServed }
{}

/// The sweeper's steps for the first garbage are unseen, where that stands for no live number: the
/// places are seen as the same state, and no server holds it any more.
pub fn sweeps_are_unseen()
    ensures { SweepsAreUnseen }
{}

/// What the sweeper takes next stands for no live number, where the snapshot's versions are pinned.
pub fn garbage_is_unseen()
    ensures { GarbageIsUnseen }
{}

/// A stat that runs alone has the outcome that the session answers, and leaves the state.
pub fn stats_are_served()
    ensures { StatsAreServed }
{}

/// A delete that runs alone has the outcome that the session answers, and leaves places that are
/// seen as the session's state after it.
pub fn deletes_are_served()
    ensures { DeletesAreServed }
{}

/// Every step but a commit, a delete's look, a loss and a chunk that is placed anew leaves places
/// that are seen as the same state, whether or not memory was wanting in it.
pub fn steps_are_unseen()
    ensures { StepsAreUnseen }
{}

/// The sweeper comes to its end after any call: the places are seen as the same state, there is no
/// garbage, and servers hold chunks of live versions alone.
pub fn all_garbage_is_swept()
    ensures { AllGarbageIsSwept }
{}

/// Where the places are quiet, each version that is held is one that an object has or that a snapshot
/// keeps.
pub fn quiet_is_settled()
    ensures { QuietIsSettled }
{}

/// A put that runs alone leaves places of which the sweeper makes quiet ones.
pub fn puts_are_settled()
    ensures { PutsAreSettled }
{}

/// A put that is too large leaves the state.
pub fn refused_puts_are_served()
    ensures { RefusedPutsAreServed }
{}

/// So does a write that the map refuses.
pub fn refused_writes_are_served()
    ensures { RefusedWritesAreServed }
{}

/// What a session's scrub lists are the chunks of current versions that their servers don't hold.
pub fn scrubs_are_seen()
    ensures { ScrubsAreSeen }
{}

/// A put and the sweeper after it lead from quiet places to quiet ones.
pub fn puts_are_swept()
    ensures { PutsAreSwept }
{}

/// So do a delete and the sweeper after it.
pub fn deletes_are_swept()
    ensures { DeletesAreSwept }
{}

/// A write that runs alone with a try at least, and that the map takes, has the outcome that the
/// session answers, and leaves places that are seen as the session's state after it, where each
/// version that it drew stands for a new number.
pub fn writes_are_served()
    ensures { WritesAreServed }
{}

/// So do any write and the sweeper after it.
pub fn writes_are_swept()
    ensures { WritesAreSwept }
{}

/// A rebuild that runs alone at a server that there is has the outcome that the session answers, and
/// leaves places that are seen as the session's state after it; quiet places stay quiet.
pub fn rebuilds_are_served()
    ensures { RebuildsAreServed }
{}

/// Such a rebuild that makes its chunk has taken from each server what the session says of the stripe.
pub fn rebuilds_are_taken()
    ensures { RebuildsAreTaken }
{}

/// A heal is rebuilds that run alone, one for each lost chunk that can be made anew: after the first
/// so many of them the places are seen as the session's state then, and quiet places stay quiet.
pub fn heals_are_served()
    ensures { HealsAreServed }
{}

/// A heal, where the healer's numbers last, leaves every stripe of an object that had at most as many lost
/// chunks as there are parity chunks with none lost, and every other stripe with what it held.
pub fn heals_restore_stripes()
    ensures { HealsRestoreStripes }
{}

/// What the rebuilds of a heal take from each server adds up to what the session says.
pub fn heals_are_taken()
    ensures { HealsAreTaken }
{}

/// What a call does before its commit leaves the state that is seen, wherever memory is wanting.
pub fn moves_are_unseen()
    ensures { MovesAreUnseen }
{}

/// A client's call or a rebuild that runs alone and ends for want of memory leaves places that are
/// seen as the state before it, wherever memory was wanting.
pub fn wants_are_unseen()
    ensures { WantsAreUnseen }
{}

/// After a call that ends so the sweeper makes quiet places of quiet ones.
pub fn wants_are_swept()
    ensures { WantsAreSwept }
{}

/// What is seen of the places stays where a snapshot is taken or dropped.
pub fn snaps_are_seen()
    ensures { SnapsAreSeen }
{}
