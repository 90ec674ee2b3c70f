//! What the definitions say, as functions that do nothing and whose contracts are the laws.

ghost use Rattle.std.specs.Prelude.{◌≡◌, ℕ, List, map};
ghost use Rattle.clay_grid.specs.Shape.{Shape};
ghost use Rattle.store_core.specs.Told.{Seen, Lost};
ghost use Rattle.store_core.specs.Act.{Outcome};
ghost use Rattle.store_core.specs.Read.{part_of};
ghost use Rattle.store_core.specs.Write.{old_parts};
ghost use Rattle.run_laws.specs.State.{Sequel, State};
ghost use Rattle.run_laws.specs.States.{sequel_state};
ghost use Rattle.gather_parts.specs.Gatherings.{GatheringsOf, owed};
ghost use Rattle.gather_parts.specs.Progress.{progress_of};
ghost use Rattle.gather_parts.specs.States.{state_in};

use crate::progress::Progress;

/// What a write gathers of its object's old bytes is what a read of all of them gathers of the same
/// stripes.
#[tactic(auto, using(crate::proofs::OldParts::old_are_parts))]
pub fn old_parts_are_parts()
    ensures { (g : Shape) (length : ℕ) (stripes : List Seen) → map (part_of g 0 length) stripes ≡ old_parts g length stripes }
{}

/// Gatherings that are done have all that is owed, and their call goes on as said; where too many
/// chunks are missing it ends without its bytes.
pub fn progress_tells_states()
    ensures done { (p : GatheringsOf) (after : Sequel) → progress_of p ≡ Progress.Done → state_in p after ≡ sequel_state after }
    ensures bytes { (p : GatheringsOf) → progress_of p ≡ Progress.Done → owed p ≡ p.bytes }
    ensures lost { (p : GatheringsOf) → progress_of p ≡ Progress.TooMany →
        (stripe : ℕ) × (missing : List Lost) × ((after : Sequel) → state_in p after ≡ State.Ending (Outcome.Unavailable stripe missing)) }
{}
