//! What a call's gatherings came to.
ghost use Rattle.std.specs.Prelude.{◌≡◌};
ghost use Rattle.std.specs.Option.{option_map};
ghost use Rattle.run_laws.specs.State.{Sequel};
ghost use Rattle.gather_parts.specs.Gatherings.{owed};
ghost use Rattle.gather_parts.specs.Progress.{progress_of, IsOver};
ghost use Rattle.gather_parts.specs.States.{state_in};
ghost use Rattle.clay_grid.specs.Shape.{Shape};
ghost use Rattle.gather_parts.specs.Inside.{takes_in};
ghost use Rattle.gather_parts.specs.Ends.{end_state, IfBytes};
ghost use Rattle.call_steps.specs.CallOf.{taken_of};

use crate::gatherings::PartGatherings;
use crate::progress::Progress;
use read_ledger::Takes;
use store_map::LostChunk;

/// What the gatherings of a call came to.
#[derive(Drop)]
pub enum Gathered {
    /// The wanted bytes, those of the stripes one after another.
    Bytes(Vec<u8>),
    /// More chunks of the stripe were missing than the code can make anew. They stand in the order in
    /// which they were found.
    TooMany {
        stripe: u32,
        missing: Vec<LostChunk>,
    },
    /// Memory was wanting.
    Short,
}

impl PartGatherings {
    /// What the call took, or none where it took nothing.
    #[tactic(auto, using(call_steps::proofs::Counts::none_taken))]
    pub fn takes(&self) -> Option<&Takes>
        ensures { option_map (λ takes. takes.now) result ≡ taken_of self.now.takes }
    {
        let Some(takes) = &self.takes else {
            return None;
        };
        if takes.any() { Some(takes) } else { None }
    }

    /// The same, moved out, of a call that is cut off.
    pub fn into_takes(self) -> Option<Takes>
        ensures { result ≡ taken_of self.takes }
    {
        let PartGatherings { takes, .. } = self;
        taken(takes)
    }

    /// How they ended, and what the call took, or none where it took nothing.
    pub fn finish(self) -> (Gathered, Option<Takes>)
        requires { IsOver (progress_of self) }
        ensures state { (after : Sequel) → state_in self after ≡ end_state after result.0 }
        ensures bytes { IfBytes result.0 (λ bytes. bytes.items ≡ owed self) }
        ensures takes { result.1 ≡ taken_of self.takes }
    {
        let progress = self.progress();
        let PartGatherings {
            takes,
            current,
            bytes,
            ..
        } = self;
        let takes = taken(takes);
        match (progress, current) {
            (Progress::Done, _) => (Gathered::Bytes(bytes), takes),
            (Progress::TooMany, Some(gather)) => {
                let stripe = gather.course().stripe();
                let missing = gather.into_missing();
                (Gathered::TooMany { stripe, missing }, takes)
            }
            _ => (Gathered::Short, takes),
        }
    }
}

#[tactic(auto, using(call_steps::proofs::Counts::none_taken))]
fn taken(takes: Option<Takes>) -> Option<Takes>
    ensures { (g : Shape) → result ≡ taken_of (takes_in g takes) }
{
    let Some(takes) = takes else {
        return None;
    };
    if takes.any() { Some(takes) } else { None }
}
