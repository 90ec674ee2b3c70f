//! How reads of a snapshot end.
ghost use Rattle.std.specs.Prelude.{◌≡◌, None, Some};
ghost use Rattle.run_laws.specs.State.{Sequel};
ghost use Rattle.gather_parts.specs.Gatherings.{owed};
ghost use Rattle.gather_parts.specs.States.{state_in};
ghost use Rattle.gather_parts.specs.Ends.{end_state, IfBytes};
ghost use Rattle.snapshot_view.specs.Reads.{ReadOf};
ghost use Rattle.snapshot_view.specs.ReadSteps.{EndsAs};

use gather_parts::Gathered;
use store_map::LostChunk;

/// How a read ends, where that isn't what its gatherings come to: the map refuses it, or memory was
/// wanting in a coding.
#[derive(Clone, Copy, PartialEq, Eq)]
pub(crate) enum Ending {
    NoSuch,
    OutRange,
    NoMemory,
}

/// How a read of a snapshot ended.
#[derive(Drop)]
pub enum SnapOutcome {
    /// With the bytes that the object had.
    Bytes(Vec<u8>),
    /// There was no such object.
    NoSuch,
    /// The range begins behind the object's end.
    OutRange,
    /// More chunks of the stripe were missing than the code can make anew. They stand in the order in
    /// which they were found.
    Unavailable {
        stripe: u32,
        missing: Vec<LostChunk>,
    },
    /// Memory was wanting.
    NoMemory,
}

impl SnapOutcome {
    // Of a read that has ended before its gatherings.
    pub(crate) fn of_ended(ended: Ending) -> SnapOutcome
        ensures { (r : ReadOf) → r.ended ≡ Some ended → EndsAs r result }
    {
        match ended {
            Ending::NoSuch => SnapOutcome::NoSuch,
            Ending::OutRange => SnapOutcome::OutRange,
            Ending::NoMemory => SnapOutcome::NoMemory,
        }
    }

    // By what its gatherings came to.
    pub(crate) fn of_gathered(gathered: Gathered) -> SnapOutcome
        ensures { (r : ReadOf) → r.ended ≡ None → ((after : Sequel) → state_in r.gatherings after ≡ end_state after gathered)
            → IfBytes gathered (λ bytes. bytes.items ≡ owed r.gatherings) → EndsAs r result }
    {
        match gathered {
            Gathered::Bytes(bytes) => SnapOutcome::Bytes(bytes),
            Gathered::TooMany { stripe, missing } => SnapOutcome::Unavailable { stripe, missing },
            Gathered::Short => SnapOutcome::NoMemory,
        }
    }
}
