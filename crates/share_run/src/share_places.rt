//! Places of files that are written beside them, and put there once they are whole.
ghost use Rattle.std.specs.Prelude.{◌≡◌, ◌++◌, [], ◌∷◌, List, ℕ, OnOk, OnErr};
ghost use Rattle.clay_bytes.specs.Stream.{Rises};
ghost use Rattle.file_bytes.specs.Laid.{laid};
ghost use Rattle.share_run.specs.Places.{Filled, filled};

use clay_bytes::{Failed, Sink};
use file_bytes::SinkAt;

/// Places for files that are written at positions, by their numbers. A place is filled in one step.
pub trait FilePlaces<K: SinkAt> {
    /// Which files were put into which places, in the order of the calls.
    ghost filled_in: { Self → List Filled };

    /// How many calls have failed, as a number that stops at the end of its type.
    ghost faults: { Self → ℕ };

    /// Puts the file into a place. It takes the place of the file that stood there, which still stands there after a fault.
    fn fill(&mut self, place: u32, made: &K) -> Result<(), Failed>
        ensures filled { OnOk result (filled_in self.new ≡ filled_in self.old ++ filled place (laid (K.put made.now)) ∷ []) }
        ensures unfilled { OnErr result (filled_in self.new ≡ filled_in self.old) }
        ensures cause { OnErr result (Rises (faults self.old) (faults self.new)) }
        ensures steady { OnOk result (faults self.new ≡ faults self.old) };
}

/// A place for a file that is written in a row.
pub trait FilePlace<K: Sink> {
    /// Which files were put into it, as place 0, in the order of the calls.
    ghost filled_in: { Self → List Filled };

    /// How many calls have failed, as a number that stops at the end of its type.
    ghost faults: { Self → ℕ };

    /// As `FilePlaces::fill`.
    fn fill(&mut self, made: &K) -> Result<(), Failed>
        ensures filled { OnOk result (filled_in self.new ≡ filled_in self.old ++ filled 0 (K.accepted made.now) ∷ []) }
        ensures unfilled { OnErr result (filled_in self.new ≡ filled_in self.old) }
        ensures cause { OnErr result (Rises (faults self.old) (faults self.new)) }
        ensures steady { OnOk result (faults self.new ≡ faults self.old) };
}
