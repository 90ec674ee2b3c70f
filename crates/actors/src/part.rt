//! The calls that a caller makes.
ghost use Rattle.std.specs.Prelude.{◌≡◌};
ghost use Rattle.actors.specs.Callers.{calls_of, who_of, work_of};
ghost use Rattle.actors.specs.Inside.{part_by};

use store_map::{Actor, ClientPart, RepairPart};

/// The calls that a caller makes, in their order: those of a client, or the rebuilds of a repairer.
#[derive(Clone, Copy)]
pub enum CallerPart<'a> {
    Client(&'a ClientPart),
    Repairer(&'a RepairPart),
}

impl<'a> CallerPart<'a> {
    /// How many calls they are.
    pub(crate) fn len(self) -> usize
        ensures { result ≡ calls_of (part_by self.entry) }
    {
        match self {
            CallerPart::Client(part) => part.calls.len(),
            CallerPart::Repairer(part) => part.calls.len(),
        }
    }

    /// Who makes them, at this place of the script's clients or of its repairers.
    pub(crate) fn actor(self, place: u32) -> Actor
        ensures { result ≡ who_of (part_by self.entry) place }
    {
        match self {
            CallerPart::Client(_) => Actor::Client(place),
            CallerPart::Repairer(_) => Actor::Repairer(place),
        }
    }

    /// After how many steps the last call is abandoned, if it is.
    pub(crate) fn leave(self) -> Option<u32>
        ensures { result ≡ (work_of (part_by self.entry)).leave }
    {
        match self {
            CallerPart::Client(part) => part.leave,
            CallerPart::Repairer(part) => part.leave,
        }
    }
}
