//! Why a run isn't read.
use lost_layers::MissingFault;
use std::alloc::AllocError;
use thiserror::Error;

/// Why the layers of a lost chunk aren't read. The faults are looked for in this order, but for memory.
#[derive(Clone, Copy, Debug, PartialEq, Eq, Error)]
pub enum MissingReadFault {
    /// There is no such run, too many chunks are missing, or memory is wanting.
    #[error("{0}")]
    Run(MissingFault),
    #[error("another number of pieces than the run takes")]
    PieceCount,
    #[error("a piece of another length than a subchunk")]
    PieceLength,
    #[error("room for another number of bytes than the run has")]
    Room,
}

impl From<MissingFault> for MissingReadFault {
    ghost use Rattle.std.specs.Prelude.{◌≡◌};
    ghost use Rattle.lost_read.specs.declared.missing_read_fault.MissingReadFault.TheVariants.{Run};

    ghost from_gives = { λ fault e. e ≡ Run fault };

    fn from(fault: MissingFault) -> Self {
        MissingReadFault::Run(fault)
    }
}

impl From<AllocError> for MissingReadFault {
    ghost use Rattle.std.specs.Prelude.{◌≡◌};
    ghost use Rattle.lost_layers.specs.declared.missing_fault.MissingFault.TheVariants.{OutOfMemory};
    ghost use Rattle.lost_read.specs.declared.missing_read_fault.MissingReadFault.TheVariants.{Run};

    ghost from_gives = { λ _ e. e ≡ Run OutOfMemory };

    fn from(_: AllocError) -> Self {
        MissingReadFault::Run(MissingFault::OutOfMemory)
    }
}
