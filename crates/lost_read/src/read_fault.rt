//! Why a run isn't read.
use lost_layers::LostFault;
use std::alloc::AllocError;
use thiserror::Error;

/// Why the layers of a lost chunk aren't read. The faults are looked for in this order, but for memory.
#[derive(Clone, Copy, Debug, PartialEq, Eq, Error)]
pub enum ReadFault {
    /// There is no such run, or memory is wanting.
    #[error("{0}")]
    Run(LostFault),
    #[error("another number of pieces than the run takes")]
    PieceCount,
    #[error("a piece of another length than a subchunk")]
    PieceLength,
    #[error("room for another number of bytes than the run has")]
    Room,
}

impl From<LostFault> for ReadFault {
    ghost use Rattle.std.specs.Prelude.{◌≡◌};
    ghost use Rattle.lost_read.specs.declared.read_fault.ReadFault.TheVariants.{Run};

    ghost from_gives = { λ fault e. e ≡ Run fault };

    fn from(fault: LostFault) -> Self {
        ReadFault::Run(fault)
    }
}

impl From<AllocError> for ReadFault {
    ghost use Rattle.std.specs.Prelude.{◌≡◌};
    ghost use Rattle.lost_layers.specs.declared.lost_fault.LostFault.TheVariants.{OutOfMemory};
    ghost use Rattle.lost_read.specs.declared.read_fault.ReadFault.TheVariants.{Run};

    ghost from_gives = { λ _ e. e ≡ Run OutOfMemory };

    fn from(_: AllocError) -> Self {
        ReadFault::Run(LostFault::OutOfMemory)
    }
}
