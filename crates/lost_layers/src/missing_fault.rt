//! Why there is no plan for a run.
use std::alloc::AllocError;
use thiserror::Error;

/// Why the pieces of a run aren't listed. The faults are looked for in this order, but for memory.
#[derive(Clone, Copy, Debug, PartialEq, Eq, Error)]
pub enum MissingFault {
    #[error("the code has no such chunk")]
    NoSuchChunk,
    #[error("a chunk has no such layers")]
    NoSuchLayers,
    #[error("another number of marks than the code has chunks")]
    MarkCount,
    #[error("more chunks are missing than there are parity chunks")]
    TooFew,
    #[error("out of memory")]
    OutOfMemory,
}

impl From<AllocError> for MissingFault {
    ghost use Rattle.std.specs.Prelude.{◌≡◌};
    ghost use Rattle.lost_layers.specs.declared.missing_fault.MissingFault.TheVariants.{OutOfMemory};

    ghost from_gives = { λ _ e. e ≡ OutOfMemory };

    fn from(_: AllocError) -> Self {
        MissingFault::OutOfMemory
    }
}
