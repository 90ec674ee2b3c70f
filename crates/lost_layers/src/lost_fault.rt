//! Why there is no plan for a run.
use std::alloc::AllocError;
use thiserror::Error;

/// Why the pieces of a run aren't listed.
#[derive(Clone, Copy, Debug, PartialEq, Eq, Error)]
pub enum LostFault {
    #[error("the code has no such chunk")]
    NoSuchChunk = 1,
    #[error("a chunk has no such layers")]
    NoSuchLayers = 2,
    #[error("out of memory")]
    OutOfMemory = 3,
}

impl From<AllocError> for LostFault {
    ghost use Rattle.std.specs.Prelude.{◌≡◌};
    ghost use Rattle.lost_layers.specs.declared.lost_fault.LostFault.TheVariants.{OutOfMemory};

    ghost from_gives = { λ _ e. e ≡ OutOfMemory };

    fn from(_: AllocError) -> Self {
        LostFault::OutOfMemory
    }
}
