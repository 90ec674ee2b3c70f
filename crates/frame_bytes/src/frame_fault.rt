//! Why a frame isn't had.
ghost use Rattle.std.specs.Prelude.{◌≡◌};
ghost use Rattle.frame_bytes.specs.declared.frame_fault.FrameFault.TheVariants.{ReadFault, OutOfMemory};

use clay_bytes::Failed;
use std::alloc::AllocError;
use thiserror::Error;

/// Why it isn't known what stands next in an input.
#[derive(Clone, Copy, Debug, PartialEq, Eq, Error)]
pub enum FrameFault {
    #[error("a read failed")]
    ReadFault,
    #[error("out of memory")]
    OutOfMemory,
}

impl From<Failed> for FrameFault {
    ghost from_gives = { λ _ e. e ≡ ReadFault };

    fn from(_: Failed) -> Self {
        FrameFault::ReadFault
    }
}

impl From<AllocError> for FrameFault {
    ghost from_gives = { λ _ e. e ≡ OutOfMemory };

    fn from(_: AllocError) -> Self {
        FrameFault::OutOfMemory
    }
}
