//! Why a share can't be mended.
ghost use Rattle.std.specs.Prelude.{◌≡◌};
ghost use Rattle.share_mends.specs.declared.mend_fault.MendFault.TheVariants.{OutOfMemory};

use std::alloc::AllocError;
use thiserror::Error;

/// A helper's share that hasn't its part of a stripe, or whose part isn't the one that its checksums are of.
#[derive(Clone, Copy, Debug, PartialEq, Eq)]
pub struct RottenPart {
    pub share: u32,
    pub stripe: u64,
}

/// Why a share can't be mended from parts of these helpers.
#[derive(Clone, Copy, Debug, PartialEq, Eq, Error)]
pub enum MendFault {
    #[error("a helper is rotten")]
    Rotten(RottenPart),
    #[error("a read failed")]
    ReadFault,
    #[error("a write failed")]
    WriteFault,
    #[error("out of memory")]
    OutOfMemory,
}

impl From<AllocError> for MendFault {
    ghost from_gives = { λ _ e. e ≡ OutOfMemory };

    fn from(_: AllocError) -> Self {
        MendFault::OutOfMemory
    }
}
