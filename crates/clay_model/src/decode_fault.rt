//! Why decoding fails: too few chunks are left, they are of no codeword, or memory was wanting.
use std::alloc::AllocError;
use thiserror::Error;

/// Why chunks are not decoded.
#[derive(Clone, Copy, Debug, PartialEq, Eq, Error)]
pub enum DecodeFault {
    #[error("more chunks are missing than there are parity chunks")]
    TooFew = 1,
    #[error("out of memory")]
    OutOfMemory = 2,
}

impl From<AllocError> for DecodeFault {
    ghost use Rattle.std.specs.Prelude.{◌≡◌};
    ghost use Rattle.clay_model.specs.declared.decode_fault.DecodeFault.TheVariants.{OutOfMemory};

    ghost from_gives = { λ _ e. e ≡ OutOfMemory };

    fn from(_: AllocError) -> Self {
        DecodeFault::OutOfMemory
    }
}

/// Why chunks are not decoded to a codeword.
#[derive(Clone, Copy, Debug, PartialEq, Eq, Error)]
pub enum CheckedFault {
    #[error("more chunks are missing than there are parity chunks")]
    TooFew = 1,
    #[error("the chunks are not those of a codeword")]
    Disagree = 2,
    #[error("out of memory")]
    OutOfMemory = 3,
}

impl From<AllocError> for CheckedFault {
    ghost use Rattle.std.specs.Prelude.{◌≡◌};
    ghost use Rattle.clay_model.specs.declared.decode_fault.CheckedFault.TheVariants.{OutOfMemory};

    ghost from_gives = { λ _ e. e ≡ OutOfMemory };

    fn from(_: AllocError) -> Self {
        CheckedFault::OutOfMemory
    }
}
