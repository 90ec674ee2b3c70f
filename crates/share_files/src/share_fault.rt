//! Why a file isn't the whole share that it should be.
ghost use Rattle.std.specs.Prelude.{◌≡◌, ◌↔◌, ℕ, List};
ghost use Rattle.share_format.specs.Header.{Header};
ghost use Rattle.share_files.specs.Refused.{IsRefusal};
ghost use Rattle.share_files.specs.Whole.{IsFirstFault};
ghost use Rattle.share_files.specs.declared.share_fault.ShareFault.TheVariants.{ReadFault, OutOfMemory};
ghost use Rattle.share_files.specs.declared.finding.BlockFault.TheVariants.{ReadFault as BlockReadFault};
ghost use Rattle.share_files.specs.declared.share_reading.HeaderRefusal.TheVariants.{ReadFault as HeaderReadFault};

use crate::finding::BlockFault;
use crate::share_reading::HeaderRefusal;
use share_format::BadHeader;
use thiserror::Error;

/// The first fault of a file, from its front.
#[derive(Clone, Copy, Debug, PartialEq, Eq, Error)]
pub enum ShareFault {
    #[error("the file is shorter than a header")]
    Short,
    #[error("{0}")]
    Header(BadHeader),
    /// The header is another one than that of the share.
    #[error("its header tells another share, or another file or code")]
    Foreign,
    /// What stands between the header and the first block isn't zeros, or the file ends there.
    #[error("the header isn't filled up with zeros")]
    Padding,
    /// The block of the stripe of this number, from 0.
    #[error("the block of stripe {0} is rotten or missing")]
    Block(u64),
    #[error("bytes stand behind the last block")]
    Longer,
    #[error("a read failed")]
    ReadFault,
    #[error("out of memory")]
    OutOfMemory,
}

/// The fault of a file whose header is refused.
pub(crate) fn refused(refusal: HeaderRefusal) -> ShareFault
    ensures fault { (h : Header) (file : List ℕ) → IsRefusal file refusal → IsFirstFault h file result }
    ensures read { (result ≡ ShareFault.ReadFault) ↔ (refusal ≡ HeaderReadFault) }
{
    match refusal {
        HeaderRefusal::ReadFault => ShareFault::ReadFault,
        HeaderRefusal::Short => ShareFault::Short,
        HeaderRefusal::Bad(fault) => ShareFault::Header(fault),
    }
}

/// The same of what can't be read.
pub(crate) fn unread(fault: BlockFault) -> ShareFault
    ensures fault { (h : Header) (file : List ℕ) → IsFirstFault h file result }
    ensures read { (result ≡ ShareFault.ReadFault) ↔ (fault ≡ BlockReadFault) }
{
    match fault {
        BlockFault::ReadFault => ShareFault::ReadFault,
        BlockFault::OutOfMemory => ShareFault::OutOfMemory,
    }
}
