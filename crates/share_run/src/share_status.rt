//! How a command ends, and its exit status.
ghost use Rattle.std.specs.Prelude.{◌≡◌};
ghost use Rattle.share_run.specs.Status.{status_number};

/// How a command ended.
#[derive(Clone, Copy, Debug, PartialEq, Eq)]
pub enum ShareStatus {
    Done,
    /// The words are no command's, the numbers are no code's, the code has no share of the number, or the file that is to be cut is too long.
    Usage,
    /// More than `M` shares have no good block of a stripe, or none that can be read, or no share has a good header. Of a check: fewer than `K`
    /// shares are whole.
    TooFew,
    /// The joined file has not the headers' checksum, or the folder of a join, mend or check has shares of two names. Of a check also: at least
    /// `K` shares are whole, and one isn't or a stray is there.
    BadShare,
    /// The file that is to be cut can't be read, or the folder of a join, mend or check can't be.
    ReadFault,
    /// What is made can't be written, or its place can't be filled. Of a cut also: a share stands in the folder, or the folder can't be read.
    WriteFault,
    OutOfMemory,
}

impl ShareStatus {
    /// The program's exit status.
    pub fn number(self) -> u8
        ensures { result ≡ status_number self }
    {
        match self {
            ShareStatus::Done => 0,
            ShareStatus::Usage => 1,
            ShareStatus::TooFew => 2,
            ShareStatus::BadShare => 3,
            ShareStatus::ReadFault => 4,
            ShareStatus::WriteFault => 5,
            ShareStatus::OutOfMemory => 6,
        }
    }
}
