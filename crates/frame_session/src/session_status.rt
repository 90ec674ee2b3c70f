//! How a session ends, and its exit status.
ghost use Rattle.std.specs.Prelude.{◌≡◌};
ghost use Rattle.frame_session.specs.Status.{status_number, status_of, status_of_fault};

use frame_bytes::FrameFault;
use session_rules::Ending;

/// How a session ended.
#[derive(Clone, Copy, Debug, PartialEq, Eq)]
pub enum SessionStatus {
    /// The input ended between two frames; each frame was answered.
    Done,
    /// The words are no session's; nothing was read or written.
    Usage,
    /// The input has more than 167,772,160 bytes; each whole frame in the first so many was answered.
    InputTooLong,
    /// The source failed; each whole frame before was answered.
    ReadFault,
    /// The sink failed in an answer; those before it were written, then a prefix of it.
    WriteFault,
    /// Memory was wanting outside a request; each whole frame before was answered.
    OutOfMemory,
    /// A length is none that a frame may have; each frame before was answered.
    FrameTooLong,
    /// The input ended inside a frame; each frame before was answered.
    TornFrame,
}

impl SessionStatus {
    /// The status of a session that ended so by its input.
    pub(crate) fn of_ending(ending: Ending) -> Self
        ensures { result ≡ status_of ending }
    {
        match ending {
            Ending::Done => SessionStatus::Done,
            Ending::TornFrame => SessionStatus::TornFrame,
            Ending::FrameTooLong => SessionStatus::FrameTooLong,
            Ending::InputTooLong => SessionStatus::InputTooLong,
        }
    }

    /// The status of a session that ended because a frame wasn't had.
    pub(crate) fn of_fault(fault: FrameFault) -> Self
        ensures { result ≡ status_of_fault fault }
    {
        match fault {
            FrameFault::ReadFault => SessionStatus::ReadFault,
            FrameFault::OutOfMemory => SessionStatus::OutOfMemory,
        }
    }

    /// The program's exit status.
    pub fn number(self) -> u8
        ensures { result ≡ status_number self }
    {
        match self {
            SessionStatus::Done => 0,
            SessionStatus::Usage => 1,
            SessionStatus::InputTooLong => 3,
            SessionStatus::ReadFault => 4,
            SessionStatus::WriteFault => 5,
            SessionStatus::OutOfMemory => 6,
            SessionStatus::FrameTooLong => 10,
            SessionStatus::TornFrame => 11,
        }
    }
}
