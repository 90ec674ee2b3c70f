//! How an input ends.

/// How a session ends by its input.
#[derive(Clone, Copy, PartialEq, Eq, Debug)]
pub enum Ending {
    /// It ended between two frames.
    Done,
    /// It ended inside a frame.
    TornFrame,
    /// A length is none that a frame may have.
    FrameTooLong,
    /// It is longer than what is served.
    InputTooLong,
}
