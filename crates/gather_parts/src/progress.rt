//! What a call's gatherings do next, or what they have come to.

/// How far the gatherings of a call are.
#[derive(Clone, Copy, PartialEq, Eq)]
pub enum Progress {
    /// The server of this number is asked next.
    Asks(u32),
    /// A coding is due before the next step.
    Due,
    /// All bytes are there.
    Done,
    /// More chunks of a stripe are missing than the code can make anew.
    TooMany,
    /// Memory was wanting.
    Short,
}
