//! Why a gathering has ended without its bytes.

/// How a gathering has ended without its bytes.
#[derive(Clone, Copy, PartialEq, Eq)]
pub enum Ending {
    /// More servers were found missing than there are parity chunks.
    TooMany,
    /// The server whose chunk was to be made anew has it.
    AtTarget,
    /// That server is away. It has been made away so often.
    TargetAway { downs: u64 },
    /// Memory was wanting.
    Short,
}
