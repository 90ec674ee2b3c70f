//! The stages of a rebuild, from its look to its end.

/// Where a rebuild stands.
#[derive(Clone, Copy, PartialEq, Eq)]
pub(crate) enum RepairStage {
    /// The look is next.
    Start,
    /// What the chunk is made of is gathered.
    Gathering,
    /// The version is confirmed next.
    Confirming,
    /// The chunk goes to its server next.
    Installing,
    /// The directory is told next that the chunk was placed.
    Placing,
    /// The pass is ended next.
    Ending,
    Finished,
}
