//! The stages of a writing: its chunks prepared, its versions committed, its chunks settled.
ghost use Rattle.std.specs.Prelude.{◌≡◌};
ghost use Rattle.write_course.specs.States.{prepares_or_commits, settles_or_is_done};

/// What a writing does next, or how it has ended.
#[derive(Clone, Copy, PartialEq, Eq)]
pub enum WritingStage {
    /// A version's chunk goes to a server next.
    Preparing,
    /// All chunks have gone to their servers, and the directory commits the versions next.
    Committing,
    /// The directory has the rows of placements, and its answer isn't there yet.
    Committed,
    /// A version's chunk is settled next.
    Settling,
    /// All chunks are settled.
    Done,
    /// More servers were away for a version than there are parity chunks.
    TooManyAway,
    /// Memory was wanting.
    Short,
}

// Where so many versions of all are prepared.
pub(crate) fn prepares_or_commits(prepared: usize, versions: usize) -> WritingStage
    ensures { result ≡ prepares_or_commits prepared versions }
{
    if prepared < versions {
        WritingStage::Preparing
    } else {
        WritingStage::Committing
    }
}

// Where so many versions of all are settled.
pub(crate) fn settles_or_is_done(settled: usize, versions: usize) -> WritingStage
    ensures { result ≡ settles_or_is_done settled versions }
{
    if settled < versions {
        WritingStage::Settling
    } else {
        WritingStage::Done
    }
}
