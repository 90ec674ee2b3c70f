//! The kinds of faults for which scripts and transcripts are refused.
use thiserror::Error;

/// Why bytes spell no script. On one line the causes are tried in the order Syntax, Limit,
/// Geometry, NoSuchActor, NoSuchServer, MissingEnd.
#[derive(Clone, Copy, PartialEq, Eq, Debug, Error)]
pub enum FaultKind {
    /// The line has none of the forms that may stand in its place, or something follows the line
    /// `end`.
    #[error("syntax")]
    Syntax = 1,
    /// The numbers of the code are those of no geometry.
    #[error("geometry")]
    Geometry = 2,
    /// A number is above 4,294,967,295, or with this line the script asks for more than it may: a
    /// `size`, a `tries` or the length of data is out of its range, or the clients, the repairers,
    /// the calls of one actor, the lines of the schedule, the stripes that puts and writes touch,
    /// the bytes of those stripes or the bytes that gets and reads ask for are too many.
    #[error("limit")]
    Limit = 3,
    /// The schedule names a client or a repairer that has no block.
    #[error("no such actor")]
    NoSuchActor = 4,
    /// A rebuild, a `wipe`, a `down` or an `up` names a server that the code doesn't have.
    #[error("no such server")]
    NoSuchServer = 5,
    /// The bytes end before the line `end` and its line feed.
    #[error("missing end")]
    MissingEnd = 6,
    /// Memory was wanting. This says nothing of the bytes.
    #[error("out of memory")]
    OutOfMemory = 7,
}
