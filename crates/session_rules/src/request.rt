//! What a session is asked.
use store_map::{Call, Name};

/// A session's request.
#[derive(PartialEq, Eq, Debug, Drop)]
pub enum Request {
    /// A call of the plain map.
    OfMap(Call),
    /// A server loses all its chunks.
    Lose {
        server: u32,
    },
    /// A server's chunk of a stripe is made anew.
    Rebuild {
        name: Name,
        stripe: u32,
        server: u32,
    },
    /// A snapshot is taken.
    Snap,
    /// The snapshot is read.
    SnapRead {
        name: Name,
        offset: u32,
        length: u32,
    },
    /// The snapshot is dropped.
    SnapDrop,
    /// The lost chunks are listed.
    Scrub,
    /// The lost chunks are made anew.
    Heal,
}
