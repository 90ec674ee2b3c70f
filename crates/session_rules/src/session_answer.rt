//! What a session answers.
use store_map::{ListOf, Name, Reply};

/// A server that doesn't hold its chunk of a stripe: its epoch when the chunk was placed, and its epoch now.
#[derive(Clone, Copy, PartialEq, Eq)]
pub struct Missing {
    pub server: u32,
    pub placed: u64,
    pub found: u64,
}

/// A chunk of an object's stripe that its server doesn't hold.
#[derive(PartialEq, Eq, Drop)]
pub struct LostChunk {
    pub name: Name,
    pub stripe: u32,
    pub server: u32,
}

/// A session's answer to a frame.
#[derive(PartialEq, Eq, Drop)]
pub enum Answer {
    /// A reply of the map. `Done` also to a loss and to a snapshot taken or dropped, `NoSuch` also to a rebuild.
    Replied(Reply),
    /// Too many chunks of a stripe aren't held: its place in the object, and the servers.
    Unavailable {
        stripe: u32,
        missing: ListOf<Missing>,
    },
    /// The frame is no request.
    BadRequest,
    /// Memory was wanting.
    NoMemory,
    /// To a rebuild: the chunk was made anew.
    Rebuilt,
    /// To a rebuild: the chunk is held.
    Here,
    /// No snapshot is open.
    NoSnap,
    /// A snapshot is open already.
    SnapOpen,
    /// So many objects are too many for a snapshot.
    TooMany(u64),
    /// The lost chunks.
    Scrubbed(ListOf<LostChunk>),
    /// How many chunks were made anew, and the subchunks that this took from each server.
    Healed {
        rebuilt: u64,
        taken: ListOf<u64>,
    },
}
