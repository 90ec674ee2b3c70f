//! How a client's call ends, and how a rebuild does.
use store_map::{LostChunk, Point, Reply};

/// A change of a write's object since the write looked: the point that the write looked at, and
/// the point of the change.
#[derive(Clone, Copy, PartialEq, Eq)]
pub struct Change {
    pub looked_at: Point,
    pub newer: Point,
}

/// How a client's call ended.
#[derive(Drop)]
pub enum Outcome {
    /// With the map's reply at this point.
    Answered {
        point: Point,
        reply: Reply,
    },
    /// With the bytes that the map has at this point.
    Served {
        point: Point,
        bytes: Vec<u8>,
    },
    /// More chunks of the stripe were missing than the code can make anew. They stand in the order in
    /// which they were found.
    Unavailable {
        stripe: u32,
        missing: Vec<LostChunk>,
    },
    /// Each try found that the object had been changed.
    Contended {
        changes: Vec<Change>,
    },
    /// The operator gave the call up, at this point.
    Reaped {
        at: Point,
    },
    /// Memory was wanting.
    NoMemory,
}

/// How a rebuild ended.
#[derive(Drop)]
pub enum RepairOutcome {
    /// The chunk was made and installed.
    Rebuilt,
    /// The server has the chunk.
    Here,
    /// The server is away. It had been made away so often.
    Away {
        downs: u64,
    },
    /// There is no such object or stripe.
    NoSuch,
    /// The stripe was replaced meanwhile, by the change at this point or an earlier one.
    Superseded {
        newer: Point,
    },
    /// More chunks of the stripe were missing than the code can make anew.
    Unavailable {
        stripe: u32,
        missing: Vec<LostChunk>,
    },
    /// The operator gave the call up, at this point.
    Reaped {
        at: Point,
    },
    /// Memory was wanting.
    NoMemory,
}
