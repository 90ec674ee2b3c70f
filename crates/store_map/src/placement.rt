//! How a server took a version's chunk, why it gives none, and both of a lost chunk.

/// Where a version's chunk stands at a server: what the server answered when it was to keep the chunk.
#[derive(Clone, Copy, PartialEq, Eq)]
pub enum Placement {
    /// It was placed, at this epoch of the server.
    At(u64),
    /// The server was away and took no chunk. It had been made away so often.
    Skipped(u64),
}

/// Why a server gives no chunk of a version.
#[derive(Clone, Copy, PartialEq, Eq)]
pub enum Found {
    /// It doesn't hold the chunk, at this epoch.
    Absent { epoch: u64 },
    /// It is away. It has been made away so often.
    Away { downs: u64 },
}

/// A server that gives no chunk of a stripe's version: how it took the chunk, as the look told it,
/// and what it answered when it was asked.
#[derive(Clone, Copy, PartialEq, Eq)]
pub struct LostChunk {
    pub server: u32,
    pub placed: Placement,
    pub found: Found,
}
