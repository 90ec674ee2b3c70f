//! A server's answers: whether it holds a chunk, what a fetch gives, what an install comes to.
use store_map::Found;
use version_seal::SealedPart;

/// Whether a server holds a version's chunk.
#[derive(Clone, Copy, PartialEq, Eq)]
pub enum Presence {
    /// It is there.
    Here,
    /// It isn't, or the server is away.
    Missing { found: Found },
}

/// What a fetch is answered.
#[derive(Drop)]
pub enum Fetched {
    /// The subchunks in the order asked for.
    Part(SealedPart),
    /// The version isn't held, or the server is away.
    Missing { found: Found },
}

/// What an install is answered.
#[derive(Clone, Copy, PartialEq, Eq)]
pub enum Installed {
    /// The chunk was added. The server was emptied so many times before.
    Placed { epoch: u64 },
    /// The version was held already, and its chunk stays.
    AlreadyThere,
    /// The server is away. It had been made away so often.
    Away { downs: u64 },
}
