//! What is read of a lost chunk, and from what.

/// The layers `from..to` of a lost chunk.
#[derive(Clone, Copy, Debug, PartialEq, Eq)]
pub struct LostRun {
    /// The lost chunk.
    pub lost: u32,
    /// The first layer.
    pub from: u32,
    /// The layer behind the last one.
    pub to: u32,
}

/// A subchunk of a chunk that is there, as C sees it too.
#[repr(C)]
#[derive(Clone, Copy, Debug, PartialEq, Eq)]
pub struct LostPiece {
    pub chunk: u32,
    pub layer: u32,
}
