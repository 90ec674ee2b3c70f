//! What a scrub reports.
use store_map::Name;
use version_seal::Stamp;

/// A chunk of an object's stripe that its server doesn't hold.
#[derive(Drop)]
pub struct LostChunk {
    pub name: Name,
    pub stripe: u32,
    pub server: u32,
}

/// A chunk that a server holds of a version that the directory doesn't know.
#[derive(Drop)]
pub struct Stray {
    pub server: u32,
    pub stamp: Stamp,
}

/// What a scrub finds: the lost chunks by object in order of creation, by stripe and by server, and the
/// strays by server, each server's in the order in which it holds them.
#[derive(Drop)]
pub struct Report {
    pub lost: Vec<LostChunk>,
    pub strays: Vec<Stray>,
}
