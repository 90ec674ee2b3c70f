//! What a look at the directory pins of one stripe.
use store_map::Placement;
use version_seal::Stamp;

/// A pinned stripe, with the stamp of its version that is current now and how each server took that version's chunk.
#[derive(Drop)]
pub struct Seen {
    pub stripe: u32,
    pub stamp: Stamp,
    pub placed: Vec<Placement>,
}
