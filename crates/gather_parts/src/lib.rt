//! The gatherings of a call's parts, one pinned stripe after another, with the bytes that they gather
//! and what the call took.
#![tactic(auto)]

mod gatherings;
pub mod laws_of_parts;
mod part_bounds;
mod parts_coding;
mod parts_ends;
mod progress;

pub use gatherings::PartGatherings;
pub use parts_ends::Gathered;
pub use progress::Progress;
