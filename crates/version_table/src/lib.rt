//! Versions of stripes by their numbers: where each stands, its placements and pins, and which are garbage.
#![tactic(auto)]

mod told_versions;
mod version_rows;
mod versions;

pub use version_rows::base_of;
pub use versions::Versions;
