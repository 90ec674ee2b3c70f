//! Scrubbing an object store: which chunks of its objects are lost, and which chunks servers hold of
//! versions that the directory doesn't know.
#![tactic(auto)]

mod report;
mod scrubbing;
mod strays;

pub use report::{LostChunk, Report, Stray};
pub use scrubbing::scrub;
pub use strays::drop_strays;
