//! The stamps of a directory's versions, and the stripes that calls pin.
#![tactic(auto)]

pub mod laws_of_stamps;
mod met_stripes;
mod sealing;
mod stamp_list;

pub use met_stripes::{Sight, met, pinned_stripes, see};
pub use sealing::Drawing;
pub use stamp_list::Stamps;
