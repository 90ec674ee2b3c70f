//! What one call of the store has taken: how many subchunks from each server.
#![tactic(auto)]

pub mod laws_of_sums;
mod takes;

pub use takes::Takes;
