//! Missing chunks, each written to a slice of its own.
#![tactic(auto)]

mod slices;

pub use slices::recover_slices;
