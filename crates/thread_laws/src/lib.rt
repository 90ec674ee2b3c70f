//! Steps that threads made apart, at places under locks, are one run, and what it shows is a history of the script. No code.
#![tactic(auto)]

pub mod laws_of_lists;
pub mod laws_of_merging;
pub mod laws_of_places;
pub mod laws_of_serving;
pub mod laws_of_threads;
