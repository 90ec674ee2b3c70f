//! A call in work, of any kind: the one machine that the layers above make steps with.
#![tactic(auto)]

mod call_machine;
pub mod laws_of_known_stamps;
pub mod laws_of_owing;

pub use call_machine::CallMachine;
