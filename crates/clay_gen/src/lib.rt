//! A large script from a number: the calls of four clients and a repairer, and the order of their
//! steps, drawn one after another from one sequence of numbers.
#![tactic(auto)]

mod random_calls;
mod random_script;
mod schedule;
mod sequence;

pub use random_script::{MAX_GENERATED, generate};
