//! A world makes the runs of the definitions, and what each of its turns adds to a run's trace. No code.
#![tactic(auto)]

pub mod laws_of_traces;
pub mod laws_of_worlds;
