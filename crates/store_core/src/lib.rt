//! The store's definitions: what each call does next, what a step does at the directory or at a
//! server, the run of a schedule, and the transcript that it shows.
#![tactic(auto)]

pub mod laws_of_steps;
pub mod rows_of_runs;
