//! A run of a script with each step that it makes, and the program that prints both.
#![tactic(auto)]

mod trace_program;
mod trace_top;
mod traced_run;

pub use trace_program::{run, serve};
pub use trace_top::trace_main;
pub use traced_run::{TracedRun, trace};
