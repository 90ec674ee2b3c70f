//! The steps of a run as its trace shows them, a line each.
#![tactic(auto)]

mod act_words;
mod answer_words;
mod trace_writing;
mod worked_traces;

pub use trace_writing::{append_step, append_steps};
pub use worked_traces::worked_steps;
