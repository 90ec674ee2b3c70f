//! Tests of threads and of sessions. Whole runs in threads, of what no clause says: that the sweeper sweeps while clients have
//! steps, that a run asks the coder that it was given, and that the checker finds the transcripts of its runs legal. The lock of
//! `turn_lock` in use: turns that add to one list, in one thread and in two. Framed sessions over memory. All but the types of that
//! list and its workers is tests, so it is proved once.
#![tactic(auto)]

#[cfg(test)]
mod adding;
#[cfg(test)]
mod gates;
#[cfg(test)]
mod generated_runs;
#[cfg(test)]
mod lock_turns;
#[cfg(test)]
mod locked_steps;
mod number_list;
#[cfg(test)]
mod run_coders;
#[cfg(test)]
mod runs;
#[cfg(test)]
mod script_runs;
#[cfg(test)]
mod session_coders;
#[cfg(test)]
mod session_faults;
#[cfg(test)]
mod session_row_tests;
#[cfg(test)]
mod session_runs;
#[cfg(test)]
mod session_word_tests;
#[cfg(test)]
mod snapshot_tests;
#[cfg(test)]
mod sweep_tests;
mod worker_tests;
#[cfg(test)]
mod working;

pub use number_list::{Line, NumberList};
pub use worker_tests::Worker;
