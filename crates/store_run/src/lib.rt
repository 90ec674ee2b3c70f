//! Whole runs of a script's store in threads.
#![tactic(auto)]

mod deck;
mod ended;
mod last_sweeps;
mod left_workers;
mod locked_places;
mod seating;
mod showing;
mod threaded_run;

pub use run_seats::{Gate, NoGate, Place};
pub use threaded_run::run;
