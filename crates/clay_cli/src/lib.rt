//! The program's commands, from their words and input to their output.
#![tactic(auto)]

mod by_threads;
mod chunks;
mod chunksd;
mod command_coder;
mod generate;
mod input;
pub mod laws_of_commands;
pub mod laws_of_forms;
mod output;
mod play;
mod program;
mod recover;
mod repaird;
mod status;
mod top;
mod verify;

pub use input::read_input;
pub use output::{Output, write_out};
pub use play::refusal;
pub use program::run;
pub use status::Status;
pub use store_run::{Gate, NoGate, Place};
pub use top::clay_main;
