//! The words that the program's commands are asked for by.
#![tactic(auto)]

mod grammar;
mod laws_of_words;
mod numbers_of_words;
mod parse;
mod spelled;
mod word_names;

pub use laws_of_words::words_ask_for_one_command;
pub use numbers_of_words::{Command, Task};
pub use parse::command_of;
