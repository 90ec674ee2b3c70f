//! The lines of a transcript, list by list, from what a world holds when its run is over.
#![tactic(auto)]

mod causes;
pub mod laws_of_lines;
mod lines_of_history;
mod lines_of_takes;
mod refused;
mod role;
mod served;
mod stored;
mod unanswered;
mod world_transcript;

pub use lines_of_history::history_lines;
pub use lines_of_takes::take_lines;
pub use refused::{refused_lines, repair_lines};
pub use stored::{object_lines, server_lines};
pub use unanswered::unanswered_lines;
pub use world_transcript::make_transcript;
