//! The frames of a session as bytes: read from a source, taken as requests, and answers written to a sink.
#![tactic(auto)]

mod answer_writing;
mod fields;
mod frame_block;
mod frame_fault;
mod frame_filling;
mod frame_reading;
pub mod laws_of_frames;
pub mod laws_of_inputs;
mod lengths;
mod requests;

pub use answer_writing::write_answer;
pub use frame_fault::FrameFault;
pub use frame_reading::{MOST_FRAME, Next, most_input, read_frame};
pub use lengths::MOST_LISTED;
pub use requests::request_of;
