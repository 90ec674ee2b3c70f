//! A framed session over any source and sink: requests are read from frames, and a store of the session's own answers them.
#![tactic(auto)]

mod answering;
mod frame_serving;
pub mod laws_of_endings;
mod session_program;
mod session_status;
mod session_top;
mod session_words;

pub use session_program::{run, serve};
pub use session_status::SessionStatus;
pub use session_top::frame_main;
