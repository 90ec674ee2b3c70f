//! What a framed session is asked and answers, said of the plain map and of where chunks are; and that calls which run
//! alone serve its requests.
#![tactic(auto)]

pub mod laws_of_bytes;
pub mod laws_of_requests;
pub mod laws_of_sessions;
mod request;
mod session_answer;
mod session_ending;
pub mod session_rows;
pub mod snapshot_rows;

pub use request::Request;
pub use session_answer::{Answer, LostChunk, Missing};
pub use session_ending::Ending;
