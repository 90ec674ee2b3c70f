//! A client's get, read or stat: it looks, gathers the bytes of the stripes that were pinned, and ends
//! its pass.
#![tactic(auto)]

mod read_call;
mod read_directory;
mod read_stage;

pub use read_call::ReadCall;
