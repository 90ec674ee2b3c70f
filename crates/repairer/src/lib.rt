//! A rebuild in work: it looks at a stripe, gathers what one server's chunk is made of, makes the
//! chunk, and installs it once the directory has confirmed that its version is still current.
#![tactic(auto)]

mod at_directory;
mod at_servers;
mod repair_call;
mod repair_coding;
mod stage;

pub use repair_call::RepairCall;
