//! The directory of an object store: objects, versions of their stripes, the calls in work, and the history.
#![tactic(auto)]

mod client_looks;
mod committing;
mod directory;
mod directory_answers;
mod drawing;
mod knowing;
mod looking;
mod opening;
mod pass_ends;
mod reaping;
mod repair_looks;
mod sweeping;
mod tokens;

pub use call_steps::Seen;
pub use directory::Directory;
pub use directory_answers::{Committed, Confirmed, Drawn, Ended, Look, RepairLook};
pub use tokens::{Pass, Seat};
