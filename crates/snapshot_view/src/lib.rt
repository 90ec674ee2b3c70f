//! Snapshots of an object store: all objects as they stood at one moment, whose versions stay while the
//! snapshot is kept, and reads of them that need the servers alone.
#![tactic(auto)]

mod kept;
pub mod laws_of_snapshots;
mod looks;
mod met;
mod read_outcomes;
mod release;
mod snapshot;
mod snapshot_fault;
mod snapshot_read;
mod take;

pub use read_outcomes::SnapOutcome;
pub use snapshot::Snapshot;
pub use snapshot_fault::{SnapFault, SnapRefused};
pub use snapshot_read::SnapRead;
