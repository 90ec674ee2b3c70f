//! The store behind a framed session: it serves one request after another, each by its machine alone.
#![tactic(auto)]

mod alone;
mod ended_calls;
mod heals;
pub mod laws_of_running_alone;
mod lost_stripes;
mod new_store;
mod open_snapshots;
mod places;
mod rebuilds;
mod scrubs;
mod seats;
mod served_calls;
mod served_losses;
mod serving_store;
mod session_parts;
mod session_sweeps;
mod snapshot_reads;

pub use serving_store::SessionStore;
