//! How a call ended.
use crate::outcomes::{Outcome, RepairOutcome};

/// How a call of any actor ended: a client's, or a repairer's rebuild.
#[derive(Drop)]
pub enum CallOutcome {
    Client(Outcome),
    Rebuild(RepairOutcome),
}
