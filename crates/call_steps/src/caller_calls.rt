//! What a caller's calls have come to at the end of a run.
use crate::outcome::CallOutcome;
use read_ledger::Takes;

/// How a call ended, and what it took. `None` stands for a call that took nothing.
pub struct EndedCall {
    pub outcome: CallOutcome,
    pub takes: Option<Takes>,
}

// By hand, since a derived one is proved again in each crate that drops the type.
impl Drop for EndedCall {
    fn drop(self) {
        let EndedCall {
            outcome: _outcome,
            takes: _takes,
        } = self;
    }
}

/// The calls of a client or of a repairer at the end of a run: those that have ended, in order, and of
/// the one in work the steps that it made and what it took.
pub struct CallerCalls {
    pub ended: Vec<EndedCall>,
    pub steps: u64,
    pub takes: Option<Takes>,
}

// By hand, since a derived one is proved again in each crate that drops the type.
impl Drop for CallerCalls {
    fn drop(self) {
        let CallerCalls {
            ended: _ended,
            steps: _steps,
            takes: _takes,
        } = self;
    }
}
