//! A call in work, as each machine of a call shows itself: where it stands, what it does next, what it is told, and how it ended; and that it
//! does, step by step, what the definitions say of its actor. The machines stand on it: of a put, of a read, of a write, of a rebuild. And a
//! pinned stripe, as looks give it and gatherings take it.
#![tactic(auto)]

mod act;
mod answer;
mod caller_calls;
pub mod laws_of_acts;
pub mod laws_of_machines;
mod need;
mod outcome;
mod outcomes;
mod seen;
mod step_made;

pub use act::{Act, DirectoryAct, ServerAct};
pub use answer::{DirectoryAnswer, ReplyKind, ServerAnswer};
pub use caller_calls::{CallerCalls, EndedCall};
pub use need::Need;
pub use outcome::CallOutcome;
pub use outcomes::{Change, Outcome, RepairOutcome};
pub use seen::Seen;
pub use step_made::{Step, StepAnswer};
