//! The callers of a store, clients and repairers, each with its calls, and their turns.
#![tactic(auto)]

mod after_step;
mod caller;
mod caller_steps;
pub mod laws_of_turns;
mod left;
mod next_call;
mod part;

pub use after_step::forget;
pub use caller::Caller;
pub use part::CallerPart;
