//! What the checker's rules look up: the calls that lines name, sets of calls, numbers by actor,
//! and how often the operator does something. And the rule on calls that were unavailable, by these
//! counts: each chunk that is called missing can have been.
#![tactic(auto)]

mod actor_table;
mod blame;
mod call_set;
mod call_tables;
mod chunks_missing;
mod false_losses;
mod lines_of_calls;
mod number_set;
mod operator_counts;
mod reaps;

pub use actor_table::ActorTable;
pub use blame::{blame_unless, downs_fit};
pub use call_set::CallSet;
pub use call_tables::{call_of, count_calls, number_of, rebuild_of, with_number};
pub use false_losses::find_false_loss;
pub use lines_of_calls::{NamesCall, count_answers, unanswered_calls};
pub use operator_counts::OperatorCounts;
pub use reaps::Reaps;
