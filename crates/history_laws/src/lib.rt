//! What runs show of replies, order, takes, races and losses, in time and caused by their steps: as a whole one history. No code.
#![tactic(auto)]

pub mod laws_of_answers;
pub mod laws_of_history;
pub mod laws_of_losses;
pub mod laws_of_races;
pub mod laws_of_takes;
pub mod laws_of_time;
pub mod worked;
