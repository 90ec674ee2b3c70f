//! Tests of calls, by worked scripts as `play` runs them: each end of each kind of call, what the sweeper takes, races, losses at
//! each step. The transcripts were reckoned by hand from the rules of the store; each row is named by what it shows. All of it is
//! tests, so without them the crate is empty, and it is proved once.
#![tactic(auto)]

#[cfg(test)]
mod away;
#[cfg(test)]
mod call_answers;
#[cfg(test)]
mod patches;
#[cfg(test)]
mod puts;
#[cfg(test)]
mod reads;
#[cfg(test)]
mod step_losses;
#[cfg(test)]
mod worked_calls;
#[cfg(test)]
mod worked_races;
#[cfg(test)]
mod worked_rebuilds;
