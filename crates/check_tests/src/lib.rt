//! Tests of the checker: the store's worked transcripts are histories by the rules alone, and those in which something is
//! changed or left out are none; transcripts that each break one rule, with the line that is printed. Frames, requests and
//! answers. Sources and sinks. All of it is tests, so without them the crate is empty, and it is proved once.
#![tactic(auto)]

#[cfg(test)]
mod frames;
#[cfg(test)]
mod judge;
#[cfg(test)]
pub mod spoiled_rows;
#[cfg(test)]
mod streams;
#[cfg(test)]
mod verdicts;
#[cfg(test)]
pub mod worked_rows;
#[cfg(test)]
mod written_answers;

#[cfg(test)]
use std::test::Fail;

// What came out as it has to; else the test fails with this name.
#[cfg(test)]
fn holds(as_wanted: bool, what: &'static str) -> Result<(), Fail> {
    if as_wanted {
        return Ok(());
    }
    Err(Fail::from(what))
}
