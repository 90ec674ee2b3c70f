//! Tests of the store's parts: sealed versions and the chunk server over them; puts at the directory of which one may want memory;
//! strays; the points of changes. All of it is tests, so without them the crate is empty, and it is proved once.
#![tactic(auto)]

#[cfg(test)]
mod points;
#[cfg(test)]
mod sealed_chunk_tests;
#[cfg(test)]
mod server_tests;
#[cfg(test)]
mod shelf;
#[cfg(test)]
mod short_memory;
#[cfg(test)]
mod stray_tests;
#[cfg(test)]
mod version_tests;
#[cfg(test)]
mod walk;

#[cfg(test)]
use std::test::Fail;

// A step of a test that came out as it has to; else the test fails with the step's name.
#[cfg(test)]
fn holds(as_wanted: bool, step: &'static str) -> Result<(), Fail> {
    if as_wanted {
        return Ok(());
    }
    Err(Fail::from(step))
}
