//! Walks at the directory for tests and measures: a client makes its steps one by one, and each step keeps the directory in agreement
//! with its ticket. It has no tests of its own, so that it is proved once.
#![tactic(auto)]

pub mod test_caller;
pub mod test_rows;
pub mod test_stage;
pub mod test_store;
