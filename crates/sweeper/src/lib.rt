//! The sweeper of an object store. It takes one version after another that is superseded and that no
//! call pins, and has every server discard its chunk.
#![tactic(auto)]

mod sweeper;

pub use sweeper::Sweeper;
