//! Missing chunks of a code with fewer helpers, from the chunks that are left.
#![tactic(auto)]

mod recovery;

pub use recovery::recover_into;
