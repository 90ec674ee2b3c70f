//! Coding in several threads: groups of layers, layers of one score, or ranges of byte positions, each coded as the fast coder does. No clause says that two threads ran, nor how the work was cut: the answers are those of one thread.
#![tactic(auto)]

mod made;
mod par_coder;
mod parity;
mod ranges;
mod scores;
mod shared_chunks;

pub use par_coder::ParCoder;
