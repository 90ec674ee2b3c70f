//! What holds of every step, call and run of the store: the directory stays sound, calls end and why, drains end; a call's state stands for
//! what it was told; versions stand for the plain map's bytes. No code.
#![tactic(auto)]

pub mod laws_of_calls;
pub mod laws_of_contents;
pub mod laws_of_lengths;
pub mod laws_of_reads;
pub mod laws_of_resuming;
pub mod laws_of_runs;
pub mod laws_of_soundness;
