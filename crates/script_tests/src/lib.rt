//! Tests of the texts: scripts and transcripts that are read, and written again; damaged ones, each with its first fault; generated
//! scripts, against texts that another program drew. All of it is tests, so without them the crate is empty, and it is proved once.
#![tactic(auto)]

#[cfg(test)]
mod faults;
#[cfg(test)]
mod generated;
#[cfg(test)]
mod limit_tests;
#[cfg(test)]
mod scripts;
#[cfg(test)]
mod transcript_reads;
#[cfg(test)]
mod transcripts;
