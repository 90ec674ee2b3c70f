//! The fast coders beside the plain one, for many codes, widths and losses; layers of lost chunks read from few subchunks, beside the
//! plain coder's codewords. All of it is tests: without them the crate is empty.
#![tactic(auto)]

#[cfg(test)]
mod fast_coders;
#[cfg(test)]
mod fast_columns;
#[cfg(test)]
mod fast_coupling;
#[cfg(test)]
mod fast_encoding;
#[cfg(test)]
mod fast_kernels;
#[cfg(test)]
mod fast_rebuilding;
#[cfg(test)]
mod lost_counts;
#[cfg(test)]
mod lost_reads;
#[cfg(test)]
mod missing_counts;
#[cfg(test)]
mod missing_read_tests;
#[cfg(test)]
mod threads;

#[cfg(test)]
use std::fmt::Debug;
#[cfg(test)]
use std::process::Abort;

// Two functions compare, and tell both sides where they differ: an `assert_eq` is proved with all that it prints, so a test calls one.
#[cfg(test)]
fn expect_bytes(rt: &impl Abort, found: &[u8], wanted: &[u8]) {
    assert_eq!(rt; found, wanted);
}

#[cfg(test)]
fn expect_same<T: Copy + Debug + PartialEq>(rt: &impl Abort, found: T, wanted: T) {
    assert_eq!(rt; found, wanted);
}
