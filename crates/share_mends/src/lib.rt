//! A lost share mended from parts of the others, or, where too many are lost, made anew from all shares' whole blocks.
#![tactic(auto)]

mod gathering;
mod laws_of_mends;
mod mend_fault;
mod mend_helpers;
mod mending;
mod parts;
mod rebuilding;
mod spans;

pub use laws_of_mends::mends_read_ranges;
pub use mend_fault::{MendFault, RottenPart};
pub use mend_helpers::are_helpers;
pub use mending::mend;
pub use rebuilding::{RebuildFault, mend_whole};
