//! Scripts of the store as text: reading them, with the first fault of a text that is none, and
//! writing them. A script has exactly one spelling, so a script that was read is written with the
//! same bytes. Neither reading nor writing looks at what the calls would do.
#![tactic(auto)]

pub mod laws_of_scripts;
mod load;
mod script_fault;
mod script_place;
mod script_reader;
mod script_writing;
mod whole_script;

pub use line_grammar::{FaultKind, read_number};
pub use script_fault::ScriptFault;
pub use script_writing::write_script;
pub use whole_script::{read_front, read_script};
