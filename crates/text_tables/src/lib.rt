//! What tests share: tables of faults, scripts that are read and written again, texts whose lines tell how
//! often they stand, and a coder that counts. It has no tests of its own, so that it is proved once.
#![tactic(auto)]

pub mod counting;
pub mod fault_tables;
pub mod table_lines;
pub mod table_scripts;
