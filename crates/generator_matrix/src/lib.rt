//! The values of unknown nodes as fixed sums of those of the known ones, node by node, or a column of two, three or four at a time.
#![tactic(auto)]

mod column;
mod factors;
mod generator;
mod small_columns;

pub use column::{ColumnFactors, add_column, end_column};
pub use generator::{Generator, generator_of, nodes};
