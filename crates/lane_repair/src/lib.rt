//! A lost chunk from parts of the others, in one thread: its column's values by a fixed matrix of the scalar code, and products sixteen bytes
//! at a time.
#![tactic(auto)]

mod erased_column;
mod read_block;
mod repair;
mod repair_plan;
mod view;

pub use erased_column::{erased_points, is_column_erased};
pub use repair::{rebuild, rebuild_into};
pub use view::ChunkView;
