//! The kernels of the fast coder: sums of products, 32 and 16 bytes at a time, and coupling by doublings.
#![tactic(auto)]

mod blocks;
mod kernels;
mod products;
mod slice_coupling;

pub use blocks::{BLOCK, column_room, zeros};
pub use kernels::add_rows;
pub use products::Products;
pub use slice_coupling::{couple, cross, double, fifths, halves, uncouple, uncouple_from};
