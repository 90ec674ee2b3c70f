//! The parity chunks of a stripe, by the kernels of the fast coder.
#![tactic(auto)]

mod flat;
mod parity_layers;
mod prepared;
mod short;
mod stripe;

pub use flat::{parity_into, write_pieces};
pub use parity_layers::{encode, last_column, parity, solve_group};
pub use prepared::Prepared;
