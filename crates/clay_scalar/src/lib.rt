//! Interpolation over points of the field, and the weighted sums from which it starts.
#![tactic(auto)]

mod lagrange;
mod laws_of_solutions;
mod layer_sums;
mod solver;

pub use laws_of_solutions::{
    erased_nodes_are_distinct, erased_values_are_solved, solutions_are_unique,
};
pub use layer_sums::syndromes;
pub use solver::Solver;
