//! Threads over one store: the directory and each chunk server under a lock of its own, and actors with
//! their turns at these.
#![tactic(auto)]

pub mod crossing;
mod directory_box;
mod directory_steps;
mod gate;
mod operations;
mod seat_turns;
mod seated;
mod seated_actor;
mod seated_operator;
mod seated_sweeper;
mod server_box;
mod server_steps;
mod shift;
mod stepper;
mod store;
mod sweeps;
mod workers;

pub use directory_box::{DirectoryBox, DirectoryIdentity, DirectoryNote};
pub use gate::{Gate, NoGate, Place};
pub use seat_turns::Turns;
pub use seated::Seated;
pub use seated_actor::SeatedActor;
pub use seated_operator::SeatedOperator;
pub use seated_sweeper::SeatedSweeper;
pub use server_box::{ServerBox, ServerIdentity, StepNote};
pub use store::Store;
pub use sweeps::has_sweep;
pub use workers::{Worker, work_together};
