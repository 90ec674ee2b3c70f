//! The world of a store: its directory and servers, the actors with their calls in work, and the
//! sweeper. Its steps are those of the store's definitions.
#![tactic(auto)]

mod drain;
mod last_world;
pub mod laws_of_worlds_that_serve;
mod new_world;
mod operator;
mod script_run;
mod step;
mod sweep;
mod telling;
mod turns;
mod watch;
mod world;

pub use script_run::{play, run};
pub use watch::{Silent, Watch};
pub use world::World;
