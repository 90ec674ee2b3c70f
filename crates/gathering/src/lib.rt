//! A gathering: a part of the bytes of one pinned version, or one chunk of it that is made anew, from
//! the servers that hold chunks of that version.
#![tactic(auto)]

mod aim;
mod asked_servers;
mod course;
mod ending;
mod gather;
mod gather_coding;
pub mod laws_of_gatherings;
mod layers_asked;
mod position;

pub use course::Course;
pub use ending::Ending;
pub use gather::Gather;
