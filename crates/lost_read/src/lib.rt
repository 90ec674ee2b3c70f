//! Layers of a lost chunk, read from the subchunks that `lost_layers` lists, while all other chunks are there, or others are missing too.
#![tactic(auto)]

mod missing_plan;
mod missing_read_fault;
mod missing_reading;
mod missing_reads;
mod pieces_read;
mod read_fault;
mod read_places;
mod read_plan;
mod reading;
mod there;

pub use missing_read_fault::MissingReadFault;
pub use missing_reads::read_missing;
pub use pieces_read::{read_lost, read_pieces};
pub use read_fault::ReadFault;
pub use there::{are_few, count_without, pieces_without, read_without};
