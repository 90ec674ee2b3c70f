//! Layers of a lost chunk from few subchunks of the others, while all others are there, or others are missing too.
#![tactic(auto)]

mod erased;
mod laws_of_missing;
mod laws_of_pieces;
mod lost_fault;
mod marked;
mod missing;
mod missing_fault;
mod pieces;
mod pieces_of_missing;
mod placed;
mod run;
mod unknown;

pub use laws_of_missing::missing_pieces_determine;
pub use laws_of_pieces::{
    pieces_determine_runs, pieces_of_one_layer, ranges_are_coded, reads_stay_within_repairs,
};
pub use lost_fault::LostFault;
pub use marked::MarkedRun;
pub use missing::{missing_count, missing_pieces, readable_run};
pub use missing_fault::MissingFault;
pub use pieces::{count_of_run, lost_count, lost_pieces, pieces_of_run};
pub use pieces_of_missing::SolvedRun;
pub use placed::PlacedRun;
pub use run::{LostPiece, LostRun};
pub use unknown::unknown_nodes;
