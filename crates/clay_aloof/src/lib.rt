//! Clay codes of which a repair has fewer helpers than there are other chunks (Vajha et al., "Clay Codes: Moulding MDS Codes to Yield an
//! MSR Code", FAST 2018, section 6): the chunks that don't help stay aloof.
#![tactic(auto)]

mod aloof_chunks;
mod aloof_fault;
mod aloof_geometry;
mod known;
mod laws_of_aloof_codes;
mod layer_solving;
mod lost_chunk;
mod partner_tables;

pub use aloof_chunks::{couple_chunk, encode, numbers, parity_into, whole_plan};
pub use aloof_fault::BadAloof;
pub use aloof_geometry::AloofGeometry;
pub use known::{Known, Source, Tables};
pub use laws_of_aloof_codes::{
    codes_are_filled, codewords_are_unique, fault_law, full_helpers, parts_are_coded,
    worked_codeword,
};
pub use layer_solving::{Plan, solved_values};
pub use lost_chunk::{aloof_layers, chunk_of, chunks_of_nodes, helpers_fit, rebuild, rebuild_into};
