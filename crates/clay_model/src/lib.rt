//! What a codeword of a Clay code is, and the coupling of its values.
//!
//! The construction is that of Vajha et al., "Clay Codes: Moulding MDS Codes to Yield an MSR Code", FAST 2018.
#![tactic(auto)]

mod coder;
mod coupling;
mod decode_fault;
mod laws_of_codewords;
mod partners;

pub use coder::Coder;
pub use coupling::{couple, cross, uncouple, uncouple_from};
pub use decode_fault::{CheckedFault, DecodeFault};
pub use laws_of_codewords::{
    codewords_are_unique, coupling_is_inverse, layers_are_numbered, stripes_hold_the_bytes,
    worked_codewords,
};
pub use partners::{Subchunk, partner_of};
