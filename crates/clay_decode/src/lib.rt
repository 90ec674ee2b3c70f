//! Layered decoding: the chunks of a codeword of a Clay code from what is left of them (Vajha et al., "Clay Codes: Moulding MDS Codes to
//! Yield an MSR Code", FAST 2018, section 4).
#![tactic(auto)]

mod plain_checked;
mod plain_layers;
mod plain_missing;
mod plain_plan;

pub use clay_model::{CheckedFault, DecodeFault};
pub use plain_checked::decode_checked;
pub use plain_missing::decode;
