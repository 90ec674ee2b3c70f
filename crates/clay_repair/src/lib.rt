//! The repair of one lost chunk from parts of the others (Vajha et al., "Clay Codes: Moulding MDS Codes to Yield an MSR Code", FAST
//! 2018), and coders: what codes the stripes of a store.
#![tactic(auto)]

mod laws_of_plain_repairs;
mod plain;
mod plain_lost;
mod plain_repair_plan;

pub use clay_model::Coder;
pub use laws_of_plain_repairs::{parts_have_their_bytes, worked_repairs};
pub use plain::PlainCoder;
pub use plain_lost::rebuild;
