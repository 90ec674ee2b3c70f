//! Fast coding of one thread: the unknown nodes' values by a fixed matrix of the scalar code, and products 32 and 16 bytes at a time.
#![tactic(auto)]

mod block;
mod block_chunks;
mod block_layers;
mod chunk_filling;
mod lane_coder;
mod lanes_checked;
mod recovery_plan;

pub use block::{Block, Rooms};
pub use block_chunks::{couple_chunk, decode, missing, missing_count};
pub use block_layers::{solve_layers, solve_some_layers};
pub use chunk_filling::{missing_into, recover_into};
pub use clay_parity::{Prepared, encode, parity, parity_into};
pub use lane_coder::LaneCoder;
pub use lane_repair::{ChunkView, rebuild, rebuild_into};
pub use lanes_checked::decode_checked;
pub use recovery_plan::{DecodePlan, make_plan, plan_of};
