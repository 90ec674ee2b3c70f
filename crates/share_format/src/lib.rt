//! Files as shares: the format of a share file, byte by byte, and the reader and the writer of its header; and a stripe of a file in
//! memory, coded and laid out in the blocks of share files, joined from blocks, and mended from parts of chunks.
//!
//! The definitions stand in `specs/`: `Shares` says what a share file is.
#![tactic(auto)]

mod cut_block;
mod format_fault;
mod header;
mod join_block;
mod laws_of_blocks;
mod laws_of_shares;
mod mend_block;
mod share_block;
mod units;

pub use cut_block::cut_stripe;
pub use format_fault::BadHeader;
pub use header::{HEADER_LEN, ShareHeader, put_u64, read_header};
pub use join_block::{join_stripe, recover_chunk};
pub use laws_of_blocks::intact_ones_pass;
pub use laws_of_shares::{
    files_are_determined, headers_are_read_back, mends_are_shares, mends_read_parts, rot_is_found,
    shares_are_determined, shares_have_length,
};
pub use mend_block::{is_part, mend_stripe};
pub use share_block::{chunk_start, extended_by_chunk, is_block, make_block};
pub use units::{page, rounded_up};
