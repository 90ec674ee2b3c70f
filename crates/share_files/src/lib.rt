//! Files cut into shares, and joined from them where some are missing or rotten. What is read of one share, and whether it is whole.
#![tactic(auto)]

mod block_places;
mod block_writing;
mod checking;
mod cutting;
mod fetching;
mod finding;
mod joining;
mod laws_of_checks;
mod laws_of_joins;
mod missed;
mod passing;
mod share_fault;
mod share_reading;
mod stripe_filling;
mod stripe_reading;
mod stripe_writing;

pub use block_places::{block_len, block_place, chunk_place, header_room};
pub use block_writing::{PutFault, padded_header, write_block, write_header};
pub use checking::check_share;
pub use cutting::{CutFault, cut};
pub use fetching::find_blocks;
pub use finding::{BlockFault, first_rotten};
pub use joining::{JoinFault, join};
pub use laws_of_checks::shares_are_whole;
pub use laws_of_joins::{any_shares_join, joined_stripes_are_right};
pub use share_fault::ShareFault;
pub use share_reading::{HeaderRefusal, read_block, read_share_header};
