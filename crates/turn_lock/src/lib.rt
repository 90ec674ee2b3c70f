//! A lock whose turns know its history.
//!
//! The value under the lock stands for a list of entries, each under the number of the turn that added
//! it. A turn has seen a beginning of that list, with all entries of its own numbers in it.
#![tactic(auto)]

mod joined;
mod lock;
mod lock_history;
mod lock_view;
mod piles;
mod rule;
mod spread;
mod taking_out;
mod turn_rows;

pub use joined::{join_all, take_last, take_out};
pub use lock::{Lock, Turn};
pub use lock_history::Historied;
pub use piles::take_tops;
pub use spread::take_spread;
pub use taking_out::take_out_each;
pub use turn_rows::deal_row;
