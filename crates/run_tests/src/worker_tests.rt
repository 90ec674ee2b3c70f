//! Workers that add to one list.
use crate::number_list::NumberList;
use turn_lock::Turn;

/// A worker: its turn, a number of that turn, and how many lines it has to add.
#[derive(Drop)]
pub struct Worker {
    pub turn: Turn<NumberList>,
    pub number: u32,
    pub left: u32,
}
