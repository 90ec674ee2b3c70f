//! What a seat at a lock's table knows.
use std::collections::LinkedList;

/// What a seat knows, for contracts alone: no value of it is made.
pub(crate) struct View<F, E> {
    /// The lock's fixed part. A seat that was joined to another tells none.
    pub fixed: Option<F>,
    /// The numbers of the turn.
    pub numbers: LinkedList<u32>,
    /// The history that the turn has seen.
    pub seen: LinkedList<(u32, E)>,
    /// Whether the turn has the value.
    pub holds: bool,
    /// The numbers of a turn that was joined to it, until the next load.
    pub joined: LinkedList<u32>,
    /// The history that that turn had seen.
    pub joined_seen: LinkedList<(u32, E)>,
    /// Whether turns are made from this seat.
    pub makes: bool,
    /// How many were made.
    pub made: u64,
}
