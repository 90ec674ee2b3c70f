//! What a session's store keeps.
use crate::places::SessionPlaces;
use dir_tickets::Ticket;
use snapshot_view::Snapshot;
use std::alloc::Global;
use stripe_dir::Seat;

/// The places, whose calls are made in them, and the snapshot that is open.
pub(crate) struct Parts {
    pub(crate) alloc: Global,
    pub(crate) places: SessionPlaces,
    // how many requests were served: the number of the next one's call
    pub(crate) served: u32,
    // the seats of those whose calls serve requests, but in a call
    pub(crate) client: Option<Seat>,
    pub(crate) repairer: Option<Seat>,
    pub(crate) healer: Option<Seat>,
    // the healer's next number
    pub(crate) next: u32,
    pub(crate) snapshot: Option<Snapshot>,
    // the readers' tickets, where no snapshot holds them
    pub(crate) tickets: Option<Vec<Ticket>>,
}
