//! The directory's answers. Each gives the seat or the pass that its actor has then, or, where a
//! [`Ticket`](dir_tickets::Ticket) keeps it, `()` in its place.

use crate::tokens::{Pass, Seat};
use call_steps::Seen;
use store_map::{Point, Reply};
use version_seal::Stamp;

/// What a client's look comes to.
#[derive(Drop)]
pub enum Look<S = Seat, P = Pass> {
    /// The call is over.
    Answer {
        seat: S,
        point: Point,
        reply: Reply,
    },
    /// A get or a read goes on: these stripes meet the range, rising. The length is the object's, in bytes.
    Pinned {
        pass: P,
        point: Point,
        length: u64,
        stripes: Vec<Seen>,
    },
    /// A put or a write goes on: these stripes are partly covered, rising.
    Ready {
        pass: P,
        looked_at: Option<Point>,
        length: u64,
        stripes: Vec<Seen>,
    },
}

/// What a repairer's look comes to.
#[derive(Drop)]
pub enum RepairLook<S = Seat, P = Pass> {
    NoSuch { seat: S },
    Pinned { pass: P, seen: Seen },
}

/// What was drawn.
#[derive(Drop)]
pub enum Drawn<S = Seat, P = Pass> {
    /// A stamp for each stripe that the call touches, rising.
    Versions { pass: P, stamps: Vec<Stamp> },
    Reaped { seat: S, at: Point },
}

/// What a commit comes to.
#[derive(Drop)]
pub enum Committed<S = Seat> {
    Done {
        seat: S,
        point: Point,
    },
    /// The object was changed since the look.
    Changed {
        seat: S,
        looked_at: Point,
        newer: Point,
    },
    Reaped {
        seat: S,
        at: Point,
    },
}

/// How a pass that was given up ended.
#[derive(Drop)]
pub enum Ended<S = Seat> {
    Ended { seat: S },
    Reaped { seat: S, at: Point },
}

/// Whether the pinned version is current still.
#[derive(Drop)]
pub enum Confirmed<S = Seat, P = Pass> {
    Current { pass: P },
    Superseded { seat: S, newer: Point },
    Reaped { seat: S, at: Point },
}
