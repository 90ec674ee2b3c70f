//! What a step is told, without the stripes and the versions that it lists.
ghost use Rattle.std.specs.Prelude.{◌≡◌};
ghost use Rattle.call_steps.specs.Answers.{reply_kind, server_told, told_by_server};

use std::alloc::AllocError;
use store_map::{Found, Placement, Point, Reply, Version};

/// What a call is answered, without the bytes.
#[derive(Clone, Copy, PartialEq, Eq)]
pub enum ReplyKind {
    Done,
    Bytes,
    Length(u64),
    NoSuch,
    OutRange,
    TooLarge,
}

/// What a step at the directory is answered.
#[derive(Clone, Copy, PartialEq, Eq)]
pub enum DirectoryAnswer {
    /// A client's look: the map's reply at this point.
    Answered {
        point: Point,
        reply: ReplyKind,
    },
    /// A client's look: the stripes that it reads are pinned; the object has this length.
    Pinned {
        point: Point,
        length: u64,
    },
    /// A client's look: the stripes that it overwrites are pinned; the object, of this length, was last
    /// changed at that point.
    Ready {
        looked_at: Option<Point>,
        length: u64,
    },
    /// A repairer's look: there is no such stripe.
    NoSuch,
    /// A repairer's look: its stripe is pinned.
    PinnedStripe,
    /// Versions are drawn.
    Versions,
    /// The change is made, at this point.
    Done {
        point: Point,
    },
    /// The object was changed since the look, at the newer point.
    Changed {
        looked_at: Point,
        newer: Point,
    },
    /// The pass is over.
    Ended,
    /// The stripe's version is still current.
    Current,
    /// The stripe was replaced, at the newer point.
    Superseded {
        newer: Point,
    },
    /// The call was given up before, at this point.
    Reaped {
        at: Point,
    },
    /// The sweeper is given this version to sweep, or none.
    Taken(Option<Version>),
    /// A step after which nothing is told.
    Made,
    /// The operator gave the call up at this point, where one was in work.
    GivenUp(Option<Point>),
    /// Memory was wanting.
    Short,
}

/// What a step at a server is answered.
#[derive(Clone, Copy, PartialEq, Eq)]
pub enum ServerAnswer {
    Prepared(Placement),
    Settled,
    Here,
    Missing(Found),
    /// So many subchunks.
    Given(u64),
    Placed { epoch: u64 },
    AlreadyThere,
    Away { downs: u64 },
    /// A step of the sweeper or of the operator, after which nothing is told.
    Made,
    /// Memory was wanting.
    Short,
}

impl ReplyKind {
    /// Of a reply.
    pub fn of(reply: &Reply) -> ReplyKind
        ensures { result ≡ reply_kind reply.now }
    {
        match reply {
            Reply::Done => ReplyKind::Done,
            Reply::Bytes(_) => ReplyKind::Bytes,
            Reply::Length(length) => ReplyKind::Length(*length),
            Reply::NoSuch => ReplyKind::NoSuch,
            Reply::OutRange => ReplyKind::OutRange,
            Reply::TooLarge => ReplyKind::TooLarge,
        }
    }
}

impl ServerAnswer {
    /// An answer, or that memory was wanting.
    pub fn or_short(answer: Result<ServerAnswer, AllocError>) -> ServerAnswer
        ensures { server_told result ≡ told_by_server answer }
    {
        match answer {
            Ok(answer) => answer,
            Err(_) => ServerAnswer::Short,
        }
    }
}
