//! What was handed out and taken at which positions, for contracts alone: when it runs nothing of it is kept.
ghost use Rattle.std.specs.Prelude.{◌≡◌, ◌++◌, ◌∷◌, [], take};
ghost use Rattle.file_bytes.specs.Places.{placed_from, ends_after};
ghost use Rattle.file_bytes.specs.Logs.{numbers_of};

use boxcar::tag::{Names, Tag};
use std::marker::Model;

/// The bytes that a file handed out or took, each with its position, in the order of the calls.
#[derive(Drop)]
pub struct PlaceLog {
    tag: Tag,
}

impl Model for PlaceLog {
    ghost use Rattle.std.specs.Prelude.{List};
    ghost use Rattle.file_bytes.specs.Places.{Placed};

    ghost Value = { List Placed };

    ghost use Rattle.file_bytes.specs.Logs.{placed_in};

    ghost view = { placed_in };
}

// A call that moved so many bytes of a buffer's front from or to a position.
#[derive(Drop)]
struct Moving<'a> {
    log: &'a PlaceLog,
    at: u64,
    buf: &'a [u8],
    count: usize,
}

struct AfterMove;

impl<'a> Names<Moving<'a>> for AfterMove {
    ghost numbers = { λ m. numbers_of (m.log.now ++ placed_from m.at (take m.count m.buf.now)) };
}

impl PlaceLog {
    /// Before the first call.
    pub fn new() -> PlaceLog
        ensures { result ≡ [] }
    {
        PlaceLog { tag: Tag::empty() }
    }

    /// So many bytes of the buffer's front stand at this position.
    pub fn add(&mut self, at: u64, buf: &[u8], count: usize)
        ensures { self.new ≡ self.old ++ placed_from at (take count buf.now) }
    {
        let tag = Tag::of::<Moving, AfterMove>(&Moving {
            log: self,
            at,
            buf,
            count,
        });
        self.tag = tag;
    }
}

/// Positions at which a file told its end, or at which a read of it failed, in the order of the calls.
#[derive(Drop)]
pub struct PositionLog {
    tag: Tag,
}

impl Model for PositionLog {
    ghost use Rattle.std.specs.Prelude.{List, ℕ};

    ghost Value = { List ℕ };

    ghost use Rattle.file_bytes.specs.Logs.{positions_in};

    ghost view = { positions_in };
}

// A call at a position.
#[derive(Drop)]
struct Calling<'a> {
    log: &'a PositionLog,
    at: u64,
}

struct AfterCall;

impl<'a> Names<Calling<'a>> for AfterCall {
    ghost numbers = { λ c. c.log.now ++ (c.at ∷ []) };
}

// A read at a position that gave so many bytes.
#[derive(Drop)]
struct Reading<'a> {
    log: &'a PositionLog,
    at: u64,
    count: usize,
}

struct AfterRead;

impl<'a> Names<Reading<'a>> for AfterRead {
    ghost numbers = { λ r. ends_after r.log.now r.at r.count };
}

impl PositionLog {
    /// Before the first call.
    pub fn new() -> PositionLog
        ensures { result ≡ [] }
    {
        PositionLog { tag: Tag::empty() }
    }

    /// One more position.
    pub fn add(&mut self, at: u64)
        ensures { self.new ≡ self.old ++ (at ∷ []) }
    {
        let tag = Tag::of::<Calling, AfterCall>(&Calling { log: self, at });
        self.tag = tag;
    }

    /// A read at this position into a buffer with room gave so many bytes: where it gave none, the file ends there.
    pub fn add_end(&mut self, at: u64, count: usize)
        ensures { self.new ≡ ends_after self.old at count }
    {
        let tag = Tag::of::<Reading, AfterRead>(&Reading {
            log: self,
            at,
            count,
        });
        self.tag = tag;
    }
}
