//! The plain map's replies.
ghost use Rattle.std.specs.Prelude.{◌≡◌, IfOk};

use crate::list_of::ByteList;
use std::alloc::AllocError;

/// What a call is answered.
#[derive(PartialEq, Eq, Drop)]
pub enum Reply {
    /// A put, a write or a delete was made.
    Done,
    /// The bytes that a get or a read asked for.
    Bytes(ByteList),
    /// The object's length in bytes.
    Length(u64),
    /// No object has this name.
    NoSuch,
    /// The offset is past the object's end.
    OutRange,
    /// The object would have more bytes than the map allows.
    TooLarge,
}

impl Reply {
    /// The same reply in memory of its own.
    pub fn copy(&self) -> Result<Reply, AllocError>
        ensures { IfOk result (λ copy. copy ≡ self.now) }
    {
        Ok(match self {
            Reply::Done => Reply::Done,
            Reply::Bytes(bytes) => Reply::Bytes(bytes.copy()?),
            Reply::Length(length) => Reply::Length(*length),
            Reply::NoSuch => Reply::NoSuch,
            Reply::OutRange => Reply::OutRange,
            Reply::TooLarge => Reply::TooLarge,
        })
    }
}
