//! What the history shows of a call: its reply, or that it is open.
ghost use Rattle.std.specs.Prelude.{◌≡◌, IfOk};

use crate::reply::Reply;
use std::alloc::AllocError;

/// What a line of the history shows of a call.
#[derive(Drop)]
pub enum Shown {
    Reply(Reply),
    /// The call took effect and its caller got no reply. Printed `open`.
    Unfinished,
}

impl Shown {
    /// The same in memory of its own.
    pub fn copy(&self) -> Result<Shown, AllocError>
        ensures { IfOk result (λ copy. copy ≡ self.now) }
    {
        match self {
            Shown::Reply(reply) => Ok(Shown::Reply(reply.copy()?)),
            Shown::Unfinished => Ok(Shown::Unfinished),
        }
    }
}
