//! What a call does next, told without lists: a name for each step, with the version, the server or the
//! epoch that it speaks of.
ghost use Rattle.std.specs.Prelude.{◌≡◌};
ghost use Rattle.call_steps.specs.Acts.{need_for};

use crate::need::Need;
use store_map::{Actor, Version};

/// A step at the directory.
#[derive(Clone, Copy, PartialEq, Eq)]
pub enum DirectoryAct {
    /// The look with which a client's call begins.
    Look,
    /// The look with which a repairer's call begins.
    LookRepair,
    Draw,
    Commit,
    End,
    Confirm,
    /// The server has its chunk since this epoch.
    Repaired { server: u32, epoch: u64 },
    /// The sweeper asks for a version that nobody needs.
    NextGarbage,
    /// The sweeper has swept this version.
    Swept(Version),
    /// The operator gives up the call in work of this actor.
    Reap(Actor),
}

/// A step at a server, of its chunk of a version.
#[derive(Clone, Copy, PartialEq, Eq)]
pub enum ServerAct {
    Prepare(Version),
    Settle(Version),
    Has(Version),
    /// Some layers of it.
    Fetch(Version),
    Install(Version),
    /// The sweeper has it dropped.
    Discard(Version),
    /// The operator empties the server.
    Wipe,
    /// The operator makes the server leave.
    Down,
    /// The operator makes the server come back.
    Up,
}

/// What a call does next.
#[derive(Clone, Copy, PartialEq, Eq)]
pub enum Act {
    Directory(DirectoryAct),
    /// At the server of this number.
    Server(u32, ServerAct),
    /// The coding before its next step. It makes no step.
    Coding,
    /// Nothing: it has come to its end.
    Finished,
}

impl Act {
    /// Where it is done.
    pub fn need(self) -> Need
        ensures { result ≡ need_for self }
    {
        match self {
            Act::Directory(_) => Need::Directory,
            Act::Server(server, _) => Need::Server(server),
            Act::Coding => Need::Coder,
            Act::Finished => Need::Finished,
        }
    }
}
