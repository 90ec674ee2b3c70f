//! A script as values: its form, code and limits, each actor's calls, and the schedule.
ghost use Rattle.std.specs.Prelude.{◌≡◌};

use crate::actor::Token;
use crate::call::{Call, Rebuild};
use crate::limits::{DEFAULT_SIZE, DEFAULT_TRIES};
use crate::list_of::ListOf;
use clay_grid::Geometry;

/// A client's calls in order, and the most steps that its last call may make.
#[derive(PartialEq, Eq, Drop)]
pub struct ClientPart {
    pub calls: ListOf<Call>,
    pub leave: Option<u32>,
}

/// A repairer's calls in order, and the most steps that its last call may make.
#[derive(PartialEq, Eq, Drop)]
pub struct RepairPart {
    pub calls: ListOf<Rebuild>,
    pub leave: Option<u32>,
}

/// A whole script: the code, the greatest length of an object, how often a write tries to commit,
/// the calls of each actor, and the order of their steps.
pub struct Script {
    /// 1, or 2 where servers may be made away and present.
    pub form: u32,
    pub geometry: Geometry,
    /// The greatest length of an object in bytes, [`DEFAULT_SIZE`](crate::DEFAULT_SIZE) where none is given.
    pub size: Option<u32>,
    /// How often a write tries to commit, [`DEFAULT_TRIES`](crate::DEFAULT_TRIES) where none is given.
    pub tries: Option<u32>,
    pub clients: ListOf<ClientPart>,
    pub repairers: ListOf<RepairPart>,
    pub schedule: ListOf<Token>,
}

// By hand, since a derived one is proved again in each crate that drops the type.
impl Drop for Script {
    fn drop(self) {
        let Script {
            form: _form,
            geometry: _geometry,
            size: _size,
            tries: _tries,
            clients: _clients,
            repairers: _repairers,
            schedule: _schedule,
        } = self;
    }
}

impl Script {
    ghost use Rattle.store_map.specs.Limits.{size_of, tries_of};

    /// The greatest length that an object of this script may have, in bytes.
    pub fn max_size(&self) -> u32
        ensures { result ≡ size_of self.now }
    {
        self.size.unwrap_or(DEFAULT_SIZE)
    }

    /// How often a write of this script tries to commit.
    pub fn max_tries(&self) -> u32
        ensures { result ≡ tries_of self.now }
    {
        self.tries.unwrap_or(DEFAULT_TRIES)
    }
}
