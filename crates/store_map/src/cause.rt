//! Causes of refusals, results of rebuilds, and the servers without their chunk that both list.
ghost use Rattle.std.specs.Prelude.{Some};
ghost use Rattle.store_map.specs.Triples.{placement_text, found_text, triple_text};

use crate::list_of::ListOf;
use crate::placement::{Found, Placement};
use std::fmt;

/// A server that lacked its chunk of a stripe: what it answered when the chunk was to be placed,
/// and what it answered when it was asked. Printed `J/P/F`.
#[derive(Clone, Copy, PartialEq, Eq)]
pub struct Triple {
    pub server: u64,
    pub placed: Placement,
    pub found: Found,
}

/// A placement as it is printed: the epoch, or `u` and the count of downs.
#[derive(Clone, Copy)]
struct PlacementText(Placement);

impl fmt::Display for PlacementText {
    ghost output = { λ text. Some (placement_text text.0) };

    fn fmt<W: fmt::Write>(&self, f: &mut fmt::Formatter<W>) -> fmt::Result {
        match self.0 {
            Placement::At(epoch) => write!(f, "{epoch}"),
            Placement::Skipped(downs) => write!(f, "u{downs}"),
        }
    }
}

/// What a server answered, as it is printed: the epoch, or `a` and the count of downs.
#[derive(Clone, Copy)]
struct FoundText(Found);

impl fmt::Display for FoundText {
    ghost output = { λ text. Some (found_text text.0) };

    fn fmt<W: fmt::Write>(&self, f: &mut fmt::Formatter<W>) -> fmt::Result {
        match self.0 {
            Found::Absent { epoch } => write!(f, "{epoch}"),
            Found::Away { downs } => write!(f, "a{downs}"),
        }
    }
}

impl fmt::Display for Triple {
    ghost output = { λ triple. Some (triple_text triple) };

    fn fmt<W: fmt::Write>(&self, f: &mut fmt::Formatter<W>) -> fmt::Result {
        let Triple {
            server,
            placed,
            found,
        } = *self;
        write!(f, "{server}/{}/{}", PlacementText(placed), FoundText(found))
    }
}

/// Why a client's call was refused.
#[derive(Drop)]
pub enum Cause {
    /// More chunks of the stripe were missing than the code can make anew. At least one is listed.
    Unavailable {
        stripe: u64,
        missing: ListOf<Triple>,
    },
    /// Each try found that the object had been changed: the point that it looked at, and the
    /// point of the change. At least one pair is listed.
    Contended {
        pairs: ListOf<(u64, u64)>,
    },
    /// The operator gave the call up, at this point.
    Reaped {
        at: u64,
    },
    /// Memory was wanting.
    NoMemory,
}

/// What a repairer's call came to.
#[derive(Drop)]
pub enum RepairResult {
    /// The chunk was made and installed.
    Rebuilt,
    /// The server has the chunk.
    Here,
    /// The server is away. It had been made away so often.
    Away {
        downs: u64,
    },
    /// There is no such object or stripe.
    NoSuch,
    /// The stripe was replaced meanwhile, by the change at this point or an earlier one.
    Superseded {
        newer: u64,
    },
    /// More chunks of the stripe were missing than the code can make anew. At least one is listed.
    Unavailable {
        stripe: u64,
        missing: ListOf<Triple>,
    },
    /// The operator gave the call up, at this point.
    Reaped {
        at: u64,
    },
    /// Memory was wanting.
    NoMemory,
}
