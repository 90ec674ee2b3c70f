//! Seats and passes: what an actor holds of its own, between calls and in them.
use dir_parts::OpenPass;
use std::marker::Model;
use std::snapshot::Snapshot;
use store_map::Actor;

/// The seat of an actor that is in no call. It has to be spent.
pub struct Seat {
    pub(crate) actor: Actor,
    pub(crate) unused: u64,
    pub(crate) told: Option<u64>,
}

impl Model for Seat {
    ghost use Rattle.store_core.specs.Agreement.{Seat as CoreSeat};

    ghost Value = { CoreSeat };

    ghost use Rattle.stripe_dir.specs.Tokens.{seat_in};

    ghost view = { seat_in };
}

/// The pass of an actor whose call has begun. It has to be spent.
pub struct Pass {
    pub(crate) actor: Actor,
    pub(crate) told: Option<u64>,
    pub(crate) entry: Snapshot<OpenPass>,
}

impl Model for Pass {
    ghost use Rattle.store_core.specs.Agreement.{HeldPass};

    ghost Value = { HeldPass };

    ghost use Rattle.stripe_dir.specs.Tokens.{held_in};

    ghost view = { held_in };
}

impl Seat {
    /// Leaves the directory: its actor makes no call any more.
    pub fn leave(self) {
        let Seat {
            actor: _,
            unused: _,
            told: _,
        } = self;
    }
}

impl Pass {
    /// Leaves the directory in the middle of a call, whose pass stays open there.
    pub fn leave(self) {
        let Pass {
            actor: _,
            told: _,
            entry: _,
        } = self;
    }
}
