//! An actor's ticket in one place, while the steps of its calls change it.
ghost use Rattle.std.specs.Prelude.{◌≡◌, None, Some, is_some, IsTrue};
ghost use Rattle.store_core.specs.Agreement.{ActorToken};
ghost use Rattle.call_steps.specs.TokenAfter.{IsSeated};
ghost use Rattle.dir_tickets.specs.TicketView.{token_at, IsInCall};

use std::marker::Model;
use stripe_dir::{Pass, Seat};

// A seat or a pass of the directory.
pub(crate) enum Held {
    Seat(Seat),
    Pass(Pass),
}

/// Holds an actor's seat, or the pass of the call that it has begun, while the steps of its calls change
/// it in its place. It has to be spent.
pub struct Ticket {
    // a step takes it out and puts the next one in
    pub(crate) held: Option<Held>,
}

impl Model for Ticket {
    ghost use Rattle.store_core.specs.Agreement.{ActorToken};

    ghost Value = { ActorToken };

    ghost use Rattle.dir_tickets.specs.TicketView.{token_in, IsThere};

    ghost view = { token_in };

    ghost invariant = { IsThere };
}

impl Ticket {
    /// The ticket of an actor that is in no call.
    pub fn new(seat: Seat) -> Ticket
        ensures { result ≡ ActorToken.Seated seat }
    {
        Ticket {
            held: Some(Held::Seat(seat)),
        }
    }

    /// The seat of an actor whose call is over.
    pub fn into_seat(self) -> Seat
        requires { IsSeated self }
        ensures { ActorToken.Seated result ≡ self }
    {
        let Ticket { held } = self;
        match held {
            Some(Held::Seat(seat)) => seat,
            Some(Held::Pass(_pass)) => unreachable!(),
            None => unreachable!(),
        }
    }

    /// Leaves the directory: its actor makes no step any more, and a pass stays open there.
    pub fn leave(self) {
        let Ticket { held } = self;
        match held {
            Some(Held::Seat(seat)) => seat.leave(),
            Some(Held::Pass(pass)) => pass.leave(),
            None => {}
        }
    }
}

// Takes a seat out of its place.
pub(crate) fn take_seat(place: &mut Option<Held>) -> Seat
    requires there { IsTrue (is_some place.old) }
    requires seated { IsSeated (token_at place.old) }
    ensures seat { ActorToken.Seated result ≡ token_at place.old }
    ensures gone { place.new ≡ None }
{
    match place.take() {
        Some(Held::Seat(seat)) => seat,
        Some(Held::Pass(_pass)) => unreachable!(),
        None => unreachable!(),
    }
}

// Takes a pass out of its place.
pub(crate) fn take_pass(place: &mut Option<Held>) -> Pass
    requires there { IsTrue (is_some place.old) }
    requires in_call { IsInCall (token_at place.old) }
    ensures pass { ActorToken.InCall result ≡ token_at place.old }
    ensures gone { place.new ≡ None }
{
    match place.take() {
        Some(Held::Pass(pass)) => pass,
        Some(Held::Seat(_seat)) => unreachable!(),
        None => unreachable!(),
    }
}

// Puts the next seat or pass into its place.
pub(crate) fn put(place: &mut Option<Held>, held: Held)
    requires { place.old ≡ None }
    ensures { place.new ≡ Some held }
{
    match place.replace(held) {
        None => {}
        Some(_held) => unreachable!(),
    }
}
