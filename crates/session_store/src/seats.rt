//! Seats in their places, out of which a call takes them.
ghost use Rattle.std.specs.Prelude.{◌≡◌, None, Some, is_some, IsTrue};

use dir_tickets::Ticket;
use stripe_dir::Seat;

/// Takes what stands there.
pub(crate) fn take<T>(place: &mut Option<T>) -> T
    requires { IsTrue (is_some place.old) }
    ensures taken { place.old ≡ Some result }
    ensures gone { place.new ≡ None }
{
    match place.take() {
        Some(value) => value,
        None => unreachable!(),
    }
}

/// Puts it where nothing stands.
pub(crate) fn put<T>(place: &mut Option<T>, value: T)
    requires { place.old ≡ None }
    ensures { place.new ≡ Some value }
{
    match place.replace(value) {
        None => {}
        Some(_value) => unreachable!(),
    }
}

/// Spends a seat.
pub(crate) fn leave_seat(place: Option<Seat>) {
    if let Some(seat) = place {
        seat.leave();
    }
}

// Spends tickets.
fn leave_all(mut tickets: Vec<Ticket>) {
    for _left in 0..tickets.len() {
        if let Some(ticket) = tickets.pop() {
            ticket.leave();
        }
    }
    tickets.destroy_empty();
}

/// Spends tickets, where they stand there.
pub(crate) fn leave_tickets(place: Option<Vec<Ticket>>) {
    if let Some(tickets) = place {
        leave_all(tickets);
    }
}
