//! Releasing a snapshot.
ghost use Rattle.std.specs.Prelude.{◌≡◌, ◌+◌, ◌<◌, ◌≤◌, [], ◌∷◌, ◌++◌, length, map, take, drop, vec_len, vec_capacity, All};
ghost use Rattle.store_core.specs.Agreement.{Agrees};
ghost use Rattle.store_core.specs.Tokens.{actor_of};
ghost use Rattle.call_steps.specs.TokenAfter.{IsSeated};
ghost use Rattle.stripe_dir.specs.Answers.{told_ended};
ghost use Rattle.snapshot_view.specs.Tickets.{IsInCall, AgreesWithAll, AreOfSame, OthersAgree};
ghost use Rattle.snapshot_view.specs.Releasing.{reap_in, end_one, end_all, no_end, released_with};

use crate::snapshot::Snapshot;
use dir_tickets::Ticket;
use store_map::Point;
use stripe_dir::{Directory, Ended};

// The point where a pass was reaped, if it was, comes behind the others.
fn note_reap(ended: Ended<()>, points: &mut Vec<Point>)
    requires room { vec_len points.old < vec_capacity points.old }
    ensures reaps { map (λ point. point.0) points.new.items ≡ map (λ point. point.0) points.old.items ++ reap_in (told_ended ended) }
    ensures len { vec_len points.new ≤ vec_len points.old + 1 }
    ensures capacity { vec_capacity points.new ≡ vec_capacity points.old }
{
    match ended {
        Ended::Ended { .. } => {}
        Ended::Reaped { at, .. } => points.push_reserved(at),
    }
}

// Ends the pass of a ticket.
fn end_pass(directory: &mut Directory, ticket: &mut Ticket, number: u32, points: &mut Vec<Point>)
    requires agrees { Agrees directory.old.core ticket.old }
    requires call { IsInCall number ticket.old }
    requires room { vec_len points.old < vec_capacity points.old }
    ensures end { released_with directory.new.core (ticket.new ∷ []) points.new.items
        ≡ end_one number (released_with directory.old.core [] points.old.items) ticket.old }
    ensures actor { actor_of ticket.new ≡ actor_of ticket.old }
    ensures seated { IsSeated ticket.new }
    ensures agrees { Agrees directory.new.core ticket.new }
    ensures others { OthersAgree (ticket.old ∷ []) directory.old.core directory.new.core }
    ensures len { vec_len points.new ≤ vec_len points.old + 1 }
    ensures capacity { vec_capacity points.new ≡ vec_capacity points.old }
    ensures book { directory.new.book ≡ directory.old.book }
    ensures stamps { directory.new.stamps ≡ directory.old.stamps }
{
    let ended = ticket.end(directory, number);
    note_reap(ended, points);
}

// Ends the passes of the first tickets. The points of those that were reaped come behind the others.
pub(crate) fn end_passes(
    directory: &mut Directory,
    tickets: &mut [Ticket],
    count: usize,
    number: u32,
    points: &mut Vec<Point>,
)
    requires enough { count ≤ length tickets.old }
    requires agrees { AgreesWithAll directory.old.core tickets.old }
    requires calls { All (IsInCall number) (take count tickets.old) }
    requires room { vec_len points.old + count ≤ vec_capacity points.old }
    ensures ends { released_with directory.new.core (take count tickets.new) points.new.items
        ≡ end_all number (released_with directory.old.core [] points.old.items) (take count tickets.old) }
    ensures rest { drop count tickets.new ≡ drop count tickets.old }
    ensures actors { AreOfSame tickets.old tickets.new }
    ensures seated { All IsSeated (take count tickets.new) }
    ensures agrees { AgreesWithAll directory.new.core tickets.new }
    ensures others { OthersAgree tickets.old directory.old.core directory.new.core }
    ensures book { directory.new.book ≡ directory.old.book }
    ensures stamps { directory.new.stamps ≡ directory.old.stamps }
{
    let mut at = 0;
    while at < count {
        let ticket = &mut tickets[at];
        end_pass(directory, ticket, number, points);
        at += 1;
    }
}

impl Snapshot {
    /// Ends all passes. Gives the tickets, seats where they were passes, and the points at which passes
    /// were reaped. It takes no memory.
    pub fn release(self, directory: &mut Directory) -> (Vec<Ticket>, Vec<Point>)
        requires agrees { AgreesWithAll directory.old.core self.tokens }
        requires book { directory.old.book ≡ self.book }
        ensures ends { released_with directory.new.core (take (length self.objects) result.0.items) result.1.items
            ≡ end_all self.number (no_end directory.old.core) (take (length self.objects) self.tokens) }
        ensures rest { drop (length self.objects) result.0.items ≡ drop (length self.objects) self.tokens }
        ensures actors { AreOfSame self.tokens result.0.items }
        ensures seated { All IsSeated (take (length self.objects) result.0.items) }
        ensures agrees { AgreesWithAll directory.new.core result.0.items }
        ensures others { OthersAgree self.tokens directory.old.core directory.new.core }
        ensures book { directory.new.book ≡ directory.old.book }
        ensures stamps { directory.new.stamps ≡ directory.old.stamps }
    {
        let Snapshot {
            alloc: _,
            opening: _,
            number,
            objects,
            tickets,
            points,
        } = self;
        let mut tickets = tickets;
        let mut points = points;
        end_passes(directory, &mut tickets, objects.len(), number, &mut points);
        (tickets, points)
    }
}
