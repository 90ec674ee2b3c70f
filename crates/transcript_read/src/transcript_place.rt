//! Which line may stand behind which in a transcript.
ghost use Rattle.std.specs.Prelude.{◌≡◌, IfSome, IfNone};
ghost use Rattle.transcript_read.specs.Order.{is_earlier, rises, rank, servers_at, place_of, IsBefore, Follows};

use crate::transcript_line::Line;
use store_map::CallName;

/// The line behind which the next one stands: its kind, and by what its kind rises.
#[derive(Clone, Copy, PartialEq, Eq)]
pub enum TranscriptPlace {
    Start,
    History(u64),
    Refused(CallName),
    Repairs(CallName),
    Unanswered(CallName),
    Objects,
    Takes(CallName),
    /// So many servers have their line.
    Servers(u32),
    End,
}

// Whether a call's lines stand before another's: those of clients before those of repairers, then
// by actor, then by number.
fn is_earlier(call: CallName, other: CallName) -> bool
    ensures { result ≡ is_earlier call other }
{
    match call {
        CallName::Client(a) => match other {
            CallName::Client(b) => {
                a.client < b.client || (a.client == b.client && a.number < b.number)
            }
            CallName::Repairer(_) => true,
        },
        CallName::Repairer(a) => match other {
            CallName::Client(_) => false,
            CallName::Repairer(b) => {
                a.repairer < b.repairer || (a.repairer == b.repairer && a.number < b.number)
            }
        },
    }
}

// Whether the kind's lines may follow each other so.
fn rises(last: TranscriptPlace, next: TranscriptPlace) -> bool
    ensures { result ≡ rises last next }
{
    match (last, next) {
        (TranscriptPlace::History(point), TranscriptPlace::History(other)) => point < other,
        (TranscriptPlace::Refused(call), TranscriptPlace::Refused(other)) => is_earlier(
            call, other,
        ),
        (TranscriptPlace::Repairs(call), TranscriptPlace::Repairs(other)) => is_earlier(
            call, other,
        ),
        (TranscriptPlace::Unanswered(call), TranscriptPlace::Unanswered(other)) => is_earlier(
            call, other,
        ),
        (TranscriptPlace::Objects, TranscriptPlace::Objects) => true,
        (TranscriptPlace::Takes(call), TranscriptPlace::Takes(other)) => is_earlier(call, other),
        _ => false,
    }
}

// The kind's place in the order of the kinds.
fn rank(place: TranscriptPlace) -> u32
    ensures { result ≡ rank place }
{
    match place {
        TranscriptPlace::Start => 0,
        TranscriptPlace::History(_) => 1,
        TranscriptPlace::Refused(_) => 2,
        TranscriptPlace::Repairs(_) => 3,
        TranscriptPlace::Unanswered(_) => 4,
        TranscriptPlace::Objects => 5,
        TranscriptPlace::Takes(_) => 6,
        TranscriptPlace::Servers(_) => 7,
        TranscriptPlace::End => 8,
    }
}

// How many servers have their line.
fn servers_at(place: TranscriptPlace) -> u32
    ensures { result ≡ servers_at place }
{
    match place {
        TranscriptPlace::Servers(count) => count,
        _ => 0,
    }
}

// The place of a line that goes by the order of its kind.
fn behind_kind(place: TranscriptPlace, next: TranscriptPlace) -> Option<TranscriptPlace>
    ensures some { IfSome result (λ found. IsBefore place next × (found ≡ next)) }
    ensures none { IfNone result (¬ IsBefore place next) }
{
    if rank(place) < rank(next) || (rank(place) == rank(next) && rises(place, next)) {
        Some(next)
    } else {
        None
    }
}

/// The place behind a line, if it may stand behind that place, where there are so many servers.
pub fn place_behind(place: TranscriptPlace, servers: u32, line: &Line) -> Option<TranscriptPlace>
    ensures some { IfSome result (λ found. Follows servers place line.now × (found ≡ place_of line.now)) }
    ensures none { IfNone result (¬ Follows servers place line.now) }
{
    match line {
        Line::History(line) => behind_kind(place, TranscriptPlace::History(line.point)),
        Line::Refused(line) => behind_kind(
            place,
            TranscriptPlace::Refused(CallName::Client(line.call)),
        ),
        Line::Repair(line) => behind_kind(
            place,
            TranscriptPlace::Repairs(CallName::Repairer(line.call)),
        ),
        Line::Unanswered(line) => behind_kind(place, TranscriptPlace::Unanswered(line.call)),
        Line::Object(_) => behind_kind(place, TranscriptPlace::Objects),
        Line::Takes(line) => behind_kind(place, TranscriptPlace::Takes(line.call)),
        Line::Server(line) => {
            let server = line.server;
            if rank(place) < 8 && server == servers_at(place) && server < servers {
                Some(TranscriptPlace::Servers(server + 1))
            } else {
                None
            }
        }
        Line::End => {
            if rank(place) < 8 && servers_at(place) == servers {
                Some(TranscriptPlace::End)
            } else {
                None
            }
        }
    }
}
