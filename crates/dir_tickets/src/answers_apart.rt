//! An answer of the directory taken apart: the seat or the pass, and the answer without it.
ghost use Rattle.std.specs.Prelude.{◌≡◌, List, Option, IfOk, is_err};
ghost use Rattle.store_core.specs.Directory.{Pass as CorePass};
ghost use Rattle.version_seal.specs.Entry.{StampOf, RequestOf};
ghost use Rattle.stripe_dir.specs.Answers.{told_by_look, told_by_repair_look, told_by_draw, told_committed, told_ended, told_confirmed};
ghost use Rattle.stripe_dir.specs.AnswerTokens.{token_look, token_repair_look, token_drawn, token_committed, token_ended, token_confirmed, token_or_seat, token_or_pass};
ghost use Rattle.stripe_dir.specs.AnswerStamps.{AreSeenIn, IsSeenByRepair, stamps_given, AreDrawn};
ghost use Rattle.stripe_stamps.specs.Sealed.{Sealed};
ghost use Rattle.dir_tickets.specs.TicketView.{token_of};

use crate::ticket::Held;
use std::alloc::AllocError;
use stripe_dir::{Committed, Confirmed, Drawn, Ended, Look, Pass, RepairLook, Seat};

/// Of a client's look.
pub(crate) fn split_look(look: Result<Look, Seat>) -> (Held, Result<Look<(), ()>, AllocError>)
    ensures token { token_of result.0 ≡ token_or_seat token_look look }
    ensures told { told_by_look result.1 ≡ told_by_look look }
    ensures short { is_err result.1 ≡ is_err look }
    ensures seen { (stamps : List StampOf) → IfOk look (AreSeenIn stamps) → IfOk result.1 (AreSeenIn stamps) }
{
    match look {
        Ok(Look::Answer { seat, point, reply }) => (
            Held::Seat(seat),
            Ok(Look::Answer {
                seat: (),
                point,
                reply,
            }),
        ),
        Ok(
            Look::Pinned {
                pass,
                point,
                length,
                stripes,
            },
        ) => (
            Held::Pass(pass),
            Ok(Look::Pinned {
                pass: (),
                point,
                length,
                stripes,
            }),
        ),
        Ok(
            Look::Ready {
                pass,
                looked_at,
                length,
                stripes,
            },
        ) => (
            Held::Pass(pass),
            Ok(Look::Ready {
                pass: (),
                looked_at,
                length,
                stripes,
            }),
        ),
        Err(seat) => (Held::Seat(seat), Err(AllocError)),
    }
}

/// Of a repairer's look.
pub(crate) fn split_repair_look(
    look: Result<RepairLook, Seat>,
) -> (Held, Result<RepairLook<(), ()>, AllocError>)
    ensures token { token_of result.0 ≡ token_or_seat token_repair_look look }
    ensures told { told_by_repair_look result.1 ≡ told_by_repair_look look }
    ensures short { is_err result.1 ≡ is_err look }
    ensures seen { (stamps : List StampOf) → IfOk look (IsSeenByRepair stamps) → IfOk result.1 (IsSeenByRepair stamps) }
{
    match look {
        Ok(RepairLook::NoSuch { seat }) => (Held::Seat(seat), Ok(RepairLook::NoSuch { seat: () })),
        Ok(RepairLook::Pinned { pass, seen }) => (
            Held::Pass(pass),
            Ok(RepairLook::Pinned { pass: (), seen }),
        ),
        Err(seat) => (Held::Seat(seat), Err(AllocError)),
    }
}

/// Of a draw.
pub(crate) fn split_drawn(drawn: Result<Drawn, Pass>) -> (Held, Result<Drawn<(), ()>, AllocError>)
    ensures token { token_of result.0 ≡ token_or_pass token_drawn drawn }
    ensures told { told_by_draw result.1 ≡ told_by_draw drawn }
    ensures short { is_err result.1 ≡ is_err drawn }
    ensures stamps { stamps_given result.1 ≡ stamps_given drawn }
    ensures drawn { (s : Sealed) (pass : CorePass) (request : Option RequestOf) → AreDrawn s pass request drawn → AreDrawn s pass request result.1 }
{
    match drawn {
        Ok(Drawn::Versions { pass, stamps }) => (
            Held::Pass(pass),
            Ok(Drawn::Versions { pass: (), stamps }),
        ),
        Ok(Drawn::Reaped { seat, at }) => (Held::Seat(seat), Ok(Drawn::Reaped { seat: (), at })),
        Err(pass) => (Held::Pass(pass), Err(AllocError)),
    }
}

/// Of a commit.
pub(crate) fn split_committed(committed: Committed) -> (Held, Committed<()>)
    ensures token { token_of result.0 ≡ token_committed committed }
    ensures told { told_committed result.1 ≡ told_committed committed }
{
    match committed {
        Committed::Done { seat, point } => (Held::Seat(seat), Committed::Done { seat: (), point }),
        Committed::Changed {
            seat,
            looked_at,
            newer,
        } => (
            Held::Seat(seat),
            Committed::Changed {
                seat: (),
                looked_at,
                newer,
            },
        ),
        Committed::Reaped { seat, at } => (Held::Seat(seat), Committed::Reaped { seat: (), at }),
    }
}

/// Of the end of a pass.
pub(crate) fn split_ended(ended: Ended) -> (Held, Ended<()>)
    ensures token { token_of result.0 ≡ token_ended ended }
    ensures told { told_ended result.1 ≡ told_ended ended }
{
    match ended {
        Ended::Ended { seat } => (Held::Seat(seat), Ended::Ended { seat: () }),
        Ended::Reaped { seat, at } => (Held::Seat(seat), Ended::Reaped { seat: (), at }),
    }
}

/// Of a confirmation.
pub(crate) fn split_confirmed(confirmed: Confirmed) -> (Held, Confirmed<(), ()>)
    ensures token { token_of result.0 ≡ token_confirmed confirmed }
    ensures told { told_confirmed result.1 ≡ told_confirmed confirmed }
{
    match confirmed {
        Confirmed::Current { pass } => (Held::Pass(pass), Confirmed::Current { pass: () }),
        Confirmed::Superseded { seat, newer } => (
            Held::Seat(seat),
            Confirmed::Superseded { seat: (), newer },
        ),
        Confirmed::Reaped { seat, at } => (Held::Seat(seat), Confirmed::Reaped { seat: (), at }),
    }
}
