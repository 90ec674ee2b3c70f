//! The look of a client's call: it ends the call at once, or begins its pass.
ghost use Rattle.std.specs.Prelude.{◌≡◌, ◌<◌, true, None, Some, option_map, IfOk};
ghost use Rattle.store_core.specs.Note.{note_of};
ghost use Rattle.store_core.specs.Act.{DirectoryStep};
ghost use Rattle.store_core.specs.Lookups.{find_object, last_change};
ghost use Rattle.store_core.specs.Agreement.{AgreesWithSeat};
ghost use Rattle.store_core.specs.Tokens.{MayLook};
ghost use Rattle.stripe_stamps.specs.ItsStripes.{IsWhole};
ghost use Rattle.dir_parts.specs.Parts.{object_or_new};
ghost use Rattle.dir_parts.specs.Passes.{kind_in};
ghost use Rattle.stripe_dir.specs.Steps.{IsLook, LooksTo, LookLeaves};
ghost use Rattle.stripe_dir.specs.AnswerStamps.{AreSeenIn};
ghost use Rattle.dir_parts.specs.Begun.{accepted, base_by, begins_pass, has_point};

use crate::directory::Directory;
use crate::directory_answers::Look;
use crate::looking::Begun;
use crate::pass_ends::or_first;
use crate::tokens::{Pass, Seat};
use dir_parts::{CallKind, CallNote, DirectoryReply, History, Objects, note_of, refusal};
use store_map::{Call, Name, Point};
use stripe_stamps::pinned_stripes;

// The length of the object with this name, if there is one.
fn length_of(objects: &Objects, name: &Name) -> Option<u64>
    ensures { result ≡ option_map (λ object. object.length) (find_object name.now objects.now.objects) }
{
    match objects.find(name) {
        Some(contents) => Some(contents.length),
        None => None,
    }
}

// The point that a write looks at: the last change of its object. Other calls have none.
fn point_looked_at(history: &History, note: &CallNote) -> Option<u64>
    ensures { result ≡ base_by note.now.kind (last_change note.now.name history.now.points) }
{
    match note.kind {
        CallKind::Write => history.last_change(&note.name),
        _ => None,
    }
}

// Whether a look that goes on has a point.
fn has_point(kind: CallKind) -> bool
    ensures { result ≡ has_point (kind_in kind) }
{
    matches!(kind, CallKind::Get | CallKind::ReadAt)
}

// The same point.
fn point_of(point: Option<u64>) -> Option<Point>
    ensures { option_map (λ point. point.0) result ≡ point }
{
    match point {
        Some(point) => Some(Point(point)),
        None => None,
    }
}

impl Directory {
    // A look that goes on: its pass begins.
    fn look_on(
        &mut self,
        seat: Seat,
        number: u32,
        note: CallNote,
        length: u64,
    ) -> Result<Look, Seat>
        requires goes_on { begins_pass note.kind ≡ true }
        requires length { length ≡ (object_or_new note.name self.old.core.objects).length }
        requires whole { IsWhole (accepted seat.actor number note self.old.core).0 }
        ensures step { LooksTo (accepted seat.actor number note self.old.core) self.old self.new result }
        ensures token { LookLeaves seat number note result }
        ensures book { self.new.book ≡ self.old.book }
        ensures stamps { self.new.stamps ≡ self.old.stamps }
        ensures seen { IfOk result (AreSeenIn self.old.stamps) }
    {
        let kind = note.kind;
        let looked_at = point_looked_at(&self.history, &note);
        let point = self.history.len() as u64;
        let stripe_len = self.geometry.stripe_len();
        let Ok(stripes) = pinned_stripes(
            self.alloc,
            kind,
            stripe_len,
            note.offset,
            note.length,
            length,
        ) else {
            return Err(seat);
        };
        let Ok(begun) = self.begin(seat.actor, number, note, &stripes, looked_at) else {
            return Err(seat);
        };
        let Begun { entry, seen } = begun;
        let Seat {
            actor,
            unused: _,
            told,
        } = seat;
        if has_point(kind) {
            return Ok(Look::Pinned {
                pass: Pass {
                    actor,
                    told: Some(point),
                    entry,
                },
                point: Point(point),
                length,
                stripes: seen,
            });
        }
        Ok(Look::Ready {
            pass: Pass { actor, told, entry },
            looked_at: point_of(looked_at),
            length,
            stripes: seen,
        })
    }

    // The look of a client's call, by what is kept of it.
    fn look_by(&mut self, seat: Seat, number: u32, note: CallNote) -> Result<Look, Seat>
        requires agrees { AgreesWithSeat self.old.core seat }
        requires may { MayLook seat number (DirectoryStep.Look note) }
        ensures step { IsLook seat number note self.old self.new result }
        ensures token { LookLeaves seat number note result }
        ensures book { self.new.book ≡ self.old.book }
        ensures stamps { self.new.stamps ≡ self.old.stamps }
        ensures seen { IfOk result (AreSeenIn self.old.stamps) }
    {
        let found = length_of(&self.objects, &note.name);
        if let Some(reply) = refusal(self.max, note.kind, note.offset, note.length, found) {
            return self.answer(seat, number, note, reply);
        }
        let length = or_first(found);
        match note.kind {
            CallKind::Stat => self.answer(seat, number, note, DirectoryReply::Length(length)),
            CallKind::Delete => self.delete(seat, number, note),
            CallKind::Rebuild => unreachable!(),
            _ => self.look_on(seat, number, note, length),
        }
    }

    /// Begins a client's call under an unused number. Takes the memory for the end and the reap of the
    /// pass that it begins; where memory is wanting nothing changes.
    pub fn look(&mut self, seat: Seat, number: u32, call: &Call) -> Result<Look, Seat>
        requires agrees { AgreesWithSeat self.old.core seat }
        requires may { MayLook seat number (DirectoryStep.Look (note_of call.now)) }
        ensures step { IsLook seat number (note_of call.now) self.old self.new result }
        ensures token { LookLeaves seat number (note_of call.now) result }
        ensures book { self.new.book ≡ self.old.book }
        ensures stamps { self.new.stamps ≡ self.old.stamps }
        ensures seen { IfOk result (AreSeenIn self.old.stamps) }
    {
        let Ok(note) = note_of(call) else {
            return Err(seat);
        };
        self.look_by(seat, number, note)
    }
}
