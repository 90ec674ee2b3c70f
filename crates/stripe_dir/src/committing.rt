//! A commit: the drawn versions become the object's, unless the pass was reaped or overtaken.
ghost use Rattle.std.specs.Prelude.{◌≡◌, ◌+◌, ◌<◌, ◌≤◌, ◌/◌, length, false, None, Some, IfSome, IsTrue, is_some, vec_capacity};
ghost use Rattle.store_core.specs.Note.{Kind as CoreKind};
ghost use Rattle.store_core.specs.Commit.{put_object, is_overtaken, same_point};
ghost use Rattle.store_core.specs.Lookups.{pass_of, last_change};
ghost use Rattle.store_core.specs.Agreement.{AgreesWithPass};
ghost use Rattle.store_core.specs.Tokens.{MayGoOn, after_pass_step};
ghost use Rattle.dir_parts.specs.Parts.{object_or_new, versions_under, FitsFrom};
ghost use Rattle.dir_parts.specs.Passes.{kind_in};
ghost use Rattle.stripe_dir.specs.Answers.{told_committed};
ghost use Rattle.stripe_dir.specs.AnswerTokens.{token_committed};
ghost use Rattle.stripe_dir.specs.Installed.{installed, dropped, changed_in, IsLiveIn};
ghost use Rattle.stripe_dir.specs.Steps.{IsCommit, commit_step};

use crate::directory::Directory;
use crate::directory_answers::Committed;
use crate::pass_ends::{or_first, seat_of};
use crate::tokens::{Pass, Seat};
use dir_parts::{CallKind, CallNote, Event, Objects, OpenPass};
use store_map::{Actor, Placement, Point};

// Whether two points are the same, or none both times.
fn is_same(a: Option<u64>, b: Option<u64>) -> bool
    ensures { result ≡ same_point a b }
{
    match (a, b) {
        (None, None) => true,
        (Some(a), Some(b)) => a == b,
        _ => false,
    }
}

// Whether the call is a write whose object was changed since its look.
fn is_overtaken(kind: CallKind, looked_at: Option<u64>, last: Option<u64>) -> bool
    ensures { result ≡ is_overtaken (kind_in kind) looked_at last }
{
    match kind {
        CallKind::Write => !is_same(looked_at, last),
        _ => false,
    }
}

// The drawn versions stand in the object: all of it after a put, in the places of the stripes that it
// touches after a write. Gives the versions that are replaced.
fn install(
    objects: &mut Objects,
    stripe_len: u32,
    note: CallNote,
    drawn: Vec<u64>,
    memory: Vec<u64>,
) -> Vec<u64>
    requires stripe { 0 < stripe_len }
    requires room { 0 < objects.old.room }
    requires memory { note.kind ≡ CoreKind.Write → FitsFrom (note.offset / stripe_len) drawn.items (vec_capacity memory) }
    ensures objects { objects.new.objects ≡ put_object (installed note.kind stripe_len note drawn.items (object_or_new note.name objects.old.objects)) objects.old.objects }
    ensures replaced { result.items ≡ dropped note.kind stripe_len note drawn.items (versions_under note.name objects.old.objects) }
    ensures left { objects.old.room ≤ objects.new.room + 1 }
{
    let CallNote {
        kind,
        name,
        offset,
        length,
    } = note;
    match kind {
        CallKind::Write => {
            let end = u64::from(offset) + u64::from(length);
            objects.write(name, end, offset / stripe_len, drawn, memory)
        }
        _ => objects.put(name, u64::from(length), drawn),
    }
}

impl Directory {
    // Where the actor's pass is a write whose object was changed since its look: the point that it
    // looked at, and the change.
    fn overtaken(&self, actor: Actor) -> Option<(u64, u64)>
        requires { IsTrue (is_some (pass_of actor self.now.core)) }
        ensures { IfSome (pass_of actor self.now.core) (λ pass. result ≡ changed_in self.now.core pass) }
    {
        match self.passes.find(actor) {
            Some(open) => {
                let note = &open.note;
                let last = self.history.last_change(&note.name);
                if is_overtaken(note.kind, open.looked_at, last) {
                    return Some((or_first(open.looked_at), or_first(last)));
                }
                None
            }
            None => unreachable!(),
        }
    }

    // Commits what a pass has drawn that wasn't reaped, and whose object wasn't changed.
    fn finish(&mut self, pass: Pass, placed: Vec<Vec<Placement>>) -> Committed
        requires agrees { AgreesWithPass self.old.core pass }
        requires may { MayGoOn self.old.core pass (commit_step placed.items) }
        requires live { IsLiveIn self.old.core pass.pass.actor }
        requires still { IfSome (pass_of pass.pass.actor self.old.core) (λ own. changed_in self.old.core own ≡ None) }
        ensures step { IsCommit pass placed.items self.old self.new result }
        ensures token { token_committed result ≡ after_pass_step pass (told_committed result) }
        ensures book { self.new.book ≡ self.old.book }
        ensures stamps { self.new.stamps ≡ self.old.stamps }
    {
        let Pass {
            actor,
            told: _,
            entry: _,
        } = pass;
        let open = self.passes.take(actor);
        let OpenPass {
            number,
            note,
            pinned,
            drawn,
            spare,
            ..
        } = open;
        self.versions.unpin_all(&pinned);
        self.versions.make_all_current(&drawn, placed);
        let point = self.history.add(actor, number, &note, Event::Done);
        let stripe_len = self.geometry.stripe_len();
        let replaced = install(&mut self.objects, stripe_len, note, drawn, spare);
        self.versions.supersede_all(&replaced);
        Committed::Done {
            seat: seat_of(actor, number, Some(point)),
            point: Point(point),
        }
    }

    /// Commits what the pass has drawn, with a row of placements for each version.
    pub fn commit(&mut self, pass: Pass, placed: Vec<Vec<Placement>>) -> Committed
        requires agrees { AgreesWithPass self.old.core pass }
        requires may { MayGoOn self.old.core pass (commit_step placed.items) }
        ensures step { IsCommit pass placed.items self.old self.new result }
        ensures token { token_committed result ≡ after_pass_step pass (told_committed result) }
        ensures book { self.new.book ≡ self.old.book }
        ensures stamps { self.new.stamps ≡ self.old.stamps }
    {
        if let Some(point) = self.reap_of(pass.actor) {
            let seat = self.end_reaped(pass, point);
            return Committed::Reaped {
                seat,
                at: Point(point),
            };
        }
        if let Some((looked_at, newer)) = self.overtaken(pass.actor) {
            let Seat {
                actor,
                unused,
                told: _,
            } = self.end_live(pass);
            return Committed::Changed {
                seat: Seat {
                    actor,
                    unused: unused - 1,
                    told: Some(newer),
                },
                looked_at: Point(looked_at),
                newer: Point(newer),
            };
        }
        self.finish(pass, placed)
    }
}
