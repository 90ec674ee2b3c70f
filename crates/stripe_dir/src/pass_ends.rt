//! Steps on a pass: to end it, to confirm its version, to tell that its chunk was placed anew.
ghost use Rattle.std.specs.Prelude.{◌≡◌, ◌+◌, ◌<◌, length, slice_get, All, false, None, Some, IfSome, IsTrue, is_some, unwrap_or};
ghost use Rattle.std.specs.List.{list_all};
ghost use Rattle.store_core.specs.Told.{Told};
ghost use Rattle.store_core.specs.Act.{DirectoryStep};
ghost use Rattle.store_core.specs.Directory.{Pass as CorePass, Directory as CoreDirectory};
ghost use Rattle.store_core.specs.Lookups.{pass_of, last_change, is_current, holds_standing, is_current_standing};
ghost use Rattle.store_core.specs.Agreement.{AgreesWithPass};
ghost use Rattle.store_core.specs.Tokens.{MayGoOn, after_pass_step};
ghost use Rattle.store_core.specs.AtDirectory.{on_pass};
ghost use Rattle.stripe_dir.specs.Installed.{IsLiveIn, IsReapedIn};
ghost use Rattle.stripe_dir.specs.Seats.{seat_left};
ghost use Rattle.stripe_dir.specs.Steps.{IsStepOn, IsEnd, IsConfirm};
ghost use Rattle.stripe_dir.specs.Answers.{told_ended, told_confirmed};
ghost use Rattle.stripe_dir.specs.AnswerTokens.{token_ended, token_confirmed};

use crate::directory::Directory;
use crate::directory_answers::{Confirmed, Ended};
use crate::tokens::{Pass, Seat};
use dir_parts::{CallNote, History, Pinned};
use store_map::{Actor, Point};
use version_table::Versions;

// The seat of an actor whose call has ended.
pub(crate) fn seat_of(actor: Actor, number: u32, told: Option<u64>) -> Seat
    ensures { result ≡ record { actor = actor; unused = number + 1; told = told } }
{
    Seat {
        actor,
        unused: u64::from(number) + 1,
        told,
    }
}

// The point, or the first one.
pub(crate) fn or_first(point: Option<u64>) -> u64
    ensures { result ≡ unwrap_or point 0 }
{
    match point {
        Some(point) => point,
        None => 0,
    }
}

// The last point at which the call's object was changed, or the first one.
fn last_of(history: &History, note: &CallNote) -> u64
    ensures { result ≡ unwrap_or (last_change note.now.name history.now.points) 0 }
{
    or_first(history.last_change(&note.name))
}

// Whether these versions are all current.
fn are_current(versions: &Versions, pins: &[Pinned]) -> bool
    requires { All (λ pin. pin.version < length versions.now.listed) pins.now }
    ensures { result ≡ list_all (λ pin. holds_standing is_current_standing (slice_get versions.now.listed pin.version)) pins.now }
{
    let mut at = 0;
    while at < pins.len() {
        let pin = &pins[at];
        let version = pin.version;
        if !versions.is_current(version) {
            return false;
        }
        at += 1;
    }
    true
}

impl Directory {
    // Where the actor's pass was reaped, if it was.
    pub(crate) fn reap_of(&self, actor: Actor) -> Option<u64>
        requires { IsTrue (is_some (pass_of actor self.now.core)) }
        ensures { IfSome (pass_of actor self.now.core) (λ pass. result ≡ pass.reaped) }
    {
        match self.passes.find(actor) {
            Some(open) => open.reaped,
            None => unreachable!(),
        }
    }

    // Ends a pass that was reaped, in place of any step on it.
    pub(crate) fn end_reaped(&mut self, pass: Pass, point: u64) -> Seat
        requires agrees { AgreesWithPass self.old.core pass }
        requires reaped { IsReapedIn self.old.core pass.pass.actor point }
        ensures step { (step : CorePass → CoreDirectory → CoreDirectory × Told) → (self.new.core, Told.Reaped point) ≡ on_pass step (pass_of pass.pass.actor self.old.core) self.old.core }
        ensures seat { result ≡ seat_left pass (Some point) }
        ensures book { self.new.book ≡ self.old.book }
        ensures stamps { self.new.stamps ≡ self.old.stamps }
    {
        let Pass {
            actor,
            told: _,
            entry: _,
        } = pass;
        let open = self.passes.take(actor);
        seat_of(actor, open.number, Some(point))
    }

    // Gives up a pass that wasn't reaped, with its pins and what it drew.
    pub(crate) fn end_live(&mut self, pass: Pass) -> Seat
        requires agrees { AgreesWithPass self.old.core pass }
        requires live { IsLiveIn self.old.core pass.pass.actor }
        ensures step { IsStepOn pass DirectoryStep.End self.old self.new false Told.Ended }
        ensures seat { result ≡ seat_left pass pass.told }
        ensures book { self.new.book ≡ self.old.book }
        ensures stamps { self.new.stamps ≡ self.old.stamps }
    {
        let Pass {
            actor,
            told,
            entry: _,
        } = pass;
        let open = self.passes.take(actor);
        self.versions.unpin_all(&open.pinned);
        self.versions.supersede_all(&open.drawn);
        seat_of(actor, open.number, told)
    }

    /// Gives up the pass, with its pins and what it drew.
    pub fn end(&mut self, pass: Pass) -> Ended
        requires agrees { AgreesWithPass self.old.core pass }
        ensures step { IsEnd pass DirectoryStep.End self.old self.new result }
        ensures token { token_ended result ≡ after_pass_step pass (told_ended result) }
        ensures book { self.new.book ≡ self.old.book }
        ensures stamps { self.new.stamps ≡ self.old.stamps }
    {
        if let Some(point) = self.reap_of(pass.actor) {
            let seat = self.end_reaped(pass, point);
            return Ended::Reaped {
                seat,
                at: Point(point),
            };
        }
        Ended::Ended {
            seat: self.end_live(pass),
        }
    }

    /// Whether the pinned version of a rebuild is current still. Where it isn't, the pass ends.
    pub fn confirm(&mut self, pass: Pass) -> Confirmed
        requires agrees { AgreesWithPass self.old.core pass }
        requires may { MayGoOn self.old.core pass DirectoryStep.Confirm }
        ensures step { IsConfirm pass self.old self.new result }
        ensures token { token_confirmed result ≡ after_pass_step pass (told_confirmed result) }
        ensures book { self.new.book ≡ self.old.book }
        ensures stamps { self.new.stamps ≡ self.old.stamps }
    {
        if let Some(point) = self.reap_of(pass.actor) {
            let seat = self.end_reaped(pass, point);
            return Confirmed::Reaped {
                seat,
                at: Point(point),
            };
        }
        if self.has_current_pins(pass.actor) {
            return Confirmed::Current { pass };
        }
        let Pass {
            actor,
            told: _,
            entry: _,
        } = pass;
        let open = self.passes.take(actor);
        self.versions.unpin_all(&open.pinned);
        let newer = last_of(&self.history, &open.note);
        Confirmed::Superseded {
            seat: seat_of(actor, open.number, Some(newer)),
            newer: Point(newer),
        }
    }

    /// The chunk of a rebuild's pinned version was placed anew at a server, at this epoch.
    pub fn repaired(&mut self, pass: Pass, server: u32, epoch: u64) -> Ended
        requires agrees { AgreesWithPass self.old.core pass }
        requires may { MayGoOn self.old.core pass (DirectoryStep.Repaired server epoch) }
        ensures step { IsEnd pass (DirectoryStep.Repaired server epoch) self.old self.new result }
        ensures token { token_ended result ≡ after_pass_step pass (told_ended result) }
        ensures book { self.new.book ≡ self.old.book }
        ensures stamps { self.new.stamps ≡ self.old.stamps }
    {
        if let Some(point) = self.reap_of(pass.actor) {
            let seat = self.end_reaped(pass, point);
            return Ended::Reaped {
                seat,
                at: Point(point),
            };
        }
        let Pass {
            actor,
            told,
            entry: _,
        } = pass;
        let open = self.passes.take(actor);
        self.versions.unpin_all(&open.pinned);
        self.versions.place_anew_all(&open.pinned, server, epoch);
        Ended::Ended {
            seat: seat_of(actor, open.number, told),
        }
    }

    // Whether the versions that the actor's pass pins are current.
    fn has_current_pins(&self, actor: Actor) -> bool
        requires { IsTrue (is_some (pass_of actor self.now.core)) }
        ensures { IfSome (pass_of actor self.now.core) (λ pass. result ≡ list_all (λ pin. is_current self.now.core pin.version) pass.pinned) }
    {
        match self.passes.find(actor) {
            Some(open) => are_current(&self.versions, &open.pinned),
            None => unreachable!(),
        }
    }
}
