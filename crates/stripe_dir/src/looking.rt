//! What looks do at the directory: they begin a pass, answer a call, or delete an object.
ghost use Rattle.std.specs.Prelude.{◌≡◌, ◌+◌, ◌<◌, ◌≤◌, length, map, get_or, All, IfOk, OnOk, OnErr, is_err};
ghost use Rattle.store_core.specs.Directory.{Standing, Event as CoreEvent};
ghost use Rattle.store_core.specs.Look.{append_point, remove_object, set_standing};
ghost use Rattle.store_map.specs.declared.reply.Reply.TheVariants as CoreReply;
ghost use Rattle.store_core.specs.Told.{Told};
ghost use Rattle.store_core.specs.Looks.{answer};
ghost use Rattle.store_core.specs.SoundPasses.{Stands};
ghost use Rattle.dir_parts.specs.Events.{reply_in};
ghost use Rattle.version_table.specs.Known.{IsKnown};
ghost use Rattle.dir_parts.specs.Parts.{versions_under};
ghost use Rattle.stripe_stamps.specs.SeenStripes.{seen_in};
ghost use Rattle.stripe_stamps.specs.Stamped.{AreNumbered};
ghost use Rattle.stripe_dir.specs.Steps.{LooksTo, LookLeaves};
ghost use Rattle.stripe_dir.specs.AnswerStamps.{AreSeenIn};
ghost use Rattle.stripe_stamps.specs.SeenStripes.{IsSeenIn};
ghost use Rattle.stripe_stamps.specs.ItsStripes.{IsWhole};
ghost use Rattle.stripe_stamps.specs.Stripes.{pin_by, AreThere, AreTold};
ghost use Rattle.dir_parts.specs.Begun.{begun_in, begun_pass, deleted, seen_in_object};

use crate::directory::Directory;
use crate::directory_answers::Look;
use crate::tokens::Seat;
use call_steps::Seen;
use dir_parts::{CallNote, DirectoryReply, Event, Objects, OpenPass, add_look, make_room};
use std::alloc::{AllocError, Global};
use std::snapshot::Snapshot;
use store_map::{Actor, Name, Point};
use stripe_stamps::{Sight, see};
use version_seal::Stamp;
use version_table::Versions;

/// A pass that has begun, and what its look saw.
#[derive(Drop)]
pub(crate) struct Begun {
    pub(crate) entry: Snapshot<OpenPass>,
    pub(crate) seen: Vec<Seen>,
}

// Looks at stripes of the object with this name.
fn see_object(
    alloc: Global,
    versions: &Versions,
    stamps: &[Stamp],
    objects: &Objects,
    name: &Name,
    stripes: &[u32],
) -> Result<Sight, AllocError>
    requires stamped { length stamps.now ≡ length versions.now.listed }
    requires numbered { AreNumbered stamps.now }
    requires there { AreThere versions.now.listed (versions_under name.now objects.now.objects) stripes.now }
    ensures seen { IfOk result (λ sight. AreTold versions.now.listed (versions_under name.now objects.now.objects) stripes.now sight.seen.items) }
    ensures pinned { IfOk result (λ sight. sight.pinned.items ≡ map (pin_by (versions_under name.now objects.now.objects)) stripes.now) }
    ensures stamps { IfOk result (λ sight. All (IsSeenIn stamps.now) sight.seen.items) }
{
    match objects.find(name) {
        Some(contents) => see(alloc, versions, stamps, &contents.versions, stripes),
        None => see(alloc, versions, stamps, &[], stripes),
    }
}

// The object with this name goes, and its versions are superseded.
fn remove_object(objects: &mut Objects, versions: &mut Versions, name: &Name)
    requires { All (IsKnown versions.old.listed) (versions_under name.now objects.old.objects) }
    ensures objects { objects.new.objects ≡ remove_object name.now objects.old.objects }
    ensures room { objects.old.room ≤ objects.new.room }
    ensures listed { versions.new.listed ≡ set_standing Standing.Superseded (versions_under name.now objects.old.objects) versions.old.listed }
    ensures pins { versions.new.pins ≡ versions.old.pins }
{
    match objects.remove(name) {
        Some(contents) => versions.supersede_all(&contents.versions),
        None => {}
    }
}

impl Directory {
    // Begins a pass that pins these stripes of its object. Where memory is wanting nothing changes.
    pub(crate) fn begin(
        &mut self,
        actor: Actor,
        number: u32,
        note: CallNote,
        stripes: &[u32],
        looked_at: Option<u64>,
    ) -> Result<Begun, AllocError>
        requires stands { All (λ stripe. Stands self.old.core Standing.Current (get_or (versions_under note.name self.old.core.objects) stripe 0)) stripes.now }
        requires whole { IsWhole (begun_in actor number note stripes.now looked_at self.old.core) }
        ensures after { OnOk result (self.new.core ≡ begun_in actor number note stripes.now looked_at self.old.core) }
        ensures entry { IfOk result (λ begun. begun.entry.value.pass ≡ begun_pass actor number note (seen_in_object self.old.core note stripes.now) looked_at) }
        ensures seen { IfOk result (λ begun. map seen_in begun.seen.items ≡ seen_in_object self.old.core note stripes.now) }
        ensures told { IfOk result (λ begun. All (IsSeenIn self.old.stamps) begun.seen.items) }
        ensures err { OnErr result (self.new.core ≡ self.old.core) }
        ensures book { self.new.book ≡ self.old.book }
        ensures stamps { self.new.stamps ≡ self.old.stamps }
    {
        make_room(
            &mut self.history,
            &mut self.objects,
            &mut self.passes,
            &note.name,
        )?;
        let alloc = self.alloc;
        let Sight { seen, pinned } = see_object(
            alloc,
            &self.versions,
            self.stamps.as_slice(),
            &self.objects,
            &note.name,
            stripes,
        )?;
        if !self.versions.can_pin(&pinned) {
            return Err(AllocError);
        }
        self.versions.pin_all(&pinned);
        add_look(&mut self.history, actor, number, &note);
        let entry = self.passes.begin(OpenPass {
            actor,
            number,
            note,
            pinned,
            drawn: Vec::new(alloc),
            looked_at,
            reaped: None,
            spare: Vec::new(alloc),
        });
        Ok(Begun { entry, seen })
    }

    // Ends a call at its look with this reply. Where memory is wanting nothing changes.
    pub(crate) fn answer(
        &mut self,
        seat: Seat,
        number: u32,
        note: CallNote,
        reply: DirectoryReply,
    ) -> Result<Look, Seat>
        requires whole { IsWhole (append_point seat.actor number note (CoreEvent.Answer (reply_in reply)) self.old.core) }
        ensures step { LooksTo (answer seat.actor number note self.old.core (reply_in reply) self.old.core) self.old self.new result }
        ensures token { LookLeaves seat number note result }
        ensures book { self.new.book ≡ self.old.book }
        ensures stamps { self.new.stamps ≡ self.old.stamps }
        ensures seen { IfOk result (AreSeenIn self.old.stamps) }
    {
        if make_room(
            &mut self.history,
            &mut self.objects,
            &mut self.passes,
            &note.name,
        )
        .is_err()
        {
            return Err(seat);
        }
        let point = self
            .history
            .add(seat.actor, number, &note, Event::Answer(reply));
        let Seat {
            actor,
            unused: _,
            told: _,
        } = seat;
        Ok(Look::Answer {
            seat: Seat {
                actor,
                unused: u64::from(number) + 1,
                told: Some(point),
            },
            point: Point(point),
            reply: reply.reply(),
        })
    }

    // Ends a delete at its look: its object goes. Where memory is wanting nothing changes.
    pub(crate) fn delete(&mut self, seat: Seat, number: u32, note: CallNote) -> Result<Look, Seat>
        requires whole { IsWhole (deleted seat.actor number note self.old.core) }
        ensures step { LooksTo (deleted seat.actor number note self.old.core, Told.Answer (length self.old.core.points) CoreReply.Done) self.old self.new result }
        ensures token { LookLeaves seat number note result }
        ensures book { self.new.book ≡ self.old.book }
        ensures stamps { self.new.stamps ≡ self.old.stamps }
        ensures seen { IfOk result (AreSeenIn self.old.stamps) }
    {
        if make_room(
            &mut self.history,
            &mut self.objects,
            &mut self.passes,
            &note.name,
        )
        .is_err()
        {
            return Err(seat);
        }
        remove_object(&mut self.objects, &mut self.versions, &note.name);
        let point = self.history.add(
            seat.actor,
            number,
            &note,
            Event::Answer(DirectoryReply::Done),
        );
        let Seat {
            actor,
            unused: _,
            told: _,
        } = seat;
        Ok(Look::Answer {
            seat: Seat {
                actor,
                unused: u64::from(number) + 1,
                told: Some(point),
            },
            point: Point(point),
            reply: DirectoryReply::Done.reply(),
        })
    }
}
