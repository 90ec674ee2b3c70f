//! The look of a rebuild: it pins the stripe, if that is there.
ghost use Rattle.std.specs.Prelude.{◌≡◌, IfOk};
ghost use Rattle.store_core.specs.Act.{DirectoryStep};
ghost use Rattle.store_core.specs.Agreement.{AgreesWithSeat};
ghost use Rattle.store_core.specs.Tokens.{MayLook};
ghost use Rattle.dir_parts.specs.Parts.{versions_under};
ghost use Rattle.std.specs.Prelude.{length};
ghost use Rattle.stripe_dir.specs.Shown.{repair_note};
ghost use Rattle.stripe_dir.specs.Steps.{IsRepairLook, RepairLookLeaves};
ghost use Rattle.stripe_dir.specs.AnswerStamps.{IsSeenByRepair};

use crate::directory::Directory;
use crate::directory_answers::RepairLook;
use crate::looking::Begun;
use crate::tokens::{Pass, Seat};
use dir_parts::{CallKind, CallNote, Objects};
use store_map::Name;

// How many stripes the object with this name has, none where there is no object.
fn stripes_of(objects: &Objects, name: &Name) -> usize
    ensures { result ≡ length (versions_under name.now objects.now.objects) }
{
    match objects.find(name) {
        Some(contents) => contents.versions.len(),
        None => 0,
    }
}

impl Directory {
    /// Begins a rebuild of a chunk of this stripe under an unused number. It appends no point, and takes
    /// its memory as a client's look does.
    pub fn look_repair(
        &mut self,
        seat: Seat,
        number: u32,
        name: &Name,
        stripe: u32,
    ) -> Result<RepairLook, Seat>
        requires agrees { AgreesWithSeat self.old.core seat }
        requires may { MayLook seat number (DirectoryStep.LookRepair (repair_note name.now stripe)) }
        ensures step { IsRepairLook seat number (repair_note name.now stripe) self.old self.new result }
        ensures token { RepairLookLeaves seat number (repair_note name.now stripe) result }
        ensures book { self.new.book ≡ self.old.book }
        ensures stamps { self.new.stamps ≡ self.old.stamps }
        ensures seen { IfOk result (IsSeenByRepair self.old.stamps) }
    {
        if stripe as usize >= stripes_of(&self.objects, name) {
            return Ok(RepairLook::NoSuch { seat });
        }
        let Ok(copy) = name.copy() else {
            return Err(seat);
        };
        let note = CallNote {
            kind: CallKind::Rebuild,
            name: copy,
            offset: stripe,
            length: 0,
        };
        let Ok(begun) = self.begin(seat.actor, number, note, &[stripe], None) else {
            return Err(seat);
        };
        let Begun { entry, seen } = begun;
        let mut seen = seen;
        let Seat {
            actor,
            unused: _,
            told,
        } = seat;
        let pass = Pass { actor, told, entry };
        match seen.pop() {
            Some(seen) => Ok(RepairLook::Pinned { pass, seen }),
            None => unreachable!(),
        }
    }
}
