//! Looks by a ticket, of a client's call and of a rebuild.
ghost use Rattle.std.specs.Prelude.{◌≡◌};
ghost use Rattle.store_core.specs.Agreement.{Agrees};
ghost use Rattle.call_steps.specs.TokenAfter.{token_after, MayMake};
ghost use Rattle.stripe_dir.specs.Answers.{told_by_look, told_by_repair_look};
ghost use Rattle.dir_tickets.specs.TicketSteps.{look_step, repair_step, LooksBy, LooksRepairBy};
ghost use Rattle.stripe_dir.specs.Shown.{stripes_seen, stripe_seen, AreShown};

use crate::answers_apart::{split_look, split_repair_look};
use crate::ticket::{Ticket, put, take_seat};
use std::alloc::AllocError;
use store_map::{Call, Name};
use stripe_dir::{Directory, Look, RepairLook};

impl Ticket {
    /// Begins a client's call under an unused number. Where memory is wanting nothing changes.
    pub fn look(
        &mut self,
        directory: &mut Directory,
        number: u32,
        call: &Call,
    ) -> Result<Look<(), ()>, AllocError>
        requires agrees { Agrees directory.old.core self.old }
        requires may { MayMake directory.old.core self.old number (look_step call.now) }
        ensures step { LooksBy self.old number call.now directory.old directory.new result }
        ensures token { self.new ≡ token_after self.old number (look_step call.now) (told_by_look result) }
        ensures agrees { Agrees directory.new.core self.new }
        ensures book { directory.new.book ≡ directory.old.book }
        ensures stamps { directory.new.stamps ≡ directory.old.stamps }
        ensures seen { AreShown directory.old stripes_seen result }
    {
        directory.keeps();
        let seat = take_seat(&mut self.held);
        let (held, answer) = split_look(directory.look(seat, number, call));
        put(&mut self.held, held);
        answer
    }

    /// Begins a rebuild of a chunk of this stripe under an unused number: the stripe, if it is there.
    /// Where memory is wanting nothing changes.
    pub fn look_repair(
        &mut self,
        directory: &mut Directory,
        number: u32,
        name: &Name,
        stripe: u32,
    ) -> Result<RepairLook<(), ()>, AllocError>
        requires agrees { Agrees directory.old.core self.old }
        requires may { MayMake directory.old.core self.old number (repair_step name.now stripe) }
        ensures step { LooksRepairBy self.old number (repair_step name.now stripe) directory.old directory.new result }
        ensures token { self.new ≡ token_after self.old number (repair_step name.now stripe) (told_by_repair_look result) }
        ensures agrees { Agrees directory.new.core self.new }
        ensures book { directory.new.book ≡ directory.old.book }
        ensures stamps { directory.new.stamps ≡ directory.old.stamps }
        ensures seen { AreShown directory.old stripe_seen result }
    {
        directory.keeps();
        let seat = take_seat(&mut self.held);
        let (held, answer) = split_repair_look(directory.look_repair(seat, number, name, stripe));
        put(&mut self.held, held);
        answer
    }
}
