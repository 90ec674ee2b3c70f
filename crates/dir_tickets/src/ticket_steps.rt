//! Steps by a ticket on the pass that it holds.
ghost use Rattle.std.specs.Prelude.{◌≡◌, ◌++◌};
ghost use Rattle.store_core.specs.Act.{DirectoryStep};
ghost use Rattle.store_core.specs.Agreement.{Agrees};
ghost use Rattle.call_steps.specs.TokenAfter.{token_after, MayMake};
ghost use Rattle.stripe_dir.specs.Answers.{told_by_draw, told_committed, told_ended, told_confirmed};
ghost use Rattle.stripe_stamps.specs.DrawnStamps.{asked};
ghost use Rattle.stripe_dir.specs.Steps.{commit_step};
ghost use Rattle.dir_tickets.specs.TicketSteps.{DrawsBy, DrewBy, CommitsBy, ConfirmsBy, EndsBy};
ghost use Rattle.stripe_dir.specs.AnswerStamps.{stamps_given};
ghost use Rattle.dir_tickets.specs.TicketView.{CanSealFor};

use crate::answers_apart::{split_committed, split_confirmed, split_drawn, split_ended};
use crate::ticket::{Ticket, put, take_pass};
use std::alloc::AllocError;
use store_map::Placement;
use stripe_dir::{Committed, Confirmed, Directory, Drawn, Ended};
use version_seal::{Book, Request};

impl Ticket {
    /// A new version for each stripe that the put or the write touches, rising. In a book without a
    /// script it wants the call's request. Where memory is wanting nothing changes.
    pub fn draw(
        &mut self,
        directory: &mut Directory,
        number: u32,
        book: &Book,
        request: Option<&Request>,
    ) -> Result<Drawn<(), ()>, AllocError>
        requires agrees { Agrees directory.old.core self.old }
        requires may { MayMake directory.old.core self.old number DirectoryStep.Draw }
        requires book { book.now ≡ directory.old.book }
        requires call { CanSealFor directory.old.book self.old (asked request) }
        ensures step { DrawsBy self.old number directory.old directory.new result }
        ensures token { self.new ≡ token_after self.old number DirectoryStep.Draw (told_by_draw result) }
        ensures agrees { Agrees directory.new.core self.new }
        ensures book { directory.new.book ≡ directory.old.book }
        ensures stamps { directory.new.stamps ≡ directory.old.stamps ++ stamps_given result }
        ensures drawn { DrewBy directory.old self.old (asked request.entry) result }
    {
        let _ = number;
        directory.keeps();
        let pass = take_pass(&mut self.held);
        let (held, answer) = split_drawn(directory.draw(pass, book, request));
        put(&mut self.held, held);
        answer
    }

    /// Commits what was drawn, with a row of placements for each version.
    pub fn commit(
        &mut self,
        directory: &mut Directory,
        number: u32,
        placed: Vec<Vec<Placement>>,
    ) -> Committed<()>
        requires agrees { Agrees directory.old.core self.old }
        requires may { MayMake directory.old.core self.old number (commit_step placed.items) }
        ensures step { CommitsBy self.old number (commit_step placed.items) directory.old directory.new result }
        ensures token { self.new ≡ token_after self.old number (commit_step placed.items) (told_committed result) }
        ensures agrees { Agrees directory.new.core self.new }
        ensures book { directory.new.book ≡ directory.old.book }
        ensures stamps { directory.new.stamps ≡ directory.old.stamps }
    {
        let _ = number;
        directory.keeps();
        let pass = take_pass(&mut self.held);
        let (held, answer) = split_committed(directory.commit(pass, placed));
        put(&mut self.held, held);
        answer
    }

    /// Gives up the pass, with its pins and what it drew.
    pub fn end(&mut self, directory: &mut Directory, number: u32) -> Ended<()>
        requires agrees { Agrees directory.old.core self.old }
        requires may { MayMake directory.old.core self.old number DirectoryStep.End }
        ensures step { EndsBy self.old number DirectoryStep.End directory.old directory.new result }
        ensures token { self.new ≡ token_after self.old number DirectoryStep.End (told_ended result) }
        ensures agrees { Agrees directory.new.core self.new }
        ensures book { directory.new.book ≡ directory.old.book }
        ensures stamps { directory.new.stamps ≡ directory.old.stamps }
    {
        let _ = number;
        directory.keeps();
        let pass = take_pass(&mut self.held);
        let (held, answer) = split_ended(directory.end(pass));
        put(&mut self.held, held);
        answer
    }

    /// Whether the pinned version of a rebuild is current still. Where it isn't, the pass ends.
    pub fn confirm(&mut self, directory: &mut Directory, number: u32) -> Confirmed<(), ()>
        requires agrees { Agrees directory.old.core self.old }
        requires may { MayMake directory.old.core self.old number DirectoryStep.Confirm }
        ensures step { ConfirmsBy self.old number directory.old directory.new result }
        ensures token { self.new ≡ token_after self.old number DirectoryStep.Confirm (told_confirmed result) }
        ensures agrees { Agrees directory.new.core self.new }
        ensures book { directory.new.book ≡ directory.old.book }
        ensures stamps { directory.new.stamps ≡ directory.old.stamps }
    {
        let _ = number;
        directory.keeps();
        let pass = take_pass(&mut self.held);
        let (held, answer) = split_confirmed(directory.confirm(pass));
        put(&mut self.held, held);
        answer
    }

    /// The chunk of a rebuild's pinned version was placed anew at a server, at this epoch.
    pub fn repaired(
        &mut self,
        directory: &mut Directory,
        number: u32,
        server: u32,
        epoch: u64,
    ) -> Ended<()>
        requires agrees { Agrees directory.old.core self.old }
        requires may { MayMake directory.old.core self.old number (DirectoryStep.Repaired server epoch) }
        ensures step { EndsBy self.old number (DirectoryStep.Repaired server epoch) directory.old directory.new result }
        ensures token { self.new ≡ token_after self.old number (DirectoryStep.Repaired server epoch) (told_ended result) }
        ensures agrees { Agrees directory.new.core self.new }
        ensures book { directory.new.book ≡ directory.old.book }
        ensures stamps { directory.new.stamps ≡ directory.old.stamps }
    {
        let _ = number;
        directory.keeps();
        let pass = take_pass(&mut self.held);
        let (held, answer) = split_ended(directory.repaired(pass, server, epoch));
        put(&mut self.held, held);
        answer
    }
}
