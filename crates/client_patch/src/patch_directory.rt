//! The steps of a call at the directory.
ghost use Rattle.std.specs.Prelude.{◌≡◌, true};
ghost use Rattle.store_core.specs.Agreement.{Agrees};
ghost use Rattle.run_laws.specs.State.{State};
ghost use Rattle.call_steps.specs.Steps.{LeadsTo, need_of};
ghost use Rattle.call_steps.specs.Hearing.{IsToldThere};
ghost use Rattle.call_steps.specs.TokenAfter.{IsSeated};
ghost use Rattle.write_course.specs.Draws.{stamps_after};
ghost use Rattle.write_course.specs.Writings.{is_committing};
ghost use Rattle.client_patch.specs.Known.{KnowsOld};
ghost use Rattle.client_patch.specs.Padded.{ArePadded};
ghost use Rattle.client_patch.specs.Patches.{is_write};
ghost use Rattle.call_steps.specs.Ends.{is_ending};

use crate::bytes::bytes_of;
use crate::patch::PatchCall;
use crate::patch_stage::{Looked, PatchStage, after_end, after_look};
use call_steps::{Change, DirectoryAnswer, Need, Outcome};
use gather_parts::Progress;
use stripe_dir::{Committed, Directory, Drawn, Ended};
use version_seal::Book;
use write_course::{Writing, WritingStage};

impl<'a> PatchCall<'a> {
    /// One step at the directory of this book, and its answer. What it draws is sealed in the book. Behind the ends of
    /// the directory's objects its stamps have zeros: no bytes are gathered of these.
    pub fn on_directory(&mut self, directory: &mut Directory, book: &Book) -> DirectoryAnswer
        requires need { need_of self.old.call ≡ Need.Directory }
        requires agrees { Agrees directory.old.core self.old.call.token }
        requires its { directory.old.book ≡ self.old.call.book }
        requires book { book.now ≡ self.old.call.book }
        requires padded { ArePadded directory.old }
        requires knows { KnowsOld directory.old self.old }
        ensures step { LeadsTo self.old.call directory.old.core self.new.call directory.new.core }
        ensures told { IsToldThere result self.old.call directory.old.core self.new.call }
        ensures agrees { Agrees directory.new.core self.new.call.token }
        ensures knows { KnowsOld directory.new self.new }
        ensures written { self.new.written ≡ self.old.written }
        ensures book { directory.new.book ≡ directory.old.book }
        ensures stamps { directory.new.stamps
            ≡ stamps_after self.new.call.step directory.old self.old.call self.old.written }
    {
        self.advance(directory, book)
    }

    /// The same, of a put too: only of a write's stamps something is asked.
    pub fn advance(&mut self, directory: &mut Directory, book: &Book) -> DirectoryAnswer
        requires need { need_of self.old.call ≡ Need.Directory }
        requires agrees { Agrees directory.old.core self.old.call.token }
        requires its { directory.old.book ≡ self.old.call.book }
        requires book { book.now ≡ self.old.call.book }
        requires padded { is_write self.old.written ≡ true → ArePadded directory.old }
        requires knows { is_write self.old.written ≡ true → KnowsOld directory.old self.old }
        ensures step { LeadsTo self.old.call directory.old.core self.new.call directory.new.core }
        ensures told { IsToldThere result self.old.call directory.old.core self.new.call }
        ensures agrees { Agrees directory.new.core self.new.call.token }
        ensures knows { KnowsOld directory.new self.new }
        ensures written { self.new.written ≡ self.old.written }
        ensures book { directory.new.book ≡ directory.old.book }
        ensures stamps { directory.new.stamps
            ≡ stamps_after self.new.call.step directory.old self.old.call self.old.written }
    {
        match self.stage {
            PatchStage::Looking => self.look(directory),
            PatchStage::Gathering if matches!(self.gatherings.progress(), Progress::Done) => {
                self.draw(directory, book)
            }
            PatchStage::Writing if matches!(self.writing.doing(), WritingStage::Committing) => {
                self.commit(directory)
            }
            _ => self.end(directory),
        }
    }

    fn look(&mut self, directory: &mut Directory) -> DirectoryAnswer
        requires need { need_of self.old.call ≡ Need.Directory }
        requires first { self.old.call.state.at ≡ State.Start }
        requires seated { IsSeated self.old.call.token }
        requires agrees { Agrees directory.old.core self.old.call.token }
        requires its { directory.old.book ≡ self.old.call.book }
        requires padded { is_write self.old.written ≡ true → ArePadded directory.old }
        ensures step { LeadsTo self.old.call directory.old.core self.new.call directory.new.core }
        ensures told { IsToldThere result self.old.call directory.old.core self.new.call }
        ensures agrees { Agrees directory.new.core self.new.call.token }
        ensures knows { KnowsOld directory.new self.new }
        ensures written { self.new.written ≡ self.old.written }
        ensures book { directory.new.book ≡ directory.old.book }
        ensures stamps { directory.new.stamps ≡ directory.old.stamps }
    {
        directory.keeps();
        // That a stripe has bytes is needed below.
        let _long = self.opening.geometry().stripe_len();
        let answer = self.ticket.look(directory, self.number, self.call);
        self.coding = false;
        self.step = answer.is_err();
        let Looked {
            stage,
            size,
            outcome,
            told,
        } = after_look(answer, self.call, &mut self.gatherings);
        self.stage = stage;
        self.size = size;
        self.outcome = outcome;
        told
    }

    fn draw(&mut self, directory: &mut Directory, book: &Book) -> DirectoryAnswer
        requires drawing { self.old.call.state.at ≡ State.Drawing }
        requires need { need_of self.old.call ≡ Need.Directory }
        requires agrees { Agrees directory.old.core self.old.call.token }
        requires its { directory.old.book ≡ self.old.call.book }
        requires book { book.now ≡ self.old.call.book }
        requires knows { is_write self.old.written ≡ true → KnowsOld directory.old self.old }
        ensures step { LeadsTo self.old.call directory.old.core self.new.call directory.new.core }
        ensures told { IsToldThere result self.old.call directory.old.core self.new.call }
        ensures agrees { Agrees directory.new.core self.new.call.token }
        ensures knows { KnowsOld directory.new self.new }
        ensures written { self.new.written ≡ self.old.written }
        ensures book { directory.new.book ≡ directory.old.book }
        ensures stamps { directory.new.stamps
            ≡ stamps_after self.new.call.step directory.old self.old.call self.old.written }
    {
        directory.keeps();
        let request = book.request(self.actor, self.number, self.call);
        let answer = self
            .ticket
            .draw(directory, self.number, book, Some(&request));
        self.coding = false;
        self.step = answer.is_err();
        match answer {
            Ok(Drawn::Versions { stamps, .. }) => {
                let (offset, content) = bytes_of(self.call);
                // That the length fits is needed below.
                let _length = content.length();
                let first = offset / self.opening.geometry().stripe_len();
                self.writing = Writing::new(self.alloc, self.opening.copy(), first, stamps);
                self.stage = PatchStage::Writing;
                DirectoryAnswer::Versions
            }
            Ok(Drawn::Reaped { at, .. }) => {
                self.outcome = Outcome::Reaped { at };
                self.stage = PatchStage::Finished;
                DirectoryAnswer::Reaped { at }
            }
            Err(_) => {
                self.outcome = Outcome::NoMemory;
                self.stage = PatchStage::Ending;
                DirectoryAnswer::Short
            }
        }
    }

    fn commit(&mut self, directory: &mut Directory) -> DirectoryAnswer
        requires committing { is_committing self.old.call.state.at ≡ true }
        requires agrees { Agrees directory.old.core self.old.call.token }
        requires its { directory.old.book ≡ self.old.call.book }
        ensures step { LeadsTo self.old.call directory.old.core self.new.call directory.new.core }
        ensures told { IsToldThere result self.old.call directory.old.core self.new.call }
        ensures agrees { Agrees directory.new.core self.new.call.token }
        ensures knows { KnowsOld directory.new self.new }
        ensures written { self.new.written ≡ self.old.written }
        ensures book { directory.new.book ≡ directory.old.book }
        ensures stamps { directory.new.stamps ≡ directory.old.stamps }
    {
        directory.keeps();
        let rows = self.writing.rows();
        let answer = self.ticket.commit(directory, self.number, rows);
        self.coding = false;
        self.step = false;
        match answer {
            Committed::Done { point, .. } => {
                self.changes.clear();
                self.writing.committed(point);
                DirectoryAnswer::Done { point }
            }
            Committed::Changed {
                looked_at,
                newer,
                ..
            } => {
                self.changes.push_reserved(Change { looked_at, newer });
                self.stage = PatchStage::Looking;
                DirectoryAnswer::Changed { looked_at, newer }
            }
            Committed::Reaped { at, .. } => {
                self.outcome = Outcome::Reaped { at };
                self.stage = PatchStage::Finished;
                DirectoryAnswer::Reaped { at }
            }
        }
    }

    // The pass ends.
    fn end(&mut self, directory: &mut Directory) -> DirectoryAnswer
        requires need { need_of self.old.call ≡ Need.Directory }
        requires ending { is_ending self.old.call.state.at ≡ true }
        requires agrees { Agrees directory.old.core self.old.call.token }
        ensures step { LeadsTo self.old.call directory.old.core self.new.call directory.new.core }
        ensures told { IsToldThere result self.old.call directory.old.core self.new.call }
        ensures agrees { Agrees directory.new.core self.new.call.token }
        ensures knows { KnowsOld directory.new self.new }
        ensures written { self.new.written ≡ self.old.written }
        ensures book { directory.new.book ≡ directory.old.book }
        ensures stamps { directory.new.stamps
            ≡ stamps_after self.new.call.step directory.old self.old.call self.old.written }
    {
        let answer = self.ticket.end(directory, self.number);
        self.coding = false;
        self.step = false;
        match answer {
            Ended::Ended { .. } => {
                self.stage = after_end(self.stage);
                DirectoryAnswer::Ended
            }
            Ended::Reaped { at, .. } => {
                self.outcome = Outcome::Reaped { at };
                self.stage = PatchStage::Finished;
                DirectoryAnswer::Reaped { at }
            }
        }
    }
}
