//! The steps at the directory of a call that reads.
ghost use Rattle.std.specs.Prelude.{◌≡◌, true};
ghost use Rattle.store_core.specs.Agreement.{Agrees};
ghost use Rattle.run_laws.specs.State.{State};
ghost use Rattle.call_steps.specs.Steps.{LeadsTo, need_of};
ghost use Rattle.call_steps.specs.Hearing.{IsToldThere};
ghost use Rattle.call_steps.specs.Ends.{is_ending};
ghost use Rattle.client_read.specs.Owed.{owed_after};

use crate::read_call::ReadCall;
use crate::read_stage::{Looked, ReadStage, after_end, after_look};
use call_steps::{DirectoryAnswer, Need, Outcome};
use stripe_dir::{Directory, Ended};

impl<'a> ReadCall<'a> {
    /// One step at the directory, and its answer.
    pub fn on_directory(&mut self, directory: &mut Directory) -> DirectoryAnswer
        requires need { need_of self.old.call ≡ Need.Directory }
        requires agrees { Agrees directory.old.core self.old.call.token }
        requires book { directory.old.book ≡ self.old.call.book }
        ensures step { LeadsTo self.old.call directory.old.core self.new.call directory.new.core }
        ensures told { IsToldThere result self.old.call directory.old.core self.new.call }
        ensures agrees { Agrees directory.new.core self.new.call.token }
        ensures owed { self.new.owed
            ≡ owed_after self.new.call.step self.old.call directory.old self.old.owed }
        ensures book { directory.new.book ≡ directory.old.book }
        ensures stamps { directory.new.stamps ≡ directory.old.stamps }
    {
        match self.stage {
            ReadStage::Looking => self.look(directory),
            _ => self.end(directory),
        }
    }

    fn look(&mut self, directory: &mut Directory) -> DirectoryAnswer
        requires first { self.old.call.state.at ≡ State.Start }
        requires agrees { Agrees directory.old.core self.old.call.token }
        requires book { directory.old.book ≡ self.old.call.book }
        ensures step { LeadsTo self.old.call directory.old.core self.new.call directory.new.core }
        ensures told { IsToldThere result self.old.call directory.old.core self.new.call }
        ensures agrees { Agrees directory.new.core self.new.call.token }
        ensures owed { self.new.owed
            ≡ owed_after self.new.call.step self.old.call directory.old self.old.owed }
        ensures book { directory.new.book ≡ directory.old.book }
        ensures stamps { directory.new.stamps ≡ directory.old.stamps }
    {
        directory.keeps();
        let answer = self.ticket.look(directory, self.number, self.call);
        self.coding = false;
        self.step = answer.is_err();
        let looked = after_look(answer, self.call, &mut self.gatherings);
        let Looked {
            stage,
            point,
            outcome,
            told,
        } = looked;
        self.stage = stage;
        self.point = point;
        self.outcome = outcome;
        told
    }

    // The pass ends.
    fn end(&mut self, directory: &mut Directory) -> DirectoryAnswer
        requires need { need_of self.old.call ≡ Need.Directory }
        requires ending { is_ending self.old.call.state.at ≡ true }
        requires agrees { Agrees directory.old.core self.old.call.token }
        ensures step { LeadsTo self.old.call directory.old.core self.new.call directory.new.core }
        ensures told { IsToldThere result self.old.call directory.old.core self.new.call }
        ensures agrees { Agrees directory.new.core self.new.call.token }
        ensures owed { self.new.owed ≡ self.old.owed }
        ensures book { directory.new.book ≡ directory.old.book }
        ensures stamps { directory.new.stamps ≡ directory.old.stamps }
    {
        let answer = self.ticket.end(directory, self.number);
        self.coding = false;
        self.step = false;
        match answer {
            Ended::Ended { .. } => {
                self.stage = after_end(self.stage);
                DirectoryAnswer::Ended
            }
            Ended::Reaped { at, .. } => {
                self.outcome = Outcome::Reaped { at };
                self.stage = ReadStage::Finished;
                DirectoryAnswer::Reaped { at }
            }
        }
    }
}
