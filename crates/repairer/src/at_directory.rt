//! A rebuild's steps at the directory.
ghost use Rattle.std.specs.Prelude.{◌≡◌, Some};
ghost use Rattle.store_core.specs.Agreement.{Agrees};
ghost use Rattle.run_laws.specs.State.{State};
ghost use Rattle.run_laws.specs.GatherAfter.{ending_after};
ghost use Rattle.stripe_dir.specs.Answers.{told_ended};
ghost use Rattle.call_steps.specs.Outcomes.{repair_outcome_of};
ghost use Rattle.call_steps.specs.Answers.{directory_answer};
ghost use Rattle.call_steps.specs.Hearing.{IsToldThere};
ghost use Rattle.call_steps.specs.Steps.{need_of, LeadsTo};
ghost use Rattle.repairer.specs.Standing.{stage_of};

use crate::repair_call::RepairCall;
use crate::stage::RepairStage;
use call_steps::{DirectoryAnswer, Need, RepairOutcome};
use std::mem;
use std::snapshot::Snapshot;
use stripe_dir::{Confirmed, Directory, Ended, RepairLook};

// How a call ends whose pass was to be ended with this outcome.
fn ended_with(answer: Ended<()>, outcome: RepairOutcome) -> RepairOutcome
    ensures { State.Finished (repair_outcome_of result)
        ≡ ending_after (repair_outcome_of outcome) (told_ended answer) }
{
    match answer {
        Ended::Ended { .. } => outcome,
        Ended::Reaped { at, .. } => RepairOutcome::Reaped { at },
    }
}

// What the end of a pass is answered.
fn told_of(answer: &Ended<()>) -> DirectoryAnswer
    ensures { directory_answer (told_ended answer.now) ≡ Some result }
{
    match answer {
        Ended::Ended { .. } => DirectoryAnswer::Ended,
        Ended::Reaped { at, .. } => DirectoryAnswer::Reaped { at: *at },
    }
}

impl<'a> RepairCall<'a> {
    // Pins the stripe, if it is there.
    pub(crate) fn look(&mut self, d: &mut Directory) -> DirectoryAnswer
        requires stage { stage_of self.old.state.at ≡ RepairStage.Start }
        requires need { need_of self.old ≡ Need.Directory }
        requires agrees { Agrees d.old.core self.old.token }
        requires book { d.old.book ≡ self.old.book }
        ensures step { LeadsTo self.old d.old.core self.new d.new.core }
        ensures told { IsToldThere result self.old d.old.core self.new }
        ensures agrees { Agrees d.new.core self.new.token }
        ensures book { d.new.book ≡ d.old.book }
        ensures stamps { d.new.stamps ≡ d.old.stamps }
    {
        // That the directory is of the book's code is needed below.
        d.keeps();
        let rebuild = self.rebuild;
        let look = self
            .ticket
            .look_repair(d, self.number, &rebuild.name, rebuild.stripe);
        self.coding = false;
        self.step = false;
        match look {
            Ok(RepairLook::Pinned { seen, .. }) => {
                self.seen = Some(seen);
                self.looked = Snapshot::of(&self.seen);
                self.due = true;
                self.stage = RepairStage::Gathering;
                DirectoryAnswer::PinnedStripe
            }
            Ok(RepairLook::NoSuch { .. }) => {
                self.outcome = RepairOutcome::NoSuch;
                self.stage = RepairStage::Finished;
                DirectoryAnswer::NoSuch
            }
            Err(_) => {
                self.step = true;
                self.outcome = RepairOutcome::NoMemory;
                self.stage = RepairStage::Finished;
                DirectoryAnswer::Short
            }
        }
    }

    // Asks whether the version is current still.
    pub(crate) fn confirm(&mut self, d: &mut Directory) -> DirectoryAnswer
        requires stage { stage_of self.old.state.at ≡ RepairStage.Confirming }
        requires need { need_of self.old ≡ Need.Directory }
        requires agrees { Agrees d.old.core self.old.token }
        requires book { d.old.book ≡ self.old.book }
        ensures step { LeadsTo self.old d.old.core self.new d.new.core }
        ensures told { IsToldThere result self.old d.old.core self.new }
        ensures agrees { Agrees d.new.core self.new.token }
        ensures book { d.new.book ≡ d.old.book }
        ensures stamps { d.new.stamps ≡ d.old.stamps }
    {
        let answer = self.ticket.confirm(d, self.number);
        self.coding = false;
        self.step = false;
        match answer {
            Confirmed::Current { .. } => {
                self.stage = RepairStage::Installing;
                DirectoryAnswer::Current
            }
            Confirmed::Superseded { newer, .. } => {
                self.outcome = RepairOutcome::Superseded { newer };
                self.stage = RepairStage::Finished;
                DirectoryAnswer::Superseded { newer }
            }
            Confirmed::Reaped { at, .. } => {
                self.outcome = RepairOutcome::Reaped { at };
                self.stage = RepairStage::Finished;
                DirectoryAnswer::Reaped { at }
            }
        }
    }

    // Tells at which epoch the chunk was placed, which ends the pass.
    pub(crate) fn tell_placed(&mut self, d: &mut Directory) -> DirectoryAnswer
        requires stage { stage_of self.old.state.at ≡ RepairStage.Placing }
        requires agrees { Agrees d.old.core self.old.token }
        requires book { d.old.book ≡ self.old.book }
        ensures step { LeadsTo self.old d.old.core self.new d.new.core }
        ensures told { IsToldThere result self.old d.old.core self.new }
        ensures agrees { Agrees d.new.core self.new.token }
        ensures book { d.new.book ≡ d.old.book }
        ensures stamps { d.new.stamps ≡ d.old.stamps }
    {
        // That the directory is of the book's code is needed below.
        d.keeps();
        let server = self.rebuild.server;
        let answer = self.ticket.repaired(d, self.number, server, self.epoch);
        self.coding = false;
        self.step = false;
        let told = told_of(&answer);
        self.outcome = ended_with(answer, RepairOutcome::Rebuilt);
        self.stage = RepairStage::Finished;
        told
    }

    // Ends the pass of a call whose outcome is known.
    pub(crate) fn end(&mut self, d: &mut Directory) -> DirectoryAnswer
        requires stage { stage_of self.old.state.at ≡ RepairStage.Ending }
        requires agrees { Agrees d.old.core self.old.token }
        ensures step { LeadsTo self.old d.old.core self.new d.new.core }
        ensures told { IsToldThere result self.old d.old.core self.new }
        ensures agrees { Agrees d.new.core self.new.token }
        ensures book { d.new.book ≡ d.old.book }
        ensures stamps { d.new.stamps ≡ d.old.stamps }
    {
        let answer = self.ticket.end(d, self.number);
        self.coding = false;
        self.step = false;
        let told = told_of(&answer);
        let outcome = mem::replace(&mut self.outcome, RepairOutcome::NoMemory);
        self.outcome = ended_with(answer, outcome);
        self.stage = RepairStage::Finished;
        told
    }
}
