//! A rebuild's steps at servers: the questions of its gathering, and the install of its chunk.
ghost use Rattle.std.specs.Prelude.{◌≡◌, List, Some, if◌then◌else◌};
ghost use Rattle.store_core.specs.Gathering.{Part};
ghost use Rattle.run_laws.specs.State.{Sequel, State};
ghost use Rattle.run_laws.specs.States.{stage_state};
ghost use Rattle.gathering.specs.Aims.{ending_at};
ghost use Rattle.chunk_server.specs.Core.{core_of};
ghost use Rattle.chunk_server.specs.State.{IsSame};
ghost use Rattle.call_steps.specs.Outcomes.{repair_outcome_of};
ghost use Rattle.call_steps.specs.Steps.{need_of, LeadsToAtServer};
ghost use Rattle.call_steps.specs.Hearing.{IsToldHere};
ghost use Rattle.repairer.specs.Standing.{stage_of};

use crate::repair_call::RepairCall;
use crate::stage::RepairStage;
use call_steps::{Need, RepairOutcome, ServerAnswer};
use chunk_server::{Installed, Server};
use gathering::{Ending, Gather};

// How a call ends whose gathering has ended without its bytes.
fn outcome_of(ending: Ending, gather: Gather) -> RepairOutcome
    requires { ending_at gather.course.stage ≡ Some ending }
    ensures { (bytes : State) (parts : List Part) (after : Sequel) →
        stage_state bytes gather.course.aim parts after gather.course.stage
        ≡ State.Ending (repair_outcome_of result) }
{
    match ending {
        Ending::TooMany => RepairOutcome::Unavailable {
            stripe: gather.course().stripe(),
            missing: gather.into_missing(),
        },
        Ending::AtTarget => RepairOutcome::Here,
        Ending::TargetAway { downs } => RepairOutcome::Away { downs },
        Ending::Short => RepairOutcome::NoMemory,
    }
}

// Where a call stands whose gathering hasn't ended without its bytes.
fn stage_after(has_bytes: bool) -> RepairStage
    ensures { result ≡ (if has_bytes then RepairStage.Confirming else RepairStage.Gathering) }
{
    if has_bytes {
        RepairStage::Confirming
    } else {
        RepairStage::Gathering
    }
}

impl<'a> RepairCall<'a> {
    // The next question of the gathering.
    pub(crate) fn ask(&mut self, s: &mut Server) -> ServerAnswer
        requires stage { stage_of self.old.state.at ≡ RepairStage.Gathering }
        requires need { need_of self.old ≡ Need.Server s.old.number }
        requires book { s.old.book ≡ self.old.book }
        ensures step { LeadsToAtServer self.old (core_of s.old) self.new (core_of s.new) }
        ensures told { IsToldHere result self.old (core_of s.old) self.new }
        ensures same { IsSame s.old s.new }
    {
        let (Some(mut gather), Some(mut takes)) = (self.gather.take(), self.takes.take()) else {
            unreachable!()
        };
        let answer = gather.on_server(s, &mut takes);
        self.step = answer.is_err();
        self.takes = Some(takes);
        self.coding = false;
        let ready = gather.course().has_bytes();
        self.due = ready;
        match gather.course().ending() {
            Some(ending) => {
                self.outcome = outcome_of(ending, gather);
                self.stage = RepairStage::Ending;
                ServerAnswer::or_short(answer)
            }
            None => {
                self.gather = Some(gather);
                self.stage = stage_after(ready);
                ServerAnswer::or_short(answer)
            }
        }
    }

    // The chunk goes to its server.
    pub(crate) fn install(&mut self, s: &mut Server) -> ServerAnswer
        requires stage { stage_of self.old.state.at ≡ RepairStage.Installing }
        requires need { need_of self.old ≡ Need.Server s.old.number }
        requires book { s.old.book ≡ self.old.book }
        ensures step { LeadsToAtServer self.old (core_of s.old) self.new (core_of s.new) }
        ensures told { IsToldHere result self.old (core_of s.old) self.new }
        ensures same { IsSame s.old s.new }
    {
        let Some(chunk) = self.chunk.take() else {
            unreachable!()
        };
        self.coding = false;
        self.step = false;
        match s.install(chunk) {
            Ok(Installed::Placed { epoch }) => {
                self.epoch = epoch;
                self.stage = RepairStage::Placing;
                ServerAnswer::Placed { epoch }
            }
            Ok(Installed::AlreadyThere) => {
                self.outcome = RepairOutcome::Here;
                self.stage = RepairStage::Ending;
                ServerAnswer::AlreadyThere
            }
            Ok(Installed::Away { downs }) => {
                self.outcome = RepairOutcome::Away { downs };
                self.stage = RepairStage::Ending;
                ServerAnswer::Away { downs }
            }
            Err(_) => {
                self.step = true;
                self.outcome = RepairOutcome::NoMemory;
                self.stage = RepairStage::Ending;
                ServerAnswer::Short
            }
        }
    }
}
