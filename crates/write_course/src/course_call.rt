//! What a call needs that stands in a writing, and how it ends there.
ghost use Rattle.std.specs.Prelude.{◌≡◌, ℕ, List, true};
ghost use Rattle.clay_grid.specs.Shape.{chunk_count};
ghost use Rattle.store_core.specs.NextAct.{Job};
ghost use Rattle.run_laws.specs.State.{State};
ghost use Rattle.run_laws.specs.StateActs.{act_at};
ghost use Rattle.call_steps.specs.Ends.{finished_of, IsStanding, IsOver};
ghost use Rattle.call_steps.specs.Outcomes.{outcome_of};
ghost use Rattle.call_steps.specs.Steps.{need_by, IsServerBelow};
ghost use Rattle.call_steps.specs.Acts.{act_by};
ghost use Rattle.write_course.specs.Writings.{begins_version};
ghost use Rattle.write_course.specs.Holding.{HasWholeRows};

use crate::writing::Writing;
use crate::writing_stage::WritingStage;
use call_steps::{Act, DirectoryAct, Need, Outcome};
use store_map::Reply;

impl Writing {
    /// What each one keeps. It does nothing when it runs.
    #[tactic(auto, using(crate::proofs::Kept::whole_rows))]
    pub fn keeps(&self)
        ensures whole { HasWholeRows self.now }
    {
        let _ = &self.doing;
    }

    /// Where its call has to go on.
    pub fn need(&self) -> Need
        requires { IsStanding self.now.state }
        ensures need { (tries : ℕ) (job : Job) (pairs : List (ℕ × ℕ)) → result
            ≡ need_by (act_at self.now.book.geometry tries job pairs self.now.state) self.now.due }
        ensures begins { self.now.due ≡ true → begins_version self.now.state ≡ true }
        ensures below { IsServerBelow (chunk_count self.now.book.geometry) result }
    {
        if self.due() {
            return Need::Coder;
        }
        match self.asked() {
            Some(server) => Need::Server(server),
            None => match self.doing() {
                WritingStage::Done => Need::Finished,
                _ => Need::Directory,
            },
        }
    }

    /// What its call does next.
    #[tactic(auto, using(crate::proofs::Acting::asking_acts, crate::proofs::Acting::done_acts, crate::proofs::Acting::commit_acts, crate::proofs::Acting::end_acts))]
    pub fn act(&self) -> Act
        requires { IsStanding self.now.state }
        ensures { (tries : ℕ) (job : Job) (pairs : List (ℕ × ℕ)) → result
            ≡ act_by (act_at self.now.book.geometry tries job pairs self.now.state) self.now.due }
    {
        if self.due() {
            return Act::Coding;
        }
        match self.question() {
            Some((server, step)) => Act::Server(server, step),
            None => match self.doing() {
                WritingStage::Done => Act::Finished,
                WritingStage::Committing => Act::Directory(DirectoryAct::Commit),
                _ => Act::Directory(DirectoryAct::End),
            },
        }
    }

    /// How its call has ended.
    pub fn into_outcome(self) -> Outcome
        requires { IsOver self.state }
        ensures { finished_of self.state ≡ State.Finished (outcome_of result) }
    {
        if let Some(point) = self.committed_at() {
            return Outcome::Answered {
                point,
                reply: Reply::Done,
            };
        }
        match self.doing() {
            WritingStage::TooManyAway => {
                let (stripe, missing) = self.into_away();
                Outcome::Unavailable { stripe, missing }
            }
            _ => Outcome::NoMemory,
        }
    }
}
