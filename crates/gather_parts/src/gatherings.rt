//! The gatherings of a call, and their steps at servers.
ghost use Rattle.std.specs.Prelude.{◌≡◌, ◌<◌, ℕ, Bool, IsTrue, All, is_err, map};
ghost use Rattle.clay_grid.specs.Shape.{chunk_count};
ghost use Rattle.store_core.specs.Act.{Outcome};
ghost use Rattle.store_core.specs.ActPlace.{is_in_pass};
ghost use Rattle.store_core.specs.Read.{part_of};
ghost use Rattle.run_laws.specs.State.{State, Sequel};
ghost use Rattle.run_laws.specs.States.{parts_state, open_state};
ghost use Rattle.stripe_stamps.specs.SeenStripes.{seen_in};
ghost use Rattle.chunk_server.specs.Core.{core_of};
ghost use Rattle.chunk_server.specs.State.{IsSame};
ghost use Rattle.call_steps.specs.Steps.{IsServerBelow};
ghost use Rattle.gather_parts.specs.Wanted.{wanted_of, IsPinned};
ghost use Rattle.gather_parts.specs.Gatherings.{new_gatherings, begun, owed};
ghost use Rattle.gather_parts.specs.Steps.{stepped};
ghost use Rattle.gather_parts.specs.Progress.{progress_at, progress_of, is_due, need_at, IfAsks};
ghost use Rattle.call_steps.specs.CallOf.{CallOf, act_of};
ghost use Rattle.call_steps.specs.Steps.{need_of, stepped_at_server};
ghost use Rattle.call_steps.specs.Acts.{act_now};
ghost use Rattle.call_steps.specs.Answers.{told_by_server};
ghost use Rattle.call_steps.specs.Hearing.{told_here};
ghost use Rattle.gather_parts.specs.Doing.{act_after, act_at_stage, act_in};
ghost use Rattle.gather_parts.specs.States.{state_in, StandsIn, moved};

use crate::progress::Progress;
use call_steps::{Act, DirectoryAct, Need, ServerAnswer};
use chunk_server::Server;
use gathering::{Course, Gather};
use read_ledger::Takes;
use std::alloc::{AllocError, Global};
use std::marker::Model;
use std::vec::IntoIter;
use stripe_dir::Seen;
use version_seal::Opening;

/// The gatherings of a call's parts. Memory is taken in a coding alone, which stands before each
/// stripe's first question.
#[derive(Drop)]
pub struct PartGatherings {
    pub(crate) opening: Opening,
    pub(crate) takes: Option<Takes>,
    pub(crate) current: Option<Gather>,
    // the stripes after it, and the wanted bytes of the object
    pub(crate) left: IntoIter<Seen>,
    pub(crate) start: u64,
    pub(crate) end: u64,
    // those of the stripes before it
    pub(crate) bytes: Vec<u8>,
}

impl Model for PartGatherings {
    ghost use Rattle.gather_parts.specs.Gatherings.{GatheringsOf};

    ghost Value = { GatheringsOf };

    ghost use Rattle.gather_parts.specs.Inside.{gatherings_in, IsKept};

    ghost view = { gatherings_in };

    ghost invariant = { IsKept };
}

// By the course of the gathering at work.
fn progress_by(course: &Course) -> Progress
    ensures progress { result ≡ progress_at course.now.geometry course.now.aim course.now.stage }
    ensures below { IfAsks result (λ server. server < chunk_count course.now.geometry) }
{
    match course.asked() {
        Some(server) => Progress::Asks(server),
        None if course.has_bytes() => Progress::Due,
        None if course.is_lost() => Progress::TooMany,
        None => Progress::Short,
    }
}

// What a call does next whose gathering is at work.
#[tactic(auto, using(crate::proofs::Asking::asks_server, crate::proofs::Asking::asks_coder, crate::proofs::Asking::asks_nobody))]
fn act_at(gather: &Gather) -> Act
    ensures { result ≡ act_at_stage gather.now.course.geometry gather.now.course.aim gather.now.course.stage }
{
    match gather.question() {
        Some((server, step)) => Act::Server(server, step),
        None if gather.course().has_bytes() => Act::Coding,
        None => Act::Directory(DirectoryAct::End),
    }
}

impl PartGatherings {
    /// Of a call that has pinned no stripes yet. It takes no memory.
    pub fn new(alloc: Global, opening: Opening) -> PartGatherings
        ensures { result ≡ new_gatherings opening }
    {
        PartGatherings {
            opening,
            takes: None,
            current: None,
            left: Vec::new(alloc).into_iter(),
            start: 0,
            end: 0,
            bytes: Vec::new(alloc),
        }
    }

    /// Of the object's bytes from `start` up to `end` those in these stripes are to be gathered. What
    /// was gathered before goes, but what the call took stays counted. It takes no memory.
    pub fn begin(&mut self, stripes: Vec<Seen>, start: u64, end: u64)
        requires { All (IsPinned self.old.book) stripes.items }
        ensures begun { self.new ≡ begun self.old (map (wanted_of self.old.book.geometry start end) stripes.items) }
        ensures state { (after : Sequel) → state_in self.new after ≡ open_state self.old.book.geometry
            (parts_state (map (part_of self.old.book.geometry start end) (map seen_in stripes.items)) after) }
    {
        self.current = None;
        self.left = stripes.into_iter();
        self.start = start;
        self.end = end;
        self.bytes.clear();
    }

    /// How far they are.
    pub fn progress(&self) -> Progress
        ensures progress { result ≡ progress_of self.now }
        ensures below { IfAsks result (λ server. server < chunk_count self.now.book.geometry) }
        ensures short { result ≡ Progress.Short → (after : Sequel) → state_in self.now after ≡ State.Ending Outcome.NoMemory }
    {
        match &self.current {
            Some(gather) => progress_by(gather.course()),
            None if 0 < self.left.len() => Progress::Due,
            None => Progress::Done,
        }
    }

    /// What a call needs that stands in them. After the last gathering, or once they have ended without
    /// their bytes, it goes on at the directory.
    pub fn need(&self) -> Need
        ensures need { result ≡ need_at (progress_of self.now) }
        ensures below { IsServerBelow (chunk_count self.now.book.geometry) result }
        ensures call { (c : CallOf) (after : Sequel) → StandsIn c self.now after → c.due ≡ is_due self.now → result ≡ need_of c }
        ensures in_pass { (c : CallOf) (after : Sequel) → StandsIn c self.now after → IsTrue (is_in_pass (act_of c)) }
    {
        match self.progress() {
            Progress::Asks(server) => Need::Server(server),
            Progress::Due => Need::Coder,
            _ => Need::Directory,
        }
    }

    /// What a call does next that stands in them, and that does this once they have their bytes.
    pub fn act(&self, follows: DirectoryAct) -> Act
        ensures act { result ≡ act_in self.now follows }
        ensures call { (c : CallOf) (after : Sequel) → StandsIn c self.now after → c.due ≡ is_due self.now →
            act_after after ≡ follows → result ≡ act_now c }
    {
        self.act_then(follows)
    }

    fn act_then(&self, follows: DirectoryAct) -> Act
        ensures { result ≡ act_in self.now follows }
    {
        match &self.current {
            Some(gather) => act_at(gather),
            None if 0 < self.left.len() => Act::Coding,
            None => Act::Directory(follows),
        }
    }

    /// The bytes of the stripes that were gathered, one after another.
    pub fn bytes(&self) -> &[u8]
        ensures { result.now ≡ self.now.bytes }
    {
        &self.bytes
    }

    /// One step at the server that is asked, and its answer. Where memory is wanting the gatherings end.
    pub fn on_server(&mut self, s: &mut Server) -> Result<ServerAnswer, AllocError>
        requires asked { progress_of self.old ≡ Progress.Asks s.old.number }
        requires book { s.old.book ≡ self.old.book }
        ensures step { (core_of s.new, self.new) ≡ stepped self.old (is_err result) (core_of s.old) }
        ensures same { IsSame s.old s.new }
        ensures book { self.new.book ≡ self.old.book }
        ensures owed { owed self.new ≡ owed self.old }
        ensures call { (c : CallOf) (after : Sequel) (due : Bool) → StandsIn c self.old after →
            (core_of s.new, moved c self.new after due (is_err result)) ≡ stepped_at_server (is_err result) due c (core_of s.old) }
        ensures told { (c : CallOf) (after : Sequel) → StandsIn c self.old after →
            told_by_server result ≡ told_here (is_err result) c (core_of s.old) }
    {
        let Some(gather) = &mut self.current else {
            unreachable!()
        };
        let Some(takes) = &mut self.takes else {
            unreachable!()
        };
        gather.on_server(s, takes)
    }
}
