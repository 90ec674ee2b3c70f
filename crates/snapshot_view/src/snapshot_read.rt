//! Reads of a snapshot.
ghost use Rattle.std.specs.Prelude.{◌≡◌, ◌≢◌, Bool, List, [], ◌∷◌, ◌++◌, map, All, None, Some, OnOk, is_err};
ghost use Rattle.std.specs.Option.{option_map};
ghost use Rattle.clay_grid.specs.Shape.{chunk_count};
ghost use Rattle.store_core.specs.Read.{part_of};
ghost use Rattle.store_core.specs.Told.{Seen as CoreSeen};
ghost use Rattle.run_laws.specs.State.{Sequel};
ghost use Rattle.run_laws.specs.States.{parts_state, open_state};
ghost use Rattle.chunk_server.specs.Core.{core_of};
ghost use Rattle.chunk_server.specs.State.{IsSame};
ghost use Rattle.call_steps.specs.Answers.{told_by_server};
ghost use Rattle.call_steps.specs.Hearing.{told_here};
ghost use Rattle.call_steps.specs.Steps.{IsServerBelow, stepped_at_server};
ghost use Rattle.call_steps.specs.CallOf.{CallOf, taken_of};
ghost use Rattle.stripe_stamps.specs.SeenStripes.{seen_in};
ghost use Rattle.gather_parts.specs.Wanted.{wanted_of, IsPinned};
ghost use Rattle.gather_parts.specs.Gatherings.{new_gatherings, begun};
ghost use Rattle.gather_parts.specs.States.{state_in, StandsIn, moved};
ghost use Rattle.snapshot_view.specs.InTime.{Asked, asked_at, HasFound, NamesFound};
ghost use Rattle.snapshot_view.specs.Reads.{reply_of};
ghost use Rattle.snapshot_view.specs.ReadSteps.{need_of, stepped, coded, EndsAs};

use crate::read_outcomes::{Ending, SnapOutcome};
use call_steps::{Need, Seen, ServerAnswer};
use chunk_server::Server;
use clay_model::Coder;
use gather_parts::PartGatherings;
use read_ledger::Takes;
use std::alloc::{AllocError, Global};
use std::marker::Model;
use std::thread::Threads;
use version_seal::Opening;

/// A read of a snapshot in work. It needs servers and a coder, and never the directory.
#[derive(Drop)]
pub struct SnapRead {
    gatherings: PartGatherings,
    ended: Option<Ending>,
}

impl Model for SnapRead {
    ghost use Rattle.snapshot_view.specs.Reads.{ReadOf};

    ghost Value = { ReadOf };

    ghost use Rattle.snapshot_view.specs.ReadInside.{read_in};

    ghost view = { read_in };
}

impl SnapRead {
    // One that gathers the bytes from `start` up to `end` of an object, of which these stripes were
    // pinned. Nothing is asked yet, and it takes no memory.
    pub(crate) fn new(
        alloc: Global,
        opening: Opening,
        stripes: Vec<Seen>,
        start: u64,
        end: u64,
    ) -> SnapRead
        requires { All (IsPinned opening) stripes.items }
        ensures going { result.ended ≡ None }
        ensures begun { result.gatherings ≡ begun (new_gatherings opening) (map (wanted_of opening.geometry start end) stripes.items) }
        ensures state { (after : Sequel) → state_in result.gatherings after ≡ open_state opening.geometry
            (parts_state (map (part_of opening.geometry start end) (map seen_in stripes.items)) after) }
    {
        let mut gatherings = PartGatherings::new(alloc, opening);
        gatherings.begin(stripes, start, end);
        SnapRead {
            gatherings,
            ended: None,
        }
    }

    // One that the map refuses. It asks nothing.
    pub(crate) fn refused(alloc: Global, opening: Opening, refusal: Ending) -> SnapRead
        ensures refused { result.ended ≡ Some refusal }
        ensures new { result.gatherings ≡ new_gatherings opening }
    {
        SnapRead {
            gatherings: PartGatherings::new(alloc, opening),
            ended: Some(refusal),
        }
    }

    /// Where it has to go on: at a server, at the coder, or nowhere.
    pub fn need(&self) -> Need
        ensures need { result ≡ need_of self.now }
        ensures below { IsServerBelow (chunk_count self.now.gatherings.book.geometry) result }
    {
        if self.ended.is_some() {
            return Need::Finished;
        }
        match self.gatherings.need() {
            Need::Server(server) => Need::Server(server),
            Need::Coder => Need::Coder,
            // A call would end its pass there: this read has none of its own.
            Need::Directory | Need::Finished => Need::Finished,
        }
    }

    /// One step at the server that is needed, and what it answers. Where memory is wanting the read ends.
    pub fn on_server(&mut self, s: &mut Server) -> Result<ServerAnswer, AllocError>
        requires need { need_of self.old ≡ Need.Server s.old.number }
        requires book { s.old.book ≡ self.old.gatherings.book }
        ensures step { (core_of s.new, self.new) ≡ stepped self.old (is_err result) (core_of s.old) }
        ensures same { IsSame s.old s.new }
        ensures book { self.new.gatherings.book ≡ self.old.gatherings.book }
        ensures reply { reply_of self.new ≡ reply_of self.old }
        ensures call { (c : CallOf) (after : Sequel) (due : Bool) → StandsIn c self.old.gatherings after →
            (core_of s.new, moved c self.new.gatherings after due (is_err result)) ≡ stepped_at_server (is_err result) due c (core_of s.old) }
        ensures told { (c : CallOf) (after : Sequel) → StandsIn c self.old.gatherings after →
            told_by_server result ≡ told_here (is_err result) c (core_of s.old) }
        ensures found { (stripes : List CoreSeen) (asked : List Asked) → HasFound stripes asked self.old →
            HasFound stripes (asked ++ asked_at self.old s.old.number (core_of s.old) ∷ []) self.new }
    {
        self.gatherings.on_server(s)
    }

    /// Makes the bytes of the stripe that has come, and takes the memory for the next one. It makes no
    /// step. Where memory is wanting the read ends.
    pub fn on_coder<R: Threads + Sync, C: Coder>(
        &mut self,
        rt: &R,
        coder: &C,
    ) -> Result<(), AllocError>
        requires { need_of self.old ≡ Need.Coder }
        ensures coded { self.new ≡ coded (is_err result) self.old }
        ensures settled { need_of self.new ≢ Need.Coder }
        ensures book { self.new.gatherings.book ≡ self.old.gatherings.book }
        ensures reply { OnOk result (reply_of self.new ≡ reply_of self.old) }
        ensures state { OnOk result ((after : Sequel) → state_in self.new.gatherings after ≡ state_in self.old.gatherings after) }
        ensures found { (stripes : List CoreSeen) (asked : List Asked) → HasFound stripes asked self.old → HasFound stripes asked self.new }
    {
        match self.gatherings.on_coder(rt, coder) {
            Ok(()) => Ok(()),
            Err(error) => {
                self.ended = Some(Ending::NoMemory);
                Err(error)
            }
        }
    }

    /// What it has taken, or none where it has taken nothing.
    pub fn takes(&self) -> Option<&Takes>
        ensures { option_map (λ takes. takes.now) result ≡ taken_of self.now.gatherings.takes }
    {
        self.gatherings.takes()
    }

    /// How it ended, and what it has taken, or none where it has taken nothing. Each server that it names
    /// as missing told it so at one of its steps, with its count at that moment.
    pub fn finish(self) -> (SnapOutcome, Option<Takes>)
        requires { need_of self ≡ Need.Finished }
        ensures outcome { EndsAs self result.0 }
        ensures found { (stripes : List CoreSeen) (asked : List Asked) → HasFound stripes asked self → NamesFound stripes asked result.0 }
        ensures takes { result.1 ≡ taken_of self.gatherings.takes }
    {
        let SnapRead { gatherings, ended } = self;
        match ended {
            Some(ended) => (SnapOutcome::of_ended(ended), gatherings.into_takes()),
            None => {
                let (gathered, takes) = gatherings.finish();
                (SnapOutcome::of_gathered(gathered), takes)
            }
        }
    }
}
