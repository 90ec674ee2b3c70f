//! A writing: from the drawn versions to the last settle.
ghost use Rattle.std.specs.Prelude.{◌≡◌, ◌+◌, ◌^◌, ◌<◌, ◌≤◌, true, false, [], map, length, All, OnOk, OnErr, IsOk, IfSome, is_err, vec_capacity};
ghost use Rattle.std.specs.Option.{option_map};
ghost use Rattle.clay_grid.specs.Shape.{chunk_count, stripe_length};
ghost use Rattle.store_core.specs.Lists.{places_of};
ghost use Rattle.store_core.specs.Placements.{IsRow};
ghost use Rattle.store_core.specs.Act.{Outcome};
ghost use Rattle.run_laws.specs.State.{State};
ghost use Rattle.run_laws.specs.States.{prepare_all_state, settle_state};
ghost use Rattle.store_core.specs.Told.{Told, lost_in};
ghost use Rattle.chunk_server.specs.Core.{core_of};
ghost use Rattle.call_steps.specs.Answers.{told_by_server};
ghost use Rattle.write_course.specs.States.{placed_on};
ghost use Rattle.write_course.specs.Writings.{versions_of, server_of, question_of, is_preparing, is_committing, is_settling};
ghost use Rattle.write_course.specs.Writings.{begins_version, place_of, stamp_at_work, point_of};
ghost use Rattle.write_course.specs.WritingSteps.{stepped, told_at, IsDoing};

use crate::course_placing::Placing;
use crate::writing_stage::{WritingStage, prepares_or_commits, settles_or_is_done};
use call_steps::{ServerAct, ServerAnswer};
use chunk_server::Server;
use clay_grid::Geometry;
use clay_model::Coder;
use std::alloc::{AllocError, Global};
use std::marker::Model;
use std::mem;
use std::thread::Threads;
use store_map::{LostChunk, Placement, Point};
use version_seal::{Opening, Stamp};

/// A put or a write from its drawn versions on. Version after version its chunks are made and go to
/// their servers, the directory commits the versions, and each chunk is settled. All memory that a
/// version wants is taken with its chunks, and a settle takes none. Chunks are moved to their servers.
#[derive(Drop)]
pub struct Writing {
    opening: Opening,
    // the stripe of the first version
    first: u32,
    stamps: Vec<Stamp>,
    pub(crate) doing: WritingStage,
    // those of the versions whose chunks have all gone to their servers
    rows: Vec<Vec<Placement>>,
    // the version after them, once its chunks are made
    work: Option<Placing>,
    // the commit's point, once it has come
    point: Point,
    // the place of the version whose chunk is settled next, and its server
    at: usize,
    server: u32,
}

impl Model for Writing {
    ghost use Rattle.write_course.specs.Writings.{WritingOf};

    ghost Value = { WritingOf };

    ghost use Rattle.write_course.specs.Inside.{writing_in, IsWriting};

    ghost view = { writing_in };

    ghost invariant = { IsWriting };
}

// Where a writing goes on after a version's answer: its row goes to the others once it is whole,
// unless too many servers were away.
fn place_on(
    geometry: Geometry,
    versions: usize,
    rows: &mut Vec<Vec<Placement>>,
    placing: Placing,
) -> (WritingStage, Option<Placing>)
    requires room { length rows.old.items < vec_capacity rows.old }
    ensures after { (result.0, record { rows = map (λ row. row.items) rows.new.items; work = result.1 })
        ≡ placed_on geometry versions (map (λ row. row.items) rows.old.items) placing }
    ensures same { vec_capacity rows.new ≡ vec_capacity rows.old }
{
    if placing.away() > geometry.m() as usize {
        return (WritingStage::TooManyAway, Some(placing));
    }
    if placing.server() < geometry.n() {
        return (WritingStage::Preparing, Some(placing));
    }
    rows.push_reserved(placing.into_row());
    (prepares_or_commits(rows.len(), versions), None)
}

impl Writing {
    /// The writing of drawn versions, of which the first is of the stripe `first` and each one after it
    /// of the next stripe. It takes no memory.
    pub fn new(alloc: Global, opening: Opening, first: u32, stamps: Vec<Stamp>) -> Writing
        requires home { All (λ stamp. stamp.home ≡ opening.home) stamps.items }
        requires numbered { first + length stamps.items ≤ 2 ^ 32 }
        ensures book { result.book ≡ opening }
        ensures first { result.first ≡ first }
        ensures stamps { result.stamps ≡ stamps.items }
        ensures state { result.state
            ≡ prepare_all_state opening.geometry (versions_of stamps.items) first (versions_of stamps.items) [] }
        ensures due { result.due ≡ begins_version result.state }
    {
        // That there are servers is needed below.
        let _ = opening.geometry().n();
        let doing = prepares_or_commits(0, stamps.len());
        Writing {
            opening,
            first,
            stamps,
            doing,
            rows: Vec::new(alloc),
            work: None,
            point: Point(0),
            at: 0,
            server: 0,
        }
    }

    /// What it does next, or how it has ended.
    pub fn doing(&self) -> WritingStage
        ensures { IsDoing result self.now }
    {
        self.doing
    }

    /// Whether the chunks of the version at work are to be made before the next step.
    pub fn due(&self) -> bool
        ensures due { result ≡ self.now.due }
        ensures begins { result ≡ true → begins_version self.now.state ≡ true }
    {
        matches!(self.doing, WritingStage::Preparing) && self.work.is_none()
    }

    /// The server at which the next step is made, where one is.
    pub fn asked(&self) -> Option<u32>
        ensures server { result ≡ server_of self.now.state }
        ensures below { IfSome result (λ server. server < chunk_count self.now.book.geometry) }
    {
        match self.doing {
            WritingStage::Preparing => Some(self.preparing_at()),
            WritingStage::Settling => Some(self.server),
            _ => None,
        }
    }

    /// The same, with what it does there.
    pub fn question(&self) -> Option<(u32, ServerAct)>
        ensures { result ≡ question_of self.now.state }
    {
        match self.doing {
            WritingStage::Preparing => {
                let version = self.stamps[self.rows.len()].version();
                Some((self.preparing_at(), ServerAct::Prepare(version)))
            }
            WritingStage::Settling => {
                let version = self.stamps[self.at].version();
                Some((self.server, ServerAct::Settle(version)))
            }
            _ => None,
        }
    }

    // The server that is asked next for the version at work.
    fn preparing_at(&self) -> u32
        requires { is_preparing self.now.state ≡ true }
        ensures server { Some result ≡ server_of self.now.state }
        ensures below { result < chunk_count self.now.book.geometry }
    {
        // That there is a server is needed below.
        let _ = self.opening.geometry().n();
        match &self.work {
            Some(placing) => placing.server(),
            None => 0,
        }
    }

    /// The stripe of the version at work, while one is prepared.
    pub fn stripe_at_work(&self) -> Option<u32>
        ensures { result ≡ option_map (λ place. self.now.first + place) (place_of self.now.state) }
    {
        match self.doing {
            WritingStage::Preparing => Some(self.first + self.rows.len() as u32),
            _ => None,
        }
    }

    /// The point of the commit, once it has come.
    pub fn committed_at(&self) -> Option<Point>
        ensures { option_map (λ point. point.0) result ≡ point_of self.now.state }
    {
        match self.doing {
            WritingStage::Settling | WritingStage::Done => Some(self.point),
            _ => None,
        }
    }

    /// Makes the chunks of the version at work, whose bytes these are, and takes all memory for its
    /// row. Where memory is wanting the writing is as before.
    pub fn encode<R: Threads + Sync, C: Coder>(
        &mut self,
        rt: &R,
        coder: &C,
        content: &[u8],
    ) -> Result<(), AllocError>
        requires due { self.old.due ≡ true }
        requires content { IfSome (stamp_at_work self.old) (λ stamp. stamp.content ≡ content.now) }
        requires whole { length content.now ≡ stripe_length self.old.book.geometry }
        ensures ok { OnOk result (self.new ≡ record self.old { due = false }) }
        ensures err { OnErr result (self.new ≡ self.old) }
    {
        let alloc = *self.stamps.allocator();
        let geometry = self.opening.geometry();
        let stamp = self.stamps[self.rows.len()].copy();
        self.rows.reserve(self.stamps.len() - self.rows.len())?;
        let chunks = coder.encode(rt, alloc, geometry, content)?;
        self.work = Some(Placing::new(alloc, geometry, stamp, chunks)?);
        Ok(())
    }

    /// Memory was wanting before the chunks could be made.
    pub fn hear_short(&mut self)
        requires { self.old.due ≡ true }
        ensures { self.new ≡ record self.old { state = State.Ending Outcome.NoMemory; due = false } }
    {
        self.doing = WritingStage::Short;
    }

    /// One step at the server that is asked, and its answer: it is to keep its chunk of the version at
    /// work, or to settle it. Where memory is wanting the writing ends.
    pub fn on_server(&mut self, s: &mut Server) -> Result<ServerAnswer, AllocError>
        requires asked { server_of self.old.state ≡ Some s.old.number }
        requires made { self.old.due ≡ false }
        requires book { s.old.book ≡ self.old.book }
        ensures step { (core_of s.new, self.new.state)
            ≡ stepped self.old.book.geometry (is_err result) (core_of s.old) self.old.state }
        ensures due { self.new.due ≡ begins_version self.new.state }
        ensures told { told_by_server result ≡ told_at (is_err result) (core_of s.old) self.old.state }
        ensures settled { is_settling self.old.state ≡ true → IsOk result }
        ensures same { self.new
            ≡ record self.old { state = self.new.state; due = self.new.due } }
        ensures number { s.new.number ≡ s.old.number }
        ensures book { s.new.book ≡ s.old.book }
    {
        match self.doing {
            WritingStage::Preparing => self.prepare(s),
            _ => {
                self.settle(s);
                Ok(ServerAnswer::Settled)
            }
        }
    }

    fn prepare(&mut self, s: &mut Server) -> Result<ServerAnswer, AllocError>
        requires preparing { is_preparing self.old.state ≡ true }
        requires asked { server_of self.old.state ≡ Some s.old.number }
        requires made { self.old.due ≡ false }
        requires book { s.old.book ≡ self.old.book }
        ensures step { (core_of s.new, self.new.state)
            ≡ stepped self.old.book.geometry (is_err result) (core_of s.old) self.old.state }
        ensures due { self.new.due ≡ begins_version self.new.state }
        ensures told { told_by_server result ≡ told_at (is_err result) (core_of s.old) self.old.state }
        ensures same { self.new
            ≡ record self.old { state = self.new.state; due = self.new.due } }
        ensures number { s.new.number ≡ s.old.number }
        ensures book { s.new.book ≡ s.old.book }
    {
        let Some(placing) = self.work.take() else {
            unreachable!()
        };
        match placing.prepare(s) {
            Ok((placing, placement)) => {
                let geometry = self.opening.geometry();
                let versions = self.stamps.len();
                let (doing, work) = place_on(geometry, versions, &mut self.rows, placing);
                self.doing = doing;
                self.work = work;
                Ok(ServerAnswer::Prepared(placement))
            }
            Err(error) => {
                self.doing = WritingStage::Short;
                Err(error)
            }
        }
    }

    fn settle(&mut self, s: &mut Server)
        requires settling { is_settling self.old.state ≡ true }
        ensures step { (core_of s.new, self.new.state)
            ≡ stepped self.old.book.geometry false (core_of s.old) self.old.state }
        ensures due { self.new.due ≡ false }
        ensures told { Told.Settled ≡ told_at false (core_of s.old) self.old.state }
        ensures last { begins_version self.new.state ≡ false }
        ensures same { self.new
            ≡ record self.old { state = self.new.state; due = self.new.due } }
        ensures number { s.new.number ≡ s.old.number }
        ensures book { s.new.book ≡ s.old.book }
    {
        let servers = self.opening.geometry().n();
        s.settle(self.stamps[self.at].version());
        self.server += 1;
        if self.server < servers {
            return;
        }
        self.server = 0;
        self.at += 1;
        self.doing = settles_or_is_done(self.at, self.stamps.len());
    }

    /// The rows of placements for the commit, moved out: a whole one for each version.
    pub fn rows(&mut self) -> Vec<Vec<Placement>>
        requires { is_committing self.old.state ≡ true }
        ensures rows { self.old.state
            ≡ State.Committing (versions_of self.old.stamps) (map (λ row. row.items) result.items) }
        ensures whole { All (IsRow self.old.book.geometry) (map (λ row. row.items) result.items) }
        ensures count { length result.items ≡ length self.old.stamps }
        ensures after { self.new ≡ record self.old { state = State.Committed (versions_of self.old.stamps) } }
    {
        let alloc = *self.stamps.allocator();
        self.doing = WritingStage::Committed;
        mem::replace(&mut self.rows, Vec::new(alloc))
    }

    /// The directory has committed the versions at this point.
    pub fn committed(&mut self, point: Point)
        requires { IsDoing WritingStage.Committed self.old }
        ensures { self.new ≡ record self.old {
          state = settle_state point.0
              (places_of (chunk_count self.old.book.geometry) (versions_of self.old.stamps));
        } }
    {
        self.point = point;
        self.at = 0;
        self.server = 0;
        self.doing = settles_or_is_done(0, self.stamps.len());
    }

    /// The stripe for whose version too many servers were away, and those servers.
    pub fn into_away(self) -> (u32, Vec<LostChunk>)
        requires { IsDoing WritingStage.TooManyAway self }
        ensures { self.state ≡ State.Ending (Outcome.Unavailable result.0 (map lost_in result.1.items)) }
    {
        let Writing {
            first,
            rows,
            work,
            ..
        } = self;
        let stripe = first + rows.len() as u32;
        match work {
            Some(work) => (stripe, work.into_away()),
            None => unreachable!(),
        }
    }
}
