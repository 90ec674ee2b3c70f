//! A gathering's steps at sealed servers.
ghost use Rattle.std.specs.Prelude.{◌≡◌, ◌<◌, ◌≤◌, ℕ, true, false, List, None, Some, IfOk, IsOk, is_err, length, map, replicate};
ghost use Rattle.clay_grid.specs.Shape.{chunk_count, stripe_length};
ghost use Rattle.store_core.specs.Told.{Told};
ghost use Rattle.run_laws.specs.Stage.{Aim};
ghost use Rattle.chunk_server.specs.Core.{core_of};
ghost use Rattle.gathering.specs.Courses.{IsAskingStage, new_course, server_of, is_look, is_fetch};
ghost use Rattle.gathering.specs.Aims.{IsTooMany};
ghost use Rattle.store_core.specs.Told.{lost_in};
ghost use Rattle.call_steps.specs.Answers.{server_told, told_by_server};
ghost use Rattle.gathering.specs.Gathers.{new_gather, heard, taking, stepped, told_by, question_of, IsAskedPart, IsOwnPart};
ghost use Rattle.chunk_server.specs.State.{IsSame};
ghost use Rattle.gathering.specs.Parts.{AreNone};

use crate::course::Course;
use call_steps::{Need, Seen, ServerAct, ServerAnswer};
use chunk_server::{Fetched, Presence, Server};
use clay_grid::Geometry;
use read_ledger::Takes;
use std::alloc::{AllocError, Global};
use std::marker::Model;
use store_map::{Found, LostChunk};
use version_seal::{SealedPart, Stamp};

/// A gathering of one pinned stripe, with what has come of its version's chunks.
#[derive(Drop)]
pub struct Gather {
    stamp: Stamp,
    pub(crate) course: Course,
    // by server: the layers with wanted bytes
    pub(crate) wanted: Vec<Option<Vec<u8>>>,
    // by server: what missing chunks are made of, the repair layers of one, or whole chunks
    pub(crate) helpers: Vec<Option<Vec<u8>>>,
}

impl Model for Gather {
    ghost use Rattle.gathering.specs.Gathers.{GatherOf};

    ghost Value = { GatherOf };

    ghost use Rattle.gathering.specs.Inside.{gather_in, IsGatherIn};

    ghost view = { gather_in };

    ghost invariant = { IsGatherIn };
}

// No bytes yet from so many servers.
#[tactic(auto, using(std::proofs::lemmas::List::replicate_more))]
pub(crate) fn empty_shelf(alloc: Global, servers: u32) -> Result<Vec<Option<Vec<u8>>>, AllocError>
    ensures { IfOk result (λ shelf. shelf.items ≡ replicate servers None) }
{
    let mut shelf = Vec::with_capacity(alloc, servers as usize)?;
    for _made in 0..servers {
        shelf.push(None)?;
    }
    Ok(shelf)
}

// What has come for the chunks to be made goes where it was for one lost chunk alone.
fn let_go_of_one(helpers: &mut [Option<Vec<u8>>], missing: usize)
    ensures few { missing < 2 → AreNone helpers.new }
    ensures many { 2 ≤ missing → helpers.new ≡ helpers.old }
{
    if missing < 2 {
        clear(helpers);
    }
}

#[tactic(auto, using(crate::proofs::Shelves::none_more, crate::proofs::Shelves::none_all))]
fn clear(helpers: &mut [Option<Vec<u8>>])
    ensures { AreNone helpers.new }
{
    for i in 0..helpers.len() {
        helpers[i] = None;
    }
}

impl Gather {
    ghost use Rattle.gathering.specs.Gathers.{need_of};
    ghost use Rattle.call_steps.specs.Steps.{IsServerBelow};

    /// The gathering of a stripe's bytes from `start` up to `end`.
    pub fn range(
        alloc: Global,
        geometry: Geometry,
        pinned: Seen,
        start: u32,
        end: u32,
    ) -> Result<Gather, AllocError>
        requires placed { length pinned.placed.items ≡ chunk_count geometry }
        requires some { start < end }
        requires within { end ≤ stripe_length geometry }
        ensures begins { IfOk result (λ gather. gather ≡ new_gather pinned.stamp geometry (Aim.Range
            (record { seen = record { stripe = pinned.stripe; version = pinned.stamp.version; placed = pinned.placed.items }; start = start; end = end }))) }
        ensures asks { IfOk result (λ gather. IsAskingStage gather.course.stage) }
    {
        let Seen {
            stripe,
            stamp,
            placed,
        } = pinned;
        let servers = geometry.n();
        let version = stamp.version();
        let course = Course::range(alloc, geometry, stripe, version, placed, start, end)?;
        let wanted = empty_shelf(alloc, servers)?;
        let helpers = empty_shelf(alloc, servers)?;
        Ok(Gather {
            stamp,
            course,
            wanted,
            helpers,
        })
    }

    /// The gathering that makes the stripe's chunk of the server `target` anew.
    pub fn chunk(
        alloc: Global,
        geometry: Geometry,
        pinned: Seen,
        target: u32,
    ) -> Result<Gather, AllocError>
        requires placed { length pinned.placed.items ≡ chunk_count geometry }
        requires target { target < chunk_count geometry }
        ensures { IfOk result (λ gather. gather ≡ new_gather pinned.stamp geometry (Aim.Chunk
            (record { stripe = pinned.stripe; version = pinned.stamp.version; placed = pinned.placed.items }) target)) }
    {
        let Seen {
            stripe,
            stamp,
            placed,
        } = pinned;
        let servers = geometry.n();
        let version = stamp.version();
        let course = Course::chunk(alloc, geometry, stripe, version, placed, target)?;
        let wanted = empty_shelf(alloc, servers)?;
        let helpers = empty_shelf(alloc, servers)?;
        Ok(Gather {
            stamp,
            course,
            wanted,
            helpers,
        })
    }

    /// Where the gathering has to go on: at a server, with the coder once all parts have come, or
    /// nowhere once it has ended without its bytes.
    pub fn need(&self) -> Need
        ensures need { result ≡ need_of self.now }
        ensures below { IsServerBelow (chunk_count self.now.course.geometry) result }
    {
        match self.course.asked() {
            Some(server) => Need::Server(server),
            None if self.course.has_bytes() => Need::Coder,
            None => Need::Finished,
        }
    }

    /// The stamp of the pinned version.
    pub fn stamp(&self) -> &Stamp
        ensures { result.now ≡ self.now.stamp }
    {
        &self.stamp
    }

    /// The allocator of its memory.
    pub fn allocator(&self) -> Global {
        *self.helpers.allocator()
    }

    /// Which server it asks, and what becomes of it.
    pub fn course(&self) -> &Course
        ensures { result.now ≡ self.now.course }
    {
        &self.course
    }

    /// The servers that were found missing, with what the look and they themselves told of them, in
    /// the order found. It takes no memory.
    pub fn into_missing(self) -> Vec<LostChunk>
        ensures { IsTooMany self.course.stage (map lost_in result.items) }
    {
        let Gather { course, .. } = self;
        course.into_missing()
    }

    /// The server that is asked, and what it is asked.
    #[tactic(auto, using(crate::proofs::Asking::asks_has, crate::proofs::Asking::asks_part, crate::proofs::Asking::asks_none))]
    pub fn question(&self) -> Option<(u32, ServerAct)>
        ensures { result ≡ question_of self.now }
    {
        let server = self.course.asked()?;
        let version = self.course.version();
        if self.course.asks_whether() {
            Some((server, ServerAct::Has(version)))
        } else {
            Some((server, ServerAct::Fetch(version)))
        }
    }

    /// One step at the server that is asked, and its answer. Where memory is wanting the gathering ends.
    pub fn on_server(
        &mut self,
        s: &mut Server,
        takes: &mut Takes,
    ) -> Result<ServerAnswer, AllocError>
        requires asked { server_of self.old.course ≡ Some s.old.number }
        requires home { s.old.book.home ≡ self.old.stamp.home }
        requires code { s.old.book.geometry ≡ self.old.course.geometry }
        requires counts { length takes.old ≡ chunk_count self.old.course.geometry }
        ensures step { (core_of s.new, self.new, takes.new)
            ≡ stepped self.old (is_err result) (core_of s.old) takes.old }
        ensures told { told_by_server result ≡ told_by self.old (is_err result) (core_of s.old) }
        ensures same { IsSame s.old s.new }
        ensures look { is_look self.old.course.stage ≡ true → IsOk result }
    {
        if self.course.asks_whether() {
            return Ok(self.look(s));
        }
        self.fetch(s, takes)
    }

    fn look(&mut self, s: &mut Server) -> ServerAnswer
        requires asking { IsAskingStage self.old.course.stage }
        requires look { is_look self.old.course.stage ≡ true }
        ensures step { (takes : List ℕ) → (core_of s.new, self.new, takes)
            ≡ stepped self.old false (core_of s.old) takes }
        ensures told { server_told result ≡ told_by self.old false (core_of s.old) }
        ensures same { IsSame s.old s.new }
    {
        match s.has(self.course.version()) {
            Presence::Here => {
                self.hear_here();
                ServerAnswer::Here
            }
            Presence::Missing { found } => {
                self.hear_missing(found);
                ServerAnswer::Missing(found)
            }
        }
    }

    fn fetch(&mut self, s: &mut Server, takes: &mut Takes) -> Result<ServerAnswer, AllocError>
        requires asked { server_of self.old.course ≡ Some s.old.number }
        requires part { is_look self.old.course.stage ≡ false }
        requires home { s.old.book.home ≡ self.old.stamp.home }
        requires code { s.old.book.geometry ≡ self.old.course.geometry }
        requires counts { length takes.old ≡ chunk_count self.old.course.geometry }
        ensures step { (core_of s.new, self.new, takes.new)
            ≡ stepped self.old (is_err result) (core_of s.old) takes.old }
        ensures told { told_by_server result ≡ told_by self.old (is_err result) (core_of s.old) }
        ensures same { IsSame s.old s.new }
    {
        let alloc = *self.helpers.allocator();
        let Ok(layers) = self.course.layers(alloc) else {
            self.hear_short();
            return Err(AllocError);
        };
        match s.fetch(self.course.version(), &layers) {
            Ok(Fetched::Part(part)) => {
                self.hear_part(layers.len(), part, takes);
                Ok(ServerAnswer::Given(layers.len() as u64))
            }
            Ok(Fetched::Missing { found }) => {
                self.hear_missing(found);
                Ok(ServerAnswer::Missing(found))
            }
            Err(error) => {
                self.hear_short();
                Err(error)
            }
        }
    }

    fn hear_short(&mut self)
        requires { IsAskingStage self.old.course.stage }
        ensures { self.new ≡ heard self.old Told.Short }
    {
        self.course.told_short();
    }

    fn hear_here(&mut self)
        requires { IsAskingStage self.old.course.stage }
        ensures { self.new ≡ heard self.old Told.Here }
    {
        self.course.told_here();
    }

    fn hear_missing(&mut self, found: Found)
        requires { IsAskingStage self.old.course.stage }
        ensures { self.new ≡ heard self.old (Told.Missing found) }
    {
        let missing = self.course.gone().len();
        let_go_of_one(&mut self.helpers, missing);
        self.course.told_missing(found);
    }

    fn hear_part(&mut self, layers: usize, part: SealedPart, takes: &mut Takes)
        requires own { IsOwnPart self.old part }
        requires part { is_look self.old.course.stage ≡ false }
        requires layers { layers ≡ length part.layers }
        requires counts { length takes.old ≡ chunk_count self.old.course.geometry }
        ensures gather { self.new ≡ heard self.old (Told.Given layers) }
        ensures takes { takes.new ≡ taking (Told.Given layers) (server_of self.old.course) takes.old }
    {
        part.stamp().agrees(&self.stamp);
        let server = part.server();
        let bytes = part.into_bytes();
        takes.add(server, layers as u64);
        if self.course.asks_for_wanted() {
            self.hear_wanted(server, bytes);
        } else {
            self.hear_helper(server, bytes);
        }
    }

    fn hear_wanted(&mut self, server: u32, bytes: Vec<u8>)
        requires own { IsAskedPart self.old server bytes.items }
        requires asked { server_of self.old.course ≡ Some server }
        requires below { server < chunk_count self.old.course.geometry }
        requires fetch { is_fetch self.old.course.stage ≡ true }
        ensures { (layers : ℕ) → self.new ≡ heard self.old (Told.Given layers) }
    {
        self.wanted[server as usize] = Some(bytes);
        self.course.told_given();
    }

    fn hear_helper(&mut self, server: u32, bytes: Vec<u8>)
        requires own { IsAskedPart self.old server bytes.items }
        requires asked { server_of self.old.course ≡ Some server }
        requires below { server < chunk_count self.old.course.geometry }
        requires part { is_look self.old.course.stage ≡ false }
        requires fetch { is_fetch self.old.course.stage ≡ false }
        ensures { (layers : ℕ) → self.new ≡ heard self.old (Told.Given layers) }
    {
        self.helpers[server as usize] = Some(bytes);
        self.course.told_given();
    }
}
