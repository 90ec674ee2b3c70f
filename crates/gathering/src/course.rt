//! A gathering's course: which server it asks, and what becomes of it by an answer.
ghost use Rattle.std.specs.Prelude.{◌≡◌, ◌<◌, ℕ, false, All, IfOk, IfSome, length, map};
ghost use Rattle.clay_grid.specs.Shape.{chunk_count, layer_count};
ghost use Rattle.store_core.specs.Told.{Told};
ghost use Rattle.store_core.specs.GatheringParts.{chunks_in_range};
ghost use Rattle.run_laws.specs.Stage.{Aim, seen_of};
ghost use Rattle.gathering.specs.Courses.{new_course, IsAskingStage, is_look, is_fetch, has_bytes, is_lost, layers_asked, server_of, after_answer};
ghost use Rattle.gathering.specs.Aims.{target_of, IfRange, IsTooMany, ending_at};
ghost use Rattle.store_core.specs.Told.{lost_in};

use crate::aim::CourseAim;
use crate::ending::Ending;
use crate::layers_asked::{all_layers, chunks_in_range, wanted_layers};
use crate::position::{Position, after_given, after_here, after_missing, on_fetch};
use clay_grid::Geometry;
use std::alloc::{AllocError, Global};
use std::marker::Model;
use store_map::{Found, LostChunk, Placement, Version};

/// The course of a gathering of one pinned stripe. After it was made it takes no memory but that of
/// the lists of layers that it gives.
#[derive(Drop)]
pub struct Course {
    geometry: Geometry,
    stripe: u32,
    version: Version,
    placed: Vec<Placement>,
    aim: CourseAim,
    // the servers that the first stage asks
    first: Vec<u32>,
    // the first `count` are those that were found missing, and their numbers
    missing: Vec<LostChunk>,
    gone: Vec<u32>,
    count: usize,
    position: Position,
}

impl Model for Course {
    ghost use Rattle.gathering.specs.Courses.{CourseOf};

    ghost Value = { CourseOf };

    ghost use Rattle.gathering.specs.CourseInside.{course_in, IsCourse};

    ghost view = { course_in };

    ghost invariant = { IsCourse };
}

// What stands where no server is missing yet.
const NOWHERE: LostChunk = LostChunk {
    server: 0,
    placed: Placement::At(0),
    found: Found::Absent { epoch: 0 },
};

impl Course {
    /// The course of a part of a stripe's bytes, from `start` up to `end`.
    #[tactic(auto, using(crate::proofs::BeginsRange::range_begins, crate::proofs::BeginsRange::range_first))]
    pub fn range(
        alloc: Global,
        geometry: Geometry,
        stripe: u32,
        version: Version,
        placed: Vec<Placement>,
        start: u32,
        end: u32,
    ) -> Result<Course, AllocError>
        requires placed { length placed.items ≡ chunk_count geometry }
        requires some { 0 < length (chunks_in_range geometry start end) }
        ensures { IfOk result (λ course. course ≡ new_course geometry (Aim.Range
            (record { seen = record { stripe = stripe; version = version.0; placed = placed.items }; start = start; end = end }))) }
    {
        let servers = geometry.n() as usize;
        let first = chunks_in_range(alloc, geometry, start, end)?;
        let missing = vec![in alloc; NOWHERE; servers]?;
        let gone = vec![in alloc; 0; servers]?;
        let position = on_fetch(geometry, &first, 0, &[]);
        Ok(Course {
            geometry,
            stripe,
            version,
            placed,
            aim: CourseAim::Range { start, end },
            first,
            missing,
            gone,
            count: 0,
            position,
        })
    }

    /// The course of one chunk, the `target`th, that is made anew.
    #[tactic(auto, using(crate::proofs::Begins::chunk_begins))]
    pub fn chunk(
        alloc: Global,
        geometry: Geometry,
        stripe: u32,
        version: Version,
        placed: Vec<Placement>,
        target: u32,
    ) -> Result<Course, AllocError>
        requires placed { length placed.items ≡ chunk_count geometry }
        requires target { target < chunk_count geometry }
        ensures { IfOk result (λ course. course ≡ new_course geometry (Aim.Chunk
            (record { stripe = stripe; version = version.0; placed = placed.items }) target)) }
    {
        let servers = geometry.n() as usize;
        let first = vec![in alloc; target]?;
        let missing = vec![in alloc; NOWHERE; servers]?;
        let gone = vec![in alloc; 0; servers]?;
        Ok(Course {
            geometry,
            stripe,
            version,
            placed,
            aim: CourseAim::Chunk { target },
            first,
            missing,
            gone,
            count: 0,
            position: Position::Target { server: target },
        })
    }

    /// The chunk that is made anew, of a course that makes one.
    pub fn target(&self) -> Option<u32>
        ensures { result ≡ target_of self.now.aim }
    {
        match self.aim {
            CourseAim::Chunk { target } => Some(target),
            CourseAim::Range { .. } => None,
        }
    }

    /// Where the wanted bytes begin and end in the stripe. A chunk's course wants none.
    pub fn bounds(&self) -> (u32, u32)
        ensures { IfRange self.now.aim (λ part. result ≡ (part.start, part.end)) }
    {
        match self.aim {
            CourseAim::Range { start, end } => (start, end),
            CourseAim::Chunk { .. } => (0, 0),
        }
    }

    /// The server that is asked, while one is.
    pub fn asked(&self) -> Option<u32>
        ensures server { result ≡ server_of self.now }
        ensures below { IfSome result (λ server. server < chunk_count self.now.geometry) }
    {
        match self.position {
            Position::Fetch { at } => Some(self.first[at]),
            Position::Look { server } => Some(server),
            Position::Repair { server } => Some(server),
            Position::Whole { server, .. } => Some(server),
            Position::Target { server } => Some(server),
            Position::HasBytes | Position::Ended(_) => None,
        }
    }

    /// The code of the stripe.
    pub fn geometry(&self) -> Geometry
        ensures { result ≡ self.now.geometry }
    {
        self.geometry
    }

    /// The pinned stripe.
    pub fn stripe(&self) -> u32
        ensures { result ≡ (seen_of self.now.aim).stripe }
    {
        self.stripe
    }

    /// The version of the pinned stripe.
    pub fn version(&self) -> Version
        ensures { result.0 ≡ (seen_of self.now.aim).version }
    {
        self.version
    }

    /// Whether the server is asked whether it has its chunk, and not for a part of it.
    pub fn asks_whether(&self) -> bool
        ensures { result ≡ is_look self.now.stage }
    {
        matches!(
            self.position,
            Position::Look { .. } | Position::Target { .. }
        )
    }

    /// Whether the server is asked for the layers with wanted bytes.
    pub fn asks_for_wanted(&self) -> bool
        ensures { result ≡ is_fetch self.now.stage }
    {
        matches!(self.position, Position::Fetch { .. })
    }

    /// Whether all parts have come.
    pub fn has_bytes(&self) -> bool
        ensures { result ≡ has_bytes self.now.stage }
    {
        matches!(self.position, Position::HasBytes)
    }

    /// Whether more servers were found missing than there are parity chunks.
    pub fn is_lost(&self) -> bool
        ensures { result ≡ is_lost self.now.stage }
    {
        matches!(self.position, Position::Ended(Ending::TooMany))
    }

    /// How it has ended without its bytes, if it has.
    #[tactic(auto, using(crate::proofs::CourseKept::ends_so))]
    pub fn ending(&self) -> Option<Ending>
        ensures { result ≡ ending_at self.now.stage }
    {
        match self.position {
            Position::Ended(ending) => Some(ending),
            _ => None,
        }
    }

    /// The servers that were found missing, in the order found.
    pub fn gone(&self) -> &[u32]
        ensures { result.now ≡ self.now.gone }
    {
        &self.gone[..self.count]
    }

    /// The same with what the look and they themselves told of them.
    pub fn missing(&self) -> &[LostChunk]
        ensures servers { map (λ lost. lost.server) result.now ≡ self.now.gone }
        ensures below { All (λ lost. lost.server < chunk_count self.now.geometry) result.now }
        ensures too_many { IsTooMany self.now.stage (map lost_in result.now) }
    {
        &self.missing[..self.count]
    }

    /// The same, moved out. It takes no memory.
    pub fn into_missing(self) -> Vec<LostChunk>
        ensures { IsTooMany self.stage (map lost_in result.items) }
    {
        let Course {
            mut missing,
            count,
            ..
        } = self;
        missing.truncate(count);
        missing
    }

    /// The layers of the part that the server is asked for.
    #[tactic(auto, using(crate::proofs::Layered::below_all, crate::proofs::Layered::below_wanted, crate::proofs::Layered::below_repair))]
    pub fn layers(&self, alloc: Global) -> Result<Vec<u32>, AllocError>
        requires asking { IsAskingStage self.now.stage }
        requires part { is_look self.now.stage ≡ false }
        ensures layers { IfOk result (λ layers. layers.items ≡ layers_asked self.now) }
        ensures below { IfOk result (λ layers.
            All (λ layer. layer < layer_count self.now.geometry) layers.items) }
    {
        let g = self.geometry;
        match self.position {
            Position::Fetch { at } => Ok(wanted_layers(alloc, g, self.aim, self.first[at])?),
            Position::Repair { .. } => Ok(g.repair_layers(alloc, self.missing[0].server)?),
            _ => Ok(all_layers(alloc, g)?),
        }
    }

    /// A part was given, of however many layers.
    #[tactic(auto, using(crate::proofs::CourseKept::course_moved))]
    pub fn told_given(&mut self)
        ensures { (layers : ℕ) → self.new ≡ after_answer self.old (Told.Given layers) }
    {
        self.position = after_given(
            self.geometry,
            self.position,
            &self.first,
            &self.gone[..self.count],
        );
    }

    /// The server has its chunk.
    #[tactic(auto, using(crate::proofs::CourseKept::course_moved))]
    pub fn told_here(&mut self)
        ensures { self.new ≡ after_answer self.old Told.Here }
    {
        self.position = after_here(
            self.geometry,
            self.position,
            &self.first,
            &self.gone[..self.count],
        );
    }

    /// The server gives no chunk.
    #[tactic(auto, using(crate::proofs::CourseKept::one_is_asked))]
    pub fn told_missing(&mut self, found: Found)
        requires { IsAskingStage self.old.stage }
        ensures { self.new ≡ after_answer self.old (Told.Missing found) }
    {
        // That there are fewer parity chunks than servers is needed below.
        let _ = self.geometry.n();
        let Some(server) = self.asked() else {
            unreachable!()
        };
        let placed = self.placed[server as usize];
        self.missing[self.count] = LostChunk {
            server,
            placed,
            found,
        };
        self.gone[self.count] = server;
        self.count += 1;
        self.position = after_missing(
            self.geometry,
            self.position,
            &self.first,
            &self.gone[..self.count],
            found,
        );
    }

    /// Memory was wanting.
    #[tactic(auto, using(crate::proofs::CourseKept::short_ends))]
    pub fn told_short(&mut self)
        requires { IsAskingStage self.old.stage }
        ensures { self.new ≡ after_answer self.old Told.Short }
    {
        self.position = Position::Ended(Ending::Short);
    }
}
