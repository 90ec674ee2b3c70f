//! A version whose chunks go to their servers.
ghost use Rattle.std.specs.Prelude.{◌≡◌, ◌<◌, ◌≤◌, ◌∷◌, ◌++◌, [], map, length, true, false, IfOk, OnErr, vec_capacity};
ghost use Rattle.clay_grid.specs.Shape.{chunk_count};
ghost use Rattle.clay_model.specs.Chunks.{contents};
ghost use Rattle.clay_model.specs.Code.{Codes};
ghost use Rattle.store_core.specs.Told.{Told};
ghost use Rattle.store_core.specs.Act.{ServerStep};
ghost use Rattle.store_core.specs.Server.{at_server};
ghost use Rattle.store_core.specs.Placements.{skipped_count, skipped_from};
ghost use Rattle.chunk_server.specs.Core.{core_of};
ghost use Rattle.store_core.specs.Told.{lost_in};
ghost use Rattle.write_course.specs.Chunks.{new_placing, with_placement, IsAfterPrepare};

use chunk_server::Server;
use clay_grid::Geometry;
use std::alloc::{AllocError, Global};
use std::marker::Model;
use std::vec::IntoIter;
use store_map::{Found, LostChunk, Placement};
use version_seal::{SealedChunk, Stamp};

/// A version whose chunks go to their servers, one after another.
#[derive(Drop)]
pub(crate) struct Placing {
    geometry: Geometry,
    stamp: Stamp,
    // the chunks of the servers that weren't asked yet
    chunks: IntoIter<Vec<u8>, Global>,
    // what the servers answered
    row: Vec<Placement>,
    // those of them that were away
    away: Vec<LostChunk>,
}

impl Model for Placing {
    ghost use Rattle.write_course.specs.Chunks.{PlacingOf};

    ghost Value = { PlacingOf };

    ghost use Rattle.write_course.specs.PlacingInside.{placing_in, IsPlacing};

    ghost view = { placing_in };

    ghost invariant = { IsPlacing };
}

// Notes how a server took its chunk.
fn note_placement(
    row: &mut Vec<Placement>,
    away: &mut Vec<LostChunk>,
    server: u32,
    placement: Placement,
)
    requires next { server ≡ length row.old.items }
    requires row_room { length row.old.items < vec_capacity row.old }
    requires away_room { length away.old.items < vec_capacity away.old }
    requires away { map lost_in away.old.items ≡ skipped_from 0 row.old.items }
    ensures row { row.new.items ≡ row.old.items ++ placement ∷ [] }
    ensures away { map lost_in away.new.items ≡ skipped_from 0 row.new.items }
    ensures row_same { vec_capacity row.new ≡ vec_capacity row.old }
    ensures away_same { vec_capacity away.new ≡ vec_capacity away.old }
{
    row.push_reserved(placement);
    if let Placement::Skipped(downs) = placement {
        away.push_reserved(LostChunk {
            server,
            placed: placement,
            found: Found::Away { downs },
        });
    }
}

impl Placing {
    /// The version of a stamp, with all chunks of its codeword. No server was asked yet.
    pub(crate) fn new(
        alloc: Global,
        geometry: Geometry,
        stamp: Stamp,
        chunks: Vec<Vec<u8>>,
    ) -> Result<Placing, AllocError>
        requires { Codes geometry stamp.content (contents chunks.items) }
        ensures { IfOk result (λ placing. placing ≡ new_placing geometry stamp) }
    {
        let servers = geometry.n() as usize;
        let row = Vec::with_capacity(alloc, servers)?;
        let away = Vec::with_capacity(alloc, servers)?;
        Ok(Placing {
            geometry,
            stamp,
            chunks: chunks.into_iter(),
            row,
            away,
        })
    }

    /// The server that is asked next.
    pub(crate) fn server(&self) -> u32
        ensures server { result ≡ length self.now.row }
        ensures within { result ≤ chunk_count self.now.geometry }
    {
        // That the number of servers fits is needed below.
        let _ = self.geometry.n();
        self.row.len() as u32
    }

    /// How many servers were away.
    pub(crate) fn away(&self) -> usize
        ensures { result ≡ skipped_count self.now.row }
    {
        self.away.len()
    }

    /// The next chunk goes to its server, which answers how it took the chunk.
    pub(crate) fn prepare(self, s: &mut Server) -> Result<(Placing, Placement), AllocError>
        requires asked { s.old.number ≡ length self.row }
        requires left { length self.row < chunk_count self.geometry }
        requires home { s.old.book.home ≡ self.stamp.home }
        requires code { s.old.book.geometry ≡ self.geometry }
        ensures ok { IfOk result (λ made. IsAfterPrepare self (core_of s.old) (core_of s.new) made.0) }
        ensures told { IfOk result (λ made. (core_of s.new, Told.Prepared made.1)
            ≡ at_server false (ServerStep.Prepare self.stamp.version) (core_of s.old)) }
        ensures err { OnErr result ((core_of s.new, Told.Short)
            ≡ at_server true (ServerStep.Prepare self.stamp.version) (core_of s.old)) }
        ensures number { s.new.number ≡ s.old.number }
        ensures book { s.new.book ≡ s.old.book }
    {
        let server = self.server();
        let Placing {
            geometry,
            stamp,
            mut chunks,
            mut row,
            mut away,
        } = self;
        let Some(bytes) = chunks.next() else {
            unreachable!()
        };
        let chunk = SealedChunk::new(geometry, stamp.copy(), server, bytes);
        let placement = s.prepare(chunk)?;
        note_placement(&mut row, &mut away, server, placement);
        let placing = Placing {
            geometry,
            stamp,
            chunks,
            row,
            away,
        };
        Ok((placing, placement))
    }

    /// What the servers answered.
    pub(crate) fn into_row(self) -> Vec<Placement>
        ensures { result.items ≡ self.row }
    {
        self.row
    }

    /// The servers that were away.
    pub(crate) fn into_away(self) -> Vec<LostChunk>
        ensures { map lost_in result.items ≡ skipped_from 0 self.row }
    {
        self.away
    }
}
