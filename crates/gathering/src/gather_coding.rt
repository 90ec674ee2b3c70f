//! The bytes of a gathering that has all its parts.
ghost use Rattle.std.specs.Prelude.{◌≡◌, ◌<◌, ◌≤◌, ◌++◌, true, false, [], ◌∷◌, None, Some, IfOk, OnOk, length, map, get_or};
ghost use Rattle.clay_grid.specs.Shape.{chunk_count};
ghost use Rattle.gathering.specs.Aims.{target_of};
ghost use Rattle.gathering.specs.Courses.{has_bytes};
ghost use Rattle.gathering.specs.Parts.{is_there};
ghost use Rattle.gathering.specs.Gathers.{AreItsMade, GivesItsBytes};
ghost use Rattle.gathering.specs.Made.{Appends, AppendsChunk, IsPieceOf, bytes_between};

use crate::gather::{Gather, empty_shelf};
use call_steps::Need;
use clay_model::Coder;
use std::alloc::{AllocError, Global};
use std::thread::Threads;

impl Gather {
    ghost use Rattle.gathering.specs.Gathers.{need_of};

    /// Makes the missing chunks anew, where there are some, and hands over the bytes: those of a part
    /// come behind the bytes that were there, a chunk in their place. It makes no step.
    pub fn on_coder<R: Threads + Sync, C: Coder>(
        self,
        rt: &R,
        coder: &C,
        bytes: &mut Vec<u8>,
    ) -> Result<(), AllocError>
        requires { need_of self ≡ Need.Coder }
        ensures { OnOk result (GivesItsBytes self bytes.old.items bytes.new.items) }
    {
        self.give(rt, coder, bytes)
    }

    fn give<R: Threads + Sync, C: Coder>(
        &self,
        rt: &R,
        coder: &C,
        bytes: &mut Vec<u8>,
    ) -> Result<(), AllocError>
        requires { has_bytes self.now.course.stage ≡ true }
        ensures { OnOk result (GivesItsBytes self.now bytes.old.items bytes.new.items) }
    {
        let made = self.make(rt, coder)?;
        match self.course.target() {
            Some(target) => {
                *bytes = chunk_at(made, target);
                Ok(())
            }
            None => self.append_range(&made, bytes),
        }
    }

    // The chunks of the missing servers, each in its server's place.
    fn make<R: Threads + Sync, C: Coder>(
        &self,
        rt: &R,
        coder: &C,
    ) -> Result<Vec<Option<Vec<u8>>>, AllocError>
        requires { has_bytes self.now.course.stage ≡ true }
        ensures { IfOk result (λ made. AreItsMade self.now made.items) }
    {
        let missing = self.course.missing();
        match missing.len() {
            0 => empty_shelf(*self.helpers.allocator(), self.course.geometry().n()),
            1 => self.rebuild(rt, coder, missing[0].server),
            _ => self.recover(rt, coder),
        }
    }

    // That of the one missing server, from the repair layers of all others.
    fn rebuild<R: Threads + Sync, C: Coder>(
        &self,
        rt: &R,
        coder: &C,
        lost: u32,
    ) -> Result<Vec<Option<Vec<u8>>>, AllocError>
        requires parts { has_bytes self.now.course.stage ≡ true }
        requires only { self.now.course.gone ≡ lost ∷ [] }
        requires below { lost < chunk_count self.now.course.geometry }
        ensures { IfOk result (λ made. AreItsMade self.now made.items) }
    {
        let alloc = *self.helpers.allocator();
        let geometry = self.course.geometry();
        let servers = geometry.n();
        let chunk = coder.rebuild(rt, alloc, geometry, lost, &self.helpers)?;
        let mut made = empty_shelf(alloc, servers)?;
        made[lost as usize] = Some(chunk);
        Ok(made)
    }

    // All chunks, from as many whole ones as there are data chunks.
    fn recover<R: Threads + Sync, C: Coder>(
        &self,
        rt: &R,
        coder: &C,
    ) -> Result<Vec<Option<Vec<u8>>>, AllocError>
        requires parts { has_bytes self.now.course.stage ≡ true }
        requires many { 2 ≤ length self.now.course.gone }
        ensures { IfOk result (λ made. AreItsMade self.now made.items) }
    {
        let alloc = *self.helpers.allocator();
        let geometry = self.course.geometry();
        let _servers = geometry.n();
        let chunks = coder.recover(rt, alloc, geometry, &self.helpers)?;
        shelved(alloc, chunks)
    }

    // The wanted bytes come behind those that are there, data chunk by data chunk.
    fn append_range(&self, made: &[Option<Vec<u8>>], bytes: &mut Vec<u8>) -> Result<(), AllocError>
        requires parts { has_bytes self.now.course.stage ≡ true }
        requires made { AreItsMade self.now made.now }
        requires range { target_of self.now.course.aim ≡ None }
        ensures { OnOk result (GivesItsBytes self.now bytes.old.items bytes.new.items) }
    {
        for chunk in 0..self.course.geometry().k() {
            self.append_chunk(made, bytes, chunk)?;
        }
        Ok(())
    }

    // Those of one data chunk.
    fn append_chunk(
        &self,
        made: &[Option<Vec<u8>>],
        bytes: &mut Vec<u8>,
        chunk: u32,
    ) -> Result<(), AllocError>
        requires parts { has_bytes self.now.course.stage ≡ true }
        requires made { AreItsMade self.now made.now }
        requires range { target_of self.now.course.aim ≡ None }
        requires there { chunk < self.now.course.geometry.data_count }
        ensures { OnOk result (AppendsChunk self.now.course.geometry self.now.stamp.content self.now.course.aim chunk bytes.old.items bytes.new.items) }
    {
        let long = self.course.geometry().chunk_len();
        let (start, end) = self.course.bounds();
        let first = chunk * long;
        let from = start.max(first);
        let to = end.min(first + long);
        if to <= from {
            return Ok(());
        }
        self.append_piece(made, bytes, chunk, from - first, to - first)
    }

    // From one of its bytes up to another: of the chunk that was made anew, or of the layers that came.
    fn append_piece(
        &self,
        made: &[Option<Vec<u8>>],
        bytes: &mut Vec<u8>,
        chunk: u32,
        from: u32,
        to: u32,
    ) -> Result<(), AllocError>
        requires parts { has_bytes self.now.course.stage ≡ true }
        requires made { AreItsMade self.now made.now }
        requires wanted { IsPieceOf self.now.course.geometry self.now.course.aim chunk from to }
        ensures { OnOk result (Appends self.now.course.geometry self.now.stamp.content chunk from to bytes.old.items bytes.new.items) }
    {
        let width = self.course.geometry().w();
        if let Some(whole) = &made[chunk as usize] {
            return append(bytes, whole, from, to);
        }
        match &self.wanted[chunk as usize] {
            Some(part) => append(bytes, part, from % width, from % width + (to - from)),
            None => unreachable!(),
        }
    }
}

// Some of these bytes come behind those that are there.
fn append(bytes: &mut Vec<u8>, source: &[u8], from: u32, to: u32) -> Result<(), AllocError>
    requires order { from ≤ to }
    requires within { to ≤ length source.now }
    ensures { OnOk result (bytes.new.items ≡ bytes.old.items ++ bytes_between from to source.now) }
{
    bytes.extend_from_slice(&source[from as usize..to as usize])?;
    Ok(())
}

// Each chunk in its server's place.
#[tactic(auto, using(std::proofs::lemmas::List::map_push))]
fn shelved(alloc: Global, chunks: Vec<Vec<u8>>) -> Result<Vec<Option<Vec<u8>>>, AllocError>
    ensures { IfOk result (λ shelf. shelf.items ≡ map Some chunks.items) }
{
    let mut shelf = Vec::with_capacity(alloc, chunks.len())?;
    for chunk in chunks {
        shelf.push(Some(chunk))?;
    }
    Ok(shelf)
}

// The chunk in a server's place.
fn chunk_at(mut made: Vec<Option<Vec<u8>>>, server: u32) -> Vec<u8>
    requires { is_there server made.items ≡ true }
    ensures { get_or made.items server None ≡ Some result }
{
    match made.swap_remove(server as usize) {
        Some(chunk) => chunk,
        None => unreachable!(),
    }
}
