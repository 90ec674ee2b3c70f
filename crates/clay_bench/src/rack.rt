//! A chunk server beside a stock of chunks, and its calls as they are timed: each for all versions.

ghost use Rattle.std.specs.Prelude.{◌≡◌, ◌<◌, All, IfOk, IfSome};
ghost use Rattle.clay_grid.specs.Shape.{layer_count};
ghost use Rattle.chunk_server.specs.Valid.{IsFor, MayCome};

use chunk_server::{Fetched, Presence, Server};
use clay_grid::Geometry;
use std::alloc::{AllocError, Global};
use std::marker::Model;
use store_map::Version;
use version_seal::{Book, SealedChunk};

/// How many versions' chunks come to a server in a round.
pub const VERSIONS: u64 = 256;

// Layers that a fetch asks for: as many as the repair of one chunk takes.
const HALF: [u32; 4] = [1, 3, 5, 7];

// One of them alone.
const ONE: [u32; 1] = [5];

/// A call of the server, made once for each version, but a wipe once for all.
#[derive(Clone, Copy)]
pub enum ServerCall {
    Prepare,
    Has,
    Settle,
    FetchOne,
    FetchHalf,
    Discard,
    Install,
    Wipe,
}

/// A chunk server beside chunks for it.
#[derive(Drop)]
pub struct Rack<'a> {
    alloc: Global,
    chunks: &'a [SealedChunk],
    server: Server,
    waiting: Vec<SealedChunk>,
}

impl<'a> Model for Rack<'a> {
    ghost use Rattle.clay_bench.specs.Racks.{RackOf};

    ghost Value = { RackOf };

    ghost use Rattle.clay_bench.specs.Inside.{rack_in, IsRackIn};

    ghost view = { rack_in };

    ghost invariant = { IsRackIn };
}

// The same chunk.
fn copy(alloc: Global, geometry: Geometry, chunk: &SealedChunk) -> Result<SealedChunk, AllocError>
    requires { chunk.now.geometry ≡ geometry }
    ensures { IfOk result (λ copied. copied ≡ chunk.now) }
{
    let bytes = Vec::from_slice(alloc, chunk.bytes())?;
    let stamp = chunk.stamp().copy();
    Ok(SealedChunk::new(geometry, stamp, chunk.server(), bytes))
}

// Takes a chunk of its own.
fn take(server: &mut Server, call: ServerCall, chunk: SealedChunk) -> Result<(), AllocError>
    requires { MayCome server.old chunk }
    ensures number { server.new.number ≡ server.old.number }
    ensures book { server.new.book ≡ server.old.book }
{
    if let ServerCall::Prepare = call {
        let _ = server.prepare(chunk)?;
        return Ok(());
    }
    let _ = server.install(chunk)?;
    Ok(())
}

// How many bytes came.
fn fetch(server: &mut Server, version: Version, layers: &[u32]) -> Result<u64, AllocError>
    requires eight { layer_count server.old.book.geometry ≡ 8 }
    requires layers { All (λ layer. layer < 8) layers.now }
    ensures number { server.new.number ≡ server.old.number }
    ensures book { server.new.book ≡ server.old.book }
{
    match server.fetch(version, layers)? {
        Fetched::Part(part) => Ok(part.bytes().len() as u64),
        Fetched::Missing { found: _ } => Ok(0),
    }
}

// A call for one version that takes no chunk.
fn ask(server: &mut Server, call: ServerCall, version: Version) -> Result<u64, AllocError>
    requires { layer_count server.old.book.geometry ≡ 8 }
    ensures number { server.new.number ≡ server.old.number }
    ensures book { server.new.book ≡ server.old.book }
{
    match call {
        ServerCall::Has => Ok(u64::from(server.has(version) == Presence::Here)),
        ServerCall::FetchOne => fetch(server, version, &ONE),
        ServerCall::FetchHalf => fetch(server, version, &HALF),
        ServerCall::Settle => {
            server.settle(version);
            Ok(0)
        }
        ServerCall::Discard => {
            server.discard(version);
            Ok(0)
        }
        ServerCall::Prepare | ServerCall::Install | ServerCall::Wipe => Ok(0),
    }
}

impl<'a> Rack<'a> {
    /// A server of the book for these chunks, which are its own.
    pub fn new(alloc: Global, book: &Book, chunks: &'a [SealedChunk]) -> Rack<'a>
        requires code { layer_count book.now.geometry ≡ 8 }
        requires own { All (IsFor book.now.home 0 book.now.geometry) chunks.now }
    {
        Rack {
            alloc,
            chunks,
            server: Server::new(alloc, 0, book.opening()),
            waiting: Vec::new(alloc),
        }
    }

    // The next chunk that waits.
    fn next(&mut self) -> Option<SealedChunk>
        ensures own { IfSome result (MayCome self.old.server) }
        ensures same { self.new.server ≡ self.old.server }
    {
        self.waiting.pop()
    }

    // One more waits.
    fn put_by(&mut self, chunk: SealedChunk) -> Result<(), AllocError>
        requires { MayCome self.old.server chunk }
        ensures same { self.new.server ≡ self.old.server }
        ensures chunks { self.new.chunks ≡ self.old.chunks }
    {
        self.waiting.push(chunk)?;
        Ok(())
    }

    /// Makes a chunk of each version, which waits to be prepared or installed.
    pub fn stock(&mut self) -> Result<(), AllocError> {
        for chunk in self.chunks {
            let chunk = copy(self.alloc, self.server.geometry(), chunk)?;
            self.put_by(chunk)?;
        }
        Ok(())
    }

    /// Makes a call for each version, and tells how many are held by a `Has`, or how many bytes came
    /// by a fetch.
    pub fn make(&mut self, call: ServerCall) -> Result<u64, AllocError> {
        match call {
            ServerCall::Prepare | ServerCall::Install => self.take_all(call),
            ServerCall::Wipe => Ok(self.wipe()),
            _ => self.ask_all(call),
        }
    }

    fn take_all(&mut self, call: ServerCall) -> Result<u64, AllocError> {
        for _version in 0..VERSIONS {
            if let Some(chunk) = self.next() {
                take(&mut self.server, call, chunk)?;
            }
        }
        Ok(0)
    }

    fn ask_all(&mut self, call: ServerCall) -> Result<u64, AllocError> {
        let mut came = 0u64;
        for version in 0..VERSIONS {
            came = came.saturating_add(ask(&mut self.server, call, Version(version))?);
        }
        Ok(came)
    }

    fn wipe(&mut self) -> u64 {
        self.server.wipe();
        0
    }
}
