//! A chunk server beside the book of its versions.

ghost use Rattle.std.specs.Prelude.{◌≡◌, ◌<◌, ◌∷◌, [], All, IfOk};
ghost use Rattle.store_tests.specs.Small.{IsSmall};

use crate::sealed_chunk_tests::{chunk, stamps};
use crate::server_tests::Step;
use chunk_server::{Fetched, Installed, Server};
use std::alloc::{AllocError, Global};
use std::marker::Model;
use std::test::Fail;
use store_map::{Placement, Version};
use version_seal::{Book, SealedChunk, Sealer, Stamp};

/// Server 1 of a small code, and versions of one stripe.
#[derive(Drop)]
pub struct Shelf<'a> {
    book: &'a Book,
    stamps: Vec<Stamp>,
    server: Server,
}

impl<'a> Model for Shelf<'a> {
    ghost use Rattle.store_tests.specs.Shelf.{ShelfOf};

    ghost Value = { ShelfOf };

    ghost use Rattle.store_tests.specs.Shelf.{IsShelf};

    ghost view = { λ a. record { book = a.book.now; stamps = a.stamps.items; server = a.server } };

    ghost invariant = { λ a. IsShelf (record { book = a.book.now; stamps = a.stamps.items; server = a.server }) };
}

// A step that takes no memory.
fn change(server: &mut Server, step: Step<'_>)
    ensures number { server.new.number ≡ server.old.number }
    ensures book { server.new.book ≡ server.old.book }
{
    match step {
        Step::Settle(version) => server.settle(Version(version)),
        Step::Discard(version) => server.discard(Version(version)),
        Step::Wipe => server.wipe(),
        Step::Down => server.down(),
        Step::Up => server.up(),
        _ => {}
    }
}

impl<'a> Shelf<'a> {
    ghost use Rattle.chunk_server.specs.Valid.{IsFor};
    ghost use Rattle.store_tests.specs.Small.{small_code};

    /// With ten versions of the stripe.
    pub fn new(alloc: Global, book: &'a Book, sealer: Sealer) -> Result<Shelf<'a>, Fail>
        requires book { IsSmall book.now }
        requires sealer { sealer.home ≡ book.now.home }
    {
        Ok(Shelf {
            book,
            stamps: stamps(alloc, book, sealer, 10)?,
            server: Server::new(alloc, 1, book.opening()),
        })
    }

    pub fn server(&self) -> &Server {
        &self.server
    }

    // The server's chunk of a version.
    fn sealed(&self, alloc: Global, version: u64) -> Result<SealedChunk, Fail>
        ensures { IfOk result (IsFor self.now.book.home 1 small_code) }
    {
        match self.stamps.get(version as usize) {
            Some(stamp) => chunk(alloc, self.book, stamp, 1),
            None => Err(AllocError)?,
        }
    }

    fn place(&mut self, chunk: SealedChunk) -> Result<Placement, Fail>
        requires { IsFor self.old.book.home 1 small_code chunk }
    {
        Ok(self.server.prepare(chunk)?)
    }

    fn add(&mut self, chunk: SealedChunk) -> Result<Installed, Fail>
        requires { IsFor self.old.book.home 1 small_code chunk }
    {
        Ok(self.server.install(chunk)?)
    }

    /// Prepares a version.
    pub fn prepare(&mut self, alloc: Global, version: u64) -> Result<Placement, Fail> {
        let chunk = self.sealed(alloc, version)?;
        self.place(chunk)
    }

    /// Installs a version.
    pub fn install(&mut self, alloc: Global, version: u64) -> Result<Installed, Fail> {
        let chunk = self.sealed(alloc, version)?;
        self.add(chunk)
    }

    /// Makes a step that takes no memory.
    pub fn change(&mut self, step: Step<'_>) {
        change(&mut self.server, step);
    }

    /// Fetches the layers that there are.
    pub fn fetch(&mut self, version: u64, layers: &[u32]) -> Result<Fetched, Fail>
        requires { All (λ layer. layer < 4) layers.now }
    {
        Ok(self.server.fetch(Version(version), layers)?)
    }
}
