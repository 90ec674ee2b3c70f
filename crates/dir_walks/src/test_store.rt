//! A directory with a client, and what it, operator and sweeper do there.

ghost use Rattle.std.specs.Prelude.{◌≡◌, ◌<◌, ◌∷◌, ◌++◌, [], length, None};
ghost use Rattle.version_seal.specs.Sealer.{sealer_at};

use crate::test_caller::{Caller, Refusal, Step};
use std::alloc::{AllocError, Global};
use std::marker::Model;
use store_map::{Actor, Version};
use stripe_dir::{Directory, Seat};
use version_seal::{Book, Sealer};

/// A directory with a client. It has to be left.
pub struct Store<'a> {
    alloc: Global,
    book: &'a Book,
    directory: Directory,
    first: Caller,
}

impl<'a> Model for Store<'a> {
    ghost use Rattle.dir_walks.specs.Stores.{StoreOf};

    ghost Value = { StoreOf };

    ghost use Rattle.dir_walks.specs.StoreInside.{store_in, IsStoreIn};

    ghost view = { store_in };

    ghost invariant = { IsStoreIn };
}

// The last seat.
fn last(seats: &mut Vec<Seat>) -> Seat
    requires { 0 < length seats.old.items }
    ensures { seats.old.items ≡ seats.new.items ++ result ∷ [] }
{
    match seats.pop() {
        Some(seat) => seat,
        None => unreachable!(),
    }
}

impl<'a> Store<'a> {
    /// A directory without objects, whose objects may have `max` bytes each.
    pub fn open(
        alloc: Global,
        book: &'a Book,
        sealer: Sealer,
        max: u32,
    ) -> Result<Store<'a>, AllocError>
        requires free { book.now.script ≡ None }
        requires sealer { sealer ≡ sealer_at book.now 0 }
    {
        let (directory, seats) = Directory::new(alloc, book.opening(), sealer, max, 1, 0)?;
        let mut seats = seats;
        let first = last(&mut seats);
        seats.destroy_empty();
        Ok(Store {
            alloc,
            book,
            directory,
            first: Caller::new(Actor::Client(0), first),
        })
    }

    /// The client leaves.
    pub fn leave(self) {
        let Store {
            alloc: _,
            book: _,
            directory,
            first,
        } = self;
        first.leave();
        drop(directory);
    }

    pub fn directory(&self) -> &Directory {
        &self.directory
    }

    /// A step of the client.
    pub fn first(&mut self, step: Step<'_>) -> Result<(), Refusal> {
        self.first
            .make(&mut self.directory, self.book, self.alloc, step)
    }

    /// The sweeper takes a version.
    pub fn next_garbage(&mut self) -> Option<Version> {
        self.directory.next_garbage()
    }

    /// The sweeper tells that it is swept.
    pub fn swept(&mut self, version: Version) {
        self.directory.swept(version);
    }
}
