//! Room in a book for versions, and why there is none, or a version isn't sealed.
ghost use Rattle.std.specs.Prelude.{◌≡◌, ◌<◌, ◌≤◌, ◌+◌, ◌-◌, ◌/◌, suc, length, map, get_or, take, drop};

use crate::book::{ROW, Row, Stamp};
use boxcar::slot::Written;
use boxcar::tag::Tag;
use std::alloc::AllocError;
use std::marker::Model;
use store_map::Version;
use thiserror::Error;

/// Why there is no room for versions.
#[derive(Clone, Copy, Debug, PartialEq, Eq, Error)]
pub enum ReserveError {
    /// The book can't have so many versions.
    #[error("the book has no room for so many versions")]
    Full = 1,
    /// Another thread is making one of the rows at this moment.
    #[error("another thread is making a row of the book")]
    Contended = 2,
    #[error("out of memory")]
    OutOfMemory = 3,
}

impl From<AllocError> for ReserveError {
    ghost use Rattle.std.specs.Prelude.{◌≡◌};
    ghost use Rattle.version_seal.specs.declared.book_room.ReserveError.TheVariants.{OutOfMemory};

    ghost from_gives = { λ _ e. e ≡ OutOfMemory };

    fn from(_: AllocError) -> Self {
        ReserveError::OutOfMemory
    }
}

/// Why a version isn't sealed. Neither comes where a book's one sealer alone seals; no clause says so,
/// since a slot doesn't tell who wrote it.
#[derive(Debug, Drop, Error)]
pub enum SealError {
    /// It was sealed before, as its stamp shows.
    #[error("the version was sealed before")]
    Sealed(Stamp),
    /// Another thread is sealing it at this moment.
    #[error("another thread is sealing the version")]
    Contended,
}

/// Room in one book for so many versions, from one on: their rows are there.
#[derive(Drop)]
pub struct Room {
    first: u64,
    count: u64,
    rows: Vec<Written<Row>>,
    home: Tag,
}

impl Model for Room {
    ghost use Rattle.version_seal.specs.Room.{RoomOf};

    ghost Value = { RoomOf };

    ghost use Rattle.version_seal.specs.Inside.{room_in, IsRoom};

    ghost view = { room_in };

    ghost invariant = { IsRoom };
}

impl Room {
    // The rows are those of the versions' numbers.
    pub(crate) fn new(first: Version, count: u64, rows: Vec<Written<Row>>, home: Tag) -> Room
        requires there { (first.0 + count + 4095) / 4096 < length home.numbers }
        requires rows { map (λ row. row.of) rows.items
            ≡ take ((first.0 + count + 4095) / 4096 - first.0 / 4096) (drop (suc (first.0 / 4096)) home.numbers) }
        ensures { result ≡ record { home = home.numbers; first = first.0; count = count } }
    {
        Room {
            first: first.0,
            count,
            rows,
            home,
        }
    }

    // The first of its versions.
    pub(crate) fn first(&self) -> u64
        ensures { result ≡ self.now.first }
    {
        self.first
    }

    // The row of a version that has room here.
    pub(crate) fn row(&self, version: Version) -> Written<Row>
        requires first { self.now.first ≤ version.0 }
        requires below { version.0 < self.now.first + self.now.count }
        ensures there { suc (version.0 / 4096) < length self.now.home }
        ensures of_book { result.of ≡ get_or self.now.home (suc (version.0 / 4096)) 0 }
    {
        let place = version.0 / ROW - self.first / ROW;
        self.rows[place as usize].again()
    }
}
