//! The directory behind a lock.
ghost use Rattle.std.specs.Prelude.{◌≡◌};
ghost use Rattle.store_core.specs.ActPlace.{ActPlace};
ghost use Rattle.thread_laws.specs.AtDirectory.{StandsAtDirectory};
ghost use Rattle.thread_laws.specs.Noted.{made_in};
ghost use Rattle.thread_laws.specs.Operated.{IsOperated};

use std::marker::Model;
use stripe_dir::Directory;
use turn_lock::Historied;
use version_seal::Opening;

/// A step of the store's definitions with the stamps that it drew. No value of it is made.
pub struct DirectoryNote {
    nothing: (),
}

impl Model for DirectoryNote {
    ghost use Rattle.thread_laws.specs.Noted.{Noted};
    ghost use Rattle.thread_laws.specs.SomeStep.{some_note};

    ghost Value = { Noted };

    ghost view = { λ _. some_note };

    ghost invariant = { λ _. Unit {0} };
}

/// What never changes about the directory: the opening of the book of its versions, the longest object,
/// and how many clients and repairers have turns at it. No value of it is made.
pub struct DirectoryIdentity {
    pub opening: Opening,
    pub max: u32,
    pub clients: u32,
    pub repairers: u32,
}

/// The directory, the longest object, and how many clients and repairers have turns at it.
#[derive(Drop)]
pub struct DirectoryBox {
    pub directory: Directory,
    pub max: u32,
    pub clients: u32,
    pub repairers: u32,
}

impl Historied for DirectoryBox {
    type Fixed = DirectoryIdentity;

    type Entry = DirectoryNote;

    ghost fixed_part = { λ b. record { opening = b.directory.book; max = b.max; clients = b.clients; repairers = b.repairers } };

    ghost stands_for = { λ b log. StandsAtDirectory (record { clients = b.clients; repairers = b.repairers }) b.max b.directory log
        × IsOperated b.directory.book.script ActPlace.Directory (made_in log) };
}
