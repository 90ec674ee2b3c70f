//! Snapshots, and reads of them.
ghost use Rattle.std.specs.Prelude.{◌≡◌, ◌≤◌, [], map, Some, length, IfOk};
ghost use Rattle.stripe_stamps.specs.SeenStripes.{seen_in};
ghost use Rattle.snapshot_view.specs.InTime.{HasFound};
ghost use Rattle.snapshot_view.specs.Snapshots.{KeptOf, find_kept};
ghost use Rattle.snapshot_view.specs.Reads.{RepliesAs, Gathers};

use crate::kept::{Kept, find};
use crate::read_outcomes::Ending;
use crate::snapshot_read::SnapRead;
use dir_tickets::Ticket;
use std::alloc::{AllocError, Global};
use std::marker::Model;
use store_map::{Name, Point};
use version_seal::Opening;

/// All objects as they stood at one moment. A pass for each pins its versions, so their chunks stay
/// where they are held. It has to be released.
pub struct Snapshot {
    pub(crate) alloc: Global,
    pub(crate) opening: Opening,
    // of the looks
    pub(crate) number: u32,
    pub(crate) objects: Vec<Kept>,
    // one for each object, then those that no object needed
    pub(crate) tickets: Vec<Ticket>,
    // none yet, with the room for one of each object
    pub(crate) points: Vec<Point>,
}

impl Model for Snapshot {
    ghost use Rattle.snapshot_view.specs.Snapshots.{SnapshotOf};

    ghost Value = { SnapshotOf };

    ghost use Rattle.snapshot_view.specs.Inside.{snapshot_in, IsSnapshotIn};

    ghost view = { snapshot_in };

    ghost invariant = { IsSnapshotIn };
}

impl Snapshot {
    /// How many objects it has.
    pub fn objects(&self) -> usize
        ensures { result ≡ length self.now.objects }
    {
        self.objects.len()
    }

    /// A read of a range of an object's bytes. Nothing is asked yet.
    pub fn read(&self, name: &Name, offset: u32, length: u32) -> Result<SnapRead, AllocError>
        ensures reply { IfOk result (RepliesAs self.now name.now offset length) }
        ensures gathers { IfOk result (λ read. (kept : KeptOf) → find_kept name.now self.now.objects ≡ Some kept → offset ≤ kept.size
            → Gathers self.now.book.geometry kept offset length read) }
        ensures book { IfOk result (λ read. read.gatherings.book ≡ self.now.book) }
        ensures found { IfOk result (λ read. (kept : KeptOf) → find_kept name.now self.now.objects ≡ Some kept
            → HasFound (map seen_in kept.stripes) [] read) }
    {
        match find(&self.objects, name) {
            Some(kept) => kept.read(self.alloc, self.opening.copy(), offset, length),
            None => Ok(SnapRead::refused(self.alloc, self.opening.copy(), Ending::NoSuch)),
        }
    }
}
