//! The objects that a snapshot keeps.
ghost use Rattle.std.specs.Prelude.{◌≡◌, ◌≤◌, [], map, IfOk, slice_get};
ghost use Rattle.std.specs.Option.{option_map};
ghost use Rattle.snapshot_view.specs.Snapshots.{find_kept};
ghost use Rattle.stripe_stamps.specs.SeenStripes.{seen_in};
ghost use Rattle.snapshot_view.specs.InTime.{HasFound};
ghost use Rattle.snapshot_view.specs.Inside.{IsOfBook};
ghost use Rattle.snapshot_view.specs.Reads.{RepliesFor, Gathers};

use crate::met::{copies_of, those_met};
use crate::read_outcomes::Ending;
use crate::snapshot_read::SnapRead;
use call_steps::Seen;
use std::alloc::{AllocError, Global};
use std::marker::Model;
use store_map::Name;
use version_seal::Opening;

/// An object as it stood.
#[derive(Drop)]
pub(crate) struct Kept {
    pub(crate) name: Name,
    pub(crate) size: u64,
    pub(crate) stripes: Vec<Seen>,
}

impl Model for Kept {
    ghost use Rattle.snapshot_view.specs.Snapshots.{KeptOf};

    ghost Value = { KeptOf };

    ghost use Rattle.snapshot_view.specs.Inside.{kept_in};

    ghost view = { kept_in };
}

// Where the object with this name stands, past the end where there is none.
fn place_of(objects: &[Kept], name: &Name) -> usize
    ensures { find_kept name.now objects.now ≡ slice_get objects.now result }
{
    let mut at = 0;
    while at < objects.len() {
        let one = &objects[at];
        if *name == one.name {
            return at;
        }
        at += 1;
    }
    at
}

// The object with this name, if there is one.
pub(crate) fn find<'a>(objects: &'a [Kept], name: &Name) -> Option<&'a Kept>
    ensures { option_map (λ kept. kept.now) result ≡ find_kept name.now objects.now }
{
    objects.get(place_of(objects, name))
}

impl Kept {
    // A read of a range of its bytes.
    pub(crate) fn read(
        &self,
        alloc: Global,
        opening: Opening,
        offset: u32,
        length: u32,
    ) -> Result<SnapRead, AllocError>
        requires { IsOfBook opening self.now }
        ensures reply { IfOk result (RepliesFor opening.geometry self.now offset length) }
        ensures gathers { IfOk result (λ read. offset ≤ self.now.size → Gathers opening.geometry self.now offset length read) }
        ensures book { IfOk result (λ read. read.gatherings.book ≡ opening) }
        ensures found { IfOk result (HasFound (map seen_in self.now.stripes) []) }
    {
        let start = u64::from(offset);
        if self.size < start {
            return Ok(SnapRead::refused(alloc, opening, Ending::OutRange));
        }
        let end = (start + u64::from(length)).min(self.size);
        let stripe_len = u64::from(opening.geometry().stripe_len());
        let met = those_met(&self.stripes, stripe_len, start, end);
        let stripes = copies_of(alloc, met)?;
        Ok(SnapRead::new(alloc, opening, stripes, start, end))
    }
}
