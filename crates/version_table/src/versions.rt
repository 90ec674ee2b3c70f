//! Versions by their numbers: where each stands, its placements and pins, and which are garbage.
ghost use Rattle.std.specs.Prelude.{◌≡◌, ◌+◌, ◌-◌, ◌<◌, ◌≤◌, ◌↔◌, ◌∷◌, [], length, map, zip, slice_get, All, vec_len, ◌^◌, ◌++◌, replicate, OnOk, IfOk, is_some, get_or, IsTrue};
ghost use Rattle.std.specs.List.Sorted.{IsPermutation};
ghost use Rattle.std.specs.BinaryHeap.{heap_items, heap_len, heap_capacity, IsHeap};
ghost use Rattle.store_core.specs.Lists.{change_at};
ghost use Rattle.store_core.specs.Look.{set_standing, placed_of};
ghost use Rattle.store_core.specs.Lookups.{holds_standing, is_current_standing};
ghost use Rattle.store_core.specs.Directory.{Standing as CoreStanding};
ghost use Rattle.store_core.specs.Commit.{place_all};
ghost use Rattle.version_table.specs.Counts.{unpinned, pinned_more, CanTakeAll};
ghost use Rattle.version_table.specs.Table.{number_in, least_first};
ghost use Rattle.version_table.specs.TableSteps.{version_standing, version_current, version_swept, drawn_versions, IsUnreplaced, IsThereUnreplaced, first_free, taken_from, placed_anew_at, placed_anew_by};
ghost use Rattle.version_table.specs.Known.{is_known, IsKnown};

use crate::told_versions::Standing;
use crate::version_rows::Rows;
use dir_parts::Pinned;
use std::alloc::{AllocError, Global};
use std::cmp::Reverse;
use std::collections::BinaryHeap;
use std::marker::Model;
use store_map::{Actor, Placement};

/// All versions by their numbers, and the garbage among them. Contracts see every version that ever
/// was; what is kept when it runs is a row of each that isn't swept, and how many there are. A call
/// that asks that a version is known asks that it isn't swept.
pub struct Versions {
    rows: Rows,
    garbage: BinaryHeap<Reverse<u64>>,
}

// By hand, since a derived one is proved again in each crate that drops the type.
impl Drop for Versions {
    fn drop(self) {
        let Versions {
            rows: _rows,
            garbage: _garbage,
        } = self;
    }
}

impl Model for Versions {
    ghost use Rattle.version_table.specs.Table.{Table};

    ghost Value = { Table };

    ghost use Rattle.version_table.specs.Table.{table_in, IsTable};

    ghost view = { table_in };

    ghost invariant = { IsTable };
}

// One number more, where there is room for it.
fn push_reserved(garbage: &mut BinaryHeap<Reverse<u64>>, number: u64)
    requires { heap_len garbage.old < heap_capacity garbage.old }
    ensures capacity { heap_capacity garbage.old ≤ heap_capacity garbage.new }
    ensures order { IsHeap least_first (heap_items garbage.old) → IsHeap least_first (heap_items garbage.new) }
    ensures items { IsPermutation (number ∷ map number_in (heap_items garbage.old)) (map number_in (heap_items garbage.new)) }
{
    match garbage.push(Reverse(number)) {
        Ok(()) => {}
        Err(_) => unreachable!(),
    }
}

impl Versions {
    /// How many versions there are.
    pub fn len(&self) -> usize
        ensures { result ≡ length self.now.listed }
    {
        self.rows.len()
    }

    /// A new version of each of these stripes, drawn by a call with these pins.
    pub fn draw(&mut self, actor: Actor, number: u32, pins: &[Pinned], first: u32, count: u32)
        requires room { count ≤ self.old.room }
        requires fits { first + count ≤ 2 ^ 32 }
        ensures listed { self.new.listed ≡ self.old.listed ++ drawn_versions actor number pins.now first count }
        ensures pins { self.new.pins ≡ self.old.pins ++ replicate count 0 }
    {
        self.rows.draw(actor, number, pins, first, count);
    }

    /// Takes the room for so many versions more, and that in which they are kept once they are garbage.
    pub fn reserve(&mut self, count: u32) -> Result<(), AllocError>
        ensures listed { self.new.listed ≡ self.old.listed }
        ensures pins { self.new.pins ≡ self.old.pins }
        ensures ok { OnOk result (count ≤ self.new.room) }
    {
        self.rows.reserve(count as usize)?;
        let all = self.rows.unswept().saturating_add(count as usize);
        let more = all.saturating_sub(self.garbage.len());
        self.garbage.reserve(more)?;
        Ok(())
    }

    /// No versions.
    pub fn new(alloc: Global) -> Versions
        ensures listed { result.listed ≡ [] }
        ensures pins { result.pins ≡ [] }
    {
        Versions {
            rows: Rows::new(alloc),
            garbage: BinaryHeap::new(alloc),
        }
    }

    /// The version is superseded, and is garbage where no pass pins it.
    pub fn supersede(&mut self, number: u64)
        requires { IsKnown self.old.listed number }
        ensures listed { self.new.listed ≡ change_at number (version_standing CoreStanding.Superseded) self.old.listed }
        ensures pins { self.new.pins ≡ self.old.pins }
    {
        if self.rows.stand(number, Standing::Superseded) {
            push_reserved(&mut self.garbage, number);
        }
    }

    /// A pass pins the version no more. It is garbage where it is superseded and no other does.
    pub fn unpin(&mut self, number: u64)
        requires { number < length self.old.listed }
        ensures listed { self.new.listed ≡ self.old.listed }
        ensures pins { self.new.pins ≡ change_at number (λ count. count - 1) self.old.pins }
    {
        if self.rows.unpin(number) {
            push_reserved(&mut self.garbage, number);
        }
    }

    /// Makes a drawn version current: a read may pin it from now on. Its chunks lie as the row of
    /// placements tells.
    pub fn make_current(&mut self, number: u64, row: Vec<Placement>)
        requires known { IsKnown self.old.listed number }
        requires other { IsUnreplaced self.old.listed number }
        ensures listed { self.new.listed ≡ change_at number (version_current row.items) self.old.listed }
        ensures pins { self.new.pins ≡ self.old.pins }
    {
        self.rows.place(number, row);
    }

    /// These versions are superseded, one after the other.
    pub fn supersede_all(&mut self, numbers: &[u64])
        requires { All (IsKnown self.old.listed) numbers.now }
        ensures listed { self.new.listed ≡ set_standing CoreStanding.Superseded numbers.now self.old.listed }
        ensures pins { self.new.pins ≡ self.old.pins }
    {
        for number in numbers {
            self.supersede(*number);
        }
    }

    /// A pass pins these versions no more.
    pub fn unpin_all(&mut self, pins: &[Pinned])
        requires { All (λ pin. pin.version < length self.old.listed) pins.now }
        ensures listed { self.new.listed ≡ self.old.listed }
        ensures pins { self.new.pins ≡ unpinned pins.now self.old.pins }
    {
        for pin in pins {
            let number = pin.version;
            self.unpin(number);
        }
    }

    /// Makes what a call drew current, one version after the other, each with its row of placements.
    pub fn make_all_current(&mut self, numbers: &[u64], rows: Vec<Vec<Placement>>)
        requires rows { vec_len rows ≡ length numbers.now }
        requires known { All (IsKnown self.old.listed) numbers.now }
        requires drawn { All (λ number. IsThereUnreplaced self.old.listed number) numbers.now }
        ensures listed { self.new.listed ≡ place_all (zip numbers.now (map (λ row. row.items) rows.items)) self.old.listed }
        ensures pins { self.new.pins ≡ self.old.pins }
    {
        let mut rows = rows.into_iter();
        for number in numbers {
            match rows.next() {
                Some(row) => self.make_current(*number, row),
                None => unreachable!(),
            }
        }
    }

    /// Takes the least version that is superseded and that nobody pins.
    pub fn take_least(&mut self) -> Option<u64>
        ensures taken { result ≡ first_free self.old }
        ensures listed { self.new.listed ≡ taken_from result self.old.listed }
        ensures pins { self.new.pins ≡ self.old.pins }
    {
        match self.garbage.pop() {
            Some(Reverse(number)) => {
                let _ = self.rows.stand(number, Standing::Taken);
                Some(number)
            }
            None => None,
        }
    }

    /// Whether there is a version to take.
    pub fn has_garbage(&self) -> bool
        ensures { result ≡ is_some (first_free self.now) }
    {
        !self.garbage.is_empty()
    }

    /// A version that was taken is swept, and gives its memory back; nothing where it wasn't.
    pub fn sweep(&mut self, number: u64)
        ensures listed { self.new.listed ≡ change_at number version_swept self.old.listed }
        ensures pins { self.new.pins ≡ self.old.pins }
    {
        self.rows.sweep(number);
    }

    /// The chunk of a version was placed anew at a server, at this epoch.
    pub fn place_anew(&mut self, number: u64, server: u32, epoch: u64)
        requires { number < length self.old.listed }
        ensures listed { self.new.listed ≡ placed_anew_at server epoch number self.old.listed }
        ensures pins { self.new.pins ≡ self.old.pins }
    {
        self.rows.place_anew(number, server as usize, epoch);
    }

    /// The same of each pinned version.
    pub fn place_anew_all(&mut self, pins: &[Pinned], server: u32, epoch: u64)
        requires { All (λ pin. pin.version < length self.old.listed) pins.now }
        ensures listed { self.new.listed ≡ placed_anew_by server epoch pins.now self.old.listed }
        ensures pins { self.new.pins ≡ self.old.pins }
    {
        for pin in pins {
            let number = pin.version;
            self.place_anew(number, server, epoch);
        }
    }

    // How often a version that isn't swept is pinned.
    fn pins_of(&self, number: u64) -> u64
        requires { IsKnown self.now.listed number }
        ensures { result ≡ get_or self.now.pins number 0 }
    {
        match self.rows.row(number) {
            Some(row) => row.pins,
            None => unreachable!(),
        }
    }

    /// Whether the counts of these versions can take one pin more for each of the pins.
    pub fn can_pin(&self, pins: &[Pinned]) -> bool
        requires { All (λ pin. IsKnown self.now.listed pin.version) pins.now }
        ensures { IsTrue result ↔ CanTakeAll self.now.pins pins.now }
    {
        let most = u64::MAX - pins.len() as u64;
        for pin in pins {
            let number = pin.version;
            if self.pins_of(number) > most {
                return false;
            }
        }
        true
    }

    /// A pass pins the version.
    pub fn pin(&mut self, number: u64)
        requires within { number < length self.old.listed }
        requires other { IsUnreplaced self.old.listed number }
        requires fits { get_or self.old.pins number 0 + 1 < 2 ^ 64 }
        ensures listed { self.new.listed ≡ self.old.listed }
        ensures pins { self.new.pins ≡ change_at number (λ count. count + 1) self.old.pins }
    {
        self.rows.pin(number);
    }

    /// A pass pins these versions.
    pub fn pin_all(&mut self, pins: &[Pinned])
        requires others { All (λ pin. IsThereUnreplaced self.old.listed pin.version) pins.now }
        requires fits { CanTakeAll self.old.pins pins.now }
        ensures listed { self.new.listed ≡ self.old.listed }
        ensures pins { self.new.pins ≡ pinned_more pins.now self.old.pins }
    {
        for pin in pins {
            let number = pin.version;
            self.pin(number);
        }
    }

    /// How each server took the version's chunk.
    pub fn placed(&self, alloc: Global, number: u64) -> Result<Vec<Placement>, AllocError>
        requires { IsKnown self.now.listed number }
        ensures { IfOk result (λ row. row.items ≡ placed_of (slice_get self.now.listed number)) }
    {
        match self.rows.row(number) {
            Some(row) => Vec::from_slice(alloc, &row.placed),
            None => unreachable!(),
        }
    }

    /// Whether the version stands in its object.
    pub fn is_current(&self, number: u64) -> bool
        requires { number < length self.now.listed }
        ensures { result ≡ holds_standing is_current_standing (slice_get self.now.listed number) }
    {
        match self.rows.row(number) {
            Some(row) => matches!(row.standing, Standing::Current),
            None => false,
        }
    }

    /// Whether there is such a version that isn't swept.
    pub fn is_known(&self, number: u64) -> bool
        ensures { result ≡ is_known self.now.listed number }
    {
        self.rows.row(number).is_some()
    }
}
