//! The versions by their numbers: what is kept of those that aren't swept, beside what is told of all.
ghost use Rattle.std.specs.Prelude.{◌≡◌, ◌+◌, ◌<◌, ◌≤◌, ◌^◌, ◌∷◌, [], ◌++◌, nat_eq, length, map, slice_get, option_map, None, true, OnOk, IfSome, IsTrue, is_some};
ghost use Rattle.std.specs.List.{range_with_len};
ghost use Rattle.indexmap.specs.IndexMap.{get, spare};
ghost use Rattle.store_core.specs.Lists.{change_at};
ghost use Rattle.store_core.specs.Placements.{placed_anew};
ghost use Rattle.version_table.specs.Told.{entry_drawn, entry_standing, entry_current, entry_swept, entry_unpinned, entry_pinned, entry_anew};
ghost use Rattle.version_table.specs.Rows.{kept_in, kept_at, is_unswept, unswept_count};
ghost use Rattle.version_table.specs.RowSteps.{is_free, is_taken_in, kept_standing, kept_current, kept_unpinned, kept_pinned, kept_anew, turned_kept, turned, Alters, Adds, Sweeps};
ghost use Rattle.version_table.specs.TableSteps.{base_version};
ghost use Rattle.version_table.specs.declared.told_versions.Standing.TheVariants as standing;

use crate::told_versions::{Change, Standing, ToldVersions};
use dir_parts::Pinned;
use indexmap::IndexMap;
use std::alloc::{AllocError, Global};
use std::marker::Model;
use store_map::{Actor, Placement};

// What is kept of a version that isn't swept, with the number of passes that pin it and aren't reaped.
pub struct VersionRow {
    pub placed: Vec<Placement>,
    pub standing: Standing,
    pub pins: u64,
}

// By hand, since a derived one is proved again in each crate that drops the type.
impl Drop for VersionRow {
    fn drop(self) {
        let VersionRow {
            placed: _placed,
            standing: _standing,
            pins: _pins,
        } = self;
    }
}

// All versions, of which those that are swept take no memory.
pub struct Rows {
    told: ToldVersions,
    count: u64,
    rows: IndexMap<u64, VersionRow>,
}

// By hand, since a derived one is proved again in each crate that drops the type.
impl Drop for Rows {
    fn drop(self) {
        let Rows {
            told: _told,
            count: _count,
            rows: _rows,
        } = self;
    }
}

impl Model for Rows {
    ghost use Rattle.version_table.specs.Rows.{RowsOf};

    ghost Value = { RowsOf };

    ghost use Rattle.version_table.specs.Rows.{rows_in, IsRows};

    ghost view = { rows_in };

    ghost invariant = { IsRows };
}

/// The version of a stripe that is pinned, if one is.
pub fn base_of(pins: &[Pinned], stripe: u32) -> Option<u64>
    ensures { result ≡ base_version pins.now stripe }
{
    let mut at = 0;
    while at < pins.len() {
        let pin = &pins[at];
        if stripe == pin.stripe {
            return Some(pin.version);
        }
        at += 1;
    }
    None
}

// Whether the sweeper may take the version.
fn is_free(row: &VersionRow) -> bool
    ensures { result ≡ is_free (kept_in row.now) }
{
    matches!(row.standing, Standing::Superseded) && row.pins == 0
}

// A chunk that was placed anew.
fn anew(placement: Placement, epoch: u64) -> Placement
    ensures { result ≡ placed_anew epoch placement }
{
    match placement {
        Placement::At(earlier) => Placement::At(epoch.max(earlier)),
        Placement::Skipped(_) => Placement::At(epoch),
    }
}

// The chunk at this server was placed anew, if the row has a place for it.
fn raise(row: &mut Vec<Placement>, server: usize, epoch: u64)
    ensures { row.new.items ≡ change_at server (placed_anew epoch) row.old.items }
{
    if server >= row.len() {
        return;
    }
    row[server] = anew(row[server], epoch);
}

// One row more, where there is room for it.
fn insert_row(rows: &mut IndexMap<u64, VersionRow>, number: u64, row: VersionRow)
    requires room { 0 < spare rows.old }
    requires new { get nat_eq rows.old number ≡ None }
    ensures adds { Adds number row rows.old rows.new }
    ensures room { spare rows.old ≤ spare rows.new + 1 }
{
    match rows.insert(number, row) {
        Ok(_none) => {}
        Err(_) => unreachable!(),
    }
}

// Gives a version another standing. Tells whether that turns it into garbage.
fn stand_row(rows: &mut IndexMap<u64, VersionRow>, number: u64, standing: Standing) -> bool
    ensures alters { Alters (kept_standing standing) number rows.old rows.new }
    ensures turned { result ≡ turned_kept (kept_standing standing) (option_map kept_in (get nat_eq rows.old number)) }
{
    match rows.get_mut(&number) {
        Some(row) => {
            let was = is_free(row);
            row.standing = standing;
            is_free(row) != was
        }
        None => false,
    }
}

// A drawn version becomes current.
fn place_row(rows: &mut IndexMap<u64, VersionRow>, number: u64, placed: Vec<Placement>)
    ensures { Alters (kept_current placed.items) number rows.old rows.new }
{
    if let Some(row) = rows.get_mut(&number) {
        row.placed = placed;
        row.standing = Standing::Current;
    }
}

// One pin less. Tells whether that turns the version into garbage.
fn unpin_row(rows: &mut IndexMap<u64, VersionRow>, number: u64) -> bool
    ensures alters { Alters kept_unpinned number rows.old rows.new }
    ensures turned { result ≡ turned_kept kept_unpinned (option_map kept_in (get nat_eq rows.old number)) }
{
    match rows.get_mut(&number) {
        Some(row) => {
            let was = is_free(row);
            row.pins = row.pins.saturating_sub(1);
            is_free(row) != was
        }
        None => false,
    }
}

// One pin more.
fn pin_row(rows: &mut IndexMap<u64, VersionRow>, number: u64)
    requires { IfSome (option_map kept_in (get nat_eq rows.old number)) (λ kept. kept.pins + 1 < 2 ^ 64) }
    ensures { Alters kept_pinned number rows.old rows.new }
{
    if let Some(row) = rows.get_mut(&number) {
        row.pins += 1;
    }
}

// The version's chunk was placed anew at a server.
fn raise_row(rows: &mut IndexMap<u64, VersionRow>, number: u64, server: usize, epoch: u64)
    ensures { Alters (kept_anew server epoch) number rows.old rows.new }
{
    if let Some(row) = rows.get_mut(&number) {
        raise(&mut row.placed, server, epoch);
    }
}

// Whether the version was taken and isn't swept.
fn is_taken(rows: &IndexMap<u64, VersionRow>, number: u64) -> bool
    ensures { result ≡ is_taken_in (get nat_eq rows.now number) }
{
    match rows.get(&number) {
        Some(row) => matches!(row.standing, Standing::Taken),
        None => false,
    }
}

// The row of a version that was taken goes.
fn sweep_row(rows: &mut IndexMap<u64, VersionRow>, number: u64)
    ensures { Sweeps number rows.old rows.new }
{
    if is_taken(rows, number) {
        let _row = rows.swap_remove(&number);
    }
}

impl Rows {
    // No versions.
    pub fn new(alloc: Global) -> Rows
        ensures { result.entries ≡ [] }
    {
        Rows {
            told: ToldVersions::new(),
            count: 0,
            rows: IndexMap::new(alloc),
        }
    }

    // How many versions there are.
    pub fn len(&self) -> usize
        ensures { result ≡ length self.now.entries }
    {
        self.count as usize
    }

    // How many aren't swept.
    pub fn unswept(&self) -> usize
        ensures { result ≡ unswept_count self.now.entries }
    {
        self.rows.len()
    }

    // Takes the room for so many more.
    pub fn reserve(&mut self, more: usize) -> Result<(), AllocError>
        ensures entries { self.new.entries ≡ self.old.entries }
        ensures ok { OnOk result (more ≤ self.new.room) }
    {
        if u64::MAX - self.count < more as u64 {
            return Err(AllocError);
        }
        self.rows.reserve(more)?;
        Ok(())
    }

    // What is kept of the version with this number, unless it is swept.
    pub fn row(&self, number: u64) -> Option<&VersionRow>
        ensures { option_map (λ row. kept_in row.now) result ≡ kept_at self.now.entries number }
    {
        self.rows.get(&number)
    }

    // One version more, which is drawn.
    fn draw_one(&mut self, actor: Actor, number: u32, stripe: u32, base: Option<u64>)
        requires { 0 < self.old.room }
        ensures entries { self.new.entries ≡ self.old.entries ++ entry_drawn actor number stripe base ∷ [] }
        ensures room { self.old.room ≤ self.new.room + 1 }
        ensures unswept { unswept_count self.new.entries ≡ unswept_count self.old.entries + 1 }
    {
        let alloc = *self.rows.allocator();
        self.told.draw(actor, number, stripe, base);
        let row = VersionRow {
            placed: Vec::new(alloc),
            standing: Standing::Drawn,
            pins: 0,
        };
        insert_row(&mut self.rows, self.count, row);
        self.count += 1;
    }

    // A version of each of these stripes, drawn and laid over the pinned one, if one is.
    pub fn draw(&mut self, actor: Actor, number: u32, pins: &[Pinned], first: u32, count: u32)
        requires room { count ≤ self.old.room }
        requires fits { first + count ≤ 2 ^ 32 }
        ensures entries { self.new.entries ≡ self.old.entries ++ map (λ stripe. entry_drawn actor number stripe (base_version pins.now stripe)) (range_with_len first count) }
        ensures unswept { unswept_count self.new.entries ≡ unswept_count self.old.entries + count }
    {
        for i in 0..count {
            let stripe = first + i;
            self.draw_one(actor, number, stripe, base_of(pins, stripe));
        }
    }

    // Gives a version that isn't swept another standing. Tells whether that turns it into garbage.
    pub fn stand(&mut self, number: u64, standing: Standing) -> bool
        requires kept { IsTrue (is_some (kept_at self.old.entries number)) }
        requires stays { is_unswept standing ≡ true }
        ensures entries { self.new.entries ≡ change_at number (entry_standing standing) self.old.entries }
        ensures turned { result ≡ turned (entry_standing standing) (slice_get self.old.entries number) }
        ensures unswept { unswept_count self.new.entries ≡ unswept_count self.old.entries }
    {
        self.told.change(number, &Change::Standing(standing));
        stand_row(&mut self.rows, number, standing)
    }

    // A version that isn't swept becomes current. Its chunks lie as the placements tell.
    pub fn place(&mut self, number: u64, placed: Vec<Placement>)
        requires { IsTrue (is_some (kept_at self.old.entries number)) }
        ensures entries { self.new.entries ≡ change_at number (entry_current placed.items) self.old.entries }
        ensures unswept { unswept_count self.new.entries ≡ unswept_count self.old.entries }
    {
        self.told.change(number, &Change::Current(&placed));
        place_row(&mut self.rows, number, placed);
    }

    // One pin less. Tells whether that turns the version into garbage.
    pub fn unpin(&mut self, number: u64) -> bool
        ensures entries { self.new.entries ≡ change_at number entry_unpinned self.old.entries }
        ensures turned { result ≡ turned entry_unpinned (slice_get self.old.entries number) }
        ensures unswept { unswept_count self.new.entries ≡ unswept_count self.old.entries }
    {
        self.told.change(number, &Change::Unpinned);
        unpin_row(&mut self.rows, number)
    }

    // One pin more.
    pub fn pin(&mut self, number: u64)
        requires { IfSome (slice_get self.old.entries number) (λ entry. entry.pins + 1 < 2 ^ 64) }
        ensures entries { self.new.entries ≡ change_at number entry_pinned self.old.entries }
        ensures unswept { unswept_count self.new.entries ≡ unswept_count self.old.entries }
    {
        self.told.change(number, &Change::Pinned);
        pin_row(&mut self.rows, number);
    }

    // The version's chunk was placed anew at a server.
    pub fn place_anew(&mut self, number: u64, server: usize, epoch: u64)
        ensures entries { self.new.entries ≡ change_at number (entry_anew server epoch) self.old.entries }
        ensures unswept { unswept_count self.new.entries ≡ unswept_count self.old.entries }
    {
        self.told
            .change(number, &Change::PlacedAnew { server, epoch });
        raise_row(&mut self.rows, number, server, epoch);
    }

    // A version that was taken is swept, and nothing of it is kept.
    pub fn sweep(&mut self, number: u64)
        ensures entries { self.new.entries ≡ change_at number entry_swept self.old.entries }
        ensures unswept { unswept_count self.new.entries ≤ unswept_count self.old.entries }
    {
        self.told.change(number, &Change::Swept);
        sweep_row(&mut self.rows, number);
    }
}
