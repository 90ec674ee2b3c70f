//! The history: points, and each name that a point may have with the last change of its object.
ghost use Rattle.std.specs.Prelude.{◌≡◌, ◌+◌, ◌<◌, ◌∷◌, [], ◌++◌, length, ◌≤◌, true, false, get_or, slice_get, None, Some, bytes_eq, OnOk, OnErr, Contains, option_map};
ghost use Rattle.indexmap.specs.IndexMap.{keys, get, IsUnique, set_value_at};
ghost use Rattle.store_core.specs.Lookups.{last_change, is_change};
ghost use Rattle.dir_parts.specs.Events.{reply_in, event_in};
ghost use Rattle.dir_parts.specs.PointLog.{told_of, told_at, point_in, entry_of, spare_in, spare_after};
ghost use Rattle.dir_parts.specs.Parts.{point_by, KeepsNames};

use crate::passes::{CallKind, CallNote};
use crate::told_points::ToldPoints;
use indexmap::IndexMap;
use std::alloc::{AllocError, Global};
use std::marker::Model;
use store_map::{Actor, Name, Reply};

/// What the directory itself replies to a call. None of it has bytes.
#[derive(Clone, Copy, PartialEq, Eq)]
pub enum DirectoryReply {
    Done,
    Length(u64),
    NoSuch,
    OutRange,
    TooLarge,
}

/// What a point stands for.
#[derive(Clone, Copy, PartialEq, Eq)]
pub enum Event {
    Answer(DirectoryReply),
    Pinned,
    Done,
    Reaped,
}

/// A point as it is told: whose call it belongs to, and what it stands for.
#[derive(Clone, Copy, PartialEq, Eq)]
pub struct PointEntry {
    pub actor: Actor,
    pub number: u32,
    pub event: Event,
}

/// A point of the history, without bytes: the name is a place among the names.
#[derive(Clone, Copy)]
pub struct PointRow {
    pub actor: Actor,
    pub number: u32,
    pub event: Event,
    pub kind: CallKind,
    pub name: usize,
    pub offset: u32,
    pub length: u32,
}

/// The points, and each name that a point may have with the last change of its object. Contracts see
/// all points; a history that only counts them keeps none when it runs.
pub struct History {
    told: ToldPoints,
    count: u64,
    kept: Option<Vec<PointRow>>,
    names: IndexMap<Name, Option<u64>>,
}

// By hand, since a derived one is proved again in each crate that drops the type.
impl Drop for History {
    fn drop(self) {
        let History {
            told: _told,
            count: _count,
            kept: _kept,
            names: _names,
        } = self;
    }
}

impl Model for History {
    ghost use Rattle.dir_parts.specs.Parts.{PointLog};

    ghost Value = { PointLog };

    ghost use Rattle.dir_parts.specs.PointLog.{log_in, IsPointLog};

    ghost view = { log_in };

    ghost invariant = { IsPointLog };
}

impl DirectoryReply {
    /// The same as a reply of the map.
    pub fn reply(self) -> Reply
        ensures { result ≡ reply_in self }
    {
        match self {
            DirectoryReply::Done => Reply::Done,
            DirectoryReply::Length(length) => Reply::Length(length),
            DirectoryReply::NoSuch => Reply::NoSuch,
            DirectoryReply::OutRange => Reply::OutRange,
            DirectoryReply::TooLarge => Reply::TooLarge,
        }
    }
}

// Whether the event changes its object.
fn is_change(event: Event) -> bool
    ensures { result ≡ is_change (event_in event) }
{
    match event {
        Event::Answer(DirectoryReply::Done) | Event::Done => true,
        _ => false,
    }
}

// Where a name stands.
fn place_of(names: &IndexMap<Name, Option<u64>>, name: &Name) -> usize
    requires { Contains (keys names.now) name.now }
    ensures within { result < length (keys names.now) }
    ensures name { get_or (keys names.now) result [] ≡ name.now }
{
    match names.get_index_of(name) {
        Some(at) => at,
        None => unreachable!(),
    }
}

// The name's object was changed at this point.
fn set_last(names: &mut IndexMap<Name, Option<u64>>, at: usize, point: u64)
    requires { at < length (keys names.old) }
    ensures entries { names.new.entries ≡ set_value_at names.old.entries at (Some point) }
    ensures unique { IsUnique bytes_eq names.old → IsUnique bytes_eq names.new }
{
    if let Some(last) = names.get_index_mut(at) {
        *last = Some(point);
    }
}

// One name more, without a change.
fn insert_name(names: &mut IndexMap<Name, Option<u64>>, name: Name) -> Result<(), AllocError>
    requires { get bytes_eq names.old name ≡ None }
    ensures entries { OnOk result (names.new.entries ≡ names.old.entries ++ (name, None) ∷ []) }
    ensures err { OnErr result (names.new.entries ≡ names.old.entries) }
    ensures unique { IsUnique bytes_eq names.new }
{
    names.insert(name, None)?;
    Ok(())
}

// Takes the room for so many points more, where they are kept.
fn reserve_kept(kept: &mut Option<Vec<PointRow>>, more: usize) -> Result<(), AllocError>
    ensures rows { option_map (λ rows. rows.items) kept.new ≡ option_map (λ rows. rows.items) kept.old }
    ensures room { spare_in kept.old ≤ spare_in kept.new }
    ensures ok { OnOk result (more ≤ spare_in kept.new) }
{
    match kept {
        Some(rows) => rows.reserve(more),
        None => Ok(()),
    }
}

// One point more, where they are kept.
fn push_kept(kept: &mut Option<Vec<PointRow>>, point: PointRow)
    requires { 0 < spare_in kept.old }
    ensures rows { option_map (λ rows. rows.items) kept.new ≡ option_map (λ rows. rows.items ++ point ∷ []) kept.old }
    ensures room { spare_in kept.new ≡ spare_after kept.old }
{
    if let Some(rows) = kept {
        rows.push_reserved(point);
    }
}

// The point at this place.
fn point_of(rows: &[PointRow], place: usize) -> Option<PointEntry>
    ensures { result ≡ option_map entry_of (slice_get rows.now place) }
{
    let row = rows.get(place)?;
    Some(PointEntry {
        actor: row.actor,
        number: row.number,
        event: row.event,
    })
}

impl History {
    /// Points may have the name from now on.
    pub fn keep_name(&mut self, name: &Name) -> Result<(), AllocError>
        ensures points { self.new.points ≡ self.old.points }
        ensures room { self.new.room ≡ self.old.room }
        ensures keeps { self.new.keeps ≡ self.old.keeps }
        ensures named { OnOk result (Contains self.new.names name.now) }
        ensures others { KeepsNames self.old.names self.new.names }
    {
        if self.names.contains_key(name) {
            return Ok(());
        }
        let copy = name.copy()?;
        insert_name(&mut self.names, copy)?;
        Ok(())
    }

    /// Takes the room for so many points more.
    pub fn reserve(&mut self, more: usize) -> Result<(), AllocError>
        ensures points { self.new.points ≡ self.old.points }
        ensures names { self.new.names ≡ self.old.names }
        ensures keeps { self.new.keeps ≡ self.old.keeps }
        ensures room { self.old.room ≤ self.new.room }
        ensures ok { OnOk result (more ≤ self.new.room) }
    {
        if u64::MAX - self.count < more as u64 {
            return Err(AllocError);
        }
        reserve_kept(&mut self.kept, more)
    }

    /// No points. Each that comes is kept.
    pub fn new(alloc: Global) -> History
        ensures points { result.points ≡ [] }
        ensures names { result.names ≡ [] }
        ensures keeps { result.keeps ≡ true }
    {
        History {
            told: ToldPoints::new(),
            count: 0,
            kept: Some(Vec::new(alloc)),
            names: IndexMap::new(alloc),
        }
    }

    /// No points. Those that come are counted and not kept: what is left of them when it runs is the
    /// last change of each name.
    pub fn counting(alloc: Global) -> History
        ensures points { result.points ≡ [] }
        ensures names { result.names ≡ [] }
        ensures keeps { result.keeps ≡ false }
    {
        History {
            told: ToldPoints::new(),
            count: 0,
            kept: None,
            names: IndexMap::new(alloc),
        }
    }

    /// Whether the points are kept, so that they can be read.
    pub fn keeps_points(&self) -> bool
        ensures { result ≡ self.now.keeps }
    {
        self.kept.is_some()
    }

    /// How many points there are.
    pub fn len(&self) -> usize
        ensures { result ≡ length self.now.points }
    {
        self.count as usize
    }

    /// The last point at which the object with this name was changed, also where it was deleted then.
    pub fn last_change(&self, name: &Name) -> Option<u64>
        ensures { result ≡ last_change name.now self.now.points }
    {
        match self.names.get(name) {
            Some(last) => *last,
            None => None,
        }
    }

    /// The point with this number, of a history that keeps its points.
    pub fn get(&self, point: usize) -> Option<PointEntry>
        requires { self.now.keeps ≡ true }
        ensures { option_map told_of result ≡ told_at self.now.points point }
    {
        match &self.kept {
            Some(rows) => point_of(rows, point),
            None => unreachable!(),
        }
    }

    // One point more, of a name that is kept.
    fn push(&mut self, entry: PointRow)
        requires room { 0 < self.old.room }
        requires named { entry.name < length self.old.names }
        requires still { is_change (event_in entry.event) ≡ false }
        ensures points { self.new.points ≡ self.old.points ++ point_in self.old.names entry ∷ [] }
        ensures names { self.new.names ≡ self.old.names }
        ensures keeps { self.new.keeps ≡ self.old.keeps }
        ensures room { self.new.room + 1 ≡ self.old.room }
    {
        self.told.push(&entry);
        push_kept(&mut self.kept, entry);
        self.count += 1;
    }

    // The same of an event that changes the object.
    fn push_change(&mut self, entry: PointRow)
        requires room { 0 < self.old.room }
        requires named { entry.name < length self.old.names }
        requires changes { is_change (event_in entry.event) ≡ true }
        ensures points { self.new.points ≡ self.old.points ++ point_in self.old.names entry ∷ [] }
        ensures names { self.new.names ≡ self.old.names }
        ensures keeps { self.new.keeps ≡ self.old.keeps }
        ensures room { self.new.room + 1 ≡ self.old.room }
    {
        self.told.push(&entry);
        push_kept(&mut self.kept, entry);
        set_last(&mut self.names, entry.name, self.count);
        self.count += 1;
    }

    /// One point more, of an actor's call. Gives its number.
    pub fn add(&mut self, actor: Actor, number: u32, note: &CallNote, event: Event) -> u64
        requires room { 0 < self.old.room }
        requires named { Contains self.old.names note.now.name }
        ensures point { result ≡ length self.old.points }
        ensures points { self.new.points ≡ self.old.points ++ point_by actor number note.now (event_in event) ∷ [] }
        ensures names { self.new.names ≡ self.old.names }
        ensures keeps { self.new.keeps ≡ self.old.keeps }
        ensures room { self.new.room + 1 ≡ self.old.room }
    {
        let point = self.count;
        let entry = PointRow {
            actor,
            number,
            event,
            kind: note.kind,
            name: place_of(&self.names, &note.name),
            offset: note.offset,
            length: note.length,
        };
        if is_change(event) {
            self.push_change(entry);
            return point;
        }
        self.push(entry);
        point
    }
}
