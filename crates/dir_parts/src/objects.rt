//! Objects by their names, each with its length and the current version of each stripe.
ghost use Rattle.std.specs.Prelude.{◌≡◌, ◌+◌, ◌-◌, ◌<◌, ◌≤◌, ◌++◌, [], length, map, take, drop, set, get_or, bytes_eq, None, OnOk, IfOk, IfSome, option_map, slice_get, vec_len, vec_capacity};
ghost use Rattle.indexmap.specs.IndexMap.{spare, index_map_len, keys, values, insert_entry, set_value_at, IsUnique};
ghost use Rattle.store_core.specs.Lookups.{find_object};
ghost use Rattle.store_core.specs.Look.{remove_object};
ghost use Rattle.store_core.specs.Commit.{put_object};
ghost use Rattle.dir_parts.specs.Parts.{object_of, object_or_new, versions_under, put_under, FitsFrom, overwritten, written_over, written_by, written_object};

use indexmap::IndexMap;
use std::alloc::{AllocError, Global};
use std::marker::Model;
use std::mem;
use store_map::Name;

/// An object's length in bytes and the current version of each stripe.
pub struct Contents {
    pub length: u64,
    pub versions: Vec<u64>,
    // how many objects had been created before it
    birth: u64,
}

// By hand, since a derived one is proved again in each crate that drops the type.
impl Drop for Contents {
    fn drop(self) {
        let Contents {
            length: _length,
            versions: _versions,
            birth: _birth,
        } = self;
    }
}

/// The objects by their names. Their births keep the order of creation, so that one that goes can
/// leave its place to the last entry.
pub struct Objects {
    listed: IndexMap<Name, Contents>,
    births: u64,
}

// By hand, since a derived one is proved again in each crate that drops the type.
impl Drop for Objects {
    fn drop(self) {
        let Objects {
            listed: _listed,
            births: _births,
        } = self;
    }
}

impl Model for Contents {
    ghost use Rattle.dir_parts.specs.Parts.{Held};

    ghost Value = { Held };

    ghost use Rattle.dir_parts.specs.Held.{held_in};

    ghost view = { held_in };
}

impl Model for Objects {
    ghost use Rattle.dir_parts.specs.Parts.{Shelf};

    ghost Value = { Shelf };

    ghost use Rattle.dir_parts.specs.Shelf.{shelf_in, IsShelf};

    ghost view = { shelf_in };

    ghost invariant = { IsShelf };
}

// One entry more, or another value, where there is room for an entry.
fn insert_reserved(listed: &mut IndexMap<Name, Contents>, name: Name, contents: Contents)
    requires { 0 < spare listed.old }
    ensures entries { listed.new.entries ≡ insert_entry bytes_eq listed.old.entries name contents }
    ensures room { spare listed.old ≤ spare listed.new + 1 }
    ensures unique { IsUnique bytes_eq listed.new }
{
    match listed.insert(name, contents) {
        Ok(_old) => {}
        Err(_) => unreachable!(),
    }
}

// Two versions change places.
fn exchange_one(old: &mut Vec<u64>, at: usize, drawn: &mut Vec<u64>, i: usize)
    requires in_old { at < vec_len old.old }
    requires in_drawn { i < vec_len drawn.old }
    ensures old { old.new.items ≡ set old.old.items at (get_or drawn.old.items i 0) }
    ensures drawn { drawn.new.items ≡ set drawn.old.items i (get_or old.old.items at 0) }
    ensures old_len { vec_len old.new ≡ vec_len old.old }
    ensures drawn_len { vec_len drawn.new ≡ vec_len drawn.old }
    ensures room { vec_capacity old.new ≡ vec_capacity old.old }
{
    let was = old[at];
    old[at] = drawn[i];
    drawn[i] = was;
}

// The first versions of both lists change places, from a place of the old list on.
fn exchange(old: &mut Vec<u64>, first: usize, drawn: &mut Vec<u64>, count: usize)
    requires within_old { first + count ≤ vec_len old.old }
    requires within_drawn { count ≤ vec_len drawn.old }
    ensures old { old.new.items ≡ take first old.old.items ++ take count drawn.old.items ++ drop (first + count) old.old.items }
    ensures drawn { drawn.new.items ≡ take count (drop first old.old.items) ++ drop count drawn.old.items }
    ensures len { vec_len old.new ≡ vec_len old.old }
    ensures room { vec_capacity old.new ≡ vec_capacity old.old }
{
    for i in 0..count {
        exchange_one(old, first + i, drawn, i);
    }
}

// The versions from a place on come after the others, where there is room for them.
fn append_from(old: &mut Vec<u64>, drawn: &[u64], from: usize)
    requires within { from ≤ length drawn.now }
    requires room { vec_len old.old + (length drawn.now - from) ≤ vec_capacity old.old }
    ensures items { old.new.items ≡ old.old.items ++ drop from drawn.now }
    ensures len { vec_len old.new ≡ vec_len old.old + (length drawn.now - from) }
    ensures room { vec_capacity old.old ≤ vec_capacity old.new }
{
    match old.extend_from_slice(&drawn[from..]) {
        Ok(()) => {}
        Err(_) => unreachable!(),
    }
}

// The versions stand in the spare memory where their own is too small.
fn make_room(old: &mut Vec<u64>, needed: usize, memory: Vec<u64>)
    requires { needed ≤ vec_capacity memory }
    ensures items { old.new.items ≡ old.old.items }
    ensures len { vec_len old.new ≡ vec_len old.old }
    ensures room { needed ≤ vec_capacity old.new }
{
    if needed <= old.capacity() {
        return;
    }
    let mut memory = memory;
    memory.clear();
    append_from(&mut memory, old, 0);
    *old = memory;
}

// The drawn versions stand in their places, from the first one on. Gives those that stood there.
fn splice(old: &mut Vec<u64>, first: u32, drawn: Vec<u64>, memory: Vec<u64>) -> Vec<u64>
    requires { FitsFrom first drawn.items (vec_capacity memory) }
    ensures items { old.new.items ≡ written_over first drawn.items old.old.items }
    ensures replaced { result.items ≡ overwritten first drawn.items old.old.items }
{
    let mut drawn = drawn;
    let count = drawn.len();
    if count == 0 {
        return drawn;
    }
    let first = first as usize;
    make_room(old, first + count, memory);
    let both = count.min(old.len().saturating_sub(first));
    if both == 0 {
        append_from(old, &drawn, 0);
        drawn.clear();
        return drawn;
    }
    exchange(old, first, &mut drawn, both);
    append_from(old, &drawn, both);
    drawn.truncate(both);
    drawn
}

// Another length and other versions of the object at this place. Gives its versions before.
fn put_at(
    listed: &mut IndexMap<Name, Contents>,
    at: usize,
    length: u64,
    versions: Vec<u64>,
) -> Vec<u64>
    requires { at < index_map_len listed.old }
    ensures entries { IfSome (slice_get (values listed.old) at) (λ held. listed.new.entries ≡ set_value_at listed.old.entries at (record { length = length; versions = versions.items; birth = held.birth })) }
    ensures replaced { IfSome (slice_get (values listed.old) at) (λ held. result.items ≡ held.versions) }
    ensures room { spare listed.old ≤ spare listed.new }
    ensures unique { IsUnique bytes_eq listed.old → IsUnique bytes_eq listed.new }
{
    match listed.get_index_mut(at) {
        Some(contents) => {
            contents.length = length;
            mem::replace(&mut contents.versions, versions)
        }
        None => unreachable!(),
    }
}

// A write to the object at this place. Gives the versions that it replaces.
fn write_at(
    listed: &mut IndexMap<Name, Contents>,
    at: usize,
    end: u64,
    first: u32,
    drawn: Vec<u64>,
    memory: Vec<u64>,
) -> Vec<u64>
    requires within { at < length (keys listed.old) }
    requires room { FitsFrom first drawn.items (vec_capacity memory) }
    ensures entries { IfSome (slice_get (values listed.old) at) (λ held. listed.new.entries ≡ set_value_at listed.old.entries at (written_by end first drawn.items held)) }
    ensures replaced { IfSome (slice_get (values listed.old) at) (λ held. result.items ≡ overwritten first drawn.items held.versions) }
    ensures room { spare listed.old ≤ spare listed.new }
    ensures unique { IsUnique bytes_eq listed.old → IsUnique bytes_eq listed.new }
{
    match listed.get_index_mut(at) {
        Some(contents) => {
            contents.length = contents.length.max(end);
            splice(&mut contents.versions, first, drawn, memory)
        }
        None => unreachable!(),
    }
}

impl Objects {
    /// No objects.
    pub fn new(alloc: Global) -> Objects
        ensures { result.objects ≡ [] }
    {
        Objects {
            listed: IndexMap::new(alloc),
            births: 0,
        }
    }

    /// Takes the room for so many objects more.
    pub fn reserve(&mut self, more: usize) -> Result<(), AllocError>
        ensures objects { self.new.objects ≡ self.old.objects }
        ensures room { self.old.room ≤ self.new.room }
        ensures ok { OnOk result (more ≤ self.new.room) }
    {
        if u64::MAX - self.births < more as u64 {
            return Err(AllocError);
        }
        self.listed.reserve(more)?;
        Ok(())
    }

    /// How many objects there are.
    pub fn len(&self) -> usize
        ensures { result ≡ length self.now.objects }
    {
        self.listed.len()
    }

    /// The objects in order of creation.
    pub fn in_order(&self, alloc: Global) -> Result<Vec<(&Name, &Contents)>, AllocError>
        ensures { IfOk result (λ list. map (λ p. object_of p.0.now p.1.now) list.items ≡ self.now.objects) }
    {
        let mut list: Vec<(&Name, &Contents)> = self.listed.iter().collect(alloc)?;
        list.sort_unstable_by_key(|object| {
            let contents = object.1;
            contents.birth
        });
        Ok(list)
    }

    /// The object with this name.
    pub fn find(&self, name: &Name) -> Option<&Contents>
        ensures { option_map (λ held. object_of name.now held.now) result ≡ find_object name.now self.now.objects }
    {
        self.listed.get(name)
    }

    // A new object goes to the end.
    fn add(&mut self, name: Name, length: u64, versions: Vec<u64>)
        requires room { 0 < self.old.room }
        requires new { find_object name self.old.objects ≡ None }
        ensures objects { self.new.objects ≡ put_under name length versions.items self.old.objects }
        ensures room { self.old.room ≤ self.new.room + 1 }
    {
        let contents = Contents {
            length,
            versions,
            birth: self.births,
        };
        insert_reserved(&mut self.listed, name, contents);
        self.births += 1;
    }

    /// The object takes the place of the one with its name, or goes to the end. Gives the versions
    /// that it replaces.
    pub fn put(&mut self, name: Name, length: u64, versions: Vec<u64>) -> Vec<u64>
        requires { 0 < self.old.room }
        ensures objects { self.new.objects ≡ put_under name length versions.items self.old.objects }
        ensures room { self.old.room ≤ self.new.room + 1 }
        ensures replaced { result.items ≡ versions_under name self.old.objects }
    {
        let alloc = *self.listed.allocator();
        if let Some(at) = self.listed.get_index_of(&name) {
            return put_at(&mut self.listed, at, length, versions);
        }
        self.add(name, length, versions);
        Vec::new(alloc)
    }

    /// The drawn versions stand in the object with this name, from the place `first` on, and its bytes
    /// reach to `end` at least. Its versions stand in the spare memory where their own is too small.
    /// Gives the versions that are replaced.
    pub fn write(
        &mut self,
        name: Name,
        end: u64,
        first: u32,
        drawn: Vec<u64>,
        memory: Vec<u64>,
    ) -> Vec<u64>
        requires room { 0 < self.old.room }
        requires memory { FitsFrom first drawn.items (vec_capacity memory) }
        ensures objects { self.new.objects ≡ put_object (written_object end first drawn.items (object_or_new name self.old.objects)) self.old.objects }
        ensures room { self.old.room ≤ self.new.room + 1 }
        ensures replaced { result.items ≡ overwritten first drawn.items (versions_under name self.old.objects) }
    {
        let alloc = *self.listed.allocator();
        if let Some(at) = self.listed.get_index_of(&name) {
            return write_at(&mut self.listed, at, end, first, drawn, memory);
        }
        self.add(name, end, drawn);
        Vec::new(alloc)
    }

    /// The object with this name goes. Gives its versions.
    pub fn remove(&mut self, name: &Name) -> Option<Contents>
        ensures objects { self.new.objects ≡ remove_object name.now self.old.objects }
        ensures room { self.old.room ≤ self.new.room }
        ensures removed { option_map (λ held. object_of name.now held) result ≡ find_object name.now self.old.objects }
    {
        self.listed.swap_remove(name)
    }
}
