//! The plain map from names to bytes, with its reply to each call.
ghost use Rattle.std.specs.Prelude.{◌≡◌, ◌<◌, ◌≤◌, ◌↔◌, [], length, slice_get, IfOk, OnErr, IsNone, IfSome, Some};
ghost use Rattle.std.specs.Option.{option_copied};
ghost use Rattle.store_map.specs.PlainMap.{bytes_of, apply, put_sized, write_at, get_all, read_at, length_of, delete_found};

use crate::call::Call;
use crate::content::Content;
use crate::list_of::ByteList;
use crate::name::Name;
use crate::reply::Reply;
use indexmap::IndexMap;
use std::alloc::{AllocError, Global};
use std::marker::Model;

/// A map from names to bytes that keeps its objects in order of creation.
#[derive(Drop)]
pub struct ObjectMap {
    max: u32,
    objects: IndexMap<Name, ByteList>,
}

impl Model for ObjectMap {
    ghost use Rattle.store_map.specs.PlainMap.{SizedMap};

    ghost Value = { SizedMap };

    ghost view = { λ a. record { max = a.max; objects = a.objects.entries } };
}

impl ObjectMap {
    /// An empty map whose objects have at most `max` bytes each.
    pub fn new(alloc: Global, max: u32) -> ObjectMap
        ensures { result ≡ record { max = max; objects = [] } }
    {
        ObjectMap {
            max,
            objects: IndexMap::new(alloc),
        }
    }

    pub fn count(&self) -> usize
        ensures { result ≡ length self.now.objects }
    {
        self.objects.len()
    }

    /// The name and the bytes of the object that was created as the `index`th of those there, from 0.
    pub fn at(&self, index: usize) -> Option<(&Name, &[u8])>
        ensures found { IfSome result (λ object. slice_get self.now.objects index ≡ Some (object.0.now, object.1.now)) }
        ensures none { IsNone result ↔ (length self.now.objects ≤ index) }
    {
        let (name, bytes) = self.objects.get_index(index)?;
        Some((name, bytes.as_slice()))
    }

    /// Makes the call and gives its reply. Where memory is wanting the map is as before.
    pub fn apply(&mut self, call: &Call) -> Result<Reply, AllocError>
        ensures ok { IfOk result (λ reply. (self.new.objects, reply) ≡ apply self.old.max call.now self.old.objects) }
        ensures max { self.new.max ≡ self.old.max }
        ensures err { OnErr result (self.new ≡ self.old) }
    {
        match call {
            Call::Put { name, content } => self.put(name, content),
            Call::Write {
                name,
                offset,
                content,
            } => self.write(name, *offset, content),
            Call::Get { name } => self.get(name),
            Call::ReadAt {
                name,
                offset,
                length,
            } => self.read_at(name, *offset, *length),
            Call::Stat { name } => Ok(self.stat(name)),
            Call::Delete { name } => Ok(self.delete(name)),
        }
    }

    fn put(&mut self, name: &Name, content: &Content) -> Result<Reply, AllocError>
        ensures ok { IfOk result (λ reply. (self.new.objects, reply) ≡ put_sized self.old.max name.now content.now self.old.objects) }
        ensures max { self.new.max ≡ self.old.max }
        ensures err { OnErr result (self.new ≡ self.old) }
    {
        if content.length() > self.max {
            return Ok(Reply::TooLarge);
        }
        let bytes = content.bytes(*self.objects.allocator())?;
        self.objects
            .insert(name.copy()?, ByteList::from_vec(bytes))?;
        Ok(Reply::Done)
    }

    fn write(&mut self, name: &Name, offset: u32, content: &Content) -> Result<Reply, AllocError>
        ensures ok { IfOk result (λ reply. (self.new.objects, reply) ≡ write_at self.old.max name.now offset content.now self.old.objects (bytes_of name.now self.old.objects)) }
        ensures max { self.new.max ≡ self.old.max }
        ensures err { OnErr result (self.new ≡ self.old) }
    {
        let alloc = *self.objects.allocator();
        let Some(bytes) = self.objects.get_mut(name) else {
            return Ok(Reply::NoSuch);
        };
        if bytes.len() < offset as usize {
            return Ok(Reply::OutRange);
        }
        if u64::from(offset) + u64::from(content.length()) > u64::from(self.max) {
            return Ok(Reply::TooLarge);
        }
        let new = content.bytes(alloc)?;
        bytes.write_over(offset as usize, &new)?;
        Ok(Reply::Done)
    }

    fn find(&self, name: &Name) -> Option<&ByteList>
        ensures { option_copied result ≡ bytes_of name.now self.now.objects }
    {
        self.objects.get(name)
    }

    fn get(&self, name: &Name) -> Result<Reply, AllocError>
        ensures { IfOk result (λ reply. reply ≡ get_all (bytes_of name.now self.now.objects)) }
    {
        match self.find(name) {
            None => Ok(Reply::NoSuch),
            Some(bytes) => {
                let all = bytes.copy()?;
                Ok(Reply::Bytes(all))
            }
        }
    }

    fn read_at(&self, name: &Name, offset: u32, length: u32) -> Result<Reply, AllocError>
        ensures { IfOk result (λ reply. reply ≡ read_at offset length (bytes_of name.now self.now.objects)) }
    {
        match self.find(name) {
            None => Ok(Reply::NoSuch),
            Some(bytes) if bytes.len() < offset as usize => Ok(Reply::OutRange),
            Some(bytes) => {
                let part = bytes.copy_part(offset as usize, length as usize)?;
                Ok(Reply::Bytes(part))
            }
        }
    }

    fn stat(&self, name: &Name) -> Reply
        ensures { result ≡ length_of (bytes_of name.now self.now.objects) }
    {
        match self.find(name) {
            None => Reply::NoSuch,
            Some(bytes) => Reply::Length(bytes.len() as u64),
        }
    }

    fn delete(&mut self, name: &Name) -> Reply
        ensures ok { (self.new.objects, result) ≡ delete_found name.now self.old.objects (bytes_of name.now self.old.objects) }
        ensures max { self.new.max ≡ self.old.max }
    {
        match self.objects.shift_remove(name) {
            Some(_) => Reply::Done,
            None => Reply::NoSuch,
        }
    }
}
