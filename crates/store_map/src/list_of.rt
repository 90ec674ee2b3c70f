//! Lists that contracts see as their items; of bytes, they are copied in part and written over.
ghost use Rattle.std.specs.Prelude.{◌≡◌, ◌∷◌, [], ◌++◌, length, OnOk, OnErr, IsTrue, ◌↔◌};
ghost use Rattle.std.specs.Cmp.Lexicographic.{pointwise, lists_per, lists_equiv};

use std::alloc::{AllocError, Global};
use std::marker::Model;

/// A list of bytes.
pub type ByteList = ListOf<u8>;

/// A growable list that contracts see as the list of its items.
#[derive(Debug, Drop)]
pub struct ListOf<T> {
    items: Vec<T>,
}

impl<T> Model for ListOf<T> {
    ghost use Rattle.std.specs.Prelude.{List};

    ghost Value = { List T };

    ghost view = { λ a. a.items.items };
}

impl<T: PartialEq> PartialEq for ListOf<T> {
    ghost eq = { pointwise T.eq };

    ghost laws = { lists_per T.laws };

    fn eq(&self, other: &ListOf<T>) -> bool {
        self.items.as_slice() == other.items.as_slice()
    }
}

impl<T: Eq> Eq for ListOf<T> {
    ghost laws = { lists_equiv T.Eq.laws };
}

impl<T> ListOf<T> {
    /// An empty list.
    pub fn new(alloc: Global) -> Self
        ensures { result ≡ [] }
    {
        ListOf {
            items: Vec::new(alloc),
        }
    }

    /// The items of a vector, in its memory.
    pub fn from_vec(items: Vec<T>) -> Self
        ensures { result ≡ items.items }
    {
        ListOf { items }
    }

    pub fn as_slice(&self) -> &[T]
        ensures { result.now ≡ self.now }
    {
        self.items.as_slice()
    }

    pub fn len(&self) -> usize
        ensures { result ≡ length self.now }
    {
        self.items.len()
    }

    pub fn is_empty(&self) -> bool
        ensures { IsTrue result ↔ (self.now ≡ []) }
    {
        self.items.is_empty()
    }

    /// Where the list has its memory.
    pub(crate) fn allocator(&self) -> Global {
        *self.items.allocator()
    }

    pub fn push(&mut self, item: T) -> Result<(), AllocError>
    where
        T: Drop,
        ensures ok { OnOk result (self.new ≡ self.old ++ item ∷ []) }
        ensures err { OnErr result (self.new ≡ self.old) }
    {
        self.items.push(item)?;
        Ok(())
    }
}

impl ListOf<u8> {
    ghost use Rattle.std.specs.Prelude.{◌≡◌, ◌≤◌, length, take, drop, IfOk, OnOk, OnErr};
    ghost use Rattle.store_map.specs.Content.{overwrite};

    /// A copy of the bytes.
    pub fn from_slice(alloc: Global, bytes: &[u8]) -> Result<Self, AllocError>
        ensures { IfOk result (λ list. list ≡ bytes.now) }
    {
        Ok(ListOf {
            items: Vec::from_slice(alloc, bytes)?,
        })
    }

    /// The same bytes in memory of their own.
    pub fn copy(&self) -> Result<Self, AllocError>
        ensures { IfOk result (λ list. list ≡ self.now) }
    {
        Ok(ListOf {
            items: self.items.clone()?,
        })
    }

    /// A copy of the bytes from an offset on, `count` of them or as many as there are.
    pub fn copy_part(&self, offset: usize, count: usize) -> Result<Self, AllocError>
        requires { offset ≤ length self.now }
        ensures { IfOk result (λ list. list ≡ take count (drop offset self.now)) }
    {
        let rest = &self.items[offset..];
        let count = rest.len().min(count);
        ListOf::from_slice(*self.items.allocator(), &rest[..count])
    }

    /// Writes the new bytes over the old ones from an offset on, past their end where they reach it.
    pub fn write_over(&mut self, offset: usize, new: &[u8]) -> Result<(), AllocError>
        requires { offset ≤ length self.old }
        ensures ok { OnOk result (self.new ≡ overwrite self.old offset new.now) }
        ensures err { OnErr result (self.new ≡ self.old) }
    {
        let inside = new.len().min(self.items.len() - offset);
        let (over, beyond) = new.split_at(inside);
        self.items.extend_from_slice(beyond)?;
        let place = &mut self.items[offset..offset + inside];
        place.copy_from_slice(over);
        Ok(())
    }
}
