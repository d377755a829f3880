//! A list whose growth may find no memory.
ghost use Rattle.std.specs.Prelude.{◌≡◌, ◌<◌, ◌≤◌, ◌^◌, ◌↔◌, [], ◌∷◌, ◌++◌, length, take, slice_get, slice_set, slice_index_or, None, Some, IsTrue, MatchOption, OnOk, OnErr, IfSome};
ghost use Rattle.std.specs.Cmp.Lexicographic.{pointwise, lists_per, lists_equiv};

use crate::memory::Memory;
use std::alloc::Global;
use std::fmt;
use std::marker::Model;

/// Items in order, fewer than 2^32 of them. Contracts see the list of the items.
pub struct List<T> {
    items: Vec<T>,
}

impl<T> Model for List<T> {
    ghost use Rattle.std.specs.Prelude.{List, length, ◌<◌, ◌^◌};

    ghost Value = { List T };

    ghost view = { λ a. a.items.items };

    ghost invariant = { λ a. length a.items.items < 2 ^ 32 };
}

impl<T: Drop> Drop for List<T> {
    fn drop(self) {
        let List { items: _ } = self;
    }
}

impl<T: Drop> List<T> {
    /// A list without items. It takes no memory.
    pub fn new(alloc: Global) -> List<T>
        ensures { result ≡ [] }
    {
        List {
            items: Vec::new(alloc),
        }
    }

    /// Puts an item at the end. A refused item is dropped, and the list stays as it was. A list of
    /// 2^32 - 1 items has no room.
    pub fn push(&mut self, item: T) -> Result<(), Memory>
        ensures ok { OnOk result (self.new ≡ self.old ++ item ∷ []) }
        ensures err { OnErr result (self.new ≡ self.old) }
    {
        if self.items.len() >= 0xffff_ffff {
            return Err(Memory);
        }
        match self.items.push(item) {
            Ok(()) => Ok(()),
            Err(_) => Err(Memory),
        }
    }

    /// Takes the last item off. None comes exactly where there is no item.
    pub fn pop(&mut self) -> Option<T>
        ensures { MatchOption result ((self.old ≡ []) × (self.new ≡ []))
            (λ item. self.old ≡ self.new ++ item ∷ []) }
    {
        self.items.pop()
    }

    /// Puts an item in place of the item at a position, which is dropped.
    pub fn set(&mut self, i: usize, item: T)
        requires { i < length self.old }
        ensures { self.new ≡ slice_set self.old i item }
    {
        self.items[i] = item;
    }

    /// Puts an item in place of the item at a position, and gives that item back.
    pub fn replace(&mut self, i: usize, item: T) -> T
        requires { i < length self.old }
        ensures new { self.new ≡ slice_set self.old i item }
        ensures value { slice_get self.old i ≡ Some result }
    {
        std::mem::replace(&mut self.items[i], item)
    }

    /// Keeps the first items, so many of them, and drops the others.
    pub fn truncate(&mut self, len: usize)
        ensures { self.new ≡ take len self.old }
    {
        self.items.truncate(len);
    }

    /// Whether there are no items.
    pub fn is_empty(&self) -> bool
        ensures { IsTrue result ↔ (self.now ≡ []) }
    {
        self.items.is_empty()
    }

    /// How many items there are.
    pub fn len(&self) -> usize
        ensures value { result ≡ length self.now }
        ensures bound { length self.now < 2 ^ 32 }
    {
        self.items.len()
    }

    /// The items, in order.
    pub fn as_slice(&self) -> &[T]
        ensures value { result.now ≡ self.now }
        ensures bound { length self.now < 2 ^ 32 }
    {
        self.items.as_slice()
    }
}

impl<T: Copy> List<T> {
    /// Puts the items at the end, all of them or none. A refused call leaves the list as it was. The
    /// list has room for 2^32 - 1 items.
    pub fn extend(&mut self, items: &[T]) -> Result<(), Memory>
        ensures ok { OnOk result (self.new ≡ self.old ++ items.now) }
        ensures err { OnErr result (self.new ≡ self.old) }
    {
        if items.len() > 0xffff_ffff - self.items.len() {
            return Err(Memory);
        }
        match self.items.extend_from_slice(items) {
            Ok(()) => Ok(()),
            Err(_) => Err(Memory),
        }
    }
}

impl<T: PartialEq> PartialEq for List<T> {
    ghost eq = { pointwise T.eq };

    ghost laws = { lists_per T.PartialEq.laws };

    fn eq(&self, other: &Self) -> bool {
        self.items.as_slice() == other.items.as_slice()
    }
}

impl<T: Eq> Eq for List<T> {
    ghost laws = { lists_equiv T.Eq.laws };
}

impl<T: fmt::Debug> fmt::Debug for List<T> {
    fn fmt<W: fmt::Write>(&self, f: &mut fmt::Formatter<W>) -> fmt::Result {
        self.items.fmt(f)
    }
}
