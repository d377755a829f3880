//! Distinct names, numbered in the order in which they were added.
ghost use Rattle.std.specs.Prelude.{◌≡◌, ◌≢◌, ◌<◌, ◌^◌, [], ◌∷◌, ◌++◌, length, slice_get, position, None, Some, Contains, IfOk, OnOk, OnErr, IsTrue, ◌↔◌};
ghost use Rattle.std.specs.List.{AllPairs};
ghost use Rattle.std.specs.Str.{bytes_eq};

use grind_outside::Memory;
use indexmap::IndexSet;
use std::alloc::Global;
use std::marker::Model;

/// Distinct names in order, fewer than 2^32 of them. Contracts see them as a list. A name is found in one look-up.
#[derive(Drop)]
pub struct NameTable {
    names: IndexSet<Vec<u8>>,
}

impl Model for NameTable {
    ghost use Rattle.std.specs.Prelude.{ℕ, List, length, map, ◌<◌, ◌^◌};

    ghost Value = { List (List ℕ) };

    ghost view = { λ a. map (λ name. name.items) a.names.keys };

    ghost invariant = { λ a. length a.names.keys < 2 ^ 32 };
}

impl NameTable {
    /// An empty table, made without allocating.
    pub fn new(alloc: Global) -> NameTable
        ensures { result ≡ [] }
    {
        NameTable {
            names: IndexSet::new(alloc),
        }
    }

    /// How many names there are.
    pub fn len(&self) -> u32
        ensures value { result ≡ length self.now }
        ensures differ { AllPairs (λ a b. a ≢ b) self.now }
    {
        self.names.len() as u32
    }

    /// The number of a name, or None if it is absent.
    pub fn find(&self, name: &[u8]) -> Option<u32>
        ensures { result ≡ position (bytes_eq name.now) self.now }
    {
        match self.names.get_index_of(name) {
            Some(place) => Some(place as u32),
            None => None,
        }
    }

    /// Whether the name is in the table.
    pub fn contains(&self, name: &[u8]) -> bool
        ensures { IsTrue result ↔ Contains self.now name.now }
    {
        self.names.contains(name)
    }

    /// Appends a new name and returns its number. Out of memory, the names are unchanged. A table of
    /// 2^32 - 1 names is full.
    pub fn add(&mut self, alloc: Global, name: &[u8]) -> Result<u32, Memory>
        requires { ¬ Contains self.old name.now }
        ensures ok { OnOk result (self.new ≡ self.old ++ name.now ∷ []) }
        ensures number { IfOk result (λ number. number ≡ length self.old) }
        ensures err { OnErr result (self.new ≡ self.old) }
    {
        let number = self.names.len();
        if number >= 0xffff_ffff {
            return Err(Memory);
        }
        let Ok(owned) = Vec::from_slice(alloc, name) else {
            return Err(Memory);
        };
        match self.names.insert(owned) {
            Ok(_) => Ok(number as u32),
            Err(_) => Err(Memory),
        }
    }

    /// The name with that number.
    pub fn name(&self, number: u32) -> &[u8]
        requires { number < length self.now }
        ensures { slice_get self.now number ≡ Some result.now }
    {
        self.names.as_slice()[number as usize].as_slice()
    }
}
