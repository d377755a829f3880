//! The binders of a declaration, by name.
ghost use Rattle.std.specs.Prelude.{◌≡◌, ◌↔◌, ◌<◌, [], ◌∷◌, ◌++◌, length, slice_get, position, Some, Contains, IsTrue, OnOk, OnErr};
ghost use Rattle.std.specs.Str.{bytes_eq};
ghost use Rattle.grind_schemes.specs.declared.goal.Constant.{Constant as K};
ghost use Rattle.grind_resolution.specs.Scopes.{scope_data, binder_names, binder_meaning, AreDistinct};

use crate::meaning::{BinderKind, Meaning};
use grind_outside::{List, Memory};
use grind_schemes::Constant;
use grind_signature::NameTable;
use grind_term_graph::{Head, SortId};
use std::alloc::Global;
use std::marker::Model;

/// The binders of a declaration in order, with different names: the constants of a goal or the variables of a
/// theorem. Contracts see their kind and a list. A binder is found in one look-up.
#[derive(Drop)]
pub struct Scope {
    kind: BinderKind,
    names: NameTable,
    items: List<Constant>,
}

impl Model for Scope {
    ghost use Rattle.std.specs.Prelude.{◌≡◌};
    ghost use Rattle.grind_resolution.specs.Scopes.{ScopeData, scope_data, binder_names};

    ghost Value = { ScopeData };

    ghost view = { λ a. scope_data a.kind a.items };

    ghost invariant = { λ a. a.names ≡ binder_names a.items };
}

impl Scope {
    /// An empty scope, made without allocating.
    pub fn new(alloc: Global, kind: BinderKind) -> Scope
        ensures { result ≡ scope_data kind [] }
    {
        Scope {
            kind,
            names: NameTable::new(alloc),
            items: List::new(alloc),
        }
    }

    /// How many binders there are. The contract also says that their names differ.
    pub fn len(&self) -> u32
        ensures value { result ≡ length self.now.binders }
        ensures distinct { AreDistinct self.now }
    {
        self.names.len()
    }

    /// The number of the binder with that name, or None if there is none.
    pub fn find(&self, name: &[u8]) -> Option<u32>
        ensures { result ≡ position (bytes_eq name.now) (binder_names self.now.binders) }
    {
        self.names.find(name)
    }

    /// Whether a binder has the name.
    pub fn contains(&self, name: &[u8]) -> bool
        ensures { IsTrue result ↔ Contains (binder_names self.now.binders) name.now }
    {
        self.names.contains(name)
    }

    /// The sort of the binder with that number.
    pub fn sort(&self, number: u32) -> SortId
        requires { number < length self.now.binders }
        ensures { (b : K) → slice_get self.now.binders number ≡ Some b → result ≡ b.sort }
    {
        self.items.as_slice()[number as usize].sort
    }

    /// What the name of the binder with that number stands for.
    pub fn meaning(&self, number: u32) -> Meaning
        ensures { result ≡ binder_meaning self.now.kind number }
    {
        match self.kind {
            BinderKind::Constant => Meaning::Headed(Head::Const(number)),
            BinderKind::Variable => Meaning::Variable(number),
        }
    }

    /// Appends a binder with a new name. Out of memory, the binders are unchanged.
    pub fn push(&mut self, alloc: Global, name: &[u8], sort: SortId) -> Result<(), Memory>
        requires { ¬ Contains (binder_names self.old.binders) name.now }
        ensures ok { OnOk result (self.new ≡ scope_data self.old.kind (self.old.binders ++ record { name = name.now; sort = sort } ∷ [])) }
        ensures err { OnErr result (self.new ≡ self.old) }
    {
        let mut own = List::new(alloc);
        own.extend(name)?;
        let before = self.items.len();
        self.items.push(Constant { name: own, sort })?;
        match self.names.add(alloc, name) {
            Ok(_) => Ok(()),
            Err(_) => {
                self.items.truncate(before);
                Err(Memory)
            }
        }
    }

    /// The binders, in order.
    pub fn into_binders(self) -> List<Constant>
        ensures value { result ≡ self.binders }
        ensures distinct { AreDistinct self }
    {
        let Scope {
            kind: _,
            names,
            items,
        } = self;
        let _len = names.len();
        items
    }
}
