//! Functions by name, each with the sorts that it was declared with.
ghost use Rattle.std.specs.Prelude.{◌≡◌, ◌≢◌, ◌<◌, ◌↔◌, [], ◌∷◌, ◌++◌, length, slice_get, position, Some, Contains, IsTrue, IfOk, OnOk, OnErr};
ghost use Rattle.std.specs.List.{AllPairs};
ghost use Rattle.std.specs.Str.{bytes_eq};
ghost use Rattle.grind_signature.specs.Signatures.{Function, function_names};

use crate::name_table::NameTable;
use grind_outside::{List, Memory};
use grind_term_graph::SortId;
use std::alloc::Global;
use std::marker::Model;

/// The sorts of a function's arguments, and its own.
#[derive(Drop)]
pub struct Arity {
    /// The sorts of the arguments, in order.
    pub args: List<SortId>,
    /// The sort of the function at its arguments.
    pub result: SortId,
}

/// Functions in order, with different names. Contracts see them as a list.
#[derive(Drop)]
pub struct FunTable {
    names: NameTable,
    arities: List<Arity>,
}

impl Model for FunTable {
    ghost use Rattle.std.specs.Prelude.{◌≡◌, List, length};
    ghost use Rattle.grind_signature.specs.Signatures.{Function};
    ghost use Rattle.grind_signature.specs.Functions.{functions_of};

    ghost Value = { List Function };

    ghost view = { λ a. functions_of a.names a.arities };

    ghost invariant = { λ a. length a.names ≡ length a.arities };
}

// The list of these sorts.
fn listed(alloc: Global, sorts: &[SortId]) -> Result<List<SortId>, Memory>
    ensures { IfOk result (λ list. list ≡ sorts.now) }
{
    let mut list = List::new(alloc);
    list.extend(sorts)?;
    Ok(list)
}

impl FunTable {
    /// An empty table, made without allocating.
    pub fn new(alloc: Global) -> FunTable
        ensures { result ≡ [] }
    {
        FunTable {
            names: NameTable::new(alloc),
            arities: List::new(alloc),
        }
    }

    /// The number of the function with that name, or None if there is none.
    pub fn find(&self, name: &[u8]) -> Option<u32>
        ensures value { result ≡ position (bytes_eq name.now) (function_names self.now) }
        ensures differ { AllPairs (λ a b. a ≢ b) (function_names self.now) }
    {
        let _len = self.names.len();
        self.names.find(name)
    }

    /// Whether there is a function with that name.
    pub fn contains(&self, name: &[u8]) -> bool
        ensures { IsTrue result ↔ Contains (function_names self.now) name.now }
    {
        self.names.contains(name)
    }

    /// Appends a function with a new name and returns its number. Out of memory, the functions are unchanged.
    pub fn add(
        &mut self,
        alloc: Global,
        name: &[u8],
        args: &[SortId],
        own: SortId,
    ) -> Result<u32, Memory>
        requires { ¬ Contains (function_names self.old) name.now }
        ensures ok { OnOk result (self.new ≡ self.old ++ record { name = name.now; args = args.now; result = own } ∷ []) }
        ensures number { IfOk result (λ number. number ≡ length self.old) }
        ensures err { OnErr result (self.new ≡ self.old) }
    {
        let list = listed(alloc, args)?;
        let before = self.arities.len();
        self.arities.push(Arity {
            args: list,
            result: own,
        })?;
        match self.names.add(alloc, name) {
            Ok(number) => Ok(number),
            Err(_) => {
                self.arities.truncate(before);
                Err(Memory)
            }
        }
    }

    /// The name of the function with that number.
    pub fn name(&self, number: u32) -> &[u8]
        requires { number < length self.now }
        ensures { (f : Function) → slice_get self.now number ≡ Some f → result.now ≡ f.name }
    {
        self.names.name(number)
    }

    /// The sorts of the function with that number.
    pub fn arity(&self, number: u32) -> &Arity
        requires { number < length self.now }
        ensures { (f : Function) → slice_get self.now number ≡ Some f → (result.now.args ≡ f.args) × (result.now.result ≡ f.result) }
    {
        &self.arities.as_slice()[number as usize]
    }
}
