//! The names that a theory declares: sorts, functions, and the labels of goals.
ghost use Rattle.std.specs.Prelude.{◌≡◌, ◌<◌, ◌≤◌, ◌↔◌, All, length, slice_get, position, Some, IsTrue, IfOk, OnOk, OnErr, IfErr};
ghost use Rattle.std.specs.Str.{bytes_eq};
ghost use Rattle.grind_schemes.specs.Labels.{IsLabel};
ghost use Rattle.grind_signature.specs.Signatures.{Function, opening, function_names, IsHeld, with_sort, with_function, with_label, IsSignature};

use crate::fun_table::FunTable;
use crate::name_table::NameTable;
use grind_outside::Memory;
use grind_term_graph::{FunId, SortId};
use std::alloc::Global;
use std::marker::Model;

/// Why a name was not declared.
#[derive(Clone, Copy, Debug, PartialEq, Eq)]
pub enum SignatureRefusal {
    /// The name already belongs to a sort, a function or a label.
    Duplicate,
    /// Out of memory.
    Memory,
}

/// The declared names. The sorts 0 and 1 are `Prop` and `Int`, and declared sorts follow them. Functions
/// are numbered from 0. A name stands for one sort, one function or one label alone.
#[derive(Drop)]
pub struct Signature {
    sorts: NameTable,
    functions: FunTable,
    labels: NameTable,
}

impl Model for Signature {
    ghost use Rattle.grind_signature.specs.Signatures.{SignatureData, IsSignature, signature_data};

    ghost Value = { SignatureData };

    ghost view = { λ a. signature_data a.sorts a.functions a.labels };

    ghost invariant = { λ a. IsSignature (signature_data a.sorts a.functions a.labels) };
}

impl Signature {
    /// The signature with the sorts `Prop` and `Int` alone.
    pub fn new(alloc: Global) -> Result<Signature, Memory>
        ensures { IfOk result (λ signature. signature ≡ opening) }
    {
        let mut sorts = NameTable::new(alloc);
        sorts.add(alloc, b"Prop")?;
        sorts.add(alloc, b"Int")?;
        Ok(Signature {
            sorts,
            functions: FunTable::new(alloc),
            labels: NameTable::new(alloc),
        })
    }

    /// How many sorts there are. The contract also says what holds of every signature.
    pub fn sort_count(&self) -> u32
        ensures value { result ≡ length self.now.sorts }
        ensures keeps { IsSignature self.now }
    {
        self.sorts.len()
    }

    /// Whether the name is that of a sort, a function or a label.
    pub fn holds(&self, name: &[u8]) -> bool
        ensures value { IsTrue result ↔ IsHeld self.now name.now }
        ensures keeps { IsSignature self.now }
    {
        self.sorts.contains(name) || self.functions.contains(name) || self.labels.contains(name)
    }

    /// Declares a sort and returns its number. After a refusal the signature is unchanged.
    ///
    /// # Errors
    ///
    /// `Duplicate` exactly where the name is held, and `Memory`.
    pub fn declare_sort(&mut self, alloc: Global, name: &[u8]) -> Result<SortId, SignatureRefusal>
        requires { IsLabel name.now }
        ensures ok { OnOk result (self.new ≡ with_sort self.old name.now) }
        ensures number { IfOk result (λ sort. sort ≡ length self.old.sorts) }
        ensures new { OnOk result (¬ IsHeld self.old name.now) }
        ensures duplicate { IfErr result (λ refusal. refusal ≡ SignatureRefusal.Duplicate ↔ IsHeld self.old name.now) }
        ensures err { OnErr result (self.new ≡ self.old) }
    {
        if self.holds(name) {
            return Err(SignatureRefusal::Duplicate);
        }
        match self.sorts.add(alloc, name) {
            Ok(number) => Ok(SortId::new(number)),
            Err(_) => Err(SignatureRefusal::Memory),
        }
    }

    /// Declares a function and returns its number. After a refusal the signature is unchanged.
    ///
    /// # Errors
    ///
    /// `Duplicate` exactly where the name is held, and `Memory`.
    pub fn declare_fun(
        &mut self,
        alloc: Global,
        name: &[u8],
        args: &[SortId],
        own: SortId,
    ) -> Result<FunId, SignatureRefusal>
        requires label { IsLabel name.now }
        requires args { All (λ sort. sort < length self.old.sorts) args.now }
        requires few { length args.now ≤ 16 }
        requires own { own < length self.old.sorts }
        ensures ok { OnOk result (self.new ≡ with_function self.old (record { name = name.now; args = args.now; result = own })) }
        ensures number { IfOk result (λ function. function ≡ length self.old.functions) }
        ensures new { OnOk result (¬ IsHeld self.old name.now) }
        ensures duplicate { IfErr result (λ refusal. refusal ≡ SignatureRefusal.Duplicate ↔ IsHeld self.old name.now) }
        ensures err { OnErr result (self.new ≡ self.old) }
    {
        if self.holds(name) {
            return Err(SignatureRefusal::Duplicate);
        }
        match self.functions.add(alloc, name, args, own) {
            Ok(number) => Ok(FunId::new(number)),
            Err(_) => Err(SignatureRefusal::Memory),
        }
    }

    /// Declares the name of a goal. After a refusal the signature is unchanged.
    ///
    /// # Errors
    ///
    /// `Duplicate` exactly where the name is held, and `Memory`.
    pub fn declare_label(&mut self, alloc: Global, name: &[u8]) -> Result<(), SignatureRefusal>
        requires { IsLabel name.now }
        ensures ok { OnOk result (self.new ≡ with_label self.old name.now) }
        ensures new { OnOk result (¬ IsHeld self.old name.now) }
        ensures duplicate { IfErr result (λ refusal. refusal ≡ SignatureRefusal.Duplicate ↔ IsHeld self.old name.now) }
        ensures err { OnErr result (self.new ≡ self.old) }
    {
        if self.holds(name) {
            return Err(SignatureRefusal::Duplicate);
        }
        match self.labels.add(alloc, name) {
            Ok(_) => Ok(()),
            Err(_) => Err(SignatureRefusal::Memory),
        }
    }

    /// The number of a sort, or None if no sort has the name.
    pub fn find_sort(&self, name: &[u8]) -> Option<SortId>
        ensures { result ≡ position (bytes_eq name.now) self.now.sorts }
    {
        match self.sorts.find(name) {
            Some(number) => Some(SortId::new(number)),
            None => None,
        }
    }

    /// The number of a function, or None if no function has the name.
    pub fn find_fun(&self, name: &[u8]) -> Option<FunId>
        ensures { result ≡ position (bytes_eq name.now) (function_names self.now.functions) }
    {
        match self.functions.find(name) {
            Some(number) => Some(FunId::new(number)),
            None => None,
        }
    }

    /// The name of a function.
    pub fn name_of(&self, function: FunId) -> &[u8]
        requires { function < length self.now.functions }
        ensures value { (f : Function) → slice_get self.now.functions function ≡ Some f → result.now ≡ f.name }
        ensures keeps { IsSignature self.now }
    {
        self.functions.name(function.number())
    }

    /// The sorts of a function's arguments, at most sixteen.
    pub fn args_of(&self, function: FunId) -> &[SortId]
        requires { function < length self.now.functions }
        ensures few { length result.now ≤ 16 }
        ensures value { (f : Function) → slice_get self.now.functions function ≡ Some f → result.now ≡ f.args }
    {
        self.functions.arity(function.number()).args.as_slice()
    }

    /// The sort of a function at its arguments.
    pub fn sort_of(&self, function: FunId) -> SortId
        requires { function < length self.now.functions }
        ensures { (f : Function) → slice_get self.now.functions function ≡ Some f → result ≡ f.result }
    {
        self.functions.arity(function.number()).result
    }
}
