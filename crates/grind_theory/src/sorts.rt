//! The declarations of sorts and functions.
ghost use Rattle.std.specs.Prelude.{◌≡◌, ◌≢◌, ◌↔◌, All, IsTrue, IfOk, OnOk, Err};
ghost use Rattle.grind_term_graph.specs.Terms.{prop};
ghost use Rattle.grind_schemes.specs.Labels.{IsLabel};
ghost use Rattle.grind_grammar.specs.Terms.{Sort, Fun};
ghost use Rattle.grind_grammar.specs.Keeps.{IsPlaced, name_of};
ghost use Rattle.grind_theory.specs.Kept.{names_of};
ghost use Rattle.grind_theory.specs.Declaring.{HasFault, IsAdded, SortsFound};

use crate::theory::{DeclRefusal, Fault};
use grind_grammar::Name;
use grind_outside::{List, Memory};
use grind_resolution::bytes_of;
use grind_signature::{Signature, SignatureRefusal};
use grind_term_graph::SortId;
use std::alloc::Global;

/// The refusal of a declaration whose name was refused.
pub(crate) fn refusal_of(refusal: SignatureRefusal) -> DeclRefusal
    ensures { (fault : Fault) → result ≡ DeclRefusal.Faulty fault → (refusal ≡ SignatureRefusal.Duplicate) × (fault ≡ Fault.Duplicate) }
{
    match refusal {
        SignatureRefusal::Duplicate => DeclRefusal::Faulty(Fault::Duplicate),
        SignatureRefusal::Memory => DeclRefusal::Memory,
    }
}

/// Declares a sort.
pub(crate) fn declare_sort(
    alloc: Global,
    text: &[u8],
    signature: &mut Signature,
    name: Name,
) -> Result<(), DeclRefusal>
    requires placed { IsPlaced text.now name }
    requires label { IsLabel (name_of text.now name) }
    ensures ok { OnOk result (IsAdded signature.old (Sort (name_of text.now name)) signature.new) }
    ensures faulty { (fault : Fault) → result ≡ Err (DeclRefusal.Faulty fault) → HasFault signature.old (Sort (name_of text.now name)) fault }
{
    match signature.declare_sort(alloc, bytes_of(text, name)) {
        Ok(_) => Ok(()),
        Err(refusal) => Err(refusal_of(refusal)),
    }
}

/// The sorts with these names, or None if one of them is not the name of a sort.
pub(crate) fn find_sorts(
    alloc: Global,
    text: &[u8],
    signature: &Signature,
    names: &[Name],
) -> Result<Option<List<SortId>>, Memory>
    requires placed { All (IsPlaced text.now) names.now }
    ensures { IfOk result (SortsFound signature.now (names_of text.now names.now)) }
{
    let mut done = List::new(alloc);
    let mut rest = names;
    while let Some((name, later)) = rest.split_first() {
        let Some(sort) = signature.find_sort(bytes_of(text, *name)) else {
            return Ok(None);
        };
        done.push(sort)?;
        rest = later;
    }
    Ok(Some(done))
}

/// Whether none of the sorts is `Prop`.
pub(crate) fn has_no_formulas(sorts: &[SortId]) -> bool
    ensures { IsTrue result ↔ All (λ sort. sort ≢ prop) sorts.now }
{
    for sort in sorts {
        if *sort == SortId::PROP {
            return false;
        }
    }
    true
}

/// A declared function: its name, and the names of the sorts of its arguments and of its value.
#[derive(Drop)]
pub(crate) struct Signed<'a> {
    /// The name.
    pub(crate) name: Name,
    /// The sorts of the arguments, in order.
    pub(crate) args: &'a [Name],
    /// The sort of the value.
    pub(crate) own: Name,
}

/// Declares a function.
pub(crate) fn declare_fun(
    alloc: Global,
    text: &[u8],
    signature: &mut Signature,
    fun: &Signed<'_>,
) -> Result<(), DeclRefusal>
    requires placed { IsPlaced text.now fun.now.name }
    requires args { All (IsPlaced text.now) fun.now.args.now }
    requires own { IsPlaced text.now fun.now.own }
    requires label { IsLabel (name_of text.now fun.now.name) }
    ensures ok { OnOk result (IsAdded signature.old (Fun (name_of text.now fun.now.name) (names_of text.now fun.now.args.now) (name_of text.now fun.now.own)) signature.new) }
    ensures faulty { (fault : Fault) → result ≡ Err (DeclRefusal.Faulty fault)
        → HasFault signature.old (Fun (name_of text.now fun.now.name) (names_of text.now fun.now.args.now) (name_of text.now fun.now.own)) fault }
{
    let bytes = bytes_of(text, fun.name);
    if signature.holds(bytes) {
        return Err(DeclRefusal::Faulty(Fault::Duplicate));
    }
    let Some(sort) = signature.find_sort(bytes_of(text, fun.own)) else {
        return Err(DeclRefusal::Faulty(Fault::Unknown));
    };
    let found = match find_sorts(alloc, text, signature, fun.args) {
        Ok(found) => found,
        Err(_) => return Err(DeclRefusal::Memory),
    };
    let Some(list) = found else {
        return Err(DeclRefusal::Faulty(Fault::Unknown));
    };
    let sorts = list.as_slice();
    if !has_no_formulas(sorts) {
        return Err(DeclRefusal::Faulty(Fault::Sort));
    }
    if sorts.len() > 16 {
        return Err(DeclRefusal::Faulty(Fault::Size));
    }
    match signature.declare_fun(alloc, bytes, sorts, sort) {
        Ok(_) => Ok(()),
        Err(refusal) => Err(refusal_of(refusal)),
    }
}
