//! The binders of a theorem or a goal.
ghost use Rattle.std.specs.Prelude.{◌≡◌, ◌↔◌, [], IsTrue, IfOk, Err};
ghost use Rattle.grind_theory.specs.States.{sort_numbers, bound_names, bound_sorts};
ghost use Rattle.grind_theory.specs.Faults.{AreNewAfter, AreSorts};
ghost use Rattle.grind_theory.specs.Headings.{name_in, bounds_in};
ghost use Rattle.grind_theory.specs.Declaring.{ScopeFound, FaultOfBinders, IsOpened};

use crate::heading::Heading;
use crate::theory::{DeclRefusal, Fault};
use grind_outside::{List, Memory};
use grind_resolution::{BinderKind, Scope, bytes_of};
use grind_signature::{NameTable, Signature};
use grind_term_graph::SortId;

// Whether the names of the binders are new and different.
fn are_new(signature: &Signature, heading: &Heading<'_>) -> Result<bool, Memory>
    ensures { IfOk result (λ fresh. IsTrue fresh ↔ AreNewAfter signature.now [] (bound_names (bounds_in heading.now))) }
{
    let mut names = NameTable::new(heading.alloc);
    let mut rest = heading.binders;
    while let Some((binder, later)) = rest.split_first() {
        let name = bytes_of(heading.text, binder.name);
        if signature.holds(name) {
            return Ok(false);
        }
        if names.contains(name) {
            return Ok(false);
        }
        names.add(heading.alloc, name)?;
        rest = later;
    }
    Ok(true)
}

// The scope of the binders, or None if the sort of one of them is not declared.
fn read_scope(
    signature: &Signature,
    kind: BinderKind,
    heading: &Heading<'_>,
) -> Result<Option<Scope>, Memory>
    requires { AreNewAfter signature.now [] (bound_names (bounds_in heading.now)) }
    ensures { IfOk result (ScopeFound kind signature.now (bounds_in heading.now)) }
{
    let mut scope = Scope::new(heading.alloc, kind);
    let mut rest = heading.binders;
    while let Some((binder, later)) = rest.split_first() {
        let Some(sort) = signature.find_sort(bytes_of(heading.text, binder.sort)) else {
            return Ok(None);
        };
        scope.push(heading.alloc, bytes_of(heading.text, binder.name), sort)?;
        rest = later;
    }
    Ok(Some(scope))
}

/// The sorts of the binders, which are declared.
pub(crate) fn sorts_of_binders(
    signature: &Signature,
    heading: &Heading<'_>,
) -> Result<List<SortId>, Memory>
    requires { AreSorts signature.now (bound_sorts (bounds_in heading.now)) }
    ensures { IfOk result (λ sorts. sorts ≡ sort_numbers signature.now (bound_sorts (bounds_in heading.now))) }
{
    let mut done = List::new(heading.alloc);
    let mut rest = heading.binders;
    while let Some((binder, later)) = rest.split_first() {
        let Some(sort) = signature.find_sort(bytes_of(heading.text, binder.sort)) else {
            unreachable!()
        };
        done.push(sort)?;
        rest = later;
    }
    Ok(done)
}

/// The scope of the binders of a declaration, if its name and theirs are new and their sorts are declared.
pub(crate) fn open_scope(
    signature: &Signature,
    kind: BinderKind,
    heading: &Heading<'_>,
) -> Result<Scope, DeclRefusal>
    ensures ok { IfOk result (IsOpened kind signature.now (name_in heading.now) (bounds_in heading.now)) }
    ensures faulty { (fault : Fault) → result ≡ Err (DeclRefusal.Faulty fault) → FaultOfBinders signature.now (name_in heading.now) (bounds_in heading.now) fault }
{
    if signature.holds(bytes_of(heading.text, heading.name)) {
        return Err(DeclRefusal::Faulty(Fault::Duplicate));
    }
    let fresh = match are_new(signature, heading) {
        Ok(fresh) => fresh,
        Err(_) => return Err(DeclRefusal::Memory),
    };
    if !fresh {
        return Err(DeclRefusal::Faulty(Fault::Duplicate));
    }
    let found = match read_scope(signature, kind, heading) {
        Ok(found) => found,
        Err(_) => return Err(DeclRefusal::Memory),
    };
    let Some(scope) = found else {
        return Err(DeclRefusal::Faulty(Fault::Unknown));
    };
    Ok(scope)
}
