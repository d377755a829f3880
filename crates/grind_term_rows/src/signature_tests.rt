//! Names that are declared one by one.
ghost use Rattle.std.specs.Prelude.{IsTrue};
ghost use Rattle.grind_schemes.specs.Labels.{IsLabel};

use grind_signature::{Signature, SignatureRefusal};
use grind_term_graph::SortId;
use std::alloc::Global;
use std::test::Fail;

/// What came of a declaration.
#[derive(Clone, Copy, Debug, PartialEq, Eq)]
enum Answer {
    /// It was taken, and has this number.
    Taken(u32),
    /// The name is held.
    Held,
    /// Memory was wanted, or the declaration may not be asked for.
    Wanted,
}

/// Whether these bytes name something in a report.
fn is_label(bytes: &[u8]) -> bool
    ensures { IsTrue result → IsLabel bytes.now }
{
    !bytes.is_empty()
        && bytes.len() <= 255
        && bytes.iter().all(|byte| *byte != b' ' && *byte != b'\n')
}

fn refused(refusal: SignatureRefusal) -> Answer {
    match refusal {
        SignatureRefusal::Duplicate => Answer::Held,
        SignatureRefusal::Memory => Answer::Wanted,
    }
}

fn sort(alloc: Global, signature: &mut Signature, name: &[u8]) -> Answer {
    if !is_label(name) {
        return Answer::Wanted;
    }
    match signature.declare_sort(alloc, name) {
        Ok(sort) => Answer::Taken(sort.number()),
        Err(refusal) => refused(refusal),
    }
}

/// Declares a function of one argument, of the sort that it answers.
fn function(alloc: Global, signature: &mut Signature, name: &[u8], number: u32) -> Answer {
    if !is_label(name) || number >= signature.sort_count() {
        return Answer::Wanted;
    }
    let own = SortId::new(number);
    match signature.declare_fun(alloc, name, &[own], own) {
        Ok(function) => Answer::Taken(function.number()),
        Err(refusal) => refused(refusal),
    }
}

fn label(alloc: Global, signature: &mut Signature, name: &[u8]) -> Answer {
    if !is_label(name) {
        return Answer::Wanted;
    }
    match signature.declare_label(alloc, name) {
        Ok(()) => Answer::Taken(0),
        Err(refusal) => refused(refusal),
    }
}

#[test]
fn sorts_functions_and_labels_have_one_space_of_names(rt: HostRuntime) -> Result<(), Fail> {
    let alloc = rt.alloc();
    let mut signature = Signature::new(alloc)?;
    assert_eq!(rt; sort(alloc, &mut signature, b"Int"), Answer::Held);
    assert_eq!(rt; sort(alloc, &mut signature, b"S"), Answer::Taken(2));
    assert_eq!(rt; function(alloc, &mut signature, b"f", 2), Answer::Taken(0));
    assert_eq!(rt; label(alloc, &mut signature, b"g"), Answer::Taken(0));
    assert_eq!(rt; label(alloc, &mut signature, b"f"), Answer::Held);
    assert_eq!(rt; label(alloc, &mut signature, b"g"), Answer::Held);
    Ok(())
}
