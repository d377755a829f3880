//! The walk that takes pattern terms.
ghost use Rattle.std.specs.Prelude.{OnOk};
ghost use Rattle.grind_patterns.specs.Patterns.{IsPatternTerm};
ghost use Rattle.grind_patterns.specs.Walking.{TakesOn, WalksOn, WalksEachOn};

use crate::copies::copied;
use crate::terms::{has_uncovered, is_pattern_term};
use grind_outside::{List, Memory};
use grind_schemes::Scheme;
use std::alloc::Global;

// Walks a scheme from the outside to the inside and from the left, and appends a copy of each term that it takes.
// It does not go inside a pattern term.
#[cycle(walking)]
pub(crate) fn walk(alloc: Global, scheme: &Scheme, taken: &mut List<Scheme>) -> Result<(), Memory>
    ensures { OnOk result (WalksOn taken.old scheme.now taken.new) }
{
    match scheme {
        Scheme::Var(_) => Ok(()),
        Scheme::Apply { args, .. } => {
            if is_pattern_term(scheme) {
                return take(alloc, scheme, taken);
            }
            walk_each(alloc, args, taken)
        }
    }
}

// Walks several schemes, one after the other.
#[cycle(walking)]
fn walk_each(alloc: Global, schemes: &[Scheme], taken: &mut List<Scheme>) -> Result<(), Memory>
    ensures { OnOk result (WalksEachOn taken.old schemes.now taken.new) }
{
    for scheme in schemes {
        walk(alloc, scheme, taken)?;
    }
    Ok(())
}

// Takes a pattern term that has a variable which none of the terms has.
fn take(alloc: Global, term: &Scheme, taken: &mut List<Scheme>) -> Result<(), Memory>
    requires { IsPatternTerm term.now }
    ensures { OnOk result (TakesOn taken.old term.now taken.new) }
{
    if !has_uncovered(term, taken.as_slice()) {
        return Ok(());
    }
    let copy = copied(alloc, term)?;
    taken.push(copy)
}
