//! Which schemes are pattern terms, and which variables stand in schemes.
ghost use Rattle.std.specs.Prelude.{◌↔◌, All, Any, IsTrue};
ghost use Rattle.grind_schemes.specs.Schemes.{HasVar, IsHeadedByFunction};
ghost use Rattle.grind_schemes.specs.Theorems.{HoldsEach};
ghost use Rattle.grind_patterns.specs.Patterns.{IsTermHead, IsTerm, HasUncovered, IsPatternTerm};

use grind_schemes::Scheme;
use grind_term_graph::{Head, SortId};

/// Whether the variable stands in the scheme.
#[cycle(holding)]
pub fn has_var(scheme: &Scheme, variable: usize) -> bool
    ensures { IsTrue result ↔ HasVar variable scheme.now }
{
    match scheme {
        Scheme::Var(number) => *number as usize == variable,
        Scheme::Apply { args, .. } => any_has_var(args, variable),
    }
}

// Whether the variable stands in one of the schemes.
#[cycle(holding)]
pub(crate) fn any_has_var(schemes: &[Scheme], variable: usize) -> bool
    ensures { IsTrue result ↔ Any (HasVar variable) schemes.now }
{
    for scheme in schemes {
        if has_var(scheme, variable) {
            return true;
        }
    }
    false
}

/// Whether a variable stands in the scheme that stands in none of the terms.
#[cycle(covering)]
pub fn has_uncovered(scheme: &Scheme, terms: &[Scheme]) -> bool
    ensures { IsTrue result ↔ HasUncovered terms.now scheme.now }
{
    match scheme {
        Scheme::Var(number) => !any_has_var(terms, *number as usize),
        Scheme::Apply { args, .. } => any_has_uncovered(args, terms),
    }
}

// Whether a variable stands in one of the schemes that stands in none of the terms.
#[cycle(covering)]
fn any_has_uncovered(schemes: &[Scheme], terms: &[Scheme]) -> bool
    ensures { IsTrue result ↔ Any (HasUncovered terms.now) schemes.now }
{
    for scheme in schemes {
        if has_uncovered(scheme, terms) {
            return true;
        }
    }
    false
}

/// Whether the scheme is built from declared functions, numbers and variables alone.
#[cycle(building)]
pub fn is_term(scheme: &Scheme) -> bool
    ensures { IsTrue result ↔ IsTerm scheme.now }
{
    match scheme {
        Scheme::Var(_) => true,
        Scheme::Apply { head, args, .. } => is_term_head(*head) && are_terms(args),
    }
}

// Whether each of the schemes is built from declared functions, numbers and variables alone.
#[cycle(building)]
fn are_terms(schemes: &[Scheme]) -> bool
    ensures { IsTrue result ↔ All IsTerm schemes.now }
{
    for scheme in schemes {
        if !is_term(scheme) {
            return false;
        }
    }
    true
}

// Whether the head is a declared function or a number.
fn is_term_head(head: Head) -> bool
    ensures { IsTrue result ↔ IsTermHead head }
{
    match head {
        Head::Fun(_) | Head::Int(_) => true,
        _ => false,
    }
}

// Whether the scheme is a declared function at its arguments.
fn is_headed(scheme: &Scheme) -> bool
    ensures { IsTrue result ↔ IsHeadedByFunction scheme.now }
{
    match scheme {
        Scheme::Apply {
            head: Head::Fun(_),
            ..
        } => true,
        _ => false,
    }
}

/// Whether the scheme is a pattern term.
pub fn is_pattern_term(scheme: &Scheme) -> bool
    ensures { IsTrue result ↔ IsPatternTerm scheme.now }
{
    is_headed(scheme) && is_term(scheme) && has_uncovered(scheme, &[])
}

/// Whether each of the schemes is a pattern term.
pub fn are_pattern_terms(schemes: &[Scheme]) -> bool
    ensures { IsTrue result ↔ All IsPatternTerm schemes.now }
{
    for scheme in schemes {
        if !is_pattern_term(scheme) {
            return false;
        }
    }
    true
}

/// Whether each of the variables stands in one of the schemes.
pub fn hold_each(vars: &[SortId], schemes: &[Scheme]) -> bool
    ensures { IsTrue result ↔ HoldsEach vars.now schemes.now }
{
    for variable in 0..vars.len() {
        if !any_has_var(schemes, variable) {
            return false;
        }
    }
    true
}
