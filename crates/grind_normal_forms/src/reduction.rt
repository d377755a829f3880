//! The reduction of a polynomial by others.
ghost use Rattle.std.specs.Prelude.{◌≡◌, ◌≢◌, [], All, Some, None, Ok, Err, pos, IfOk, IsErrOf, MatchOption, ⊤};
ghost use Rattle.grind_monomials.specs.Monomials.{IsMonomial};
ghost use Rattle.grind_polynomials.specs.declared.poly.PolyRefusal.TheVariants.{Overflow};
ghost use Rattle.grind_polynomials.specs.Polynomials.{IsPoly};
ghost use Rattle.grind_normal_forms.specs.Reduction as reduction;
ghost use Rattle.grind_normal_forms.specs.Ranks.{Descends};

use crate::content::{content_of, divided_terms};
use crate::numbers::{common_divisor, divided, unit_of, weight_of};
use crate::scaling::scale;
use grind_monomials::{divides, quotient};
use grind_outside::List;
use grind_polynomials::{Multiplier, Poly, PolyRefusal, Term, add_multiples, product_of};
use grind_term_graph::NodeId;
use std::alloc::Global;

/// What a reduction gives: a multiple of the polynomial, by a factor, is a rest up to multiples of the basis.
#[derive(Drop, Debug, PartialEq, Eq)]
pub struct Reduced {
    /// How often the polynomial was taken.
    pub factor: i128,
    /// What is left of it.
    pub rest: Poly,
}

/// The normal form of a polynomial by a basis: the greatest monomial that some basis element reduces goes in each step,
/// by the first such element, until there is none; then factor and rest are divided by their common divisor.
///
/// # Errors
///
/// `Overflow` exactly where a coefficient on the way does not fit in 128 bits. `Degree` never comes, and `Memory` comes
/// where there is none.
pub fn normal(alloc: Global, p: &Poly, basis: &List<Poly>) -> Result<Reduced, PolyRefusal>
    requires { All (λ b. b ≢ []) basis.now }
    ensures ok { IfOk result (λ normal. reduction.IsNormal basis.now p.now normal) }
    ensures overflow { IsErrOf result PolyRefusal.Overflow → reduction.Reduces basis.now (reduction.reduced_of (pos 1) p.now) (Err Overflow) }
    ensures degree { IsErrOf result PolyRefusal.Degree → ⊥ }
{
    let made = reduce(alloc, p, basis.as_slice())?;
    let content = content_of(&made);
    let factor = divided(made.factor, content);
    let terms = divided_terms(alloc, content, made.rest.terms())?;
    Ok(Reduced {
        factor,
        rest: Poly { terms },
    })
}

// The factor and the rest to which steps lead that no basis element reduces further.
pub(crate) fn reduce(alloc: Global, p: &Poly, basis: &[Poly]) -> Result<Reduced, PolyRefusal>
    requires { All (λ b. b ≢ []) basis.now }
    ensures ok { IfOk result (λ made. reduction.Reduces basis.now (reduction.reduced_of (pos 1) p.now) (Ok made)) }
    ensures overflow { IsErrOf result PolyRefusal.Overflow → reduction.Reduces basis.now (reduction.reduced_of (pos 1) p.now) (Err Overflow) }
    ensures nonzero { IfOk result (λ made. made.factor ≢ pos 0) }
    ensures degree { IsErrOf result PolyRefusal.Degree → ⊥ }
{
    let rest = p.copy(alloc)?;
    let mut state = Reduced { factor: 1, rest };
    while let Some(next) = step(alloc, &state, basis)? {
        state = next;
    }
    Ok(state)
}

// One step of the reduction, or None where no basis element reduces the rest.
fn step(alloc: Global, state: &Reduced, basis: &[Poly]) -> Result<Option<Reduced>, PolyRefusal>
    requires { All (λ b. b ≢ []) basis.now }
    ensures ok { IfOk result (λ answer. MatchOption answer (reduction.target basis.now state.now.rest ≡ None) (λ next. reduction.Steps basis.now state.now next)) }
    ensures nonzero { IfOk result (λ answer. MatchOption answer ⊤ (λ next. state.now.factor ≢ pos 0 → next.factor ≢ pos 0)) }
    ensures descends { IfOk result (λ answer. MatchOption answer ⊤ (λ next. Descends basis.now state.now.rest next.rest)) }
    ensures overflow { IsErrOf result PolyRefusal.Overflow → reduction.Breaks basis.now state.now }
    ensures degree { IsErrOf result PolyRefusal.Degree → ⊥ }
{
    let Some((term, element)) = target(state.rest.terms(), basis) else {
        return Ok(None);
    };
    let _terms = element.terms();
    let next = step_by(alloc, state, term, element)?;
    Ok(Some(next))
}

// The first of the terms that some basis element reduces, and the first such element.
pub(crate) fn target<'a, 'b>(terms: &'a [Term], basis: &'b [Poly]) -> Option<(&'a Term, &'b Poly)>
    requires poly { IsPoly terms.now }
    requires nonzero { All (λ b. b ≢ []) basis.now }
    ensures value { MatchOption result (reduction.target basis.now terms.now ≡ None)
        (λ found. reduction.target basis.now terms.now ≡ Some (reduction.target_of found.0.now found.1.now)) }
    ensures nonzero { MatchOption result ⊤ (λ found. found.1.now ≢ []) }
    ensures monomial { MatchOption result ⊤ (λ found. IsMonomial found.0.now.monomial) }
{
    let mut rest = terms;
    while let Some((term, tail)) = rest.split_first() {
        if let Some(element) = reducer(basis, term.monomial.as_slice()) {
            return Some((term, element));
        }
        rest = tail;
    }
    None
}

// The first basis element whose leading monomial divides the monomial.
fn reducer<'a>(basis: &'a [Poly], monomial: &[NodeId]) -> Option<&'a Poly>
    requires { All (λ b. b ≢ []) basis.now }
    ensures value { MatchOption result (reduction.reducer basis.now monomial.now ≡ None) (λ b. reduction.reducer basis.now monomial.now ≡ Some b.now) }
    ensures nonzero { MatchOption result ⊤ (λ b. b.now ≢ []) }
{
    let mut rest = basis;
    while let Some((b, tail)) = rest.split_first() {
        if divides(b.lead_monomial(), monomial) {
            return Some(b);
        }
        rest = tail;
    }
    None
}

// The unit times the rest, less the weight and a monomial times the element, and the unit times the factor.
pub(crate) fn step_by(
    alloc: Global,
    state: &Reduced,
    term: &Term,
    element: &Poly,
) -> Result<Reduced, PolyRefusal>
    requires nonzero { element.now ≢ [] }
    requires monomial { IsMonomial term.now.monomial }
    ensures ok { IfOk result (λ next. reduction.StepsBy (reduction.target_of term.now element.now) state.now next) }
    ensures overflow { IsErrOf result PolyRefusal.Overflow → reduction.BreaksBy (reduction.target_of term.now element.now) state.now }
    ensures degree { IsErrOf result PolyRefusal.Degree → ⊥ }
{
    let lead = element.lead_coefficient();
    let divisor = common_divisor(lead, term.coefficient);
    let Some(unit) = unit_of(lead, divisor) else {
        return Err(PolyRefusal::Overflow);
    };
    let Some(weight) = weight_of(lead, term.coefficient, divisor) else {
        return Err(PolyRefusal::Overflow);
    };
    let more = quotient(alloc, term.monomial.as_slice(), element.lead_monomial())?;
    let start = scale(alloc, unit, state.rest.terms())?;
    let off = Multiplier {
        minus: true,
        coefficient: weight,
        monomial: more.as_slice(),
    };
    let terms = add_multiples(alloc, &off, element.terms(), start)?;
    let Some(factor) = product_of(unit, state.factor) else {
        return Err(PolyRefusal::Overflow);
    };
    Ok(Reduced {
        factor,
        rest: Poly { terms },
    })
}
