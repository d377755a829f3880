//! The factors by which a multiple of a polynomial is its normal form and a sum of multiples of the basis.
ghost use Rattle.std.specs.Prelude.{◌≡◌, ◌≢◌, ◌⊎◌, [], All, Ok, Err, pos, true, IfOk, IsErrOf, MatchOption, ⊤};
ghost use Rattle.grind_polynomials.specs.declared.poly.PolyRefusal.TheVariants.{Overflow};
ghost use Rattle.grind_normal_forms.specs.Reduction.{reduced_of, target, Reduces, Breaks};
ghost use Rattle.grind_normal_forms.specs.Ranks.{Descends};
ghost use Rattle.grind_normal_forms.specs.Gathering as gathering;
ghost use Rattle.grind_normal_forms.specs.FinalFactors as whole;

use crate::content::content_of;
use crate::gathering::{Moving, moved_factors};
use crate::numbers::{common_divisor, unit_of, weight_of};
use crate::reduction::{Reduced, reduce, step_by, target};
use grind_outside::{List, Memory};
use grind_polynomials::{Poly, PolyRefusal};
use std::alloc::Global;

/// How the normal form of a polynomial is made of the polynomial and the basis.
#[derive(Drop, Debug, PartialEq, Eq)]
pub struct Factors {
    /// How often the rest is taken; where there is none, how often the polynomial is.
    pub divisor: i128,
    /// How often the polynomial is taken; 0 where there is no rest.
    pub own: i128,
    /// By what each basis element is multiplied.
    pub list: List<Poly>,
}

/// The factors of the normal form of a polynomial by a basis: where there is a rest, the divisor times the rest is `own`
/// times the polynomial and the sum of the products; else the divisor times the polynomial is the sum of the products.
///
/// They are those to which the reduction leads over whole numbers without bound: an element's factor has, for each monomial
/// that it reduced, that monomial divided by the element's leading one, as often as the monomial was taken in the end.
///
/// # Errors
///
/// `Overflow` exactly where a coefficient on the way to the normal form does not fit in 128 bits, or the reduction ends and a
/// number in these factors does not. `Degree` never comes, and `Memory` comes where there is none.
pub fn factors_of(alloc: Global, p: &Poly, basis: &List<Poly>) -> Result<Factors, PolyRefusal>
    requires { All (λ b. b ≢ []) basis.now }
    ensures ok { IfOk result (λ factors. gathering.IsFactors basis.now p.now factors) }
    ensures exact { IfOk result (λ factors. whole.IsFinal basis.now p.now factors) }
    ensures fits { IfOk result (λ factors. whole.FactorNumbersFit factors) }
    ensures within { IfOk result (λ factors. whole.FactorsOverflow basis.now p.now → ⊥) }
    ensures overflow { IsErrOf result PolyRefusal.Overflow → whole.FactorsOverflow basis.now p.now }
    ensures degree { IsErrOf result PolyRefusal.Degree → ⊥ }
{
    let _terms = p.terms();
    are_polys(basis.as_slice());
    let factors = made_factors(alloc, p, basis)?;
    Ok(factors)
}

// Each element is a polynomial: what a reading of its terms tells.
fn are_polys(basis: &[Poly])
    ensures { whole.ArePolys basis.now }
{
    let mut rest = basis;
    while let Some((b, tail)) = rest.split_first() {
        let _terms = b.terms();
        rest = tail;
    }
}

// The same factors, refused where a number on the way to one of them does not fit.
fn made_factors(alloc: Global, p: &Poly, basis: &List<Poly>) -> Result<Factors, PolyRefusal>
    requires { All (λ b. b ≢ []) basis.now }
    ensures ok { IfOk result (λ factors. gathering.IsFactors basis.now p.now factors) }
    ensures overflow { IsErrOf result PolyRefusal.Overflow → Reduces basis.now (reduced_of (pos 1) p.now) (Err Overflow) ⊎ gathering.Spills basis.now p.now }
    ensures degree { IsErrOf result PolyRefusal.Degree → ⊥ }
{
    let made = reduce(alloc, p, basis.as_slice())?;
    let content = content_of(&made);
    if made.rest.terms().is_empty() {
        let list = gather(alloc, false, p, basis.as_slice())?;
        let divisor = made.factor;
        return Ok(Factors {
            divisor,
            own: 0,
            list,
        });
    }
    let list = gather(alloc, true, p, basis.as_slice())?;
    if content > 0x7fff_ffff_ffff_ffff_ffff_ffff_ffff_ffff {
        return Err(PolyRefusal::Overflow);
    }
    let divisor = content as i128;
    let own = made.factor;
    Ok(Factors { divisor, own, list })
}

// A factor and a rest, and the factors of the basis elements so far.
#[derive(Drop)]
struct Gathered {
    state: Reduced,
    list: List<Poly>,
}

// The factors to which the steps lead.
fn gather(alloc: Global, minus: bool, p: &Poly, basis: &[Poly]) -> Result<List<Poly>, PolyRefusal>
    requires { All (λ b. b ≢ []) basis.now }
    ensures ok { IfOk result (λ list. gathering.Gathers basis.now minus (reduced_of (pos 1) p.now) (gathering.no_factors basis.now) (Ok list)) }
    ensures overflow { IsErrOf result PolyRefusal.Overflow → Reduces basis.now (reduced_of (pos 1) p.now) (Err Overflow)
        ⊎ gathering.Gathers basis.now minus (reduced_of (pos 1) p.now) (gathering.no_factors basis.now) (Err Overflow) }
    ensures degree { IsErrOf result PolyRefusal.Degree → ⊥ }
{
    let rest = p.copy(alloc)?;
    let list = nothing_for(alloc, basis)?;
    let state = Reduced { factor: 1, rest };
    let mut now = Gathered { state, list };
    while let Some(next) = gather_step(alloc, minus, &now, basis)? {
        now = next;
    }
    let Gathered { state: _, list } = now;
    Ok(list)
}

// One zero for each basis element.
fn nothing_for(alloc: Global, basis: &[Poly]) -> Result<List<Poly>, Memory>
    ensures { IfOk result (λ list. list ≡ gathering.no_factors basis.now) }
{
    let mut list = List::new(alloc);
    let mut rest = basis;
    while let Some((_, tail)) = rest.split_first() {
        list.push(Poly::zero(alloc))?;
        rest = tail;
    }
    Ok(list)
}

// One step, with the factors after it, or None where no basis element reduces the rest.
fn gather_step(
    alloc: Global,
    minus: bool,
    now: &Gathered,
    basis: &[Poly],
) -> Result<Option<Gathered>, PolyRefusal>
    requires { All (λ b. b ≢ []) basis.now }
    ensures ok { IfOk result (λ answer. MatchOption answer (target basis.now now.now.state.rest ≡ None)
        (λ next. gathering.StepsWith minus basis.now now.now.state now.now.list next.state next.list)) }
    ensures descends { IfOk result (λ answer. MatchOption answer ⊤ (λ next. Descends basis.now now.now.state.rest next.state.rest)) }
    ensures overflow { IsErrOf result PolyRefusal.Overflow → Breaks basis.now now.now.state ⊎ gathering.SpillsWith minus basis.now now.now.state now.now.list }
    ensures degree { IsErrOf result PolyRefusal.Degree → ⊥ }
{
    let Some((term, element)) = target(now.state.rest.terms(), basis) else {
        return Ok(None);
    };
    let _terms = element.terms();
    let lead = element.lead_coefficient();
    let divisor = common_divisor(lead, term.coefficient);
    let Some(unit) = unit_of(lead, divisor) else {
        return Err(PolyRefusal::Overflow);
    };
    let Some(weight) = weight_of(lead, term.coefficient, divisor) else {
        return Err(PolyRefusal::Overflow);
    };
    let state = step_by(alloc, &now.state, term, element)?;
    let monomial = term.monomial.as_slice();
    let moving = Moving {
        alloc,
        minus,
        unit,
        weight,
        monomial,
    };
    let list = moved_factors(&moving, basis, now.list.as_slice())?;
    Ok(Some(Gathered { state, list }))
}
