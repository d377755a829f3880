//! How often two elements are taken in a multiple of their S-polynomial.
ghost use Rattle.std.specs.Prelude.{◌≡◌, ◌≢◌, ◌<◌, [], ◌∷◌, Ok, Err, pos, neg_ℤ, IfOk, MatchOption, None, Some, slice_get};
ghost use Rattle.grind_monomials.specs.Monomials.{IsMonomial, quotient};
ghost use Rattle.grind_polynomials.specs.declared.poly.PolyRefusal.TheVariants.{Overflow};
ghost use Rattle.grind_polynomials.specs.Polynomials.{term_of, fit_or_refuse};
ghost use Rattle.grind_normal_forms.specs.Pairs.{IsLeadGcd, lead_multiple, lead_monomial, lead_coefficient, divided_by};
ghost use Rattle.grind_polynomials.specs.Readings.{answered};
ghost use Rattle.grind_polynomials.specs.Sums.{and_then, sum_product};
ghost use Rattle.grind_ring_basis.specs.Lines.{first_multiple, second_multiple, AreShared};

use crate::combination::with_product;
use crate::types::Places;
use grind_monomials::{least_common_multiple, quotient};
use grind_normal_forms::{Factors, divided};
use grind_outside::{List, Memory};
use grind_polynomials::{Poly, Term};
use grind_term_graph::NodeId;
use std::alloc::Global;

// Two elements, and the greatest common divisor of their leading coefficients.
#[derive(Drop)]
pub(crate) struct Leads<'a> {
    pub(crate) first: &'a Poly,
    pub(crate) second: &'a Poly,
    pub(crate) divisor: u128,
}

// The factors of the elements, with how often the S-polynomial, taken `own` times, takes the two at these places; or None
// where a number or a degree on the way is too great.
pub(crate) fn shared_factors(
    alloc: Global,
    leads: &Leads,
    places: Places,
    factors: Factors,
) -> Result<Option<List<Poly>>, Memory>
    requires first { leads.now.first.now ≢ [] }
    requires second { leads.now.second.now ≢ [] }
    requires divisor { IsLeadGcd leads.now.first.now leads.now.second.now leads.now.divisor }
    requires positive { 0 < leads.now.divisor }
    ensures { IfOk result (λ answer. MatchOption answer
        ((all : _) → ¬ AreShared leads.now.divisor leads.now.first.now leads.now.second.now places factors all)
        (λ all. AreShared leads.now.divisor leads.now.first.now leads.now.second.now places factors all)) }
{
    let Factors {
        divisor: _,
        own,
        mut list,
    } = factors;
    let own = Poly::number(alloc, own)?;
    let one = poly_at(&list, places.first);
    let Some(first) = one else {
        return Ok(None);
    };
    let two = poly_at(&list, places.second);
    let Some(second) = two else {
        return Ok(None);
    };
    let found = first_share(alloc, leads, &own, first)?;
    let Some(more_first) = found else {
        return Ok(None);
    };
    let also = second_share(alloc, leads, &own, second)?;
    let Some(more_second) = also else {
        return Ok(None);
    };
    list.set(places.first as usize, more_first);
    list.set(places.second as usize, more_second);
    Ok(Some(list))
}

// The polynomial at the place.
pub(crate) fn poly_at(polys: &List<Poly>, place: u32) -> Option<&Poly>
    ensures { MatchOption result (slice_get polys.now place ≡ None) (λ poly. slice_get polys.now place ≡ Some poly.now) }
{
    polys.as_slice().get(place as usize)
}

// The factor of the first element, and `own` times how often the S-polynomial takes it.
fn first_share(
    alloc: Global,
    leads: &Leads,
    own: &Poly,
    factor: &Poly,
) -> Result<Option<Poly>, Memory>
    requires first { leads.now.first.now ≢ [] }
    requires second { leads.now.second.now ≢ [] }
    requires divisor { IsLeadGcd leads.now.first.now leads.now.second.now leads.now.divisor }
    requires positive { 0 < leads.now.divisor }
    ensures { IfOk result (λ found. found
        ≡ answered (sum_product factor.now own.now (first_multiple leads.now.divisor leads.now.first.now leads.now.second.now))) }
{
    let coefficient = divided(leads.second.lead_coefficient(), leads.divisor);
    let multiple = multiple_by(alloc, leads, coefficient, leads.first)?;
    let more = with_product(alloc, factor, own, &multiple)?;
    Ok(more)
}

// The factor of the second element, less `own` times how often the S-polynomial takes it off.
fn second_share(
    alloc: Global,
    leads: &Leads,
    own: &Poly,
    factor: &Poly,
) -> Result<Option<Poly>, Memory>
    requires first { leads.now.first.now ≢ [] }
    requires second { leads.now.second.now ≢ [] }
    requires divisor { IsLeadGcd leads.now.first.now leads.now.second.now leads.now.divisor }
    requires positive { 0 < leads.now.divisor }
    ensures { IfOk result (λ found. found
        ≡ answered (and_then (sum_product factor.now own.now) (second_multiple leads.now.divisor leads.now.first.now leads.now.second.now))) }
{
    let Some(coefficient) = turned(leads.first, leads.divisor) else {
        return Ok(None);
    };
    let multiple = multiple_by(alloc, leads, coefficient, leads.second)?;
    let more = with_product(alloc, factor, own, &multiple)?;
    Ok(more)
}

// The leading coefficient, divided and negated, where that fits.
fn turned(poly: &Poly, divisor: u128) -> Option<i128>
    requires { 0 < divisor }
    ensures fits { MatchOption result (fit_or_refuse (neg_ℤ (divided_by divisor (lead_coefficient poly.now))) ≡ Err Overflow)
        (λ k. fit_or_refuse (neg_ℤ (divided_by divisor (lead_coefficient poly.now))) ≡ Ok k) }
    ensures nonzero { poly.now ≢ [] → lead_coefficient poly.now ≢ pos 0 }
{
    negated(divided(poly.lead_coefficient(), divisor))
}

// The number negated, where that fits.
fn negated(number: i128) -> Option<i128>
    ensures { MatchOption result (fit_or_refuse (neg_ℤ number) ≡ Err Overflow) (λ k. fit_or_refuse (neg_ℤ number) ≡ Ok k) }
{
    number.checked_neg()
}

// The term of this coefficient whose product with the leading monomial is the least common multiple of both.
fn multiple_by(
    alloc: Global,
    leads: &Leads,
    coefficient: i128,
    element: &Poly,
) -> Result<Poly, Memory>
    requires { coefficient ≢ pos 0 }
    ensures { IfOk result (λ poly. poly ≡ term_of coefficient
        (quotient (lead_multiple leads.now.first.now leads.now.second.now) (lead_monomial element.now)) ∷ []) }
{
    let first = leads.first.lead_monomial();
    let second = leads.second.lead_monomial();
    let whole = least_common_multiple(alloc, first, second)?;
    let monomial = quotient(alloc, whole.as_slice(), element.lead_monomial())?;
    let poly = one_term(alloc, coefficient, monomial)?;
    Ok(poly)
}

// The polynomial of one term.
fn one_term(alloc: Global, coefficient: i128, monomial: List<NodeId>) -> Result<Poly, Memory>
    requires coefficient { coefficient ≢ pos 0 }
    requires monomial { IsMonomial monomial }
    ensures { IfOk result (λ poly. poly ≡ term_of coefficient monomial ∷ []) }
{
    let mut terms = List::new(alloc);
    terms.push(Term {
        coefficient,
        monomial,
    })?;
    Ok(Poly { terms })
}
