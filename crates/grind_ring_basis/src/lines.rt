//! The lines by the rule `ideal` over a basis. Each is given exactly where its numbers fit in 128 bits and the rule allows
//! it.
ghost use Rattle.std.specs.Prelude.{◌≡◌, ◌<◌, IfOk, MatchOption, Some, slice_get};
ghost use Rattle.grind_normal_forms.specs.declared.factors.Factors.{Factors as FactorsData};
ghost use Rattle.grind_ring_basis.specs.declared.types.Combination.{Combination as CombinationData};
ghost use Rattle.grind_ring_basis.specs.Bases.{IsBasis, ReducesToZero};
ghost use Rattle.grind_ring_basis.specs.Pairs.{IsPairAt};
ghost use Rattle.grind_ring_basis.specs.Shares.{in_order, shares_of};
ghost use Rattle.grind_ring_basis.specs.Lines.{fact_shares, IsPostLine, IsPairLine, IsDifferenceLine};

use crate::combination::combination;
use crate::factors::fitting_factors;
use crate::multiples::{Leads, poly_at, shared_factors};
use crate::order::{Ordered, put_elements, put_share};
use crate::types::{Basis, Combination, Fact, Pair, Places};
use grind_normal_forms::Factors;
use grind_outside::{List, Memory};
use grind_polynomials::Poly;
use std::alloc::Global;
use std::collections::BTreeMap;

/// The line that states that a normal form of a fact, which is this rest, is 0; or None exactly where there is none.
///
/// # Errors
///
/// `Memory` if out of memory.
pub fn post_line(
    alloc: Global,
    basis: &Basis,
    it: &Fact,
    rest: &Poly,
) -> Result<Option<Combination>, Memory>
    requires { IsBasis basis.now }
    ensures { IfOk result (λ answer. MatchOption answer
        ((line : CombinationData) → ¬ IsPostLine basis.now it.now rest.now line)
        (λ line. IsPostLine basis.now it.now rest.now line)) }
{
    let found = fitting_factors(alloc, &it.poly, basis)?;
    let Some(factors) = found else {
        return Ok(None);
    };
    let premises = fact_premises(alloc, basis, it, &factors)?;
    let line = combination(alloc, factors.divisor, premises, rest)?;
    Ok(line)
}

// The premises of that line, in order.
fn fact_premises(
    alloc: Global,
    basis: &Basis,
    it: &Fact,
    factors: &Factors,
) -> Result<Ordered, Memory>
    ensures { IfOk result (λ all. all.entries ≡ in_order (fact_shares basis.now it.now factors.now)) }
{
    let own = Poly::number(alloc, factors.own)?;
    let mut all = BTreeMap::new(alloc);
    put_share(alloc, &mut all, it.post, &it.poly, &own)?;
    put_elements(alloc, &mut all, basis, &factors.list)?;
    Ok(all)
}

// The elements with these factors as premises, in order.
fn element_premises(alloc: Global, basis: &Basis, list: &List<Poly>) -> Result<Ordered, Memory>
    ensures { IfOk result (λ all. all.entries ≡ in_order (shares_of basis.now.posts basis.now.elements list.now)) }
{
    let mut all = BTreeMap::new(alloc);
    put_elements(alloc, &mut all, basis, list)?;
    Ok(all)
}

/// The line that states that a normal form of the S-polynomial of two elements, which is this rest, is 0; or None exactly
/// where there is none.
///
/// # Errors
///
/// `Memory` if out of memory.
pub fn pair_line(
    alloc: Global,
    basis: &Basis,
    places: Places,
    pair: &Pair,
    rest: &Poly,
) -> Result<Option<Combination>, Memory>
    requires basis { IsBasis basis.now }
    requires pair { IsPairAt basis.now places pair.now }
    ensures { IfOk result (λ answer. MatchOption answer
        ((line : CombinationData) → ¬ IsPairLine basis.now places pair.now rest.now line)
        (λ line. IsPairLine basis.now places pair.now rest.now line)) }
{
    let one = poly_at(&basis.elements, places.first);
    let Some(first) = one else {
        return Ok(None);
    };
    let two = poly_at(&basis.elements, places.second);
    let Some(second) = two else {
        return Ok(None);
    };
    let _first = first.terms();
    let divisor = pair.divisor;
    let leads = Leads {
        first,
        second,
        divisor,
    };
    let found = fitting_factors(alloc, &pair.poly, basis)?;
    let Some(factors) = found else {
        return Ok(None);
    };
    let divisor = factors.divisor;
    let shared = shared_factors(alloc, &leads, places, factors)?;
    let Some(list) = shared else {
        return Ok(None);
    };
    let premises = element_premises(alloc, basis, &list)?;
    let line = combination(alloc, divisor, premises, rest)?;
    Ok(line)
}

/// The line that states that a polynomial whose normal form is 0 is 0; or None exactly where there is none.
///
/// # Errors
///
/// `Memory` if out of memory.
pub fn difference_line(
    alloc: Global,
    basis: &Basis,
    poly: &Poly,
) -> Result<Option<Combination>, Memory>
    requires basis { IsBasis basis.now }
    requires reduces { ReducesToZero basis.now poly.now }
    ensures { IfOk result (λ answer. MatchOption answer
        ((line : CombinationData) → ¬ IsDifferenceLine basis.now poly.now line)
        (λ line. IsDifferenceLine basis.now poly.now line)) }
{
    let found = fitting_factors(alloc, poly, basis)?;
    let Some(factors) = found else {
        return Ok(None);
    };
    let premises = element_premises(alloc, basis, &factors.list)?;
    let line = combination(alloc, factors.divisor, premises, poly)?;
    Ok(line)
}
