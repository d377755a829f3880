//! Which polynomials are known to be 0.
ghost use Rattle.std.specs.Prelude.{◌≡◌, ◌↔◌, [], Contains, IsTrue, MatchOption};
ghost use Rattle.grind_ring_basis.specs.Bases.{fact};
ghost use Rattle.grind_ring_units.specs.Given.{Knows, IsClaimed, IsAmong};

use crate::types::State;
use grind_differences::is_same_poly;
use grind_polynomials::Poly;
use grind_ring_basis::Fact;

// A post among the facts that says that the polynomial is 0, or None exactly where there is none.
fn post_among(facts: &[Fact], poly: &Poly) -> Option<u32>
    ensures { MatchOption result (¬ IsAmong facts.now poly.now) (λ post. Contains facts.now (fact post poly.now)) }
{
    let mut rest = facts;
    while let Some((it, tail)) = rest.split_first() {
        if is_same_poly(&it.poly, poly) {
            return Some(it.post);
        }
        rest = tail;
    }
    None
}

// A known post that says that the polynomial is 0, or None exactly where there is none.
pub(crate) fn claimed_by(state: &State, poly: &Poly) -> Option<u32>
    ensures { MatchOption result (¬ IsClaimed state.now poly.now) (λ post. Knows state.now (fact post poly.now)) }
{
    let taken = post_among(state.taken.as_slice(), poly);
    if let Some(post) = taken {
        return Some(post);
    }
    let own = post_among(state.own.as_slice(), poly);
    if let Some(post) = own {
        return Some(post);
    }
    None
}

// Whether some known post says that the polynomial is 0.
pub(crate) fn is_claimed(state: &State, poly: &Poly) -> bool
    ensures { IsTrue result ↔ IsClaimed state.now poly.now }
{
    match claimed_by(state, poly) {
        Some(_) => true,
        None => false,
    }
}

// Whether the polynomial is 0.
pub(crate) fn is_zero(poly: &Poly) -> bool
    ensures { IsTrue result ↔ (poly.now ≡ []) }
{
    if poly.terms().len() > 0 {
        return false;
    }
    true
}
