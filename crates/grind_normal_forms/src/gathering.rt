//! The factors of the basis elements after a step.
ghost use Rattle.std.specs.Prelude.{◌≡◌, ◌≢◌, ◌&&◌, not, pos, Ok, Err, true, IfOk, IsErrOf};
ghost use Rattle.grind_monomials.specs.Monomials.{IsMonomial};
ghost use Rattle.grind_polynomials.specs.declared.poly.PolyRefusal.TheVariants.{Overflow};
ghost use Rattle.grind_normal_forms.specs.Gathering as gathering;

use crate::scaling::scale;
use grind_monomials::{divides, quotient};
use grind_outside::List;
use grind_polynomials::{Poly, PolyRefusal, add_monomial};
use grind_term_graph::NodeId;
use std::alloc::Global;

// A move: how the target of a step is reduced, and where memory for the factors after it is taken.
#[derive(Drop)]
pub(crate) struct Moving<'a> {
    // Where memory is taken.
    pub(crate) alloc: Global,
    // Whether the element that reduces is taken less often, or more.
    pub(crate) minus: bool,
    // How often each factor is taken.
    pub(crate) unit: i128,
    // How often the quotient of the monomials is taken.
    pub(crate) weight: i128,
    // The monomial of the target.
    pub(crate) monomial: &'a [NodeId],
}

// The factors after a move.
pub(crate) fn moved_factors(
    moving: &Moving,
    basis: &[Poly],
    list: &[Poly],
) -> Result<List<Poly>, PolyRefusal>
    requires unit { moving.now.unit ≢ pos 0 }
    requires monomial { IsMonomial moving.now.monomial.now }
    ensures ok { IfOk result (λ all. gathering.factors_moved (gathering.move_with moving.now) true basis.now list.now ≡ Ok all) }
    ensures overflow { IsErrOf result PolyRefusal.Overflow → gathering.factors_moved (gathering.move_with moving.now) true basis.now list.now ≡ Err Overflow }
    ensures degree { IsErrOf result PolyRefusal.Degree → ⊥ }
{
    let mut all = List::new(moving.alloc);
    let mut free = true;
    let mut elements = basis;
    let mut rest = list;
    while let Some((b, others)) = elements.split_first() {
        let Some((q, tail)) = rest.split_first() else {
            return Ok(all);
        };
        let hit = hits(moving.monomial, free, b);
        all.push(moved_factor(moving, hit, b, q)?)?;
        free = stays_free(free, hit);
        elements = others;
        rest = tail;
    }
    Ok(all)
}

// The factor of one element after a move, where that is the element that reduces or is not.
fn moved_factor(moving: &Moving, hit: bool, b: &Poly, q: &Poly) -> Result<Poly, PolyRefusal>
    requires unit { moving.now.unit ≢ pos 0 }
    requires monomial { IsMonomial moving.now.monomial.now }
    ensures ok { IfOk result (λ made. gathering.factor_moved (gathering.move_with moving.now) hit b.now q.now ≡ Ok made) }
    ensures overflow { IsErrOf result PolyRefusal.Overflow → gathering.factor_moved (gathering.move_with moving.now) hit b.now q.now ≡ Err Overflow }
    ensures degree { IsErrOf result PolyRefusal.Degree → ⊥ }
{
    let terms = scale(moving.alloc, moving.unit, q.terms())?;
    if !hit {
        return Ok(Poly { terms });
    }
    let more = quotient(moving.alloc, moving.monomial, b.lead_monomial())?;
    let terms = add_monomial(moving.alloc, moving.minus, moving.weight, more, terms)?;
    Ok(Poly { terms })
}

// Whether the element is the first that reduces the monomial, where none before it is.
fn hits(monomial: &[NodeId], free: bool, b: &Poly) -> bool
    ensures { result ≡ gathering.hits monomial.now free b.now }
{
    if !free {
        return false;
    }
    divides(b.lead_monomial(), monomial)
}

// Whether none of the elements so far reduces the monomial.
fn stays_free(free: bool, hit: bool) -> bool
    ensures { result ≡ (free && not hit) }
{
    if hit {
        return false;
    }
    free
}
