//! What a solver knows, once more.
ghost use Rattle.std.specs.Prelude.{◌≡◌, IfOk};

use grind_outside::{List, Memory};
use grind_polynomials::Poly;
use grind_ring_basis::{Basis, Fact};
use grind_ring_units::{Agenda, State};
use std::alloc::Global;

// The facts once more.
fn facts_copied(alloc: Global, facts: &[Fact]) -> Result<List<Fact>, Memory>
    ensures { IfOk result (λ copy. copy ≡ facts.now) }
{
    let mut copy = List::new(alloc);
    let mut rest = facts;
    while let Some((it, tail)) = rest.split_first() {
        let poly = it.poly.copy(alloc)?;
        copy.push(Fact {
            post: it.post,
            poly,
        })?;
        rest = tail;
    }
    Ok(copy)
}

// The polynomials once more.
fn polys_copied(alloc: Global, polys: &[Poly]) -> Result<List<Poly>, Memory>
    ensures { IfOk result (λ copy. copy ≡ polys.now) }
{
    let mut copy = List::new(alloc);
    let mut rest = polys;
    while let Some((poly, tail)) = rest.split_first() {
        let other = poly.copy(alloc)?;
        copy.push(other)?;
        rest = tail;
    }
    Ok(copy)
}

// The basis once more.
fn basis_copied(alloc: Global, basis: &Basis) -> Result<Basis, Memory>
    ensures { IfOk result (λ copy. copy ≡ basis.now) }
{
    let mut posts = List::new(alloc);
    posts.extend(basis.posts.as_slice())?;
    let elements = polys_copied(alloc, basis.elements.as_slice())?;
    Ok(Basis { posts, elements })
}

// What is known once more.
pub(crate) fn state_copied(alloc: Global, state: &State) -> Result<State, Memory>
    ensures { IfOk result (λ copy. copy ≡ state.now) }
{
    let mut equalities = List::new(alloc);
    equalities.extend(state.equalities.as_slice())?;
    let taken = facts_copied(alloc, state.taken.as_slice())?;
    let own = facts_copied(alloc, state.own.as_slice())?;
    let basis = basis_copied(alloc, &state.basis)?;
    Ok(State {
        limit: state.limit,
        made: state.made,
        equalities,
        taken,
        own,
        basis,
    })
}

// The agenda once more.
pub(crate) fn agenda_copied(alloc: Global, agenda: &Agenda) -> Result<Agenda, Memory>
    ensures { IfOk result (λ copy. copy ≡ agenda.now) }
{
    let mut pairs = List::new(alloc);
    pairs.extend(agenda.pairs.as_slice())?;
    Ok(Agenda {
        rows: agenda.rows,
        pairs,
    })
}
