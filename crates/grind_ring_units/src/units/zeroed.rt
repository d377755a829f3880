//! Equalities whose polynomial no post says to be 0.
ghost use Rattle.std.specs.Prelude.{◌≡◌, ◌↔◌, None, IfOk, IsTrue, MatchOption};
ghost use Rattle.grind_ring_units.specs.Zeroed.{LacksZero, HasZeroed, NoneZeroed, IsUnread, HasUnread, AllRead};

use crate::known::is_claimed;
use crate::types::{Equality, State};
use grind_differences::poly_difference;
use grind_outside::Memory;
use grind_term_graph::TermTable;
use std::alloc::Global;

// Whether the polynomial of the equality fits, and no known post says that it is 0.
fn lacks_zero(
    alloc: Global,
    state: &State,
    terms: &TermTable,
    it: &Equality,
) -> Result<bool, Memory>
    ensures { IfOk result (λ answer. IsTrue answer ↔ LacksZero state.now terms.now.nodes it.now) }
{
    let found = poly_difference(alloc, terms, it.left, it.right)?;
    let Some(poly) = found else {
        return Ok(false);
    };
    if is_claimed(state, &poly) {
        return Ok(false);
    }
    Ok(true)
}

/// The first equality whose polynomial fits and that no known post says to be 0.
///
/// # Errors
///
/// `Memory` if out of memory.
pub fn first_zeroed(alloc: Global, state: &State, terms: &TermTable) -> Result<Option<u32>, Memory>
    ensures { IfOk result (λ answer. MatchOption answer (NoneZeroed state.now terms.now.nodes)
        (λ post. HasZeroed state.now terms.now.nodes post)) }
{
    let mut rest = state.equalities.as_slice();
    while let Some((it, tail)) = rest.split_first() {
        let lacks = lacks_zero(alloc, state, terms, it)?;
        if lacks {
            return Ok(Some(it.post));
        }
        rest = tail;
    }
    Ok(None)
}

// Whether the polynomial of the equality does not fit.
fn is_unread(alloc: Global, terms: &TermTable, it: &Equality) -> Result<bool, Memory>
    ensures { IfOk result (λ answer. IsTrue answer ↔ IsUnread terms.now.nodes it.now) }
{
    let found = poly_difference(alloc, terms, it.left, it.right)?;
    match found {
        Some(_) => Ok(false),
        None => Ok(true),
    }
}

/// The first equality whose polynomial does not fit.
///
/// # Errors
///
/// `Memory` if out of memory.
pub fn first_unread(alloc: Global, state: &State, terms: &TermTable) -> Result<Option<u32>, Memory>
    ensures { IfOk result (λ answer. MatchOption answer (AllRead state.now terms.now.nodes)
        (λ post. HasUnread state.now terms.now.nodes post)) }
{
    let mut rest = state.equalities.as_slice();
    while let Some((it, tail)) = rest.split_first() {
        let unread = is_unread(alloc, terms, it)?;
        if unread {
            return Ok(Some(it.post));
        }
        rest = tail;
    }
    Ok(None)
}
