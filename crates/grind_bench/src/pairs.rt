//! Pairs of terms whose readings are held.
ghost use Rattle.std.specs.Prelude.{◌≡◌, ◌<◌, ◌↔◌, length, IsTrue, All, Contains, Some};
ghost use Rattle.grind_term_graph.specs.Terms.{int, sort_at};
ghost use Rattle.grind_differences.specs.Held.{HoldsForms, HoldsPolys};

use crate::readings::{is_number, sides_of};
use grind_differences::{FormReader, PolyReader};
use grind_outside::{List, Memory};
use grind_schemes::Goal;
use grind_term_graph::{NodeId, TermTable};
use std::alloc::Global;

/// How many of the hypotheses' pairs of sides differ by a form that is defined. All sides are read in one pass.
///
/// # Errors
/// `Memory` if out of memory.
pub fn form_pairs(alloc: Global, goal: &Goal) -> Result<Option<usize>, Memory> {
    let terms = goal.terms();
    let ids = sides_in(alloc, goal)?;
    if !are_numbers(terms, ids.as_slice()) {
        return Ok(None);
    }
    let reader = FormReader::new(alloc, terms, ids.as_slice())?;
    let count = form_differences(alloc, &reader)?;
    Ok(Some(count))
}

/// The same with polynomials.
///
/// # Errors
/// `Memory` if out of memory.
pub fn poly_pairs(alloc: Global, goal: &Goal) -> Result<Option<usize>, Memory> {
    let terms = goal.terms();
    let ids = sides_in(alloc, goal)?;
    if !are_numbers(terms, ids.as_slice()) {
        return Ok(None);
    }
    let reader = PolyReader::new(alloc, terms, ids.as_slice())?;
    let count = poly_differences(alloc, &reader)?;
    Ok(Some(count))
}

/// How many pairs of neighbours that were read differ by a form that is defined.
fn form_differences(alloc: Global, reader: &FormReader) -> Result<usize, Memory>
    requires { HoldsForms reader.now.terms.now.nodes reader.now.ids.now reader.now.forms }
{
    let mut count: usize = 0;
    for place in 0..reader.ids.len() / 2 {
        let left = id_at(reader.ids, 2 * place);
        let right = id_at(reader.ids, 2 * place + 1);
        if reader.difference(alloc, left, right)?.is_some() {
            count = count.saturating_add(1);
        }
    }
    Ok(count)
}

/// The same with polynomials.
fn poly_differences(alloc: Global, reader: &PolyReader) -> Result<usize, Memory>
    requires { HoldsPolys reader.now.terms.now.nodes reader.now.ids.now reader.now.polys }
{
    let mut count: usize = 0;
    for place in 0..reader.ids.len() / 2 {
        let left = id_at(reader.ids, 2 * place);
        let right = id_at(reader.ids, 2 * place + 1);
        if reader.difference(alloc, left, right)?.is_some() {
            count = count.saturating_add(1);
        }
    }
    Ok(count)
}

/// The sides of the hypotheses that have two, each pair together.
fn sides_in(alloc: Global, goal: &Goal) -> Result<List<NodeId>, Memory> {
    let terms = goal.terms();
    let mut ids = List::new(alloc);
    for hyp in goal.hyps() {
        if let Some(sides) = sides_of(terms, *hyp) {
            ids.push(sides.left)?;
            ids.push(sides.right)?;
        }
    }
    Ok(ids)
}

/// Whether each node is a whole number.
fn are_numbers(terms: &TermTable, ids: &[NodeId]) -> bool
    ensures { IsTrue result → All (λ id. sort_at terms.now.nodes id ≡ Some int) ids.now }
{
    ids.iter().all(|id| is_number(terms, *id))
}

/// The number at a place.
fn id_at(ids: &[NodeId], place: usize) -> NodeId
    requires { place < length ids.now }
    ensures { Contains ids.now result }
{
    ids[place]
}
