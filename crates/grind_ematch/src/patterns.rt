//! Lists of patterns at all nodes.
ghost use Rattle.std.specs.Prelude.{◌≡◌, IfOk, OnOk, All};
ghost use Rattle.grind_schemes.specs.Schemes.{IsScheme, IsHeadedByFunction};
ghost use Rattle.grind_schemes.specs.Theorems.{HoldsEach};
ghost use Rattle.grind_ematch.specs.Index.{IsIndex};
ghost use Rattle.grind_ematch.specs.Partials.{ListsSome, ListsAll, ListsAllOfOne, ListsTheorem};
ghost use Rattle.grind_ematch.specs.Waiting.{AllWait};

use crate::index::{function_of, index_of};
use crate::joining::joined;
use crate::partial::Partial;
use crate::query::Query;
use crate::thinning::thinned;
use crate::waiting::take_next;
use crate::walk::{append, at_nodes, start};
use grind_outside::{List, Memory};
use grind_schemes::{Scheme, Theorem};
use grind_term_graph::{FunId, NodeId};
use indexmap::IndexMap;
use std::alloc::Global;

// The partial matches of a pattern.
fn at_pattern(
    alloc: Global,
    query: &Query,
    index: &IndexMap<FunId, List<NodeId>>,
    pattern: &Scheme,
) -> Result<List<Partial>, Memory>
    requires index { IsIndex query.now.scene index.now.entries }
    requires scheme { IsScheme query.now.vars pattern.now }
    requires headed { IsHeadedByFunction pattern.now }
    ensures { IfOk result (λ list. ListsSome query.now pattern.now list) }
{
    match pattern {
        Scheme::Var(_) => Ok(List::new(alloc)),
        Scheme::Apply { head, .. } => {
            let Some(function) = function_of(head) else {
                return Ok(List::new(alloc));
            };
            let Some(nodes) = index.get(&function) else {
                return Ok(List::new(alloc));
            };
            let list = at_nodes(alloc, query, pattern, nodes.as_slice())?;
            Ok(list)
        }
    }
}

// The partial matches of each of the patterns, at its place.
fn at_each(
    alloc: Global,
    query: &Query,
    index: &IndexMap<FunId, List<NodeId>>,
    patterns: &[Scheme],
) -> Result<List<Option<List<Partial>>>, Memory>
    requires index { IsIndex query.now.scene index.now.entries }
    requires schemes { All (IsScheme query.now.vars) patterns.now }
    requires headed { All IsHeadedByFunction patterns.now }
    ensures { IfOk result (λ lists. AllWait query.now patterns.now lists) }
{
    let mut lists = List::new(alloc);
    for pattern in patterns {
        let list = at_pattern(alloc, query, index, pattern)?;
        lists.push(Some(list))?;
    }
    Ok(lists)
}

/// The partial matches of several patterns together.
pub fn at_patterns(
    alloc: Global,
    query: &Query,
    index: &IndexMap<FunId, List<NodeId>>,
    patterns: &[Scheme],
) -> Result<List<Partial>, Memory>
    requires index { IsIndex query.now.scene index.now.entries }
    requires schemes { All (IsScheme query.now.vars) patterns.now }
    requires headed { All IsHeadedByFunction patterns.now }
    ensures { IfOk result (λ list. ListsAll query.now patterns.now list) }
{
    let _vars = query.vars();
    let mut waiting = at_each(alloc, query, index, patterns)?;
    let mut found = start(alloc, query, 0)?;
    while let Some(list) = take_next(found.as_slice(), &mut waiting) {
        let both = joined(alloc, found.as_slice(), list)?;
        found = thinned(alloc, both)?;
    }
    Ok(found)
}

// The partial matches by any of the lists of patterns.
fn by_lists(alloc: Global, query: &Query, lists: &[List<Scheme>]) -> Result<List<Partial>, Memory>
    requires schemes { All (All (IsScheme query.now.vars)) lists.now }
    requires headed { All (All IsHeadedByFunction) lists.now }
    requires variables { All (HoldsEach query.now.vars) lists.now }
    ensures { IfOk result (λ list. ListsAllOfOne query.now lists.now list) }
{
    let index = index_of(alloc, query)?;
    let mut found = List::new(alloc);
    for patterns in lists {
        let list = at_patterns(alloc, query, &index, patterns.as_slice())?;
        append(&mut found, list)?;
    }
    let list = thinned(alloc, found)?;
    Ok(list)
}

/// The partial matches of a theorem: none of their slots is empty.
pub fn ways(alloc: Global, query: &Query, theorem: &Theorem) -> Result<List<Partial>, Memory>
    requires { query.now.vars ≡ theorem.now.vars }
    ensures { IfOk result (λ list. ListsTheorem query.now theorem.now list) }
{
    let _name = theorem.name();
    if theorem.vars.is_empty() {
        let list = start(alloc, query, 0)?;
        return Ok(list);
    }
    let list = by_lists(alloc, query, theorem.patterns.as_slice())?;
    Ok(list)
}
