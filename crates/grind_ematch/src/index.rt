//! Active nodes by the functions that they apply.
ghost use Rattle.std.specs.Prelude.{◌≡◌, MatchOption, IfOk, OnOk};
ghost use Rattle.grind_term_graph.specs.declared.head.Head.TheVariants.{Fun};
ghost use Rattle.grind_ematch.specs.Index.{IsFunction, IsIndex, AddsNode};

use crate::query::Query;
use grind_outside::{List, Memory};
use grind_term_graph::{FunId, Head, NodeId};
use indexmap::IndexMap;
use std::alloc::Global;

/// The active nodes by the functions that they apply, in order, in one pass over the terms. What applies no function is left
/// out, since each pattern begins with one.
pub fn index_of(alloc: Global, query: &Query) -> Result<IndexMap<FunId, List<NodeId>>, Memory>
    ensures { IfOk result (λ index. IsIndex query.now.scene index.entries) }
{
    let mut index = IndexMap::new(alloc);
    for number in 0..query.len() {
        let n = NodeId::new(number);
        add(alloc, query, n, &mut index)?;
    }
    Ok(index)
}

// Adds a node to those of its function, if it is active and applies one.
fn add(
    alloc: Global,
    query: &Query,
    n: NodeId,
    index: &mut IndexMap<FunId, List<NodeId>>,
) -> Result<(), Memory>
    ensures { OnOk result (AddsNode query.now.scene n index.old.entries index.new.entries) }
{
    if !query.is_active(n) {
        return Ok(());
    }
    let Some(function) = function_of(&query.node(n).head) else {
        return Ok(());
    };
    if let Some(nodes) = index.get_mut(&function) {
        nodes.push(n)?;
        return Ok(());
    }
    let mut nodes = List::new(alloc);
    nodes.push(n)?;
    index.insert(function, nodes)?;
    Ok(())
}

/// The function of a head, if it is one.
pub fn function_of(head: &Head) -> Option<FunId>
    ensures { MatchOption result (¬ IsFunction head.now) (λ function. head.now ≡ Fun function) }
{
    match head {
        Head::Fun(function) => Some(*function),
        _ => None,
    }
}
