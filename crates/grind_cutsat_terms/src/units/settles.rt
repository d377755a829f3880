//! Unknown comparisons and equations that a fact or the readings alone settle.
ghost use Rattle.std.specs.Prelude.{IfOk};
ghost use Rattle.grind_cutsat_assignment.specs.Given.{given, Fits};
ghost use Rattle.grind_cutsat_units.specs.Posts.{IsFound};
ghost use Rattle.grind_cutsat_units.specs.Settled.{Settles};
ghost use Rattle.grind_cutsat_terms.specs.Settling.{NodeGives, SettlesNode};

use super::parts_an_equation::parts_an_equation;
use super::settles_a_comparison::settles_a_literal;
use crate::known::is_unknown;
use grind_claims::Claim;
use grind_cutsat_units::{Draft, View};
use grind_outside::{List, Memory};
use grind_term_graph::NodeId;
use std::alloc::Global;

/// The drafts of an unknown comparison or equation that is settled: its literal by the rule `write`, from a fact or from a
/// number that `combine` gives from nothing; or that its sides differ, by `apart`.
///
/// # Errors
///
/// `Memory` if out of memory.
pub fn settles(alloc: Global, view: &View) -> Result<Option<List<Draft>>, Memory>
    requires { Fits (given view.now.facts.now view.now.terms.now.nodes view.now.classes.now.lists) }
    ensures { IfOk result (λ found. IsFound view.now.facts.now view.now.next
        (Settles (given view.now.facts.now view.now.terms.now.nodes view.now.classes.now.lists)) found) }
{
    for number in 0..view.terms.len() {
        let node = NodeId::new(number);
        let found = settled_at(alloc, view, node)?;
        if let Some(drafts) = found {
            return Ok(Some(drafts));
        }
    }
    Ok(None)
}

// The drafts of the node, if it is not known.
fn settled_at(alloc: Global, view: &View, node: NodeId) -> Result<Option<List<Draft>>, Memory>
    ensures { IfOk result (λ found. IsFound view.now.facts.now view.now.next
        (SettlesNode (given view.now.facts.now view.now.terms.now.nodes view.now.classes.now.lists) node) found) }
{
    if !is_unknown(view, node) {
        return Ok(None);
    }
    let found = node_settled(alloc, view, node)?;
    Ok(found)
}

// The drafts of the node.
fn node_settled(alloc: Global, view: &View, node: NodeId) -> Result<Option<List<Draft>>, Memory>
    ensures { IfOk result (λ found. IsFound view.now.facts.now view.now.next
        (NodeGives view.now.terms.now.nodes view.now.facts.now node) found) }
{
    let holds = settles_a_literal(alloc, view, &Claim::Holds(node))?;
    if let Some(drafts) = holds {
        return Ok(Some(drafts));
    }
    let fails = settles_a_literal(alloc, view, &Claim::Fails(node))?;
    if let Some(drafts) = fails {
        return Ok(Some(drafts));
    }
    let parts = parts_an_equation(alloc, view, node)?;
    Ok(parts)
}
