//! The next consequence, where all nodes are formulas and no pairs are given.
ghost use Rattle.std.specs.Prelude.{◌≡◌, ◌↔◌, Some, IsTrue, IfOk};
ghost use Rattle.grind_term_graph.specs.Terms.{prop, sort_at};
ghost use Rattle.grind_truth_prop.specs.Steps.{IsStep};
ghost use Rattle.grind_scenes.specs.Scenes.{AreClassesOf};
ghost use Rattle.grind_scenes.specs.Formulas.{AreFormulas, HasMarks, HasNoPairs, AreMarkedFormulas};

use grind_classes::Classes;
use grind_outside::Memory;
use grind_term_graph::{NodeId, SortId, TermTable};
use grind_truth_prop::{Known, TruthStep, truth_step};
use std::alloc::Global;

/// Whether the node is a formula of the table.
pub fn is_formula(terms: &TermTable, n: NodeId) -> bool
    ensures { IsTrue result ↔ (sort_at terms.now.nodes n ≡ Some prop) }
{
    n.number() < terms.len() && terms.sort(n) == SortId::PROP
}

// Whether each node is a formula.
fn are_formulas(terms: &TermTable) -> bool
    ensures { IsTrue result ↔ AreFormulas terms.now.nodes }
{
    for n in 0..terms.len() {
        if !is_formula(terms, NodeId::new(n)) {
            return false;
        }
    }
    true
}

// Whether there is a mark of either kind for each node.
fn has_marks(known: &Known) -> bool
    ensures { IsTrue result ↔ HasMarks known.now }
{
    let count = known.terms.len() as usize;
    known.holds.len() == count && known.fails.len() == count
}

// Whether no pairs are given.
fn has_no_pairs(known: &Known) -> bool
    ensures { IsTrue result ↔ HasNoPairs known.now }
{
    known.same.is_empty() && known.apart.is_empty()
}

/// Whether each node is a formula and has its marks, and no pairs are given.
pub fn are_marked_formulas(known: &Known) -> bool
    ensures { IsTrue result ↔ AreMarkedFormulas known.now }
{
    if !has_marks(known) {
        return false;
    }
    if !has_no_pairs(known) {
        return false;
    }
    are_formulas(&known.terms)
}

/// The next step over classes of the nodes of the table.
///
/// # Errors
///
/// `Memory` if out of memory.
pub fn next_step(alloc: Global, known: &Known, classes: &Classes) -> Result<TruthStep, Memory>
    requires classes { AreClassesOf known.now.terms.nodes classes.now.lists }
    requires marked { AreMarkedFormulas known.now }
    ensures { IfOk result (λ step. IsStep known.now classes.now.lists step) }
{
    let _count = known.terms.len();
    let step = truth_step(alloc, known, classes)?;
    Ok(step)
}
