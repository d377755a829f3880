//! The readings that are needed: of active whole numbers, and of those that are said to differ.
ghost use Rattle.std.specs.Prelude.{◌≡◌, ◌+◌, ℕ, All, Contains, length, IfOk, OnOk, IfSome, IsNone};
ghost use Rattle.grind_claims.specs.declared.claim.Claim.TheVariants.{Differ};
ghost use Rattle.grind_claims.specs.Claims.{IsFormed};
ghost use Rattle.grind_cutsat_facts.specs.declared.facts.Fact.{Fact as FactData};
ghost use Rattle.grind_cutsat_assignment.specs.Given.{given, Fits};
ghost use Rattle.grind_cutsat_assignment.specs.Walks.{IsInt, AreRead, HasActive, HasSides, HasDiffering};

use grind_claims::Claim;
use grind_classes::Classes;
use grind_cutsat_facts::Fact;
use grind_differences::is_number;
use grind_linear_forms::Form;
use grind_linear_forms::reading::linear_of_all;
use grind_outside::{List, Memory};
use grind_term_graph::{NodeId, TermTable};
use std::alloc::Global;

/// The terms and their readings, each at the number of its node.
#[derive(Drop)]
pub(crate) struct Readings<'a> {
    /// The terms.
    pub terms: &'a TermTable,
    /// The readings.
    pub forms: &'a List<Option<Form>>,
}

/// The readings, each at the number of its node.
pub(crate) fn readings_of(
    alloc: Global,
    facts: &[Fact],
    terms: &TermTable,
    classes: &Classes,
) -> Result<List<Option<Form>>, Memory>
    requires { Fits (given facts.now terms.now.nodes classes.now.lists) }
    ensures { IfOk result (λ forms. AreRead (given facts.now terms.now.nodes classes.now.lists) forms) }
{
    let mut ids = List::new(alloc);
    add_active(&mut ids, terms, classes)?;
    add_differing(&mut ids, facts, terms)?;
    let forms = linear_of_all(alloc, terms, ids.as_slice())?;
    Ok(forms)
}

/// Adds the active whole numbers.
fn add_active(ids: &mut List<NodeId>, terms: &TermTable, classes: &Classes) -> Result<(), Memory>
    requires { All (IsInt terms.now.nodes) ids.old }
    ensures ints { OnOk result (All (IsInt terms.now.nodes) ids.new) }
    ensures has { OnOk result (HasActive terms.now.nodes classes.now.lists (length terms.now.nodes) ids.new) }
{
    for number in 0..terms.len() {
        add_if_active(ids, terms, classes, NodeId::new(number))?;
    }
    Ok(())
}

/// Adds the node, if it is an active whole number.
fn add_if_active(
    ids: &mut List<NodeId>,
    terms: &TermTable,
    classes: &Classes,
    node: NodeId,
) -> Result<(), Memory>
    requires ints { All (IsInt terms.now.nodes) ids.old }
    requires has { HasActive terms.now.nodes classes.now.lists node ids.old }
    ensures ints { OnOk result (All (IsInt terms.now.nodes) ids.new) }
    ensures has { OnOk result (HasActive terms.now.nodes classes.now.lists (node + 1) ids.new) }
{
    if !classes.is_active(node) {
        return Ok(());
    }
    if !is_number(terms, node) {
        return Ok(());
    }
    ids.push(node)?;
    Ok(())
}

/// Adds the whole numbers that are said to differ.
fn add_differing(ids: &mut List<NodeId>, facts: &[Fact], terms: &TermTable) -> Result<(), Memory>
    requires formed { All (λ (fact : FactData). IsFormed terms.now.nodes fact.claim) facts.now }
    requires ints { All (IsInt terms.now.nodes) ids.old }
    ensures ints { OnOk result (All (IsInt terms.now.nodes) ids.new) }
    ensures keeps { OnOk result ((n : ℕ) → Contains ids.old n → Contains ids.new n) }
    ensures has { OnOk result (HasDiffering facts.now terms.now.nodes ids.new) }
{
    let mut rest = facts;
    while let Some((fact, tail)) = rest.split_first() {
        add_sides(ids, &fact.claim, terms)?;
        rest = tail;
    }
    Ok(())
}

/// Adds the two whole numbers that the claim says differ, if it says so.
fn add_sides(ids: &mut List<NodeId>, claim: &Claim, terms: &TermTable) -> Result<(), Memory>
    requires formed { IsFormed terms.now.nodes claim.now }
    requires ints { All (IsInt terms.now.nodes) ids.old }
    ensures ints { OnOk result (All (IsInt terms.now.nodes) ids.new) }
    ensures keeps { OnOk result ((n : ℕ) → Contains ids.old n → Contains ids.new n) }
    ensures has { OnOk result (HasSides claim.now terms.now.nodes ids.new) }
{
    let Some(sides) = differing(terms, claim) else {
        return Ok(());
    };
    ids.push(sides.left)?;
    ids.push(sides.right)?;
    Ok(())
}

/// Two nodes, in this order.
#[derive(Clone, Copy)]
pub(crate) struct Sides {
    /// The first node.
    pub left: NodeId,
    /// The second node.
    pub right: NodeId,
}

/// The two whole numbers that the claim says differ, if it says so.
pub(crate) fn differing(terms: &TermTable, claim: &Claim) -> Option<Sides>
    ensures found { IfSome result (λ sides. (claim.now ≡ Differ sides.left sides.right) × IsInt terms.now.nodes sides.left) }
    ensures none { IsNone result → (a b : ℕ) → claim.now ≡ Differ a b → ¬ IsInt terms.now.nodes a }
{
    let Claim::Differ(left, right) = claim else {
        return None;
    };
    if !is_number(terms, *left) {
        return None;
    }
    Some(Sides {
        left: *left,
        right: *right,
    })
}
