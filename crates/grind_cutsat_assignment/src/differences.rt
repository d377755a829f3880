//! Terms that are said to differ, at the values of all atoms.
ghost use Rattle.std.specs.Prelude.{◌≡◌, ◌↔◌, IsTrue, IfSome, IsNone};
ghost use Rattle.grind_cutsat_assignment.specs.Assignments.{read_value};
ghost use Rattle.grind_cutsat_bounds.specs.Evaluations as specs;
ghost use Rattle.grind_cutsat_assignment.specs.Judgements.{AreUnfit, AreEqual, IsJudged, IsReadFor, AreReadFor, SaysOf, NoneSaysOf};
ghost use Rattle.grind_cutsat_assignment.specs.Walks.{IsReadAt};
ghost use Rattle.grind_cutsat_assignment.specs.declared.differences.Judgement.TheVariants as judgements;

use crate::readings::{Readings, differing};
use grind_claims::Claim;
use grind_cutsat_bounds::evaluation::evaluated;
use grind_cutsat_facts::Fact;
use grind_reach::held;
use grind_term_graph::NodeId;

/// What the values say of two terms that a claim says differ.
#[derive(Clone, Copy)]
pub(crate) enum Judgement {
    /// The claim says nothing of that kind.
    Silent,
    /// The reading of one of the two does not fit.
    Unfit,
    /// The two have one value.
    Equal,
    /// They have different values.
    Apart,
}

/// A post that says of two whole numbers that they differ, where the reading of one does not fit at the values.
pub(crate) fn first_unfit(facts: &[Fact], readings: &Readings, values: &[i128]) -> Option<u32>
    requires { AreReadFor readings.now.terms.now.nodes readings.now.forms.now facts.now }
    ensures found { IfSome result (λ post. SaysOf facts.now readings.now.terms.now.nodes
        (AreUnfit readings.now.terms.now.nodes (specs.value_of values.now)) post) }
    ensures none { IsNone result → NoneSaysOf facts.now readings.now.terms.now.nodes
        (AreUnfit readings.now.terms.now.nodes (specs.value_of values.now)) }
{
    let mut rest = facts;
    while let Some((fact, tail)) = rest.split_first() {
        if is_unfit(judged(&fact.claim, readings, values)) {
            return Some(fact.post);
        }
        rest = tail;
    }
    None
}

/// A post that says of two whole numbers that they differ, where their readings come to one number.
pub(crate) fn first_equal(facts: &[Fact], readings: &Readings, values: &[i128]) -> Option<u32>
    requires { AreReadFor readings.now.terms.now.nodes readings.now.forms.now facts.now }
    ensures found { IfSome result (λ post. SaysOf facts.now readings.now.terms.now.nodes
        (AreEqual readings.now.terms.now.nodes (specs.value_of values.now)) post) }
    ensures none { IsNone result → NoneSaysOf facts.now readings.now.terms.now.nodes
        (AreEqual readings.now.terms.now.nodes (specs.value_of values.now)) }
{
    let mut rest = facts;
    while let Some((fact, tail)) = rest.split_first() {
        if is_equal(judged(&fact.claim, readings, values)) {
            return Some(fact.post);
        }
        rest = tail;
    }
    None
}

/// Whether the reading of one of the two does not fit.
fn is_unfit(judgement: Judgement) -> bool
    ensures { IsTrue result ↔ (judgement ≡ judgements.Unfit) }
{
    match judgement {
        Judgement::Unfit => true,
        Judgement::Silent | Judgement::Equal | Judgement::Apart => false,
    }
}

/// Whether the two have one value.
fn is_equal(judgement: Judgement) -> bool
    ensures { IsTrue result ↔ (judgement ≡ judgements.Equal) }
{
    match judgement {
        Judgement::Equal => true,
        Judgement::Silent | Judgement::Unfit | Judgement::Apart => false,
    }
}

/// What the values say of the claim.
fn judged(claim: &Claim, readings: &Readings, values: &[i128]) -> Judgement
    requires { IsReadFor readings.now.terms.now.nodes readings.now.forms.now claim.now }
    ensures { IsJudged readings.now.terms.now.nodes (specs.value_of values.now) claim.now result }
{
    let Some(sides) = differing(readings.terms, claim) else {
        return Judgement::Silent;
    };
    let Some(left) = value_at(readings, values, sides.left) else {
        return Judgement::Unfit;
    };
    let Some(right) = value_at(readings, values, sides.right) else {
        return Judgement::Unfit;
    };
    if left == right {
        return Judgement::Equal;
    }
    Judgement::Apart
}

/// What the reading of the node comes to, where it is defined and fits.
fn value_at(readings: &Readings, values: &[i128], node: NodeId) -> Option<i128>
    requires { IsReadAt readings.now.terms.now.nodes readings.now.forms.now node }
    ensures { result ≡ read_value readings.now.terms.now.nodes (specs.value_of values.now) node }
{
    let Some(form) = held(readings.forms, node) else {
        return None;
    };
    evaluated(values, form.constant(), form.parts())
}
