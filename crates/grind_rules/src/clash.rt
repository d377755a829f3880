//! The rule of contradictions: clash.
ghost use Rattle.std.specs.Prelude.{IsTrue, ◌↔◌, ◌≡◌, ◌<◌, ◌⊎◌, Some, length, All, IfSome, IfNone, ℤ};
ghost use Rattle.grind_claims.specs.Claims.{claims_of};
ghost use Rattle.grind_arithmetic_rules.specs.LinearRules.{IsTooGreat};
ghost use Rattle.grind_arithmetic_rules.specs.PolyRules.{IsFalseZero};
ghost use Rattle.grind_term_rules.specs.TermRules.{IsNumber};
ghost use Rattle.grind_rules.specs.Rules.{IsClash, AreOpposed, AreSplit, IsFalseEquality, IsImpossible, AreBothTruths, AreTwoNumbers};

use grind_claims::Claim;
use grind_claims::premises::{only_premise, two_premises};
use grind_differences::is_other_than_zero;
use grind_term_graph::{Head, NodeId, TermTable};

/// clash: claims that contradict each other, in either order, or a claim that cannot be.
pub fn is_clash(terms: &TermTable, premises: &[&Claim], claim: &Claim) -> bool
    ensures { IsTrue result ↔ IsClash terms.now.nodes (claims_of premises.now) claim.now }
{
    let Claim::Absurd = claim else {
        return false;
    };
    if let Some(one) = only_premise(premises) {
        return is_impossible(terms, one);
    }
    let Some((one, other)) = two_premises(premises) else {
        return false;
    };
    contradict(one, other) || contradict(other, one)
}

/// Whether the claims contradict each other, the positive one before the other.
fn contradict(one: &Claim, other: &Claim) -> bool
    ensures { IsTrue result ↔ (AreOpposed one.now other.now ⊎ AreSplit one.now other.now) }
{
    are_opposed(one, other) || are_split(one, other)
}

/// Whether the first says that a formula holds, and the second that it fails.
fn are_opposed(one: &Claim, other: &Claim) -> bool
    ensures { IsTrue result ↔ AreOpposed one.now other.now }
{
    let Claim::Holds(holding) = one else {
        return false;
    };
    let Claim::Fails(failing) = other else {
        return false;
    };
    holding == failing
}

/// Whether the first says that two terms are equal, and the second that they are different, in either order.
fn are_split(one: &Claim, other: &Claim) -> bool
    ensures { IsTrue result ↔ AreSplit one.now other.now }
{
    let Claim::Same(a, b) = one else {
        return false;
    };
    let Claim::Differ(left, right) = other else {
        return false;
    };
    (left == a && right == b) || (left == b && right == a)
}

/// Whether the claim cannot be.
fn is_impossible(terms: &TermTable, one: &Claim) -> bool
    ensures { IsTrue result ↔ IsImpossible terms.now.nodes one.now }
{
    is_false_equality(terms, one) || is_false_number(one)
}

/// Whether the claim says that a number over 0 is at most 0, or that another number than 0 is 0.
fn is_false_number(one: &Claim) -> bool
    ensures { IsTrue result ↔ (IsTooGreat one.now ⊎ IsFalseZero one.now) }
{
    is_too_great(one) || is_false_zero(one)
}

/// Whether the claim says that another number than 0 is 0.
fn is_false_zero(one: &Claim) -> bool
    ensures { IsTrue result ↔ IsFalseZero one.now }
{
    let Claim::Zero(poly) = one else {
        return false;
    };
    is_other_than_zero(poly)
}

/// Whether the claim says that a number over 0 is at most 0.
fn is_too_great(one: &Claim) -> bool
    ensures { IsTrue result ↔ IsTooGreat one.now }
{
    let Claim::AtMost(form) = one else {
        return false;
    };
    form.parts().is_empty() && form.constant() > 0
}

/// Whether the claim says that `True` and `False`, or two different numbers, are equal.
fn is_false_equality(terms: &TermTable, one: &Claim) -> bool
    ensures { IsTrue result ↔ IsFalseEquality terms.now.nodes one.now }
{
    let Claim::Same(a, b) = one else {
        return false;
    };
    are_both_truths(*a, *b) || are_two_numbers(terms, *a, *b)
}

/// Whether the two are `True` and `False`, in either order.
fn are_both_truths(a: NodeId, b: NodeId) -> bool
    ensures { IsTrue result ↔ AreBothTruths a b }
{
    (a == NodeId::TRUE && b == NodeId::FALSE) || (a == NodeId::FALSE && b == NodeId::TRUE)
}

/// Whether the two are different numbers.
fn are_two_numbers(terms: &TermTable, a: NodeId, b: NodeId) -> bool
    ensures { IsTrue result ↔ AreTwoNumbers terms.now.nodes a b }
{
    let Some(one) = number_of(terms, a) else {
        return false;
    };
    let Some(other) = number_of(terms, b) else {
        return false;
    };
    one != other
}

/// The number that the node is, where it is one.
fn number_of(terms: &TermTable, node: NodeId) -> Option<i128>
    ensures some { IfSome result (λ number. IsNumber terms.now.nodes node number) }
    ensures none { IfNone result ((number : ℤ) → ¬ IsNumber terms.now.nodes node number) }
{
    if node.number() >= terms.len() {
        return None;
    }
    let Head::Int(number) = terms.node(node).head else {
        return None;
    };
    Some(number)
}
