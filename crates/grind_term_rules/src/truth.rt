//! The rules of what the goal gives, and of formulas as terms: hyp, negated, truth and untruth.
ghost use Rattle.std.specs.Prelude.{IsTrue, ◌↔◌, ◌≡◌, ◌<◌, Some, length, All, slice_get};
ghost use Rattle.grind_claims.specs.Claims.{claims_of};
ghost use Rattle.grind_term_rules.specs.TermRules.{IsHyp, IsNegated, IsTruth, IsUntruth};

use grind_claims::Claim;
use grind_claims::premises::only_premise;
use grind_schemes::Goal;
use grind_term_graph::NodeId;

#[tactic(auto, using(crate::proofs::RuleLemmas::hyp_from_place))]
/// hyp: from nothing, hypothesis `i` of the goal holds, counted from 1.
pub fn is_hyp(goal: &Goal, i: u32, premises: &[&Claim], claim: &Claim) -> bool
    ensures { IsTrue result ↔ IsHyp goal.now i (claims_of premises.now) claim.now }
{
    let Claim::Holds(node) = claim else {
        return false;
    };
    if i == 0 || !premises.is_empty() {
        return false;
    }
    stands_at(goal.hyps(), i as usize - 1, *node)
}

/// Whether the node stands at that place, counted from 0.
fn stands_at(nodes: &[NodeId], place: usize, node: NodeId) -> bool
    ensures { IsTrue result ↔ (slice_get nodes.now place ≡ Some node) }
{
    place < nodes.len() && nodes[place] == node
}

/// negated: from nothing, the conclusion of the goal fails.
pub fn is_negated(goal: &Goal, premises: &[&Claim], claim: &Claim) -> bool
    ensures { IsTrue result ↔ IsNegated goal.now (claims_of premises.now) claim.now }
{
    let Claim::Fails(node) = claim else {
        return false;
    };
    premises.is_empty() && *node == goal.show()
}

/// truth: a formula that holds equals `True`, and one that fails `False`.
pub fn is_truth(premises: &[&Claim], claim: &Claim) -> bool
    ensures { IsTrue result ↔ IsTruth (claims_of premises.now) claim.now }
{
    let Some(premise) = only_premise(premises) else {
        return false;
    };
    let Claim::Same(node, truth) = claim else {
        return false;
    };
    match premise {
        Claim::Holds(holding) => holding == node && *truth == NodeId::TRUE,
        Claim::Fails(failing) => failing == node && *truth == NodeId::FALSE,
        _ => false,
    }
}

/// untruth: what equals `True` holds, and what equals `False` fails.
pub fn is_untruth(premises: &[&Claim], claim: &Claim) -> bool
    ensures { IsTrue result ↔ IsUntruth (claims_of premises.now) claim.now }
{
    let Some(premise) = only_premise(premises) else {
        return false;
    };
    let Claim::Same(node, truth) = premise else {
        return false;
    };
    match claim {
        Claim::Holds(holding) => holding == node && *truth == NodeId::TRUE,
        Claim::Fails(failing) => failing == node && *truth == NodeId::FALSE,
        _ => false,
    }
}
