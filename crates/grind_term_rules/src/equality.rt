//! The rules of equality: refl, sym, trans, eq and back.
ghost use Rattle.std.specs.Prelude.{IsTrue, ◌↔◌, ◌≡◌, ◌<◌, [], ◌∷◌, length, All};
ghost use Rattle.grind_claims.specs.Claims.{claims_of};
ghost use Rattle.grind_term_rules.specs.TermRules.{IsRefl, IsSym, IsTrans, IsEquation, IsEquationOf, IsEq, IsBack};

use grind_claims::Claim;
use grind_claims::premises::{only_premise, two_premises};
use grind_term_graph::{Head, NodeId, TermTable};

/// refl: from nothing, a term equals itself.
pub fn is_refl(premises: &[&Claim], claim: &Claim) -> bool
    ensures { IsTrue result ↔ IsRefl (claims_of premises.now) claim.now }
{
    let Claim::Same(left, right) = claim else {
        return false;
    };
    premises.is_empty() && left == right
}

/// sym: from a = b follows b = a.
pub fn is_sym(premises: &[&Claim], claim: &Claim) -> bool
    ensures { IsTrue result ↔ IsSym (claims_of premises.now) claim.now }
{
    let Some(premise) = only_premise(premises) else {
        return false;
    };
    let Claim::Same(a, b) = premise else {
        return false;
    };
    let Claim::Same(left, right) = claim else {
        return false;
    };
    left == b && right == a
}

/// trans: two equalities, where the first ends with what the second begins with.
pub fn is_trans(premises: &[&Claim], claim: &Claim) -> bool
    ensures { IsTrue result ↔ IsTrans (claims_of premises.now) claim.now }
{
    let Some((one, other)) = two_premises(premises) else {
        return false;
    };
    let Claim::Same(a, end) = one else {
        return false;
    };
    let Claim::Same(beginning, c) = other else {
        return false;
    };
    let Claim::Same(left, right) = claim else {
        return false;
    };
    end == beginning && left == a && right == c
}

/// eq: the sides of an equation that holds are equal, and of one that fails different.
pub fn is_eq(terms: &TermTable, premises: &[&Claim], claim: &Claim) -> bool
    ensures { IsTrue result ↔ IsEq terms.now.nodes (claims_of premises.now) claim.now }
{
    let Some(premise) = only_premise(premises) else {
        return false;
    };
    match premise {
        Claim::Holds(node) => {
            let Claim::Same(left, right) = claim else {
                return false;
            };
            is_equation(terms, *node, *left, *right)
        }
        Claim::Fails(node) => {
            let Claim::Differ(left, right) = claim else {
                return false;
            };
            is_equation(terms, *node, *left, *right)
        }
        _ => false,
    }
}

/// back: an equation of two equal terms holds, and of two different ones fails.
pub fn is_back(terms: &TermTable, premises: &[&Claim], claim: &Claim) -> bool
    ensures { IsTrue result ↔ IsBack terms.now.nodes (claims_of premises.now) claim.now }
{
    let Some(premise) = only_premise(premises) else {
        return false;
    };
    match premise {
        Claim::Same(left, right) => {
            let Claim::Holds(node) = claim else {
                return false;
            };
            is_equation_of(terms, *node, *left, *right)
        }
        Claim::Differ(left, right) => {
            let Claim::Fails(node) = claim else {
                return false;
            };
            is_equation_of(terms, *node, *left, *right)
        }
        _ => false,
    }
}

/// Whether the node is the equation of these two, in either order.
fn is_equation_of(terms: &TermTable, node: NodeId, a: NodeId, b: NodeId) -> bool
    ensures { IsTrue result ↔ IsEquationOf terms.now.nodes node a b }
{
    is_equation(terms, node, a, b) || is_equation(terms, node, b, a)
}

/// Whether the node is the equation of these two, in this order.
fn is_equation(terms: &TermTable, node: NodeId, left: NodeId, right: NodeId) -> bool
    ensures { IsTrue result ↔ IsEquation terms.now.nodes node left right }
{
    if node.number() >= terms.len() {
        return false;
    }
    let node = terms.node(node);
    node.head == Head::Eq && are_two(node.args.as_slice(), left, right)
}

#[tactic(auto, using(crate::proofs::Premises::two_items))]
/// Whether the arguments are these two, in this order.
fn are_two(args: &[NodeId], left: NodeId, right: NodeId) -> bool
    ensures { IsTrue result ↔ (args.now ≡ left ∷ right ∷ []) }
{
    let [first, second] = args else {
        return false;
    };
    *first == left && *second == right
}
