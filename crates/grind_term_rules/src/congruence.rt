//! The rule of congruence: cong.
ghost use Rattle.std.specs.Prelude.{IsTrue, ◌↔◌, ◌≡◌, ◌<◌, Some, length, All};
ghost use Rattle.grind_claims.specs.declared.claim.Claim.TheVariants.{Same};
ghost use Rattle.grind_claims.specs.Claims.{IsFormed, claims_of};
ghost use Rattle.grind_term_rules.specs.TermRules.{IsCong, SayEqual};

use grind_claims::Claim;
use grind_term_graph::{NodeId, TermTable};

/// cong: two terms of one head and one sort, whose arguments, at least one, are equal one by one.
pub fn is_cong(terms: &TermTable, premises: &[&Claim], claim: &Claim) -> bool
    requires formed { IsFormed terms.now.nodes claim.now }
    ensures { IsTrue result ↔ IsCong terms.now.nodes (claims_of premises.now) claim.now }
{
    let Claim::Same(left, right) = claim else {
        return false;
    };
    let one = terms.node(*left);
    let other = terms.node(*right);
    one.head == other.head
        && one.sort == other.sort
        && !premises.is_empty()
        && say_equal(one.args.as_slice(), other.args.as_slice(), premises)
}

/// Whether the premises say that these are equal to those, one by one.
fn say_equal(left: &[NodeId], right: &[NodeId], premises: &[&Claim]) -> bool
    ensures { IsTrue result ↔ SayEqual left.now right.now (claims_of premises.now) }
{
    let mut these = left;
    let mut those = right;
    for premise in premises {
        let Some((a, these_tail)) = these.split_first() else {
            return false;
        };
        let Some((b, those_tail)) = those.split_first() else {
            return false;
        };
        if !says_same(*premise, *a, *b) {
            return false;
        }
        these = these_tail;
        those = those_tail;
    }
    if these.len() > 0 {
        return false;
    }
    those.is_empty()
}

/// Whether the premise claims that the first equals the second.
fn says_same(premise: &Claim, a: NodeId, b: NodeId) -> bool
    ensures { IsTrue result ↔ (premise.now ≡ Same a b) }
{
    let Claim::Same(left, right) = premise else {
        return false;
    };
    *left == a && *right == b
}
