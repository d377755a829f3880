//! What is chosen for an atom.
ghost use Rattle.std.specs.Prelude.{◌≡◌, None, IfSome, IsNone};
ghost use Rattle.grind_cutsat_bounds.specs.Evaluations.{value_of};
ghost use Rattle.grind_cutsat_bounds.specs.Bounds.{Bound, ClaimsBound, rest_at, IsUnfit};
ghost use Rattle.grind_cutsat_bounds.specs.Choices.{IsChoice};
ghost use Rattle.grind_cutsat_bounds.specs.Limits.{IsNarrowed, IsChosen, IsEnclosed};

use crate::evaluation::evaluated;
use crate::limits::{Limits, Nearest, nearest_within, with_bound};
use grind_claims::Claim;
use grind_cutsat_facts::Fact;
use grind_term_graph::NodeId;

/// What is chosen for an atom, or why nothing is.
#[derive(Clone, Copy, Debug, PartialEq, Eq)]
pub enum Choice {
    /// The whole number nearest to 0 between its bounds, the positive one of two.
    Value(i128),
    /// Its bounds enclose no whole number. This is its least upper bound, rounded down.
    Gap(i128),
    /// This post is a bound of the atom that does not fit in 128 bits when it is evaluated.
    Unfit(u32),
}

/// What the bounds of an atom leave.
enum Enclosed {
    /// The limits of all bounds.
    Within(Limits),
    /// This post is a bound that does not fit.
    Unfit(u32),
}

/// What is chosen for the atom at these values of the greater atoms, which are listed in the order of the nodes.
pub fn choose(facts: &[Fact], values: &[i128], x: NodeId) -> Choice
    ensures { IsChoice (value_of values.now) facts.now x result }
{
    match limits_at(facts, values, x) {
        Enclosed::Within(limits) => chosen(&limits),
        Enclosed::Unfit(post) => Choice::Unfit(post),
    }
}

/// The number that is chosen within the limits.
fn chosen(limits: &Limits) -> Choice
    ensures { IsChosen limits.now result }
{
    match nearest_within(limits) {
        Nearest::Value(value) => Choice::Value(value),
        Nearest::Gap(floor) => Choice::Gap(floor),
    }
}

/// The limits of the atom, or a post that does not fit.
fn limits_at(facts: &[Fact], values: &[i128], x: NodeId) -> Enclosed
    ensures { IsEnclosed (value_of values.now) facts.now x result }
{
    let mut limits = Limits {
        low: None,
        high: None,
    };
    let mut rest = facts;
    while let Some((fact, tail)) = rest.split_first() {
        let Some(next) = narrowed(&limits, &fact.claim, values, x) else {
            return Enclosed::Unfit(fact.post);
        };
        limits = next;
        rest = tail;
    }
    Enclosed::Within(limits)
}

/// The limits once the claim is read, too, where it fits if it is a bound of the atom.
fn narrowed(limits: &Limits, claim: &Claim, values: &[i128], x: NodeId) -> Option<Limits>
    ensures some { IfSome result (λ new. IsNarrowed (value_of values.now) limits.now claim.now x new) }
    ensures none { IsNone result → (bound : Bound) × ClaimsBound claim.now x bound × (rest_at (value_of values.now) bound ≡ None) }
{
    let Claim::AtMost(form) = claim else {
        return Some(*limits);
    };
    let Some((lead, greater)) = form.parts().split_first() else {
        return Some(*limits);
    };
    if lead.node != x {
        return Some(*limits);
    }
    let Some(rest) = evaluated(values, form.constant(), greater) else {
        return None;
    };
    Some(with_bound(limits, lead.coefficient, rest))
}
