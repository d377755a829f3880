//! What is known of terms.
ghost use Rattle.std.specs.Prelude.{◌≡◌, ◌↔◌, IsTrue, false};
ghost use Rattle.grind_classes.specs.Classes.{IsActive, AreTogether};
ghost use Rattle.grind_claims.specs.declared.claim.Claim.TheVariants.{Same};
ghost use Rattle.grind_cutsat_facts.specs.Facts.{Stands};
ghost use Rattle.grind_cutsat_assignment.specs.Given.{given};
ghost use Rattle.grind_cutsat_units.specs.Settled.{IsUnknown};
ghost use Rattle.grind_cutsat_terms.specs.Pinching.{IsNewPair, IsKnownPair};

use grind_claims::Claim;
use grind_cutsat_units::View;
use grind_term_graph::NodeId;

// Whether a post says the claim.
pub(crate) fn stands(view: &View, claim: &Claim) -> bool
    ensures { IsTrue result ↔ Stands view.now.facts.now claim.now }
{
    match view.facts.post_of(claim) {
        Some(_post) => true,
        None => false,
    }
}

// Whether the node is active, and neither known to hold nor to fail.
pub(crate) fn is_unknown(view: &View, node: NodeId) -> bool
    ensures { IsTrue result
        ↔ IsUnknown (given view.now.facts.now view.now.terms.now.nodes view.now.classes.now.lists) node }
{
    if !view.classes.is_active(node) {
        return false;
    }
    if stands(view, &Claim::Holds(node)) {
        return false;
    }
    !stands(view, &Claim::Fails(node))
}

// Whether the nodes are active, in different classes, and no post says that they are equal.
pub(crate) fn is_new_pair(view: &View, left: NodeId, right: NodeId) -> bool
    ensures yes { IsTrue result
        → IsNewPair (given view.now.facts.now view.now.terms.now.nodes view.now.classes.now.lists) left right }
    ensures no { result ≡ false
        → IsKnownPair (given view.now.facts.now view.now.terms.now.nodes view.now.classes.now.lists) left right }
{
    if !view.classes.is_active(left) {
        return false;
    }
    if !view.classes.is_active(right) {
        return false;
    }
    if view.classes.same(left, right) {
        return false;
    }
    !stands(view, &Claim::Same(left, right))
}
