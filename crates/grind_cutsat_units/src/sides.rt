//! The sides of comparisons, and the forms by which comparisons are read.
ghost use Rattle.std.specs.Prelude.{◌≡◌, [], ◌∷◌, ℕ, pos, ◌+ℤ◌, IfOk, IfSome, IfNone, MatchOption, FitsSigned};
ghost use Rattle.std.specs.Int.{w128};
ghost use Rattle.grind_claims.specs.declared.claim.Claim.TheVariants.{AtMost};
ghost use Rattle.grind_differences.specs.Bounds.{plus};
ghost use Rattle.grind_arithmetic_rules.specs.LinearRules.{IsComparison, IsRead};
ghost use Rattle.grind_cutsat_units.specs.Sides.{IsHeldBound, IsFailedBound};

use grind_claims::Claim;
use grind_differences::difference;
use grind_linear_forms::Form;
use grind_outside::Memory;
use grind_term_graph::{Head, NodeId, TermTable};
use std::alloc::Global;

/// The form by which a literal of a comparison is read, where its numbers fit.
pub fn form_read(alloc: Global, terms: &TermTable, literal: &Claim) -> Result<Option<Form>, Memory>
    ensures { IfOk result (λ found. MatchOption found ((form : _) → ¬ IsRead terms.now.nodes (literal.now ∷ []) (AtMost form))
        (λ form. IsRead terms.now.nodes (literal.now ∷ []) (AtMost form))) }
{
    match literal {
        Claim::Holds(node) => {
            let found = held_bound(alloc, terms, *node)?;
            Ok(found)
        }
        Claim::Fails(node) => {
            let found = failed_bound(alloc, terms, *node)?;
            Ok(found)
        }
        _ => Ok(None),
    }
}

/// The difference of the sides, where the node is a comparison.
fn held_bound(alloc: Global, terms: &TermTable, node: NodeId) -> Result<Option<Form>, Memory>
    ensures { IfOk result (λ found. MatchOption found ((form : _) → ¬ IsHeldBound terms.now.nodes node form)
        (λ form. IsHeldBound terms.now.nodes node form)) }
{
    let Some(sides) = sides_of(terms, node) else {
        return Ok(None);
    };
    let found = difference(alloc, terms, sides.left, sides.right)?;
    Ok(found)
}

/// The opposite difference of the sides and 1, where the node is a comparison and that fits.
fn failed_bound(alloc: Global, terms: &TermTable, node: NodeId) -> Result<Option<Form>, Memory>
    ensures { IfOk result (λ found. MatchOption found ((form : _) → ¬ IsFailedBound terms.now.nodes node form)
        (λ form. IsFailedBound terms.now.nodes node form)) }
{
    let Some(sides) = sides_of(terms, node) else {
        return Ok(None);
    };
    let base = difference(alloc, terms, sides.right, sides.left)?;
    let Some(base) = base else {
        return Ok(None);
    };
    Ok(one_more(base))
}

/// The form and 1, where that fits.
pub fn one_more(form: Form) -> Option<Form>
    ensures { MatchOption result (FitsSigned w128 (form.constant +ℤ pos 1) → ⊥)
        (λ more. (more ≡ plus form (pos 1)) × FitsSigned w128 more.constant) }
{
    let _parts = form.parts();
    let Form { parts, constant } = form;
    let Some(constant) = constant.checked_add(1) else {
        return None;
    };
    Some(Form { parts, constant })
}

/// Two sides, in this order.
#[derive(Clone, Copy)]
pub struct Sides {
    /// The first side.
    pub left: NodeId,
    /// The second side.
    pub right: NodeId,
}

/// The sides of a comparison.
pub fn sides_of(terms: &TermTable, node: NodeId) -> Option<Sides>
    ensures some { IfSome result (λ sides. IsComparison terms.now.nodes node sides.left sides.right) }
    ensures none { IfNone result ((a b : ℕ) → ¬ IsComparison terms.now.nodes node a b) }
{
    if node.number() >= terms.len() {
        return None;
    }
    let it = terms.node(node);
    if it.head != Head::Le {
        return None;
    }
    two_sides(it.args.as_slice())
}

#[tactic(auto, using(crate::proofs::SideLemmas::two_items))]
/// The two arguments, where there are two.
pub fn two_sides(args: &[NodeId]) -> Option<Sides>
    ensures some { IfSome result (λ sides. args.now ≡ sides.left ∷ sides.right ∷ []) }
    ensures none { IfNone result ((a b : ℕ) → ¬ (args.now ≡ a ∷ b ∷ [])) }
{
    let [first, second] = args else {
        return None;
    };
    Some(Sides {
        left: *first,
        right: *second,
    })
}
