//! The hypotheses and the conclusion of a theorem's body.
ghost use Rattle.std.specs.Prelude.{◌≡◌, ◌≢◌, [], ◌∷◌, length, IfSome, IsNone, OnOk};
ghost use Rattle.grind_schemes.specs.declared.scheme.Scheme.{Scheme as Formula};
ghost use Rattle.grind_patterns.specs.Patterns.{hypotheses_of, conclusion_of, IsEquation};
ghost use Rattle.grind_patterns.specs.Walking.{WalksEachOn};

use crate::walk::walk;
use grind_outside::{List, Memory};
use grind_schemes::Scheme;
use grind_term_graph::Head;
use std::alloc::Global;

/// The conclusion of a formula: the formula after its last hypothesis.
pub fn conclusion(body: &Scheme) -> &Scheme
    ensures { result.now ≡ conclusion_of body.now }
{
    let mut rest = body;
    while let Some((_, behind)) = implication(rest) {
        rest = behind;
    }
    rest
}

// Walks the hypotheses of a formula, one after the other.
pub(crate) fn walk_hypotheses(
    alloc: Global,
    body: &Scheme,
    taken: &mut List<Scheme>,
) -> Result<(), Memory>
    ensures { OnOk result (WalksEachOn taken.old (hypotheses_of body.now) taken.new) }
{
    let mut rest = body;
    while let Some((hyp, behind)) = implication(rest) {
        walk(alloc, hyp, taken)?;
        rest = behind;
    }
    Ok(())
}

// The first hypothesis of a formula and the formula after it; None if there is none.
pub(crate) fn implication(formula: &Scheme) -> Option<(&Scheme, &Scheme)>
    ensures hyps { IfSome result (λ parts. hypotheses_of formula.now ≡ parts.0.now ∷ hypotheses_of parts.1.now) }
    ensures conclusion { IfSome result (λ parts. conclusion_of formula.now ≡ conclusion_of parts.1.now) }
    ensures no_hyps { IsNone result → hypotheses_of formula.now ≡ [] }
    ensures no_more { IsNone result → conclusion_of formula.now ≡ formula.now }
{
    match formula {
        Scheme::Apply { head, args, .. } => implied(*head, args),
        _ => None,
    }
}

// The two arguments of an implication.
fn implied(head: Head, args: &[Scheme]) -> Option<(&Scheme, &Scheme)>
    ensures head { IfSome result (λ parts. head ≡ Head.Implies) }
    ensures args { IfSome result (λ parts. args.now ≡ parts.0.now ∷ parts.1.now ∷ []) }
    ensures none { IsNone result → head ≡ Head.Implies → length args.now ≢ 2 }
{
    match head {
        Head::Implies => both(args),
        _ => None,
    }
}

// The sides of an equation, or None if the formula is not one.
pub(crate) fn equation(formula: &Scheme) -> Option<(&Scheme, &Scheme)>
    ensures sides { IfSome result (λ parts. IsEquation parts.0.now parts.1.now formula.now) }
    ensures none { IsNone result → (left : Formula) → (right : Formula) → ¬ IsEquation left right formula.now }
{
    match formula {
        Scheme::Apply {
            head: Head::Eq,
            args,
            ..
        } => both(args),
        _ => None,
    }
}

// The two schemes, where there are two.
fn both(schemes: &[Scheme]) -> Option<(&Scheme, &Scheme)>
    ensures some { IfSome result (λ parts. schemes.now ≡ parts.0.now ∷ parts.1.now ∷ []) }
    ensures none { IsNone result → length schemes.now ≢ 2 }
{
    if schemes.len() == 2 {
        return Some((&schemes[0], &schemes[1]));
    }
    None
}
