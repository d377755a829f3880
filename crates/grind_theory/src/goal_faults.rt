//! The faults of the formulas of a goal.
ghost use Rattle.std.specs.Prelude.{◌↔◌, All, IsTrue};
ghost use Rattle.std.specs.List.{AllByRecursion};
ghost use Rattle.grind_grammar.specs.Keeps.{IsPlacedTree, term_of};
ghost use Rattle.grind_resolution.specs.Contexts.{gives_in};
ghost use Rattle.grind_annotations.specs.Asking.{Answers};
ghost use Rattle.grind_annotations.specs.Written.{terms_of};
ghost use Rattle.grind_theory.specs.Declaring.{FaultOfFormulas};

use crate::theory::Fault;
use grind_annotations::{Question, all_answer, answers};
use grind_grammar::Tree;
use grind_resolution::Context;

// Whether the answer for each hypothesis and for the conclusion is yes.
fn goal_answers(question: Question, context: &Context<'_>, hyps: &[Tree], show: &Tree) -> bool
    requires hyps { All (IsPlacedTree context.now.text.now) hyps.now }
    requires show { IsPlacedTree context.now.text.now show.now }
    ensures { IsTrue result ↔ (AllByRecursion (Answers question (gives_in context.now)) (terms_of context.now.text.now hyps.now)
        × Answers question (gives_in context.now) (term_of context.now.text.now show.now)) }
{
    if !all_answer(question, context, hyps) {
        return false;
    }
    answers(question, context, show)
}

/// The first fault of the hypotheses and the conclusion of a goal by what names stand for, or None if they are
/// formulas.
pub(crate) fn fault_of_formulas(context: &Context<'_>, hyps: &[Tree], show: &Tree) -> Option<Fault>
    requires hyps { All (IsPlacedTree context.now.text.now) hyps.now }
    requires show { IsPlacedTree context.now.text.now show.now }
    ensures { FaultOfFormulas (gives_in context.now) (terms_of context.now.text.now hyps.now) (term_of context.now.text.now show.now) result }
{
    if !goal_answers(Question::Known, context, hyps, show) {
        return Some(Fault::Unknown);
    }
    if !goal_answers(Question::Counted, context, hyps, show) {
        return Some(Fault::Arity);
    }
    if !goal_answers(Question::Formula, context, hyps, show) {
        return Some(Fault::Sort);
    }
    None
}
