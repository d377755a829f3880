//! The faults of the terms of a theorem.
ghost use Rattle.std.specs.Prelude.{◌↔◌, All, IsTrue};
ghost use Rattle.grind_grammar.specs.Keeps.{IsPlacedTree, term_of};
ghost use Rattle.grind_resolution.specs.Contexts.{gives_in};
ghost use Rattle.grind_annotations.specs.Asking.{Answers};
ghost use Rattle.grind_annotations.specs.Written.{AllWritten, annotations_of, IsPlacedAnnot};
ghost use Rattle.grind_theory.specs.Asking.{AreTermsSorted, FaultOfTerms};

use crate::sorts::has_no_formulas;
use crate::theory::Fault;
use grind_annotations::{Question, annots_answer, answers};
use grind_grammar::{Annot, Tree};
use grind_resolution::Context;
use grind_term_graph::SortId;

// Whether the answer for the body and for each term that the annotations write is yes.
fn theorem_answers(question: Question, context: &Context<'_>, annots: &[Annot], body: &Tree) -> bool
    requires annots { All (IsPlacedAnnot context.now.text.now) annots.now }
    requires body { IsPlacedTree context.now.text.now body.now }
    ensures { IsTrue result ↔ (Answers question (gives_in context.now) (term_of context.now.text.now body.now)
        × AllWritten (Answers question (gives_in context.now)) (annotations_of context.now.text.now annots.now)) }
{
    if !annots_answer(question, context, annots) {
        return false;
    }
    answers(question, context, body)
}

// Whether the body is a formula, each written pattern has a sort, and no variable is of sort `Prop`.
fn are_terms_sorted(context: &Context<'_>, vars: &[SortId], annots: &[Annot], body: &Tree) -> bool
    requires annots { All (IsPlacedAnnot context.now.text.now) annots.now }
    requires body { IsPlacedTree context.now.text.now body.now }
    ensures { IsTrue result ↔ AreTermsSorted (gives_in context.now) vars.now (annotations_of context.now.text.now annots.now) (term_of context.now.text.now body.now) }
{
    if !has_no_formulas(vars) {
        return false;
    }
    if !annots_answer(Question::Sorted, context, annots) {
        return false;
    }
    answers(Question::Formula, context, body)
}

/// The first fault of a theorem's body and written patterns by what names stand for, or None if there is none.
pub(crate) fn fault_of_terms(
    context: &Context<'_>,
    vars: &[SortId],
    annots: &[Annot],
    body: &Tree,
) -> Option<Fault>
    requires annots { All (IsPlacedAnnot context.now.text.now) annots.now }
    requires body { IsPlacedTree context.now.text.now body.now }
    ensures { FaultOfTerms (gives_in context.now) vars.now (annotations_of context.now.text.now annots.now) (term_of context.now.text.now body.now) result }
{
    if !theorem_answers(Question::Known, context, annots, body) {
        return Some(Fault::Unknown);
    }
    if !theorem_answers(Question::Counted, context, annots, body) {
        return Some(Fault::Arity);
    }
    if !are_terms_sorted(context, vars, annots, body) {
        return Some(Fault::Sort);
    }
    None
}
