//! Questions about a term, about each term of a list, and about each term that annotations write.
ghost use Rattle.std.specs.Prelude.{◌↔◌, All, IsTrue};
ghost use Rattle.std.specs.List.{AllByRecursion};
ghost use Rattle.grind_grammar.specs.Keeps.{IsPlacedTree, term_of};
ghost use Rattle.grind_resolution.specs.Contexts.{gives_in};
ghost use Rattle.grind_resolution.specs.Sorting.{IsSorted};
ghost use Rattle.grind_annotations.specs.Written.{written, annotation_of, IsPlacedAnnot};
ghost use Rattle.grind_annotations.specs.Asking.{IsFormulaTerm, Answers};

use grind_grammar::{Annot, Tree};
use grind_resolution::{Context, is_counted, is_known, sort_of};
use grind_term_graph::SortId;

/// A question about a term.
#[derive(Clone, Copy, Debug, PartialEq, Eq)]
pub enum Question {
    /// Whether each name stands for something.
    Known,
    /// Whether each name has as many arguments as it asks for.
    Counted,
    /// Whether it has a sort.
    Sorted,
    /// Whether it is a formula.
    Formula,
}

// Whether a term has a sort.
fn is_sorted(context: &Context<'_>, tree: &Tree) -> bool
    requires { IsPlacedTree context.now.text.now tree.now }
    ensures { IsTrue result ↔ IsSorted (gives_in context.now) (term_of context.now.text.now tree.now) }
{
    match sort_of(context, tree) {
        Some(_) => true,
        None => false,
    }
}

// Whether a term is a formula.
fn is_formula(context: &Context<'_>, tree: &Tree) -> bool
    requires { IsPlacedTree context.now.text.now tree.now }
    ensures { IsTrue result ↔ IsFormulaTerm (gives_in context.now) (term_of context.now.text.now tree.now) }
{
    match sort_of(context, tree) {
        Some(sort) => sort == SortId::PROP,
        None => false,
    }
}

/// Whether the answer for a term is yes.
pub fn answers(question: Question, context: &Context<'_>, tree: &Tree) -> bool
    requires { IsPlacedTree context.now.text.now tree.now }
    ensures { IsTrue result ↔ Answers question (gives_in context.now) (term_of context.now.text.now tree.now) }
{
    match question {
        Question::Known => is_known(context, tree),
        Question::Counted => is_counted(context, tree),
        Question::Sorted => is_sorted(context, tree),
        Question::Formula => is_formula(context, tree),
    }
}

/// Whether the answer for each of the terms is yes.
pub fn all_answer(question: Question, context: &Context<'_>, trees: &[Tree]) -> bool
    requires { All (IsPlacedTree context.now.text.now) trees.now }
    ensures { IsTrue result ↔ All (λ tree. Answers question (gives_in context.now) (term_of context.now.text.now tree)) trees.now }
{
    for tree in trees {
        if !answers(question, context, tree) {
            return false;
        }
    }
    true
}

// Whether the answer for each term that an annotation writes is yes.
fn annot_answers(question: Question, context: &Context<'_>, annot: &Annot) -> bool
    requires { IsPlacedAnnot context.now.text.now annot.now }
    ensures { IsTrue result ↔ AllByRecursion (Answers question (gives_in context.now)) (written (annotation_of context.now.text.now annot.now)) }
{
    match annot {
        Annot::Left => true,
        Annot::Right => true,
        Annot::Hyps => true,
        Annot::Concl => true,
        Annot::Pattern(trees) => {
            let terms = trees.as_slice();
            all_answer(question, context, terms)
        }
    }
}

/// Whether the answer for each term that the annotations write is yes.
pub fn annots_answer(question: Question, context: &Context<'_>, annots: &[Annot]) -> bool
    requires { All (IsPlacedAnnot context.now.text.now) annots.now }
    ensures { IsTrue result ↔ All (λ annot. AllByRecursion (Answers question (gives_in context.now)) (written (annotation_of context.now.text.now annot))) annots.now }
{
    for annot in annots {
        if !annot_answers(question, context, annot) {
            return false;
        }
    }
    true
}
