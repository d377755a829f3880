//! Whether each name of a term stands for something.
ghost use Rattle.std.specs.Prelude.{◌↔◌, All, IsTrue};
ghost use Rattle.grind_grammar.specs.Keeps.{IsPlaced, IsPlacedTree, name_of, term_of};
ghost use Rattle.grind_resolution.specs.Scopes.{Given};
ghost use Rattle.grind_resolution.specs.Contexts.{gives_in};
ghost use Rattle.grind_resolution.specs.Sorting.{Known};

use crate::context::Context;
use crate::found::name_at;
use grind_grammar::{Name, Tree};

// Whether a name stands for something.
fn is_given(context: &Context<'_>, name: Name) -> bool
    requires { IsPlaced context.now.text.now name }
    ensures { IsTrue result ↔ ((given : Given) × gives_in context.now (name_of context.now.text.now name) given) }
{
    match name_at(context, name) {
        Some(_) => true,
        None => false,
    }
}

/// Whether each name of a term stands for something. The recursion is as deep as the term.
#[cycle(known)]
pub fn is_known(context: &Context<'_>, tree: &Tree) -> bool
    requires { IsPlacedTree context.now.text.now tree.now }
    ensures { IsTrue result ↔ Known (gives_in context.now) (term_of context.now.text.now tree.now) }
{
    match tree {
        Tree::True => true,
        Tree::False => true,
        Tree::Number(_) => true,
        Tree::Apply(name, parts) => {
            if !is_given(context, *name) {
                return false;
            }
            are_known(context, parts)
        }
        Tree::One(_, part) => is_known(context, part),
        Tree::Two(_, left, right) => {
            if !is_known(context, left) {
                return false;
            }
            is_known(context, right)
        }
    }
}

// Whether each name of the parts stands for something.
#[cycle(known)]
fn are_known(context: &Context<'_>, parts: &[Tree]) -> bool
    requires { All (IsPlacedTree context.now.text.now) parts.now }
    ensures { IsTrue result ↔ All (λ tree. Known (gives_in context.now) (term_of context.now.text.now tree)) parts.now }
{
    for part in parts {
        if !is_known(context, part) {
            return false;
        }
    }
    true
}
