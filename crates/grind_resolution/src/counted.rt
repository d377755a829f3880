//! Whether each name of a term has the number of arguments that it asks for.
ghost use Rattle.std.specs.Prelude.{◌≡◌, ◌↔◌, length, All, IsTrue};
ghost use Rattle.grind_grammar.specs.Keeps.{IsPlaced, IsPlacedTree, name_of, term_of};
ghost use Rattle.grind_resolution.specs.Scopes.{Given};
ghost use Rattle.grind_resolution.specs.Contexts.{gives_in};
ghost use Rattle.grind_resolution.specs.Sorting.{Counted};

use crate::context::Context;
use crate::found::name_at;
use grind_grammar::{Name, Tree};

// Whether a name stands for something that takes so many arguments.
fn takes(context: &Context<'_>, name: Name, count: usize) -> bool
    requires { IsPlaced context.now.text.now name }
    ensures { IsTrue result ↔ ((given : Given) × gives_in context.now (name_of context.now.text.now name) given × (count ≡ length given.args)) }
{
    match name_at(context, name) {
        Some(found) => found.args.len() == count,
        None => false,
    }
}

/// Whether each name of a term has the number of arguments that it asks for: none for a constant or a variable.
/// The recursion is as deep as the term.
#[cycle(counted)]
pub fn is_counted(context: &Context<'_>, tree: &Tree) -> bool
    requires { IsPlacedTree context.now.text.now tree.now }
    ensures { IsTrue result ↔ Counted (gives_in context.now) (term_of context.now.text.now tree.now) }
{
    match tree {
        Tree::True => true,
        Tree::False => true,
        Tree::Number(_) => true,
        Tree::Apply(name, parts) => {
            if !takes(context, *name, parts.len()) {
                return false;
            }
            are_counted(context, parts)
        }
        Tree::One(_, part) => is_counted(context, part),
        Tree::Two(_, left, right) => {
            if !is_counted(context, left) {
                return false;
            }
            is_counted(context, right)
        }
    }
}

// Whether each name of the parts has the number of arguments that it asks for.
#[cycle(counted)]
fn are_counted(context: &Context<'_>, parts: &[Tree]) -> bool
    requires { All (IsPlacedTree context.now.text.now) parts.now }
    ensures { IsTrue result ↔ All (λ tree. Counted (gives_in context.now) (term_of context.now.text.now tree)) parts.now }
{
    for part in parts {
        if !is_counted(context, part) {
            return false;
        }
    }
    true
}
