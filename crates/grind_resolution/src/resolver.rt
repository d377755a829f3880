//! The scheme that a term stands for.
ghost use Rattle.std.specs.Prelude.{◌≡◌, All, IfOk, length};
ghost use Rattle.grind_grammar.specs.Keeps.{IsPlaced, IsPlacedTree, name_of, term_of};
ghost use Rattle.grind_resolution.specs.Scopes.{Given};
ghost use Rattle.grind_resolution.specs.Contexts.{gives_in};
ghost use Rattle.grind_resolution.specs.Sorting.{IsSorted};
ghost use Rattle.grind_resolution.specs.Resolved.{IsMeant, StandsFor, StandForRow};
ghost use Rattle.grind_resolution.specs.Rows.{row_of_trees};

use crate::context::Context;
use crate::found::name_at;
use crate::make::{binary, leaf, of_name, unary};
use grind_grammar::{Name, Tree};
use grind_outside::Memory;
use grind_schemes::Scheme;
use grind_term_graph::{Head, SortId};

// The scheme of a name at its parts.
fn resolve_name(context: &Context<'_>, name: Name, parts: Vec<Scheme>) -> Scheme
    requires placed { IsPlaced context.now.text.now name }
    requires given { (given : Given) × gives_in context.now (name_of context.now.text.now name) given × (length parts.items ≡ length given.args) }
    ensures { (given : Given) × gives_in context.now (name_of context.now.text.now name) given
        × IsMeant given.meaning given.sort parts.items result }
{
    let Some(found) = name_at(context, name) else {
        unreachable!()
    };
    of_name(found.meaning, found.sort, parts)
}

/// The scheme that a term of a sort stands for. The recursion is as deep as the term.
///
/// # Errors
///
/// `Memory`.
#[cycle(resolving)]
pub fn resolve(context: &Context<'_>, tree: &Tree) -> Result<Scheme, Memory>
    requires placed { IsPlacedTree context.now.text.now tree.now }
    requires sorted { IsSorted (gives_in context.now) (term_of context.now.text.now tree.now) }
    ensures { IfOk result (StandsFor (gives_in context.now) (term_of context.now.text.now tree.now)) }
{
    match tree {
        Tree::True => Ok(leaf(context.alloc, Head::True, SortId::PROP)),
        Tree::False => Ok(leaf(context.alloc, Head::False, SortId::PROP)),
        Tree::Number(value) => Ok(leaf(context.alloc, Head::Int(*value), SortId::INT)),
        Tree::Apply(name, parts) => {
            let parts = resolve_all(context, parts)?;
            Ok(resolve_name(context, *name, parts))
        }
        Tree::One(op, part) => {
            let part = resolve(context, part)?;
            unary(context.alloc, *op, part)
        }
        Tree::Two(op, left, right) => {
            let left = resolve(context, left)?;
            let right = resolve(context, right)?;
            binary(context.alloc, *op, left, right)
        }
    }
}

// The schemes of the parts, in order.
#[cycle(resolving)]
fn resolve_all(context: &Context<'_>, parts: &[Tree]) -> Result<Vec<Scheme>, Memory>
    requires placed { All (IsPlacedTree context.now.text.now) parts.now }
    requires sorted { All (λ tree. IsSorted (gives_in context.now) (term_of context.now.text.now tree)) parts.now }
    ensures { IfOk result (λ schemes. StandForRow (gives_in context.now) (row_of_trees context.now.text.now parts.now) schemes.items) }
{
    let mut done = Vec::new(context.alloc);
    for part in parts {
        let scheme = resolve(context, part)?;
        done.push(scheme)?;
    }
    Ok(done)
}
