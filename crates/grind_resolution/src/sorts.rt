//! The sort of a term.
ghost use Rattle.std.specs.Prelude.{◌≡◌, ◌↔◌, ℕ, All, Some, IsTrue};
ghost use Rattle.grind_grammar.specs.Keeps.{IsPlacedTree, term_of};
ghost use Rattle.grind_resolution.specs.Contexts.{gives_in};
ghost use Rattle.grind_resolution.specs.Sorting.{HasSort, TakesSides, unary_sort, binary_sort};
ghost use Rattle.grind_resolution.specs.Rows.{EachHasSort};

use crate::context::Context;
use crate::found::name_at;
use grind_grammar::{Binary, Tree, Unary};
use grind_term_graph::SortId;

// Whether the sort that was found is this one.
fn is_sort(found: Option<SortId>, sort: SortId) -> bool
    ensures { IsTrue result ↔ (found ≡ Some sort) }
{
    match found {
        Some(own) => own == sort,
        None => false,
    }
}

// The sort of an operator's part, and of the whole.
fn sort_of_unary(op: Unary) -> SortId
    ensures { result ≡ unary_sort op }
{
    match op {
        Unary::Not => SortId::PROP,
        Unary::Neg => SortId::INT,
    }
}

// The sort of an operator at two sides.
fn sort_of_binary(op: Binary) -> SortId
    ensures { result ≡ binary_sort op }
{
    match op {
        Binary::Add | Binary::Sub | Binary::Mul => SortId::INT,
        _ => SortId::PROP,
    }
}

// Whether an operator takes two sides of this sort.
fn takes_sides(op: Binary, side: SortId) -> bool
    ensures { IsTrue result ↔ TakesSides op side }
{
    match op {
        Binary::Iff | Binary::Implies | Binary::Or | Binary::And => side == SortId::PROP,
        Binary::Eq | Binary::Ne => true,
        _ => side == SortId::INT,
    }
}

// The sort of an operator at a part of this sort.
fn unary_of(op: Unary, part: Option<SortId>) -> Option<SortId>
    ensures { (sort : ℕ) → (result ≡ Some sort) ↔ ((part ≡ Some (unary_sort op)) × (sort ≡ unary_sort op)) }
{
    let own = sort_of_unary(op);
    if !is_sort(part, own) {
        return None;
    }
    Some(own)
}

// The sort of an operator at two sides of these sorts.
fn binary_of(op: Binary, left: Option<SortId>, right: Option<SortId>) -> Option<SortId>
    ensures { (sort : ℕ) → (result ≡ Some sort)
        ↔ ((side : ℕ) × (left ≡ Some side) × (right ≡ Some side) × TakesSides op side × (sort ≡ binary_sort op)) }
{
    let Some(side) = left else {
        return None;
    };
    if !is_sort(right, side) {
        return None;
    }
    if !takes_sides(op, side) {
        return None;
    }
    Some(sort_of_binary(op))
}

/// The sort of a term, or None if it has none. The recursion is as deep as the term.
#[cycle(sorts)]
pub fn sort_of(context: &Context<'_>, tree: &Tree) -> Option<SortId>
    requires { IsPlacedTree context.now.text.now tree.now }
    ensures { (sort : ℕ) → HasSort (gives_in context.now) (term_of context.now.text.now tree.now) sort ↔ (result ≡ Some sort) }
{
    match tree {
        Tree::True => Some(SortId::PROP),
        Tree::False => Some(SortId::PROP),
        Tree::Number(_) => Some(SortId::INT),
        Tree::Apply(name, parts) => {
            let Some(found) = name_at(context, *name) else {
                return None;
            };
            if !have_sorts(context, parts, found.args) {
                return None;
            }
            Some(found.sort)
        }
        Tree::One(op, part) => {
            let part = sort_of(context, part);
            unary_of(*op, part)
        }
        Tree::Two(op, left, right) => {
            let left = sort_of(context, left);
            let right = sort_of(context, right);
            binary_of(*op, left, right)
        }
    }
}

// Whether the parts have these sorts, one each.
#[cycle(sorts)]
fn have_sorts(context: &Context<'_>, parts: &[Tree], sorts: &[SortId]) -> bool
    requires { All (IsPlacedTree context.now.text.now) parts.now }
    ensures { IsTrue result ↔ EachHasSort (gives_in context.now) context.now.text.now parts.now sorts.now }
{
    if parts.len() != sorts.len() {
        return false;
    }
    for (place, part) in parts.iter().enumerate() {
        let found = sort_of(context, part);
        if !is_sort(found, sorts[place]) {
            return false;
        }
    }
    true
}
