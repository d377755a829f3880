//! Trees put together. None deeper than the limit is built.
ghost use Rattle.std.specs.Prelude.{◌≡◌, ◌+◌, ℕ, List, IfOk};
ghost use Rattle.std.specs.Box.{box_value};
ghost use Rattle.grind_grammar.specs.Keeps.{IsPlaced, name_of, term_of, IsPlacedTree};
ghost use Rattle.grind_grammar.specs.Reading as reading;
ghost use Rattle.grind_grammar.specs.Files.{depth_limit};
ghost use Rattle.grind_syntax.specs.Depth.{tree_depth};
ghost use Rattle.grind_syntax.specs.Built.{term_given, IsPlacedBuilt, terms_given, IsPlacedParts, with_last, one_times, sides_joined, AreSidesPlaced, AreTreesPlaced, trees_given};

use crate::built::Built;
use crate::parts::Parts;
use crate::sides::Side;
use grind_grammar::{Binary, Name, Tree, Unary};
use grind_outside::{List, Memory};
use std::alloc::Global;

// No tree is deeper.
pub(crate) const DEPTH: u8 = 200;

// The tree, if it is no deeper than the limit.
pub(crate) fn fit(tree: Tree, depth: u8) -> Option<Built>
    requires { tree_depth tree ≡ depth }
    ensures is { (text : List ℕ) → term_given text result ≡ reading.fit depth_limit (term_of text tree) }
    ensures placed { (text : List ℕ) → IsPlacedTree text tree → IsPlacedBuilt text result }
{
    if depth > DEPTH {
        return None;
    }
    Some(Built { tree, depth })
}

// The tree in a box.
fn boxed(alloc: Global, tree: Tree) -> Result<Box<Tree>, Memory>
    ensures { IfOk result (λ kept. box_value kept ≡ tree) }
{
    match Box::new(alloc, tree) {
        Ok(kept) => Ok(kept),
        Err(_) => Err(Memory),
    }
}

// An operator before one part.
pub(crate) fn one(alloc: Global, op: Unary, part: Option<Built>) -> Result<Option<Built>, Memory>
    ensures is { IfOk result (λ made. (text : List ℕ) → term_given text made ≡ reading.one depth_limit op (term_given text part)) }
    ensures placed { IfOk result (λ made. (text : List ℕ) → IsPlacedBuilt text part → IsPlacedBuilt text made) }
{
    let Some(part) = part else {
        return Ok(None);
    };
    let Built { tree, depth } = part;
    let tree = boxed(alloc, tree)?;
    Ok(fit(Tree::One(op, tree), depth + 1))
}

// An operator between two parts.
pub(crate) fn two(
    alloc: Global,
    op: Binary,
    left: Option<Built>,
    right: Option<Built>,
) -> Result<Option<Built>, Memory>
    ensures is { IfOk result (λ made. (text : List ℕ) → term_given text made
        ≡ reading.two depth_limit op (term_given text left) (term_given text right)) }
    ensures placed { IfOk result (λ made. (text : List ℕ) → IsPlacedBuilt text left → IsPlacedBuilt text right
        → IsPlacedBuilt text made) }
{
    let Some(left) = left else {
        return Ok(None);
    };
    let Some(right) = right else {
        return Ok(None);
    };
    let depth = left.depth.max(right.depth) + 1;
    let left_tree = boxed(alloc, left.tree)?;
    let right_tree = boxed(alloc, right.tree)?;
    Ok(fit(Tree::Two(op, left_tree, right_tree), depth))
}

// A name with its parts.
pub(crate) fn applied(name: Name, parts: Parts) -> Option<Built>
    ensures is { (text : List ℕ) → term_given text result
        ≡ reading.applied depth_limit (name_of text name) (terms_given text parts) }
    ensures placed { (text : List ℕ) → IsPlaced text name → IsPlacedParts text parts → IsPlacedBuilt text result }
{
    let Parts {
        trees,
        depth,
        complete,
    } = parts;
    if !complete {
        return None;
    }
    fit(Tree::Apply(name, trees), depth + 1)
}

// The parts with one more after them.
pub(crate) fn with_part(parts: Parts, part: Option<Built>) -> Result<Parts, Memory>
    ensures is { IfOk result (λ more. (text : List ℕ) → terms_given text more
        ≡ with_last (terms_given text parts) (term_given text part)) }
    ensures placed { IfOk result (λ more. (text : List ℕ) → IsPlacedParts text parts → IsPlacedBuilt text part
        → IsPlacedParts text more) }
{
    let Parts {
        mut trees,
        depth,
        complete,
    } = parts;
    let Some(part) = part else {
        return Ok(Parts {
            trees,
            depth,
            complete: false,
        });
    };
    let deeper = depth.max(part.depth);
    match trees.push(part.tree) {
        Ok(()) => {}
        Err(_) => return Err(Memory),
    }
    Ok(Parts {
        trees,
        depth: deeper,
        complete,
    })
}

// So many operators before one part.
pub(crate) fn with_signs(
    alloc: Global,
    op: Unary,
    count: usize,
    part: Option<Built>,
) -> Result<Option<Built>, Memory>
    ensures is { IfOk result (λ made. (text : List ℕ) → term_given text made
        ≡ one_times depth_limit op count (term_given text part)) }
    ensures placed { IfOk result (λ made. (text : List ℕ) → IsPlacedBuilt text part → IsPlacedBuilt text made) }
{
    let mut whole = part;
    let mut done = 0;
    while done < count {
        whole = one(alloc, op, whole)?;
        done += 1;
    }
    Ok(whole)
}

// The sides of operators that associate to the right, with the last one after them.
pub(crate) fn joined(
    alloc: Global,
    sides: List<Side>,
    last: Option<Built>,
) -> Result<Option<Built>, Memory>
    ensures is { IfOk result (λ made. (text : List ℕ) → term_given text made
        ≡ sides_joined depth_limit text sides (term_given text last)) }
    ensures placed { IfOk result (λ made. (text : List ℕ) → AreSidesPlaced text sides → IsPlacedBuilt text last
        → IsPlacedBuilt text made) }
{
    let mut whole = last;
    let mut before = sides;
    while let Some(side) = before.pop() {
        whole = two(alloc, side.op, side.side, whole)?;
    }
    Ok(whole)
}

// The trees as a list, where each part was built.
pub(crate) fn listed(alloc: Global, parts: Parts) -> Result<Option<List<Tree>>, Memory>
    ensures is { IfOk result (λ trees. (text : List ℕ) → trees_given text trees ≡ terms_given text parts) }
    ensures placed { IfOk result (λ trees. (text : List ℕ) → IsPlacedParts text parts → AreTreesPlaced text trees) }
{
    if !parts.complete {
        return Ok(None);
    }
    let mut trees = List::new(alloc);
    for tree in parts.trees {
        trees.push(tree)?;
    }
    Ok(Some(trees))
}
