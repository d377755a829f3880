//! How many nodes a term has.
ghost use Rattle.std.specs.Prelude.{◌≡◌, ◌+◌, ◌≤◌, ℕ, List, min};
ghost use Rattle.grind_grammar.specs.Keeps.{term_of};
ghost use Rattle.grind_resolution.specs.Sizes.{size, row_size};
ghost use Rattle.grind_resolution.specs.Rows.{row_of_trees};

use grind_grammar::Tree;

/// The sum of two counts, at most the limit.
pub fn sum_within(left: u32, right: u32, limit: u32) -> u32
    requires { left ≤ limit }
    ensures value { result ≡ min (left + right) limit }
    ensures within { result ≤ limit }
{
    if right >= limit - left {
        return limit;
    }
    left + right
}

/// How many nodes a term has as it is written, at most the limit. The recursion is as deep as the
/// term.
#[cycle(sizes)]
pub fn size_of(tree: &Tree, limit: u32) -> u32
    ensures value { (text : List ℕ) → result ≡ min (size (term_of text tree.now)) limit }
    ensures within { result ≤ limit }
{
    match tree {
        Tree::True => sum_within(0, 1, limit),
        Tree::False => sum_within(0, 1, limit),
        Tree::Number(_) => sum_within(0, 1, limit),
        Tree::Apply(_, parts) => {
            let below = size_of_all(parts, limit);
            sum_within(below, 1, limit)
        }
        Tree::One(_, part) => {
            let below = size_of(part, limit);
            sum_within(below, 1, limit)
        }
        Tree::Two(_, left, right) => {
            let left = size_of(left, limit);
            let right = size_of(right, limit);
            let below = sum_within(left, right, limit);
            sum_within(below, 1, limit)
        }
    }
}

// How many nodes the parts have, at most the limit.
#[cycle(sizes)]
fn size_of_all(parts: &[Tree], limit: u32) -> u32
    ensures value { (text : List ℕ) → result ≡ min (row_size (row_of_trees text parts.now)) limit }
    ensures within { result ≤ limit }
{
    let mut total = 0;
    for part in parts {
        let own = size_of(part, limit);
        total = sum_within(total, own, limit);
    }
    total
}
