//! What linear forms come to at values of their nodes.
ghost use Rattle.std.specs.Prelude.{◌≡◌, ◌+ℤ◌, ◌*ℤ◌};
ghost use Rattle.grind_linear_forms.specs.Forms.{fit};
ghost use Rattle.grind_cutsat_bounds.specs.Evaluations as specs;

use grind_linear_forms::Part;
use grind_term_graph::NodeId;

/// A number and then parts, one after the other, where each number on the way fits in 128 bits. The values are listed in
/// the order of the nodes, and a node past their end has the value 0.
pub fn evaluated(values: &[i128], number: i128, parts: &[Part]) -> Option<i128>
    ensures { result ≡ specs.evaluated (specs.value_of values.now) number parts.now }
{
    let mut sum = number;
    let mut rest = parts;
    while let Some((part, tail)) = rest.split_first() {
        let Some(next) = with_part(values, sum, part) else {
            return None;
        };
        sum = next;
        rest = tail;
    }
    Some(sum)
}

/// A sum and a part.
fn with_part(values: &[i128], sum: i128, part: &Part) -> Option<i128>
    ensures { result ≡ specs.with_part (specs.value_of values.now) sum part.now }
{
    let Some(product) = product_of(part.coefficient, value_of(values, part.node)) else {
        return None;
    };
    sum_of(sum, product)
}

/// The value of a node.
pub fn value_of(values: &[i128], node: NodeId) -> i128
    ensures { result ≡ specs.value_of values.now node }
{
    match values.get(node.number() as usize) {
        Some(value) => *value,
        None => 0,
    }
}

/// The product of two numbers, where it fits.
fn product_of(left: i128, right: i128) -> Option<i128>
    ensures { result ≡ fit (left *ℤ right) }
{
    left.checked_mul(right)
}

/// The sum of two numbers, where it fits.
fn sum_of(left: i128, right: i128) -> Option<i128>
    ensures { result ≡ fit (left +ℤ right) }
{
    left.checked_add(right)
}
