//! What readings come to at the values of atoms.
ghost use Rattle.std.specs.Prelude.{◌≡◌, Some, ◌+ℤ◌, ◌*ℤ◌, IfOk};
ghost use Rattle.grind_term_graph.specs.Terms.{int, sort_at};
ghost use Rattle.grind_linear_forms.specs.Forms.{fit};
ghost use Rattle.grind_cutsat_bounds.specs.Evaluations as specs;
ghost use Rattle.grind_cutsat_assignment.specs.Assignments.{chosen_value, read_value};

use grind_cutsat_assignment::Chosen;
use grind_linear_forms::{FormRefusal, Part, linear_of};
use grind_outside::Memory;
use grind_term_graph::{NodeId, TermTable};
use std::alloc::Global;

// The terms, and the values of the atoms.
#[derive(Drop)]
pub(crate) struct Scene<'a> {
    // The terms.
    pub terms: &'a TermTable,
    // The values.
    pub values: &'a [Chosen],
}

// What the reading of a whole number comes to, where it is defined and fits.
pub(crate) fn value_read(alloc: Global, scene: &Scene, node: NodeId) -> Result<Option<i128>, Memory>
    requires { sort_at scene.now.terms.now.nodes node ≡ Some int }
    ensures { IfOk result (λ found. found ≡ read_value scene.now.terms.now.nodes (chosen_value scene.now.values.now) node) }
{
    match linear_of(alloc, scene.terms, node) {
        Ok(form) => Ok(evaluated(scene.values, form.constant(), form.parts())),
        Err(FormRefusal::Overflow) => Ok(None),
        Err(FormRefusal::Memory) => Err(Memory),
    }
}

// A number and then parts, one after the other, where each number on the way fits in 128 bits.
fn evaluated(values: &[Chosen], number: i128, parts: &[Part]) -> Option<i128>
    ensures { result ≡ specs.evaluated (chosen_value values.now) number parts.now }
{
    let mut sum = number;
    let mut rest = parts;
    while let Some((part, tail)) = rest.split_first() {
        let Some(next) = with_part(values, sum, part) else {
            return None;
        };
        sum = next;
        rest = tail;
    }
    Some(sum)
}

// A sum and a part.
fn with_part(values: &[Chosen], sum: i128, part: &Part) -> Option<i128>
    ensures { result ≡ specs.with_part (chosen_value values.now) sum part.now }
{
    let Some(product) = product_of(part.coefficient, value_of(values, part.node)) else {
        return None;
    };
    sum_of(sum, product)
}

// The value of a node; 0 where it has none.
fn value_of(values: &[Chosen], node: NodeId) -> i128
    ensures { result ≡ chosen_value values.now node }
{
    let mut rest = values;
    while let Some((chosen, tail)) = rest.split_first() {
        if chosen.node == node {
            return chosen.value;
        }
        rest = tail;
    }
    0
}

// The product of two numbers, where it fits.
fn product_of(left: i128, right: i128) -> Option<i128>
    ensures { result ≡ fit (left *ℤ right) }
{
    left.checked_mul(right)
}

// The sum of two numbers, where it fits.
fn sum_of(left: i128, right: i128) -> Option<i128>
    ensures { result ≡ fit (left +ℤ right) }
{
    left.checked_add(right)
}
