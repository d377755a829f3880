//! What forms and polynomials come to at a table of values.
ghost use Rattle.std.specs.Prelude.{◌≡◌, ◌<◌, ◌+ℤ◌, ◌*ℤ◌, All, length};
ghost use Rattle.grind_linear_forms.specs.declared.form.Part as parts;
ghost use Rattle.grind_linear_forms.specs.Forms.{fit};
ghost use Rattle.grind_polynomials.specs.declared.poly.Term as terms;
ghost use Rattle.grind_value_tables.specs.Overflows.{value_of};
ghost use Rattle.grind_value_tables.specs.Evaluations as specs;

use crate::values::value;
use grind_linear_forms::{Form, Part};
use grind_polynomials::{Poly, Term};
use grind_term_graph::NodeId;

/// The sum of a form's constant and parts, where each number on the way fits.
pub(crate) fn form_sum(list: &[i128], form: &Form) -> Option<i128>
    requires { All (λ (part : parts.Part). part.node < length list.now) form.now.parts }
    ensures { result ≡ specs.form_sum (value_of list.now) form.now }
{
    let mut sum = form.constant();
    let mut rest = form.parts();
    while let Some((part, tail)) = rest.split_first() {
        let Some(next) = with_part(list, sum, part) else {
            return None;
        };
        sum = next;
        rest = tail;
    }
    Some(sum)
}

/// The sum of a polynomial's terms, where each number on the way fits.
pub(crate) fn poly_sum(list: &[i128], poly: &Poly) -> Option<i128>
    requires { All (λ (term : terms.Term). All (λ n. n < length list.now) term.monomial) poly.now }
    ensures { result ≡ specs.poly_sum (value_of list.now) poly.now }
{
    let mut sum = 0;
    let mut rest = poly.terms();
    while let Some((term, tail)) = rest.split_first() {
        let Some(next) = with_term(list, sum, term) else {
            return None;
        };
        sum = next;
        rest = tail;
    }
    Some(sum)
}

// A sum and a part of a form.
fn with_part(list: &[i128], sum: i128, part: &Part) -> Option<i128>
    requires { part.now.node < length list.now }
    ensures { result ≡ specs.with_part (value_of list.now) sum part.now }
{
    let Some(product) = times_node(list, part.coefficient, part.node) else {
        return None;
    };
    sum_of(sum, product)
}

// A sum and a term of a polynomial.
fn with_term(list: &[i128], sum: i128, term: &Term) -> Option<i128>
    requires { All (λ n. n < length list.now) term.now.monomial }
    ensures { result ≡ specs.with_term (value_of list.now) sum term.now }
{
    let Some(product) = times_nodes(list, term.coefficient, term.monomial.as_slice()) else {
        return None;
    };
    sum_of(sum, product)
}

// A coefficient times the values of nodes, in order.
fn times_nodes(list: &[i128], coefficient: i128, nodes: &[NodeId]) -> Option<i128>
    requires { All (λ n. n < length list.now) nodes.now }
    ensures { result ≡ specs.along (specs.times_node (value_of list.now)) coefficient nodes.now }
{
    let mut product = coefficient;
    let mut rest = nodes;
    while let Some((node, tail)) = rest.split_first() {
        let Some(next) = times_node(list, product, *node) else {
            return None;
        };
        product = next;
        rest = tail;
    }
    Some(product)
}

// A number times the value of a node.
fn times_node(list: &[i128], number: i128, node: NodeId) -> Option<i128>
    requires { node < length list.now }
    ensures { result ≡ specs.times_node (value_of list.now) number node }
{
    product_of(number, value(list, node))
}

// The product of two numbers, where it fits.
fn product_of(left: i128, right: i128) -> Option<i128>
    ensures { result ≡ fit (left *ℤ right) }
{
    left.checked_mul(right)
}

// The sum of two numbers, where it fits.
fn sum_of(left: i128, right: i128) -> Option<i128>
    ensures { result ≡ fit (left +ℤ right) }
{
    left.checked_add(right)
}
