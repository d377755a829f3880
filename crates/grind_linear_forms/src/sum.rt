//! Sums and multiples of linear forms.
ghost use Rattle.std.specs.Prelude.{◌≡◌, ◌++◌, [], ◌∷◌, Some, None, IfOk, OnOk, OnErr, IsErrOf};
ghost use Rattle.std.specs.Option.{IsSomeAnd};
ghost use Rattle.grind_linear_forms.specs.Sums.{behind, in_front, multiplied, merged, scaled_form, scaled_sum};

use crate::form::{Form, FormRefusal, Part};
use crate::numbers::{combination_of, multiple_of};
use grind_outside::{List, Memory};
use grind_term_graph::NodeId;
use std::alloc::Global;

/// The form `a` taken `m` times and the form `b` taken `k` times, added.
///
/// # Errors
///
/// `Overflow` exactly where a product or a sum on the way does not fit in 128 bits.
pub fn add_scaled(alloc: Global, a: &Form, m: i128, b: &Form, k: i128) -> Result<Form, FormRefusal>
    ensures ok { IfOk result (λ form. scaled_sum a.now m b.now k ≡ Some form) }
    ensures overflow { IsErrOf result FormRefusal.Overflow → scaled_sum a.now m b.now k ≡ None }
{
    let parts = merge(alloc, m, a.parts(), k, b.parts())?;
    let Some(constant) = combination_of(m, a.constant(), k, b.constant()) else {
        return Err(FormRefusal::Overflow);
    };
    Ok(Form { parts, constant })
}

/// The form `a` taken `m` times.
///
/// # Errors
///
/// `Overflow` exactly where a product on the way does not fit in 128 bits.
pub fn scale(alloc: Global, a: &Form, m: i128) -> Result<Form, FormRefusal>
    ensures ok { IfOk result (λ form. scaled_form m a.now ≡ Some form) }
    ensures overflow { IsErrOf result FormRefusal.Overflow → scaled_form m a.now ≡ None }
{
    let parts = multiply(List::new(alloc), m, a.parts())?;
    let Some(constant) = multiple_of(m, a.constant()) else {
        return Err(FormRefusal::Overflow);
    };
    Ok(Form { parts, constant })
}

// The parts taken m times, put after those that are done.
fn multiply(done: List<Part>, m: i128, parts: &[Part]) -> Result<List<Part>, FormRefusal>
    ensures ok { IfOk result (λ all. behind done (multiplied m parts.now) ≡ Some all) }
    ensures overflow { IsErrOf result FormRefusal.Overflow → behind done (multiplied m parts.now) ≡ None }
{
    let mut all = done;
    let mut rest = parts;
    while let Some((x, tail)) = rest.split_first() {
        append(&mut all, x.node, multiple_of(m, x.coefficient))?;
        rest = tail;
    }
    Ok(all)
}

// Two lists of parts, taken m and k times, merged by node.
fn merge(
    alloc: Global,
    m: i128,
    left: &[Part],
    k: i128,
    right: &[Part],
) -> Result<List<Part>, FormRefusal>
    ensures ok { IfOk result (λ all. merged m left.now k right.now ≡ Some all) }
    ensures overflow { IsErrOf result FormRefusal.Overflow → merged m left.now k right.now ≡ None }
{
    let mut done = List::new(alloc);
    let mut rest = left;
    let mut others = right;
    while let Some((x, xs)) = rest.split_first() {
        let Some((y, ys)) = others.split_first() else {
            return multiply(done, m, rest);
        };
        if x.node < y.node {
            append(&mut done, x.node, multiple_of(m, x.coefficient))?;
            rest = xs;
        } else if y.node < x.node {
            append(&mut done, y.node, multiple_of(k, y.coefficient))?;
            others = ys;
        } else {
            append(
                &mut done,
                x.node,
                combination_of(m, x.coefficient, k, y.coefficient),
            )?;
            rest = xs;
            others = ys;
        }
    }
    multiply(done, k, others)
}

// Puts a node with its coefficient after others, where the coefficient is defined and not 0.
fn append(done: &mut List<Part>, node: NodeId, coefficient: Option<i128>) -> Result<(), FormRefusal>
    ensures ok { OnOk result (IsSomeAnd coefficient (λ c. done.new ≡ done.old ++ in_front node c [])) }
    ensures overflow { IsErrOf result FormRefusal.Overflow → coefficient ≡ None }
{
    let Some(coefficient) = coefficient else {
        return Err(FormRefusal::Overflow);
    };
    if coefficient != 0 {
        done.push(Part { coefficient, node })?;
    }
    Ok(())
}
