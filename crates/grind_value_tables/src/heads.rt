//! What a head says of the value of a term, from the values of its arguments.
ghost use Rattle.std.specs.Prelude.{IsTrue, ◌↔◌, ◌<◌, ◌≡◌, All, length, map, IfOk, IsErr};
ghost use Rattle.grind_term_graph.specs.declared.head.Head.TheVariants as head;
ghost use Rattle.grind_value_tables.specs.Respects.{Means};
ghost use Rattle.grind_value_tables.specs.Overflows.{value_of, AsksTooMuch};
ghost use Rattle.grind_value_tables.specs.Readings.{one_of, two_of};

use crate::values::{Overflow, value};
use grind_term_graph::{Head, NodeId};

/// Whether a term of this head with these arguments may have this value.
///
/// # Errors
/// `Overflow` exactly where the head asks for a sum, a product or a negation that does not fit in 128 bits.
pub(crate) fn means(
    head: Head,
    args: &[NodeId],
    list: &[i128],
    given: i128,
) -> Result<bool, Overflow>
    requires { All (λ arg. arg < length list.now) args.now }
    ensures exact { IfOk result (λ holds. IsTrue holds ↔ Means head (map (value_of list.now) args.now) given) }
    ensures overflow { IsErr result ↔ AsksTooMuch head (map (value_of list.now) args.now) }
{
    match head {
        Head::True => Ok(given == 1),
        Head::False => Ok(given == 0),
        Head::Not => Ok(is_not(args, list, given)),
        Head::And => Ok(is_and(args, list, given)),
        Head::Or => Ok(is_or(args, list, given)),
        Head::Implies => Ok(is_implication(args, list, given)),
        Head::Eq => Ok(is_equation(args, list, given)),
        Head::Le => Ok(is_order(args, list, given)),
        Head::Int(number) => Ok(given == number),
        Head::Add => is_sum(args, list, given),
        Head::Neg => is_negation(args, list, given),
        Head::Mul => is_product(args, list, given),
        Head::Fun(_) => Ok(true),
        Head::Const(_) => Ok(true),
    }
}

// The value of the only argument, where there is one.
fn only_value(args: &[NodeId], list: &[i128]) -> Option<i128>
    requires { All (λ arg. arg < length list.now) args.now }
    ensures { result ≡ one_of (map (value_of list.now) args.now) }
{
    match args {
        [a] => Some(value(list, *a)),
        _ => None,
    }
}

// The values of two arguments, where there are two.
fn two_values(args: &[NodeId], list: &[i128]) -> Option<(i128, i128)>
    requires { All (λ arg. arg < length list.now) args.now }
    ensures { result ≡ two_of (map (value_of list.now) args.now) }
{
    match args {
        [a, b] => Some((value(list, *a), value(list, *b))),
        _ => None,
    }
}

// A negation is true exactly where its argument is false.
fn is_not(args: &[NodeId], list: &[i128], given: i128) -> bool
    requires { All (λ arg. arg < length list.now) args.now }
    ensures { IsTrue result ↔ Means head.Not (map (value_of list.now) args.now) given }
{
    let Some(a) = only_value(args, list) else {
        return false;
    };
    if given == 1 { a == 0 } else { a != 0 }
}

// A conjunction is true exactly where both its arguments are.
fn is_and(args: &[NodeId], list: &[i128], given: i128) -> bool
    requires { All (λ arg. arg < length list.now) args.now }
    ensures { IsTrue result ↔ Means head.And (map (value_of list.now) args.now) given }
{
    let Some((a, b)) = two_values(args, list) else {
        return false;
    };
    if given == 1 {
        a == 1 && b == 1
    } else {
        a != 1 || b != 1
    }
}

// A disjunction is true exactly where one of its arguments is.
fn is_or(args: &[NodeId], list: &[i128], given: i128) -> bool
    requires { All (λ arg. arg < length list.now) args.now }
    ensures { IsTrue result ↔ Means head.Or (map (value_of list.now) args.now) given }
{
    let Some((a, b)) = two_values(args, list) else {
        return false;
    };
    if given == 1 {
        a == 1 || b == 1
    } else {
        a != 1 && b != 1
    }
}

// An implication is true exactly where its second argument is true if the first is.
fn is_implication(args: &[NodeId], list: &[i128], given: i128) -> bool
    requires { All (λ arg. arg < length list.now) args.now }
    ensures { IsTrue result ↔ Means head.Implies (map (value_of list.now) args.now) given }
{
    let Some((a, b)) = two_values(args, list) else {
        return false;
    };
    if given == 1 {
        a != 1 || b == 1
    } else {
        a == 1 && b != 1
    }
}

// An equation is true exactly where its sides have one value.
fn is_equation(args: &[NodeId], list: &[i128], given: i128) -> bool
    requires { All (λ arg. arg < length list.now) args.now }
    ensures { IsTrue result ↔ Means head.Eq (map (value_of list.now) args.now) given }
{
    let Some((a, b)) = two_values(args, list) else {
        return false;
    };
    if given == 1 { a == b } else { a != b }
}

// An inequality is true exactly where the first value is at most the second.
fn is_order(args: &[NodeId], list: &[i128], given: i128) -> bool
    requires { All (λ arg. arg < length list.now) args.now }
    ensures { IsTrue result ↔ Means head.Le (map (value_of list.now) args.now) given }
{
    let Some((a, b)) = two_values(args, list) else {
        return false;
    };
    if given == 1 { a <= b } else { b < a }
}

// A sum has the sum of the values.
fn is_sum(args: &[NodeId], list: &[i128], given: i128) -> Result<bool, Overflow>
    requires { All (λ arg. arg < length list.now) args.now }
    ensures exact { IfOk result (λ holds. IsTrue holds ↔ Means head.Add (map (value_of list.now) args.now) given) }
    ensures overflow { IsErr result ↔ AsksTooMuch head.Add (map (value_of list.now) args.now) }
{
    let Some((a, b)) = two_values(args, list) else {
        return Ok(false);
    };
    match a.checked_add(b) {
        Some(sum) => Ok(given == sum),
        None => Err(Overflow),
    }
}

// A negation of a number has the value with its sign turned.
fn is_negation(args: &[NodeId], list: &[i128], given: i128) -> Result<bool, Overflow>
    requires { All (λ arg. arg < length list.now) args.now }
    ensures exact { IfOk result (λ holds. IsTrue holds ↔ Means head.Neg (map (value_of list.now) args.now) given) }
    ensures overflow { IsErr result ↔ AsksTooMuch head.Neg (map (value_of list.now) args.now) }
{
    let Some(a) = only_value(args, list) else {
        return Ok(false);
    };
    match a.checked_neg() {
        Some(number) => Ok(given == number),
        None => Err(Overflow),
    }
}

// A product has the product of the values.
fn is_product(args: &[NodeId], list: &[i128], given: i128) -> Result<bool, Overflow>
    requires { All (λ arg. arg < length list.now) args.now }
    ensures exact { IfOk result (λ holds. IsTrue holds ↔ Means head.Mul (map (value_of list.now) args.now) given) }
    ensures overflow { IsErr result ↔ AsksTooMuch head.Mul (map (value_of list.now) args.now) }
{
    let Some((a, b)) = two_values(args, list) else {
        return Ok(false);
    };
    match a.checked_mul(b) {
        Some(product) => Ok(given == product),
        None => Err(Overflow),
    }
}
