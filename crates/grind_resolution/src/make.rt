//! Schemes from their parts: the operators of formulas are expressed by the heads that schemes have.
ghost use Rattle.std.specs.Prelude.{◌≡◌, ℕ, [], ◌∷◌, IfOk};
ghost use Rattle.grind_resolution.specs.Resolved.{IsMade, IsMeant, IsNegation, IsOrder, IsEquation, IsOpposite, IsUnary, IsBinary};

use crate::meaning::Meaning;
use grind_grammar::{Binary, Unary};
use grind_outside::Memory;
use grind_schemes::Scheme;
use grind_term_graph::{Head, SortId};
use std::alloc::Global;

/// A head without parts, made without allocating.
pub(crate) fn leaf(alloc: Global, head: Head, sort: SortId) -> Scheme
    ensures { IsMade head sort [] result }
{
    Scheme::Apply {
        head,
        sort,
        args: Vec::new(alloc),
    }
}

// A head at one part.
fn at_one(alloc: Global, head: Head, sort: SortId, part: Scheme) -> Result<Scheme, Memory>
    ensures { IfOk result (IsMade head sort (part ∷ [])) }
{
    let mut args = Vec::new(alloc);
    args.push(part)?;
    Ok(Scheme::Apply { head, sort, args })
}

// A head at two parts.
fn at_two(
    alloc: Global,
    head: Head,
    sort: SortId,
    left: Scheme,
    right: Scheme,
) -> Result<Scheme, Memory>
    ensures { IfOk result (IsMade head sort (left ∷ right ∷ [])) }
{
    let mut args = Vec::new(alloc);
    args.push(left)?;
    args.push(right)?;
    Ok(Scheme::Apply { head, sort, args })
}

/// The scheme of what a name stands for, at its parts. A variable has none.
pub(crate) fn of_name(meaning: Meaning, sort: SortId, parts: Vec<Scheme>) -> Scheme
    requires { (number : ℕ) → meaning ≡ Meaning.Variable number → parts.items ≡ [] }
    ensures { IsMeant meaning sort parts.items result }
{
    match meaning {
        Meaning::Variable(number) => Scheme::Var(number),
        Meaning::Headed(head) => Scheme::Apply {
            head,
            sort,
            args: parts,
        },
    }
}

// The negation of a formula.
fn negation(alloc: Global, part: Scheme) -> Result<Scheme, Memory>
    ensures { IfOk result (IsNegation part) }
{
    at_one(alloc, Head::Not, SortId::PROP, part)
}

// The order of two whole numbers.
fn order(alloc: Global, left: Scheme, right: Scheme) -> Result<Scheme, Memory>
    ensures { IfOk result (IsOrder left right) }
{
    at_two(alloc, Head::Le, SortId::PROP, left, right)
}

// The equation of two terms.
fn equation(alloc: Global, left: Scheme, right: Scheme) -> Result<Scheme, Memory>
    ensures { IfOk result (IsEquation left right) }
{
    at_two(alloc, Head::Eq, SortId::PROP, left, right)
}

// The negation of a whole number.
fn opposite(alloc: Global, part: Scheme) -> Result<Scheme, Memory>
    ensures { IfOk result (IsOpposite part) }
{
    at_one(alloc, Head::Neg, SortId::INT, part)
}

// The negated equation of two terms.
fn unequal(alloc: Global, left: Scheme, right: Scheme) -> Result<Scheme, Memory>
    ensures { IfOk result (IsBinary Binary.Ne left right) }
{
    let same = equation(alloc, left, right)?;
    negation(alloc, same)
}

// That the first number is less than the second: the second is not at most the first.
fn less(alloc: Global, left: Scheme, right: Scheme) -> Result<Scheme, Memory>
    ensures { IfOk result (IsBinary Binary.Lt left right) }
{
    let turned = order(alloc, right, left)?;
    negation(alloc, turned)
}

// That the first number is greater than the second: it is not at most the second.
fn greater(alloc: Global, left: Scheme, right: Scheme) -> Result<Scheme, Memory>
    ensures { IfOk result (IsBinary Binary.Gt left right) }
{
    let order = order(alloc, left, right)?;
    negation(alloc, order)
}

// The first number less the second.
fn difference(alloc: Global, left: Scheme, right: Scheme) -> Result<Scheme, Memory>
    ensures { IfOk result (IsBinary Binary.Sub left right) }
{
    let turned = opposite(alloc, right)?;
    at_two(alloc, Head::Add, SortId::INT, left, turned)
}

/// An operator at a part.
pub(crate) fn unary(alloc: Global, op: Unary, part: Scheme) -> Result<Scheme, Memory>
    ensures { IfOk result (IsUnary op part) }
{
    match op {
        Unary::Not => negation(alloc, part),
        Unary::Neg => opposite(alloc, part),
    }
}

/// An operator at its sides.
pub(crate) fn binary(
    alloc: Global,
    op: Binary,
    left: Scheme,
    right: Scheme,
) -> Result<Scheme, Memory>
    ensures { IfOk result (IsBinary op left right) }
{
    match op {
        Binary::Iff => equation(alloc, left, right),
        Binary::Implies => at_two(alloc, Head::Implies, SortId::PROP, left, right),
        Binary::Or => at_two(alloc, Head::Or, SortId::PROP, left, right),
        Binary::And => at_two(alloc, Head::And, SortId::PROP, left, right),
        Binary::Eq => equation(alloc, left, right),
        Binary::Ne => unequal(alloc, left, right),
        Binary::Lt => less(alloc, left, right),
        Binary::Le => order(alloc, left, right),
        Binary::Gt => greater(alloc, left, right),
        Binary::Ge => order(alloc, right, left),
        Binary::Add => at_two(alloc, Head::Add, SortId::INT, left, right),
        Binary::Sub => difference(alloc, left, right),
        Binary::Mul => at_two(alloc, Head::Mul, SortId::INT, left, right),
    }
}
