//! The levels of the grammar.
ghost use Rattle.std.specs.Prelude.{◌≡◌, IfSome};
ghost use Rattle.grind_grammar.specs.Reading as reading;
ghost use Rattle.grind_syntax.specs.Levels.{ops_of};
ghost use Rattle.grind_syntax.specs.Sources.{ahead, IsPast, Gives};

use crate::names::any_symbol_at;
use crate::source::Source;
use grind_grammar::{Binary, Unary};
use grind_tokens::tokens::Sym;

// A level, from the innermost.
#[derive(Clone, Copy)]
pub(crate) enum Level {
    Atom,
    Minus,
    Product,
    Sum,
    Relation,
    Negation,
    Conj,
    Disj,
    Impl,
    Formula,
}

// A sign before a term: its symbol, and the operator that it makes.
#[derive(Clone, Copy)]
pub(crate) struct Sign {
    pub(crate) sym: Sym,
    pub(crate) op: Unary,
}

// The sign of numbers.
pub(crate) const MINUS: Sign = Sign {
    sym: Sym::Minus,
    op: Unary::Neg,
};

// The sign of formulas.
pub(crate) const NOT: Sign = Sign {
    sym: Sym::Not,
    op: Unary::Not,
};

// The operator of a relation.
fn relation_op(sym: Sym) -> Option<Binary>
    ensures { result ≡ reading.relation_op sym }
{
    match sym {
        Sym::Eq => Some(Binary::Eq),
        Sym::Ne => Some(Binary::Ne),
        Sym::Lt => Some(Binary::Lt),
        Sym::Le => Some(Binary::Le),
        Sym::Gt => Some(Binary::Gt),
        Sym::Ge => Some(Binary::Ge),
        _ => None,
    }
}

// The operator of a sum.
fn sum_op(sym: Sym) -> Option<Binary>
    ensures { result ≡ reading.sum_op sym }
{
    match sym {
        Sym::Plus => Some(Binary::Add),
        Sym::Minus => Some(Binary::Sub),
        _ => None,
    }
}

// The operator of a level.
fn op_of(level: Level, sym: Sym) -> Option<Binary>
    ensures { result ≡ ops_of level sym }
{
    match level {
        Level::Product => (sym == Sym::Star).then_some(Binary::Mul),
        Level::Sum => sum_op(sym),
        Level::Relation => relation_op(sym),
        Level::Conj => (sym == Sym::And).then_some(Binary::And),
        Level::Disj => (sym == Sym::Or).then_some(Binary::Or),
        Level::Impl => (sym == Sym::Arrow).then_some(Binary::Implies),
        Level::Formula => (sym == Sym::Iff).then_some(Binary::Iff),
        _ => None,
    }
}

// The operator of a level here, and the place after it.
pub(crate) fn op_at(source: &Source, level: Level, at: usize) -> Option<(Binary, usize)>
    ensures is { Gives source.now (reading.op_at (ops_of level) (ahead source.now at)) (λ op. op) result }
    ensures left { IfSome result (λ found. IsPast source.now at found.1) }
{
    let (sym, left) = any_symbol_at(source, at)?;
    let Some(op) = op_of(level, sym) else {
        return None;
    };
    Some((op, left))
}
