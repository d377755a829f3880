//! What the hypotheses of a goal and the denial of its conclusion say of two terms.
ghost use Rattle.std.specs.Prelude.{ℕ, ◌≡◌, ◌<◌, ◌≤◌, length, Some, IfSome, IsNone};
ghost use Rattle.grind_term_graph.specs.Terms.{prop, sort_at};
ghost use Rattle.grind_term_rules.specs.TermRules.{IsEquation};
ghost use Rattle.grind_goal_equations.specs.declared.fact.Fact.{Fact as Entry};
ghost use Rattle.grind_goal_equations.specs.declared.fact.Reading.{Reading as Entry_of};
ghost use Rattle.grind_goal_equations.specs.Congruences.{IsNegation};
ghost use Rattle.grind_goal_equations.specs.Facts.{IsReading, IsSorted, IsFact};

use grind_schemes::Goal;
use grind_term_graph::{Head, NodeId, TermTable};

/// An equation of two terms, plain or negated.
#[derive(Clone, Copy)]
pub struct Reading {
    /// Whether it stands there plain.
    pub plain: bool,
    /// The equation.
    pub equation: NodeId,
    /// The term on its left.
    pub left: NodeId,
    /// The term on its right.
    pub right: NodeId,
}

/// What a source says of two terms: a hypothesis, or after the last of them the conclusion, which is denied.
#[derive(Clone, Copy)]
pub struct Fact {
    /// The number of the source, from 0.
    pub source: u32,
    /// Whether its formula holds, as that of a hypothesis does.
    pub holds: bool,
    /// The formula.
    pub node: NodeId,
    /// The formula as an equation.
    pub reading: Reading,
}

// The two terms of an equation.
#[derive(Clone, Copy)]
struct Sides {
    left: NodeId,
    right: NodeId,
}

// The sides of a formula that is an equation.
fn compared(terms: &TermTable, n: NodeId) -> Option<Sides>
    requires { n < length terms.now.nodes }
    ensures is { IfSome result (λ sides. IsEquation terms.now.nodes n sides.left sides.right) }
    ensures none { IsNone result → (a b : ℕ) → IsEquation terms.now.nodes n a b → ⊥ }
{
    let node = terms.node(n);
    if node.head != Head::Eq {
        return None;
    }
    let [left, right] = node.args.as_slice() else {
        return None;
    };
    Some(Sides {
        left: *left,
        right: *right,
    })
}

// The formula that a formula negates, if it is a negation.
fn negated(terms: &TermTable, n: NodeId) -> Option<NodeId>
    requires { n < length terms.now.nodes }
    ensures is { IfSome result (λ m. IsNegation terms.now.nodes n m) }
    ensures within { IfSome result (λ m. m < length terms.now.nodes) }
    ensures none { IsNone result → (m : ℕ) → IsNegation terms.now.nodes n m → ⊥ }
{
    let node = terms.node(n);
    if node.head != Head::Not {
        return None;
    }
    let [negated] = node.args.as_slice() else {
        return None;
    };
    Some(*negated)
}

// A formula as an equation, plain or negated, if it is one.
fn read(terms: &TermTable, n: NodeId) -> Option<Reading>
    requires { sort_at terms.now.nodes n ≡ Some prop }
    ensures is { IfSome result (λ reading. IsReading terms.now.nodes n reading) }
    ensures sorted { IfSome result (λ reading. IsSorted terms.now.nodes n reading) }
    ensures none { IsNone result → (reading : Entry_of) → IsReading terms.now.nodes n reading → ⊥ }
{
    let _count = terms.len();
    if let Some(sides) = compared(terms, n) {
        return Some(Reading {
            plain: true,
            equation: n,
            left: sides.left,
            right: sides.right,
        });
    }
    let equation = negated(terms, n)?;
    let sides = compared(terms, equation)?;
    Some(Reading {
        plain: false,
        equation,
        left: sides.left,
        right: sides.right,
    })
}

/// What a source of the goal says of two terms, if it does.
pub fn fact_at(goal: &Goal, k: u32) -> Option<Fact>
    requires { k ≤ length goal.now.hyps }
    ensures is { IfSome result (λ fact. IsFact goal.now fact) }
    ensures source { IfSome result (λ fact. fact.source ≡ k) }
    ensures none { IsNone result → (fact : Entry) → IsFact goal.now fact → fact.source ≡ k → ⊥ }
{
    let _name = goal.name();
    if (k as usize) < goal.hyps.len() {
        let node = goal.hyps.as_slice()[k as usize];
        let reading = read(&goal.terms, node)?;
        return Some(Fact {
            source: k,
            holds: true,
            node,
            reading,
        });
    }
    let node = goal.show;
    let reading = read(&goal.terms, node)?;
    Some(Fact {
        source: k,
        holds: false,
        node,
        reading,
    })
}
