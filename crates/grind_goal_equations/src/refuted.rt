//! The pairs that a goal denies, looked for in a closure.
ghost use Rattle.std.specs.Prelude.{ℕ, ◌↔◌, ◌<◌, ◌≤◌, length, IsTrue, IfSome, IsNone};
ghost use Rattle.grind_classes.specs.Classes.{IsActive};
ghost use Rattle.grind_goal_equations.specs.Facts.{IsFact};
ghost use Rattle.grind_goal_equations.specs.Given.{IsRefuted, HoldsOut, NoneRefuted};

use crate::fact::{Fact, fact_at};
use crate::given::is_equal;
use grind_congruence::Closure;
use grind_schemes::Goal;

// Whether a fact says that two terms are different, which are together.
fn is_refuted(goal: &Goal, closure: &Closure, fact: &Fact) -> bool
    requires fact { IsFact goal.now fact.now }
    requires active { (n : ℕ) → n < length goal.now.terms.nodes → IsActive closure.now.lists n }
    ensures { IsTrue result ↔ IsRefuted goal.now closure.now fact.now }
{
    let reading = fact.reading;
    let classes = closure.classes();
    if is_equal(fact) {
        return false;
    }
    classes.same(reading.left, reading.right)
}

// What a source says, if it says that two terms are different, which are together.
fn refuted_at(goal: &Goal, closure: &Closure, k: u32) -> Option<Fact>
    requires source { k ≤ length goal.now.hyps }
    requires active { (n : ℕ) → n < length goal.now.terms.nodes → IsActive closure.now.lists n }
    ensures some { IfSome result (λ fact. IsRefuted goal.now closure.now fact) }
    ensures none { IsNone result → HoldsOut goal.now closure.now k }
{
    let Some(fact) = fact_at(goal, k) else {
        return None;
    };
    if is_refuted(goal, closure, &fact) {
        return Some(fact);
    }
    None
}

/// The first source that says that two terms are different, which are together.
pub fn first_refuted(goal: &Goal, closure: &Closure) -> Option<Fact>
    requires active { (n : ℕ) → n < length goal.now.terms.nodes → IsActive closure.now.lists n }
    ensures some { IfSome result (λ fact. IsRefuted goal.now closure.now fact) }
    ensures none { IsNone result → NoneRefuted goal.now closure.now }
{
    let _name = goal.name();
    let _nodes = goal.terms.len();
    let count = goal.hyps.len() as u32;
    for k in 0..count {
        if let Some(fact) = refuted_at(goal, closure, k) {
            return Some(fact);
        }
    }
    refuted_at(goal, closure, count)
}
