//! What is to be proved.
ghost use Rattle.std.specs.Prelude.{◌≡◌};
ghost use Rattle.grind_schemes.specs.Goals.{IsGoal};

use grind_outside::List;
use grind_term_graph::{NodeId, SortId, TermTable};
use std::marker::Model;

/// A constant of a goal.
#[derive(Drop, Debug, PartialEq, Eq)]
pub struct Constant {
    /// Its name.
    pub name: List<u8>,
    /// Its sort.
    pub sort: SortId,
}

/// A goal: the conclusion is to follow from the hypotheses. Its constants have names of their own, its hypotheses
/// and its conclusion are formulas of its table, of at most 65,536 nodes, and a function has one shape there.
#[derive(Drop)]
pub struct Goal {
    /// Its name.
    pub name: List<u8>,
    /// The constants, numbered from 0.
    pub constants: List<Constant>,
    /// The terms of the hypotheses and the conclusion.
    pub terms: TermTable,
    /// The hypotheses, in order.
    pub hyps: List<NodeId>,
    /// The conclusion.
    pub show: NodeId,
}

impl Model for Goal {
    ghost use Rattle.grind_schemes.specs.Goals.{GoalData, IsGoal, goal_data};

    ghost Value = { GoalData };

    ghost view = { λ a. goal_data a.name a.constants a.terms a.hyps a.show };

    ghost invariant = { λ a. IsGoal (goal_data a.name a.constants a.terms a.hyps a.show) };
}

impl Goal {
    /// The name of the goal. Whoever asks for it learns what every goal keeps.
    pub fn name(&self) -> &[u8]
        ensures value { result.now ≡ self.now.name }
        ensures keeps { IsGoal self.now }
    {
        self.name.as_slice()
    }

    /// The terms of the goal.
    pub fn terms(&self) -> &TermTable
        ensures { result.now ≡ self.now.terms }
    {
        &self.terms
    }

    /// The hypotheses, in order.
    pub fn hyps(&self) -> &[NodeId]
        ensures { result.now ≡ self.now.hyps }
    {
        self.hyps.as_slice()
    }

    /// The conclusion, a formula of the goal's terms.
    pub fn show(&self) -> NodeId
        ensures { result ≡ self.now.show }
    {
        self.show
    }
}
