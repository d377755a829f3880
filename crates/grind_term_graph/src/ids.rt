//! The numbers by which sorts, functions and nodes are named. Contracts see each as its number.
ghost use Rattle.std.specs.Prelude.{◌≡◌};

use std::marker::Model;

/// The number of a sort: 0 is Prop, 1 is Int, and declared sorts follow.
#[derive(Clone, Copy, Debug, PartialEq, Eq, PartialOrd, Ord, Hash, Default)]
pub struct SortId {
    number: u32,
}

impl Model for SortId {
    ghost use Rattle.std.specs.Prelude.{ℕ};

    ghost Value = { ℕ };

    ghost view = { λ a. a.number };

    ghost inverse = { λ n. record { number = n } };
}

impl SortId {
    /// The sort of formulas.
    pub const PROP: SortId = SortId { number: 0 };

    /// The sort of whole numbers.
    pub const INT: SortId = SortId { number: 1 };

    /// The sort of this number.
    pub fn new(number: u32) -> SortId
        ensures { result ≡ number }
    {
        SortId { number }
    }

    /// The number of the sort.
    pub fn number(self) -> u32
        ensures { result ≡ self }
    {
        self.number
    }
}

/// The number of a declared function.
#[derive(Clone, Copy, Debug, PartialEq, Eq, PartialOrd, Ord, Hash, Default)]
pub struct FunId {
    number: u32,
}

impl Model for FunId {
    ghost use Rattle.std.specs.Prelude.{ℕ};

    ghost Value = { ℕ };

    ghost view = { λ a. a.number };

    ghost inverse = { λ n. record { number = n } };
}

impl FunId {
    /// The function of this number.
    pub fn new(number: u32) -> FunId
        ensures { result ≡ number }
    {
        FunId { number }
    }

    /// The number of the function.
    pub fn number(self) -> u32
        ensures { result ≡ self }
    {
        self.number
    }
}

/// The number of a node: its position in the table.
#[derive(Clone, Copy, Debug, PartialEq, Eq, PartialOrd, Ord, Hash, Default)]
pub struct NodeId {
    number: u32,
}

impl Model for NodeId {
    ghost use Rattle.std.specs.Prelude.{ℕ};

    ghost Value = { ℕ };

    ghost view = { λ a. a.number };

    ghost inverse = { λ n. record { number = n } };
}

impl NodeId {
    /// The node `True` of every table.
    pub const TRUE: NodeId = NodeId { number: 0 };

    /// The node `False` of every table.
    pub const FALSE: NodeId = NodeId { number: 1 };

    /// The node of this number.
    pub fn new(number: u32) -> NodeId
        ensures { result ≡ number }
    {
        NodeId { number }
    }

    /// The number of the node.
    pub fn number(self) -> u32
        ensures { result ≡ self }
    {
        self.number
    }
}
