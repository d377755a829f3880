//! What terms are read as.
ghost use Rattle.std.specs.Prelude.{◌≡◌, IfOk};
ghost use Rattle.grind_reach.specs.Readings.{Operations};

use grind_outside::Memory;
use grind_term_graph::NodeId;
use std::alloc::Global;

/// What terms are read as, with the operations that read them. Each operation may have no answer, and says so by None.
/// Each fails with `Memory` if out of memory.
pub trait Algebra: Drop {
    ghost operations: { Operations Self };

    /// The reading of a number.
    fn number(alloc: Global, number: i128) -> Result<Option<Self>, Memory>
        ensures { IfOk result (λ reading. reading ≡ operations.number_of number) };

    /// The reading of a node as itself.
    fn atom(alloc: Global, node: NodeId) -> Result<Option<Self>, Memory>
        ensures { IfOk result (λ reading. reading ≡ operations.atom_of node) };

    /// The sum of two readings.
    fn sum(alloc: Global, a: &Self, b: &Self) -> Result<Option<Self>, Memory>
        ensures { IfOk result (λ reading. reading ≡ operations.sum_of a.now b.now) };

    /// A reading with its sign turned.
    fn negation(alloc: Global, a: &Self) -> Result<Option<Self>, Memory>
        ensures { IfOk result (λ reading. reading ≡ operations.negation_of a.now) };

    /// The product of two readings, which is the reading of this node.
    fn product(alloc: Global, node: NodeId, a: &Self, b: &Self) -> Result<Option<Self>, Memory>
        ensures { IfOk result (λ reading. reading ≡ operations.product_of node a.now b.now) };
}
