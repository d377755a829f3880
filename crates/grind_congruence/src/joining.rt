//! Which of two trees hangs below the other.
ghost use Rattle.grind_classes.specs.Classes.{IsActive};
ghost use Rattle.grind_congruence.specs.Forest.{IsForest, IsJoinOf};
ghost use Rattle.grind_congruence.specs.Table.{AreMoved};

use crate::forest::{Forest, Join};
use grind_classes::Classes;
use grind_term_graph::NodeId;

// The join of the trees of two nodes. The tree of the smaller class hangs below the other, and where they are of one size,
// that of `b` below that of `a`.
pub(crate) fn join_of(classes: &Classes, forest: &Forest, a: NodeId, b: NodeId) -> Join
    requires first { IsActive classes.now.lists a }
    requires second { IsActive classes.now.lists b }
    ensures join { IsJoinOf forest.now a b result }
    ensures forest { IsForest forest.now }
{
    let _joins = forest.joins();
    let left = classes.members(classes.root(a)).len();
    let right = classes.members(classes.root(b)).len();
    if right <= left {
        return below(forest, b, a);
    }
    let join = below(forest, a, b);
    join
}

// The join by which the tree of one node hangs below that of another.
fn below(forest: &Forest, from: NodeId, to: NodeId) -> Join
    ensures first { IsJoinOf forest.now from to result }
    ensures second { IsJoinOf forest.now to from result }
{
    Join {
        gone: forest.top(from),
        kept: forest.top(to),
        from,
        to,
    }
}

// The members that a merge of the classes of two nodes moves: those of the smaller class, and where they are of one size, those
// of the class of `b`.
pub(crate) fn moved_by(classes: &Classes, a: NodeId, b: NodeId) -> &[NodeId]
    requires first { IsActive classes.now.lists a }
    requires second { IsActive classes.now.lists b }
    ensures { AreMoved classes.now.lists a b result.now }
{
    let left = classes.members(classes.root(a));
    let right = classes.members(classes.root(b));
    if right.len() <= left.len() {
        return right;
    }
    left
}
