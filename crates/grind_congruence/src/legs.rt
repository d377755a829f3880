//! The way between two nodes of a tree.
ghost use Rattle.std.specs.Prelude.{◌≡◌, ◌≢◌, ◌<◌, ◌^◌, length, IfOk, OnOk, MatchOption};
ghost use Rattle.grind_congruence.specs.Forest.{climbed, IsNeverGone, IsFirstGone, IsSplit, IsTreeWay, IsJoinedLeg, AreJoinedLegs, AreJoinedBy, IsTaken};

use crate::edge::Edge;
use crate::forest::Forest;
use grind_outside::{List, Memory};
use grind_term_graph::NodeId;
use std::alloc::Global;

// A part of a way: the equation at a place, or the way between two nodes.
#[derive(Clone, Copy, Debug)]
pub(crate) enum Leg {
    Pass(u32),
    Between(NodeId, NodeId),
}

// The join that put two nodes into one tree: its place, its node in the tree of the first, and that in the tree of the second.
#[derive(Clone, Copy)]
struct Split {
    place: u32,
    near: NodeId,
    far: NodeId,
}

// The places of the equations on the way from one node of a tree to another.
pub(crate) fn tree_way(
    alloc: Global,
    edges: &[Edge],
    forest: &Forest,
    a: NodeId,
    b: NodeId,
) -> Result<List<u32>, Memory>
    requires joined { climbed a forest.now ≡ climbed b forest.now }
    requires edges { AreJoinedBy edges.now forest.now }
    ensures { IfOk result (λ places. IsTreeWay edges.now forest.now a b places) }
{
    let mut way = List::new(alloc);
    let mut legs = List::new(alloc);
    legs.push(Leg::Between(a, b))?;
    while let Some(leg) = legs.pop() {
        take_leg(edges, forest, &mut legs, &mut way, leg)?;
    }
    Ok(way)
}

// Writes one part of a way, or puts smaller parts in its place.
fn take_leg(
    _edges: &[Edge],
    forest: &Forest,
    legs: &mut List<Leg>,
    way: &mut List<u32>,
    leg: Leg,
) -> Result<(), Memory>
    requires leg { IsJoinedLeg forest.now leg }
    requires legs { AreJoinedLegs forest.now legs.old }
    requires edges { AreJoinedBy _edges.now forest.now }
    ensures { OnOk result (IsTaken _edges.now forest.now legs.old leg way.old legs.new way.new) }
{
    match leg {
        Leg::Pass(place) => {
            way.push(place)?;
            Ok(())
        }
        Leg::Between(a, b) => {
            if a == b {
                return Ok(());
            }
            let _joins = forest.joins();
            let split = split_of(forest, a, b);
            legs.push(Leg::Between(split.far, b))?;
            legs.push(Leg::Pass(split.place))?;
            legs.push(Leg::Between(a, split.near))?;
            Ok(())
        }
    }
}

// The join that put two nodes of one tree into it. Each of them climbs to its root of that time, always the one whose root
// loses its place first.
fn split_of(forest: &Forest, a: NodeId, b: NodeId) -> Split
    requires apart { a ≢ b }
    requires joined { climbed a forest.now ≡ climbed b forest.now }
    ensures { IsSplit forest.now a b result.place result.near result.far }
{
    let mut x = a;
    let mut y = b;
    let mut count: u32 = 0;
    let mut split = Split {
        place: 0,
        near: a,
        far: b,
    };
    while x != y {
        let Some(place) = first_gone(forest, x, y) else {
            return split;
        };
        let join = forest.joins()[place as usize];
        count = place + 1;
        if join.gone == x {
            split = Split {
                place,
                near: join.from,
                far: join.to,
            };
            x = join.kept;
        } else {
            split = Split {
                place,
                near: join.to,
                far: join.from,
            };
            y = join.kept;
        }
    }
    split
}

// The first join in which one of two nodes loses its place as a root, if there is one.
fn first_gone(forest: &Forest, x: NodeId, y: NodeId) -> Option<u32>
    ensures { MatchOption result (IsNeverGone forest.now x × IsNeverGone forest.now y)
        (λ place. IsFirstGone forest.now x y place) }
{
    match (forest.lost_at(x), forest.lost_at(y)) {
        (Some(left), Some(right)) => Some(left.min(right)),
        (Some(left), None) => Some(left),
        (None, Some(right)) => Some(right),
        (None, None) => None,
    }
}
