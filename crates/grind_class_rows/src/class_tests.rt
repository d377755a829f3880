//! Four nodes, by the public calls.
ghost use Rattle.std.specs.Prelude.{All, IsTrue};
ghost use Rattle.grind_class_joins.specs.Joins.{IsActivePair};

use grind_class_joins::{Pair, merge_all};
use grind_classes::{Classes, Merged};
use grind_outside::{List, Memory};
use grind_term_graph::NodeId;
use std::alloc::Global;
use std::test::Fail;

// The classes of the nodes 2, 3 and 4 alone.
fn three(alloc: Global) -> Result<Classes, Memory> {
    let mut classes = Classes::new(alloc);
    for number in [2, 3, 4] {
        let n = NodeId::new(number);
        if !classes.is_active(n) {
            classes.activate(alloc, n)?;
        }
    }
    Ok(classes)
}

// What a merge answers, and None where it may not be asked for.
fn merged(alloc: Global, classes: &mut Classes, a: u32, b: u32) -> Result<Option<Merged>, Memory> {
    let (a, b) = (NodeId::new(a), NodeId::new(b));
    if !classes.is_active(a) || !classes.is_active(b) || classes.same(a, b) {
        return Ok(None);
    }
    let merged = classes.merge(alloc, a, b, 1)?;
    Ok(Some(merged))
}

// The members of the class of a node, as numbers.
fn is_class(classes: &Classes, n: u32, want: &[NodeId]) -> bool {
    let n = NodeId::new(n);
    classes.is_active(n) && classes.members(classes.root(n)) == want
}

#[test]
fn joins_three_nodes(rt: HostRuntime) -> Result<(), Fail> {
    let alloc = rt.alloc();
    let mut classes = three(alloc)?;
    for (a, b, want) in [
        (
            2,
            3,
            Some(Merged {
                root: NodeId::new(2),
                moved: 1,
            }),
        ),
        (
            4,
            2,
            Some(Merged {
                root: NodeId::new(2),
                moved: 1,
            }),
        ),
        (3, 4, None),
        (2, 5, None),
    ] {
        assert_eq!(rt; merged(alloc, &mut classes, a, b)?, want, "of {a} and {b}");
    }
    let all = [NodeId::new(2), NodeId::new(3), NodeId::new(4)];
    assert!(rt; is_class(&classes, 4, &all));
    let copy = classes.copy(alloc)?;
    assert!(rt; is_class(&copy, 3, &all));
    Ok(())
}

// Whether all nodes of pairs are active.
fn are_active(classes: &Classes, pairs: &[Pair]) -> bool
    ensures { IsTrue result → All (λ pair. IsActivePair classes.now.lists pair) pairs.now }
{
    let mut rest = pairs;
    while let Some((pair, tail)) = rest.split_first() {
        if !classes.is_active(pair.left) {
            return false;
        }
        if !classes.is_active(pair.right) {
            return false;
        }
        rest = tail;
    }
    true
}

// How many nodes move where these pairs are merged, and None where they may not be.
fn merged_all(alloc: Global, numbers: &[(u32, u32)]) -> Result<Option<u64>, Memory> {
    let mut classes = three(alloc)?;
    let mut pairs = List::new(alloc);
    for (left, right) in numbers {
        pairs.push(Pair {
            left: NodeId::new(*left),
            right: NodeId::new(*right),
        })?;
    }
    if !are_active(&classes, pairs.as_slice()) {
        return Ok(None);
    }
    let moved = merge_all(alloc, &mut classes, &pairs)?;
    Ok(Some(moved))
}

#[test]
fn joins_pairs_of_nodes(rt: HostRuntime) -> Result<(), Fail> {
    let alloc = rt.alloc();
    assert_eq!(rt; merged_all(alloc, &[(2, 3), (4, 2)])?, Some(2));
    assert_eq!(rt; merged_all(alloc, &[(2, 3), (3, 2), (4, 4)])?, Some(1));
    assert_eq!(rt; merged_all(alloc, &[(2, 5)])?, None);
    Ok(())
}
