//! A small table, by its public calls.
ghost use Rattle.std.specs.Prelude.{◌≡◌, [], IfOk};
ghost use Rattle.grind_term_graph.specs.declared.head.Head.TheVariants.{Const};

use grind_outside::Memory;
use grind_term_graph::{Args, Head, Node, NodeId, SortId, TermRefusal, TermTable};
use std::alloc::Global;
use std::test::Fail;

// A constant of sort 2.
fn constant(alloc: Global, number: u32) -> Result<Node, Memory>
    ensures { IfOk result (λ node. node ≡ record { head = Const number; sort = 2; args = [] }) }
{
    let args = Args::from_slice(alloc, &[])?;
    Ok(Node {
        head: Head::Const(number),
        sort: SortId::new(2),
        args,
    })
}

// What interning the constant of this number answers.
fn interned(
    alloc: Global,
    table: &mut TermTable,
    number: u32,
) -> Result<Result<NodeId, TermRefusal>, Memory> {
    let node = constant(alloc, number)?;
    Ok(table.intern(alloc, node))
}

// Whether two tables have the same nodes.
fn same_nodes(left: &TermTable, right: &TermTable) -> bool {
    if left.len() != right.len() {
        return false;
    }
    for number in 0..left.len() {
        let id = NodeId::new(number);
        if left.node(id) != right.node(id) || left.sort(id) != right.sort(id) {
            return false;
        }
    }
    true
}

// Where a copy of the table has the constant of this number.
fn found(alloc: Global, table: &TermTable, number: u32) -> Result<Option<NodeId>, Memory> {
    let node = constant(alloc, number)?;
    Ok(table.find(&node))
}

#[test]
fn fills_a_table_of_three(rt: HostRuntime) -> Result<(), Fail> {
    let alloc = rt.alloc();
    let mut table = TermTable::new(alloc, 3)?;
    for (number, want) in [
        (0, Ok(NodeId::new(2))),
        (0, Ok(NodeId::new(2))),
        (1, Err(TermRefusal::Full)),
    ] {
        let answer = interned(alloc, &mut table, number)?;
        assert_eq!(rt; answer, want, "of {number}");
    }
    assert_eq!(rt; table.len(), 3);
    assert_eq!(rt; found(alloc, &table, 0)?, Some(NodeId::new(2)));
    assert_eq!(rt; found(alloc, &table, 1)?, None);
    Ok(())
}

#[test]
fn copies_a_table(rt: HostRuntime) -> Result<(), Fail> {
    let alloc = rt.alloc();
    let mut table = TermTable::new(alloc, 3)?;
    let _number = interned(alloc, &mut table, 0)?;
    assert!(rt; table.len() == 3);
    let copy = table.copy(alloc, 3)?;
    assert!(rt; same_nodes(&table, &copy));
    Ok(())
}

#[test]
fn keeps_sixteen_arguments(rt: HostRuntime) -> Result<(), Fail> {
    let given = [NodeId::new(2); 16];
    let args = Args::from_slice(rt.alloc(), &given)?;
    assert_eq!(rt; args.as_slice(), given.as_slice());
    Ok(())
}
