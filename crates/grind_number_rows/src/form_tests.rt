//! Readings, sums and cuts by their public calls.
ghost use Rattle.std.specs.Prelude.{◌≡◌, [], ◌∷◌, Some, IsTrue, ◌↔◌};
ghost use Rattle.grind_term_graph.specs.Shape.{IsShaped};
ghost use Rattle.grind_term_graph.specs.Terms.{int, sort_at};

use grind_linear_forms::{Form, FormRefusal, add_scaled, cut, divides, linear_of};
use grind_term_graph::{Args, Head, Node, NodeId, SortId, TermRefusal, TermTable};
use std::alloc::Global;
use std::test::Fail;

// Whether there is a node of this number, and it is a whole number.
fn is_number(table: &TermTable, id: NodeId) -> bool
    ensures { IsTrue result → sort_at table.now.nodes id ≡ Some int }
{
    if id.number() >= table.len() {
        return false;
    }
    table.sort(id) == SortId::INT
}

// Puts a node of this head and these arguments into a table.
fn put(
    alloc: Global,
    table: &mut TermTable,
    head: Head,
    left: NodeId,
    right: NodeId,
) -> Result<NodeId, TermRefusal> {
    if !is_number(table, left) || !is_number(table, right) {
        return put_leaf(alloc, table);
    }
    match head {
        Head::Add | Head::Mul => put_two(alloc, table, head, left, right),
        Head::Neg => put_negation(alloc, table, left),
        Head::Int(number) => put_int(alloc, table, number),
        _ => put_leaf(alloc, table),
    }
}

// Puts the constant 0 into a table.
fn put_leaf(alloc: Global, table: &mut TermTable) -> Result<NodeId, TermRefusal> {
    let args = Args::from_slice(alloc, &[])?;
    let head = Head::Const(0);
    let sort = SortId::INT;
    table.intern(alloc, Node { head, sort, args })
}

// Puts a number into a table.
fn put_int(alloc: Global, table: &mut TermTable, number: i128) -> Result<NodeId, TermRefusal> {
    let args = Args::from_slice(alloc, &[])?;
    let head = Head::Int(number);
    let sort = SortId::INT;
    table.intern(alloc, Node { head, sort, args })
}

// Puts a negation into a table.
fn put_negation(alloc: Global, table: &mut TermTable, a: NodeId) -> Result<NodeId, TermRefusal>
    requires { sort_at table.old.nodes a ≡ Some int }
{
    let args = Args::from_slice(alloc, &[a])?;
    let head = Head::Neg;
    let sort = SortId::INT;
    table.intern(alloc, Node { head, sort, args })
}

// Puts a sum or a product into a table.
fn put_two(
    alloc: Global,
    table: &mut TermTable,
    head: Head,
    a: NodeId,
    b: NodeId,
) -> Result<NodeId, TermRefusal>
    requires shaped { IsShaped head int (Some int ∷ Some int ∷ []) }
    requires left { sort_at table.old.nodes a ≡ Some int }
    requires right { sort_at table.old.nodes b ≡ Some int }
{
    let args = Args::from_slice(alloc, &[a, b])?;
    let sort = SortId::INT;
    table.intern(alloc, Node { head, sort, args })
}

// What reading a node answers, where it is a whole number.
fn read(alloc: Global, table: &TermTable, id: NodeId) -> Option<Result<Form, FormRefusal>> {
    if !is_number(table, id) {
        return None;
    }
    Some(linear_of(alloc, table, id))
}

// The form of two nodes with these coefficients, and a constant.
fn form_of(
    alloc: Global,
    first: (i128, u32),
    second: (i128, u32),
    constant: i128,
) -> Result<Form, FormRefusal> {
    let left = Form::node(alloc, NodeId::new(first.1))?;
    let right = Form::node(alloc, NodeId::new(second.1))?;
    let parts = add_scaled(alloc, &left, first.0, &right, second.0)?;
    add_scaled(alloc, &parts, 1, &Form::number(alloc, constant), 1)
}

// What a cut of a form by 2 answers, where 2 divides its coefficients.
fn halved(alloc: Global, form: &Form) -> Option<Result<Form, FormRefusal>> {
    if !divides(2, form) {
        return None;
    }
    Some(cut(alloc, form, 2))
}

// What a cut of a form by 4 answers, where 4 divides its coefficients.
fn quartered(alloc: Global, form: &Form) -> Option<Result<Form, FormRefusal>> {
    if !divides(4, form) {
        return None;
    }
    Some(cut(alloc, form, 4))
}

#[test]
fn reads_twice_x_and_three_less_x(rt: HostRuntime) -> Result<(), Fail> {
    let alloc = rt.alloc();
    let mut table = TermTable::new(alloc, 20)?;
    let _leaf = put_leaf(alloc, &mut table);
    for (head, left, right) in [
        (Head::Int(2), 2, 2),
        (Head::Mul, 3, 2),
        (Head::Int(3), 2, 2),
        (Head::Add, 4, 5),
        (Head::Neg, 2, 2),
        (Head::Add, 6, 7),
    ] {
        let _number = put(
            alloc,
            &mut table,
            head,
            NodeId::new(left),
            NodeId::new(right),
        );
    }
    let answer = read(alloc, &table, NodeId::new(8));
    assert_eq!(rt; answer, Some(form_of(alloc, (1, 2), (0, 3), 3)));
    Ok(())
}

#[test]
fn reads_twice_x_and_twice_x(rt: HostRuntime) -> Result<(), Fail> {
    let alloc = rt.alloc();
    let mut table = TermTable::new(alloc, 20)?;
    let _leaf = put_leaf(alloc, &mut table);
    for (head, left, right) in [(Head::Int(2), 2, 2), (Head::Mul, 3, 2), (Head::Add, 4, 4)] {
        let _number = put(
            alloc,
            &mut table,
            head,
            NodeId::new(left),
            NodeId::new(right),
        );
    }
    let answer = read(alloc, &table, NodeId::new(5));
    assert_eq!(rt; answer, Some(form_of(alloc, (4, 2), (0, 3), 0)));
    Ok(())
}

#[test]
fn cuts_by_four(rt: HostRuntime) -> Result<(), Fail> {
    let alloc = rt.alloc();
    let form = form_of(alloc, (4, 2), (0, 3), 3)?;
    assert_eq!(rt;
        quartered(alloc, &form),
        Some(form_of(alloc, (1, 2), (0, 3), 1))
    );
    Ok(())
}

#[test]
fn cuts_by_two(rt: HostRuntime) -> Result<(), Fail> {
    let alloc = rt.alloc();
    let Ok(form) = form_of(alloc, (4, 2), (6, 3), 3) else {
        return Ok(());
    };
    assert_eq!(rt;
        halved(alloc, &form),
        Some(form_of(alloc, (2, 2), (3, 3), 2))
    );
    Ok(())
}

#[test]
fn refuses_what_does_not_fit(rt: HostRuntime) -> Result<(), Fail> {
    let alloc = rt.alloc();
    assert_eq!(rt;
        form_of(alloc, (i128::MIN, 2), (1, 3), i128::MAX).is_ok(),
        true
    );
    let Ok(large) = form_of(alloc, (1 << 126, 2), (0, 3), 0) else {
        return Ok(());
    };
    assert_eq!(rt;
        add_scaled(alloc, &large, 2, &large, -2),
        Err(FormRefusal::Overflow)
    );
    assert_eq!(rt;
        add_scaled(alloc, &large, 1, &large, 1),
        Err(FormRefusal::Overflow)
    );
    assert_eq!(rt;
        add_scaled(alloc, &large, 2, &Form::number(alloc, 0), 0),
        Err(FormRefusal::Overflow)
    );
    Ok(())
}

#[test]
fn reads_a_deep_sum(rt: HostRuntime) -> Result<(), Fail> {
    let alloc = rt.alloc();
    let mut table = TermTable::new(alloc, 200)?;
    let _leaf = put_leaf(alloc, &mut table);
    for number in 2..129 {
        let node = NodeId::new(number);
        let _sum = put(alloc, &mut table, Head::Add, node, node);
    }
    let deep = read(alloc, &table, NodeId::new(128));
    assert_eq!(rt; deep, Some(form_of(alloc, (1 << 126, 2), (0, 3), 0)));
    let deeper = read(alloc, &table, NodeId::new(129));
    assert_eq!(rt; deeper, Some(Err(FormRefusal::Overflow)));
    Ok(())
}
