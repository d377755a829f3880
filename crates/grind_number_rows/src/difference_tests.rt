//! Each public call once, on small forms and polynomials over the node 2.
ghost use Rattle.std.specs.Prelude.{◌≡◌, ◌∷◌, [], Some};
ghost use Rattle.grind_term_graph.specs.Shape.{IsShaped};
ghost use Rattle.grind_term_graph.specs.Terms.{int, sort_at};

use grind_differences::bounds::{
    has_opposite, is_above, is_at_least, is_opposite_form, is_plus_one, is_same_form, is_within_cut,
};
use grind_differences::differences::{
    are_apart_by_reading, is_difference, is_difference_or_more, is_difference_plus_one,
    is_more_than_difference, is_number, is_poly_difference,
};
use grind_differences::equations::{form_of, is_multiple, is_other_than_zero, is_same_poly};
use grind_linear_forms::{Form, FormRefusal, add_scaled};
use grind_outside::Memory;
use grind_polynomials::{Poly, PolyRefusal, add_product};
use grind_term_graph::{Args, Head, Node, NodeId, SortId, TermRefusal, TermTable};
use std::alloc::Global;
use std::test::Fail;

const X: u32 = 2;

const THREE: u32 = 3;

const SUM: u32 = 4;

// The node 2 taken so often, and a number.
fn form(alloc: Global, coefficient: i128, constant: i128) -> Result<Form, FormRefusal> {
    let node = Form::node(alloc, NodeId::new(X))?;
    let number = Form::number(alloc, constant);
    add_scaled(alloc, &node, coefficient, &number, 1)
}

// The same as a polynomial.
fn poly(alloc: Global, coefficient: i128, constant: i128) -> Result<Poly, PolyRefusal> {
    let node = Poly::node(alloc, NodeId::new(X))?;
    let number = Poly::number(alloc, constant)?;
    let often = Poly::number(alloc, coefficient)?;
    add_product(alloc, &number, &often, &node)
}

// What the test of this number says of two forms.
fn says(test: u32, base: &Form, other: &Form) -> bool {
    match test {
        0 => has_opposite(other),
        1 => is_opposite_form(base, other),
        2 => is_plus_one(base, other),
        3 => is_at_least(base, other),
        4 => is_above(base, other),
        _ => is_same_form(base, other),
    }
}

#[test]
fn judges_forms(rt: HostRuntime) -> Result<(), Fail> {
    let alloc = rt.alloc();
    let Ok(base) = form(alloc, 3, 5) else {
        return Ok(());
    };
    for (test, coefficient, constant, answer) in [
        (0, 3, 5, true),
        (0, i128::MIN, 5, false),
        (0, 3, i128::MIN + 1, false),
        (0, 3, i128::MIN + 2, true),
        (1, -3, -4, true),
        (1, -3, -5, false),
        (2, 3, 6, true),
        (2, 3, 5, false),
        (3, 3, 5, true),
        (3, 3, 4, false),
        (4, 3, 6, true),
        (4, 3, 5, false),
        (5, 3, 5, true),
        (5, 2, 5, false),
    ] {
        let Ok(other) = form(alloc, coefficient, constant) else {
            return Ok(());
        };
        assert_eq!(rt; says(test, &base, &other), answer);
    }
    Ok(())
}

#[test]
fn judges_cuts(rt: HostRuntime) -> Result<(), Fail> {
    let alloc = rt.alloc();
    let Ok(sum) = form(alloc, 4, 3) else {
        return Ok(());
    };
    for (divisor, coefficient, constant, answer) in [
        (2, 2, 2, true),
        (2, 2, 1, true),
        (2, 2, 3, false),
        (3, 2, 1, false),
        (0, 2, 1, false),
        (-2, -2, -2, false),
    ] {
        let Ok(cut) = form(alloc, coefficient, constant) else {
            return Ok(());
        };
        assert_eq!(rt; is_within_cut(alloc, &sum, divisor, &cut), Ok(answer));
    }
    Ok(())
}

// A test by its number, and the two nodes that it is made of.
#[derive(Copy, Clone)]
struct Asked {
    test: u32,
    a: NodeId,
    b: NodeId,
}

// What a test says of its nodes and a form.
fn says_of_nodes(
    alloc: Global,
    terms: &TermTable,
    asked: Asked,
    form: &Form,
) -> Result<bool, Memory> {
    let Asked { test, a, b } = asked;
    match test {
        0 => is_difference(alloc, terms, a, b, form),
        1 => is_difference_plus_one(alloc, terms, a, b, form),
        2 => is_difference_or_more(alloc, terms, a, b, form),
        3 => is_more_than_difference(alloc, terms, a, b, form),
        _ => are_apart_by_reading(alloc, terms, a, b),
    }
}

// Puts a node without arguments into a table.
fn put_leaf(alloc: Global, terms: &mut TermTable, head: Head) -> Result<NodeId, TermRefusal>
    requires { IsShaped head int [] }
{
    let args = Args::from_slice(alloc, &[])?;
    let sort = SortId::INT;
    terms.intern(alloc, Node { head, sort, args })
}

// Puts the sum of two whole numbers into a table, where they are such.
fn put_sum(
    alloc: Global,
    terms: &mut TermTable,
    a: NodeId,
    b: NodeId,
) -> Result<NodeId, TermRefusal> {
    if !is_number(terms, a) || !is_number(terms, b) {
        return Ok(a);
    }
    let args = Args::from_slice(alloc, &[a, b])?;
    let head = Head::Add;
    let sort = SortId::INT;
    terms.intern(alloc, Node { head, sort, args })
}

// A table of a constant x (2), the number 3 (3) and x + 3 (4), where memory lasts.
fn put_terms(alloc: Global, terms: &mut TermTable) -> bool {
    let first = put_leaf(alloc, terms, Head::Const(0));
    let second = put_leaf(alloc, terms, Head::Int(3));
    let third = put_sum(alloc, terms, NodeId::new(X), NodeId::new(THREE));
    first.is_ok() && second.is_ok() && third.is_ok()
}

#[test]
fn judges_differences(rt: HostRuntime) -> Result<(), Fail> {
    let alloc = rt.alloc();
    let mut terms = TermTable::new(alloc, 10)?;
    let whole = put_terms(alloc, &mut terms);
    assert_eq!(rt; whole, true);
    for (test, a, b, constant, answer) in [
        (0, SUM, X, 3, true),
        (0, X, SUM, 3, false),
        (0, 0, X, 0, false),
        (1, SUM, X, 4, true),
        (1, SUM, X, 3, false),
        (2, SUM, X, 3, true),
        (2, SUM, X, 2, false),
        (3, SUM, X, 4, true),
        (3, SUM, X, 3, false),
        (4, SUM, X, 0, true),
        (4, SUM, SUM, 0, false),
        (4, SUM, THREE, 0, false),
    ] {
        let number = Form::number(alloc, constant);
        let asked = Asked {
            test,
            a: NodeId::new(a),
            b: NodeId::new(b),
        };
        let said = says_of_nodes(alloc, &terms, asked, &number);
        assert_eq!(rt; said, Ok(answer));
    }
    Ok(())
}

#[test]
fn judges_differences_of_polynomials(rt: HostRuntime) -> Result<(), Fail> {
    let alloc = rt.alloc();
    let mut terms = TermTable::new(alloc, 10)?;
    let whole = put_terms(alloc, &mut terms);
    assert_eq!(rt; whole, true);
    for (a, b, coefficient, constant, answer) in [
        (SUM, X, 0, 3, true),
        (X, SUM, 0, 3, false),
        (X, THREE, 1, -3, true),
        (0, X, 0, 0, false),
    ] {
        let Ok(base) = poly(alloc, coefficient, constant) else {
            return Ok(());
        };
        let said = is_poly_difference(alloc, &terms, NodeId::new(a), NodeId::new(b), &base);
        assert_eq!(rt; said, Ok(answer));
    }
    Ok(())
}

// What the test of this number says of two polynomials.
fn says_of_polys(test: u32, base: &Poly, other: &Poly) -> bool {
    match test {
        0 => is_same_poly(base, other),
        1 => is_multiple(other, 2, base),
        2 => is_multiple(other, 0, base),
        _ => is_other_than_zero(other),
    }
}

#[test]
fn judges_polynomials(rt: HostRuntime) -> Result<(), Fail> {
    let alloc = rt.alloc();
    let Ok(base) = poly(alloc, 3, 5) else {
        return Ok(());
    };
    for (test, coefficient, constant, answer) in [
        (0, 3, 5, true),
        (0, 3, 4, false),
        (1, 6, 10, true),
        (1, 3, 5, false),
        (2, 0, 0, false),
        (3, 0, 5, true),
        (3, 3, 0, false),
        (3, 0, 0, false),
    ] {
        let Ok(other) = poly(alloc, coefficient, constant) else {
            return Ok(());
        };
        assert_eq!(rt; says_of_polys(test, &base, &other), answer);
    }
    Ok(())
}

// Whether the polynomial has this form.
fn has_form(alloc: Global, poly: &Poly, form: &Form) -> Result<bool, Memory> {
    let found = form_of(alloc, poly)?;
    let Some(read) = found else {
        return Ok(false);
    };
    Ok(is_same_form(&read, form))
}

#[test]
fn reads_polynomials_as_forms(rt: HostRuntime) -> Result<(), Fail> {
    let alloc = rt.alloc();
    for (coefficient, constant) in [(3, 5), (-1, 0), (0, 7), (0, 0)] {
        let Ok(base) = poly(alloc, coefficient, constant) else {
            return Ok(());
        };
        let Ok(same) = form(alloc, coefficient, constant) else {
            return Ok(());
        };
        assert_eq!(rt; has_form(alloc, &base, &same), Ok(true));
    }
    let Ok(node) = poly(alloc, 1, 0) else {
        return Ok(());
    };
    let Ok(square) = add_product(alloc, &Poly::zero(alloc), &node, &node) else {
        return Ok(());
    };
    assert_eq!(rt;
        has_form(alloc, &square, &Form::number(alloc, 0)),
        Ok(false)
    );
    Ok(())
}
