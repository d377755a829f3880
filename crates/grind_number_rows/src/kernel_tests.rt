//! The rule `table` over a formula and its negation, and the ancestors of branches.
ghost use Rattle.std.specs.Prelude.{◌≡◌, IfOk, Some};
ghost use Rattle.grind_term_graph.specs.Terms.{sort_at};

use grind_outside::{List, Memory};
use grind_proof_kernel::branches::reaches;
use grind_proof_kernel::claim::is_formed;
use grind_proof_kernel::{Branch, Claim};
use grind_term_graph::{Args, Head, Node, NodeId, SortId, TermRefusal, TermTable};
use grind_truth_tables::is_table;
use std::alloc::Global;
use std::test::Fail;

// Puts the constant of number 0, a formula, into the table.
fn put_formula(alloc: Global, terms: &mut TermTable) -> Result<NodeId, TermRefusal>
    ensures { IfOk result (λ id. sort_at terms.new.nodes id ≡ Some 0) }
{
    let args = Args::from_slice(alloc, &[])?;
    let node = Node {
        head: Head::Const(0),
        sort: SortId::PROP,
        args,
    };
    let id = terms.intern(alloc, node)?;
    Ok(id)
}

// Puts the negation of a formula into the table.
fn put_negation(
    alloc: Global,
    terms: &mut TermTable,
    formula: NodeId,
) -> Result<NodeId, TermRefusal>
    requires { sort_at terms.old.nodes formula ≡ Some 0 }
    ensures { IfOk result (λ id. sort_at terms.new.nodes id ≡ Some 0) }
{
    let args = Args::from_slice(alloc, &[formula])?;
    let node = Node {
        head: Head::Not,
        sort: SortId::PROP,
        args,
    };
    let id = terms.intern(alloc, node)?;
    Ok(id)
}

// Whether the table of these free nodes gives the formula from the premise.
fn gives(
    alloc: Global,
    terms: &TermTable,
    free: &[NodeId],
    premise: &Claim,
    formula: NodeId,
) -> Result<bool, Memory> {
    let claim = Claim::Holds(formula);
    if !is_formed(terms, &claim) {
        return Ok(false);
    }
    let given = is_table(alloc, terms, free, &[premise], &claim)?;
    Ok(given)
}

#[test]
fn a_formula_follows_from_the_failing_negation(rt: HostRuntime) -> Result<(), Fail> {
    let alloc = rt.alloc();
    let mut terms = TermTable::new(alloc, 4)?;
    let formula = put_formula(alloc, &mut terms)?;
    let negation = put_negation(alloc, &mut terms, formula)?;
    let failing = Claim::Fails(negation);
    let holding = Claim::Holds(negation);
    for (premise, free, want) in [
        (&failing, [formula].as_slice(), true),
        (&holding, [formula].as_slice(), false),
        (&failing, [formula, formula].as_slice(), false),
    ] {
        assert_eq!(rt; gives(alloc, &terms, free, premise, formula)?, want);
    }
    Ok(())
}

#[test]
fn an_ancestor_is_reached(rt: HostRuntime) -> Result<(), Fail> {
    let alloc = rt.alloc();
    let mut branches = List::new(alloc);
    for parent in [0, 0, 1, 1] {
        branches.push(Branch {
            parent,
            after: 0,
            literal: Claim::Holds(NodeId::TRUE),
        })?;
    }
    for (above, branch, want) in [
        (0, 3, true),
        (1, 4, true),
        (2, 3, false),
        (3, 3, true),
        (3, 1, false),
    ] {
        assert_eq!(rt;
            reaches(branches.as_slice(), above, branch),
            want,
            "{above} above {branch}"
        );
    }
    Ok(())
}
