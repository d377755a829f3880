//! The next consequence of known truths, over a disjunction of two constants and classes of one node each.
ghost use Rattle.std.specs.Prelude.{◌≡◌, Some};
ghost use Rattle.grind_term_graph.specs.Terms.{prop, sort_at};

use grind_outside::List;
use grind_scenes::{all_alone, are_marked_formulas, is_formula, marks_of, next_step};
use grind_term_graph::{Args, Head, Node, NodeId, SortId, TermRefusal, TermTable};
use grind_truth_prop::{Known, TruthStep};
use std::alloc::Global;
use std::test::Fail;

// Puts a constant, a formula, into the table.
fn put_formula(alloc: Global, terms: &mut TermTable, number: u32) -> Result<NodeId, TermRefusal> {
    let args = Args::from_slice(alloc, &[])?;
    let node = Node {
        head: Head::Const(number),
        sort: SortId::PROP,
        args,
    };
    let id = terms.intern(alloc, node)?;
    Ok(id)
}

// Puts the disjunction of two formulas into the table, where they are some.
fn put_or(alloc: Global, terms: &mut TermTable, a: NodeId, b: NodeId) -> Result<(), TermRefusal>
    requires first { sort_at terms.old.nodes a ≡ Some prop }
    requires second { sort_at terms.old.nodes b ≡ Some prop }
{
    let args = Args::from_slice(alloc, &[a, b])?;
    let node = Node {
        head: Head::Or,
        sort: SortId::PROP,
        args,
    };
    terms.intern(alloc, node)?;
    Ok(())
}

// True, False, the constants 2 to 6, and the disjunction 7 of 4 and 6.
fn terms_of(alloc: Global) -> Result<TermTable, TermRefusal> {
    let mut terms = TermTable::new(alloc, 8)?;
    for number in 0..5 {
        put_formula(alloc, &mut terms, number)?;
    }
    let a = NodeId::new(4);
    let b = NodeId::new(6);
    if is_formula(&terms, a) && is_formula(&terms, b) {
        put_or(alloc, &mut terms, a, b)?;
    }
    Ok(terms)
}

// The step where these nodes are known to hold, and these to fail.
fn step_from(
    alloc: Global,
    holds: &[u32],
    fails: &[u32],
) -> Result<Option<TruthStep>, TermRefusal> {
    let terms = terms_of(alloc)?;
    let count = terms.len();
    let known = Known {
        terms,
        holds: marks_of(alloc, count, holds)?,
        fails: marks_of(alloc, count, fails)?,
        same: List::new(alloc),
        apart: List::new(alloc),
    };
    let classes = all_alone(alloc, &known.terms)?;
    if !are_marked_formulas(&known) {
        return Ok(None);
    }
    let step = next_step(alloc, &known, &classes)?;
    Ok(Some(step))
}

#[test]
fn a_disjunction_that_holds_settles_its_other_argument(rt: HostRuntime) -> Result<(), Fail> {
    let alloc = rt.alloc();
    let mut atoms = List::new(alloc);
    atoms.push(NodeId::new(4))?;
    atoms.push(NodeId::new(6))?;
    let want = TruthStep::Settle {
        node: NodeId::new(6),
        value: true,
        atoms,
    };
    assert_eq!(rt; step_from(alloc, &[0, 7], &[1, 4])?, Some(want));
    Ok(())
}

#[test]
fn other_truths_give_other_steps(rt: HostRuntime) -> Result<(), Fail> {
    let alloc = rt.alloc();
    for (holds, fails, want) in [
        (
            [0, 7].as_slice(),
            [1].as_slice(),
            TruthStep::Wants(NodeId::new(4)),
        ),
        (
            [0, 7].as_slice(),
            [1, 4, 6].as_slice(),
            TruthStep::Conflict {
                node: NodeId::new(7),
            },
        ),
        ([0, 6, 7].as_slice(), [1].as_slice(), TruthStep::Rest),
    ] {
        assert_eq!(rt; step_from(alloc, holds, fails)?, Some(want));
    }
    Ok(())
}
