//! Matches of a theorem over classes of one node each, and over classes where some nodes were joined.
ghost use Rattle.std.specs.Prelude.{◌<◌, OnOk, length};
ghost use Rattle.grind_scenes.specs.Scenes.{AreClassesOf};

use grind_classes::Classes;
use grind_ematch::Match;
use grind_outside::{List, Memory};
use grind_scenes::{all_alone, first_matches, join, zeros};
use grind_schemes::Lemmas;
use grind_term_graph::{NodeId, TermTable};
use grind_theory::Theory;
use grind_theory_files::theory_of;
use std::alloc::Global;

// The terms are, from 2 on, a, f(a), b, f(b), and two equations.
const INVERSE: &str =
    "sort S. fun f(S): S. fun g(S): S. theorem inv (x: S) [pattern f(x)]: g(f(x)) = x. goal t (a b: S): f(a) = f(b) |- a = b.";

// The terms are, from 2 on, b, g(b), a, f(a), their equation, c, h(c), and an equation.
const SHARED: &str =
    "sort S. fun f(S): S. fun g(S): S. fun h(S): S. theorem two (x: S) [pattern g(f(x)), h(x)]: g(f(x)) = x. goal t (a b c: S): g(b) = f(a) |- h(c) = c.";

// Joins the nodes of each pair.
fn join_all(
    alloc: Global,
    terms: &TermTable,
    classes: &mut Classes,
    pairs: &[(u32, u32)],
) -> Result<(), Memory>
    requires { AreClassesOf terms.now.nodes classes.old.lists }
    ensures { OnOk result (AreClassesOf terms.now.nodes classes.new.lists) }
{
    for pair in pairs {
        let (a, b) = (NodeId::new(pair.0), NodeId::new(pair.1));
        join(alloc, terms, classes, a, b)?;
    }
    Ok(())
}

// The matches of the first theorem over these classes.
fn matches_over(
    alloc: Global,
    lemmas: &Lemmas,
    terms: &TermTable,
    classes: &Classes,
) -> Result<List<Match>, Memory>
    requires classes { AreClassesOf terms.now.nodes classes.now.lists }
    requires theorem { 0 < length lemmas.now.theorems }
{
    let generations = zeros(alloc, terms.len())?;
    let list = first_matches(alloc, terms, classes, &generations, lemmas)?;
    Ok(list)
}

// The matches of the first theorem, where the nodes of each pair were joined.
fn found(
    alloc: Global,
    lemmas: &Lemmas,
    terms: &TermTable,
    pairs: &[(u32, u32)],
) -> Result<List<Match>, Memory> {
    if lemmas.theorems.is_empty() {
        return Ok(List::new(alloc));
    }
    let mut classes = all_alone(alloc, terms)?;
    join_all(alloc, terms, &mut classes, pairs)?;
    let list = matches_over(alloc, lemmas, terms, &classes)?;
    Ok(list)
}

// Whether the theorem 0 at this node is listed, with generation 0.
fn is_listed(list: &[Match], node: u32) -> bool {
    for one in list {
        if one.theorem == 0
            && one.generation == 0
            && one.subst.as_slice() == [NodeId::new(node)].as_slice()
        {
            return true;
        }
    }
    false
}

// Whether each of these nodes has a match, and there are no more matches than nodes.
fn are_listed(list: &[Match], nodes: &[u32]) -> bool {
    list.len() == nodes.len() && nodes.iter().all(|node| is_listed(list, *node))
}

// Whether these nodes are where the first theorem is met in the terms of the only goal, where the nodes of each pair were joined.
fn meets(
    alloc: Global,
    theory: &Theory,
    pairs: &[(u32, u32)],
    nodes: &[u32],
) -> Result<bool, Memory> {
    let [goal] = theory.goals.as_slice() else {
        return Ok(false);
    };
    let list = found(alloc, &theory.lemmas, goal.terms(), pairs)?;
    Ok(are_listed(list.as_slice(), nodes))
}

// Whether the text is a theory whose first theorem is met so.
fn is_met(alloc: Global, text: &str, pairs: &[(u32, u32)], nodes: &[u32]) -> Result<bool, Memory> {
    let bytes = text.as_bytes();
    if bytes.len() > 4_194_304 {
        return Ok(false);
    }
    let Ok(theory) = theory_of(alloc, bytes) else {
        return Ok(false);
    };
    meets(alloc, &theory, pairs, nodes)
}

#[test]
fn a_pattern_is_met_at_each_application(rt: HostRuntime) {
    assert_eq!(rt; is_met(rt.alloc(), INVERSE, &[], &[2, 4]), Ok(true));
}

#[test]
fn a_pattern_meets_a_member_that_is_no_root(rt: HostRuntime) {
    for (pairs, nodes) in [
        ([].as_slice(), [].as_slice()),
        ([(2, 5)].as_slice(), [].as_slice()),
        ([(2, 5), (4, 7)].as_slice(), [4].as_slice()),
    ] {
        assert_eq!(rt; is_met(rt.alloc(), SHARED, pairs, nodes), Ok(true));
    }
}
