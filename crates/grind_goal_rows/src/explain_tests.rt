//! The explanation of one equality, by a call of its own. The goal is a cycle: from `f(f(f(a))) = a` and
//! `f(f(f(f(f(a))))) = a` follows `f(a) = a`. Its terms: 0 `true`, 1 `false`, 2 `a`, 3 `f(a)`, and so on.
ghost use Rattle.std.specs.Prelude.{IfOk, IfSome};
ghost use Rattle.grind_proof_kernel.specs.Typing.{HasTerms};

use grind_case_split::{Equations, equations_of};
use grind_explain::explain;
use grind_outside::Memory;
use grind_proof_kernel::{Claim, Proof, check_line};
use grind_schemes::{Goal, Lemmas};
use grind_term_graph::NodeId;
use grind_theory_files::theory_of;
use std::alloc::Global;

const CYCLE: &str = "sort S. fun f(S): S.
goal t (a: S): f(f(f(a))) = a ; f(f(f(f(f(a))))) = a |- f(a) = a.";

/// A proof, and the line that an explanation answered.
#[derive(Drop)]
struct Explanation {
    proof: Proof,
    number: u32,
}

/// The explanation of the equality of two nodes, after the lines of the equations that the goal gives. None where these
/// do not make them equal.
fn explanation_of(
    alloc: Global,
    lemmas: &Lemmas,
    goal: &Goal,
    a: NodeId,
    b: NodeId,
) -> Result<Option<Explanation>, Memory>
    ensures { IfOk result (λ answer. IfSome answer (λ it. HasTerms goal.now it.proof)) }
{
    let count = goal.terms().len();
    if a.number() >= count || b.number() >= count {
        return Ok(None);
    }
    let Equations {
        mut proof,
        whys,
        given: _,
        closure,
    } = equations_of(alloc, lemmas, goal)?;
    if !closure.classes().same(a, b) {
        return Ok(None);
    }
    let number = explain(alloc, &closure, &whys, lemmas, goal, &mut proof, 0, a, b)?;
    Ok(Some(Explanation { proof, number }))
}

/// Whether the line of that number is the last of the proof, and claims in the root that the two nodes are equal.
fn ends_with(proof: &Proof, number: u32, a: NodeId, b: NodeId) -> bool {
    let Some((last, before)) = proof.lines.as_slice().split_last() else {
        return false;
    };
    before.len() == number as usize && last.branch == 0 && last.claim == Claim::Same(a, b)
}

/// Whether each line of the proof is typed.
fn are_typed(alloc: Global, lemmas: &Lemmas, goal: &Goal, proof: &Proof) -> Result<bool, Memory>
    requires { HasTerms goal.now proof.now }
{
    for i in 0..proof.lines.len() as u32 {
        let typed = check_line(alloc, lemmas, goal, proof, i)?;
        if !typed {
            return Ok(false);
        }
    }
    Ok(true)
}

/// Whether the goal's equations make the two nodes equal, and the explanation ends with a line that says so and has typed lines
/// only.
fn is_explained(
    alloc: Global,
    lemmas: &Lemmas,
    goal: &Goal,
    a: NodeId,
    b: NodeId,
) -> Result<bool, Memory> {
    let Some(Explanation { proof, number }) = explanation_of(alloc, lemmas, goal, a, b)? else {
        return Ok(false);
    };
    if !ends_with(&proof, number, a, b) {
        return Ok(false);
    }
    are_typed(alloc, lemmas, goal, &proof)
}

/// Whether the text is a theory with one goal, whose equations make the two nodes equal and are explained so.
fn explains(alloc: Global, text: &str, a: NodeId, b: NodeId) -> Result<bool, Memory> {
    let bytes = text.as_bytes();
    if bytes.len() > 4_194_304 {
        return Ok(false);
    }
    let Ok(theory) = theory_of(alloc, bytes) else {
        return Ok(false);
    };
    let [goal] = theory.goals.as_slice() else {
        return Ok(false);
    };
    is_explained(alloc, &theory.lemmas, goal, a, b)
}

#[test]
fn a_cycle_is_explained(rt: HostRuntime) {
    let explained = explains(rt.alloc(), CYCLE, NodeId::new(3), NodeId::new(2));
    assert_eq!(rt; explained, Ok(true));
}
