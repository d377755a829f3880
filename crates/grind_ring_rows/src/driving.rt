//! A solver, and what a board would do with its answers.
ghost use Rattle.std.specs.Prelude.{OnOk, IfOk};
ghost use Rattle.grind_scenes.specs.Scenes.{AreClassesOf};

use crate::printing::{put_basis, put_same, put_step, put_zero};
use crate::reading::{Case, Taken};
use grind_claims::{Claim, Rule};
use grind_classes::Classes;
use grind_differences::poly_difference;
use grind_outside::{List, Memory};
use grind_ring_solver::{Ring, RingStep};
use grind_scenes::{all_alone, join};
use grind_schemes::Goal;
use grind_term_graph::{Head, NodeId, SortId, TermTable};
use std::alloc::Global;

/// No solver is asked more often.
const MOST: u32 = 10_000;

/// Two whole numbers that are equal.
#[derive(Drop)]
struct Sides {
    left: NodeId,
    right: NodeId,
}

/// A post that says that two whole numbers are equal.
#[derive(Clone, Copy)]
struct Equality {
    post: u32,
    left: NodeId,
    right: NodeId,
}

/// A solver, and the posts so far.
#[derive(Drop)]
struct Board {
    ring: Ring,
    equalities: List<Equality>,
    next: u32,
    taken: Taken,
    said: List<u8>,
}

/// What a solver answers on the equations of the goal, a line each, and its basis in the end.
///
/// # Errors
///
/// `Memory` if out of memory.
pub fn run(alloc: Global, case: &Case, goal: &Goal) -> Result<List<u8>, Memory> {
    let terms = goal.terms();
    let mut classes = all_alone(alloc, terms)?;
    let mut board = Board {
        ring: Ring::new(alloc, case.limit),
        equalities: List::new(alloc),
        next: 0,
        taken: case.taken,
        said: List::new(alloc),
    };
    take_all(alloc, terms, &mut board, &mut classes, goal.hyps())?;
    step_all(alloc, terms, &mut board, &mut classes)?;
    let copy = board.ring.copy(alloc)?;
    put_basis(alloc, &mut board.said, copy.basis().as_slice())?;
    Ok(board.said)
}

/// Asks the solver until nothing follows.
fn step_all(
    alloc: Global,
    terms: &TermTable,
    board: &mut Board,
    classes: &mut Classes,
) -> Result<(), Memory>
    requires { AreClassesOf terms.now.nodes classes.old.lists }
{
    for _ in 0..MOST {
        let goes_on = step(alloc, terms, board, classes)?;
        if !goes_on {
            return Ok(());
        }
    }
    board.said.extend(b"unfinished\n")?;
    Ok(())
}

/// Asks the solver once, and says whether it is to be asked again.
fn step(
    alloc: Global,
    terms: &TermTable,
    board: &mut Board,
    classes: &mut Classes,
) -> Result<bool, Memory>
    requires { AreClassesOf terms.now.nodes classes.old.lists }
    ensures { IfOk result (λ again. AreClassesOf terms.now.nodes classes.new.lists) }
{
    let next = board.next;
    let step = board.ring.step(alloc, terms, classes, next)?;
    put_step(alloc, &mut board.said, &step)?;
    let goes_on = follow(alloc, terms, board, classes, &step)?;
    Ok(goes_on)
}

/// Takes each hypothesis that is an equation of whole numbers.
fn take_all(
    alloc: Global,
    terms: &TermTable,
    board: &mut Board,
    classes: &mut Classes,
    hyps: &[NodeId],
) -> Result<(), Memory>
    requires { AreClassesOf terms.now.nodes classes.old.lists }
    ensures { OnOk result (AreClassesOf terms.now.nodes classes.new.lists) }
{
    for hyp in hyps {
        if let Some(sides) = sides_of(terms, *hyp) {
            take_sides(alloc, terms, board, classes, &sides)?;
        }
    }
    Ok(())
}

/// The sides of a node, if it is an equation of whole numbers.
fn sides_of(terms: &TermTable, node: NodeId) -> Option<Sides> {
    if node.number() >= terms.len() {
        return None;
    }
    let node = terms.node(node);
    if node.head != Head::Eq {
        return None;
    }
    let [left, right] = node.args.as_slice() else {
        return None;
    };
    if left.number() >= terms.len() || terms.sort(*left) != SortId::INT {
        return None;
    }
    Some(Sides {
        left: *left,
        right: *right,
    })
}

/// Takes an equation under the next number.
fn take_sides(
    alloc: Global,
    terms: &TermTable,
    board: &mut Board,
    classes: &mut Classes,
    sides: &Sides,
) -> Result<(), Memory>
    requires { AreClassesOf terms.now.nodes classes.old.lists }
    ensures { OnOk result (AreClassesOf terms.now.nodes classes.new.lists) }
{
    if board.taken == Taken::Zeros {
        take_zero(alloc, terms, board, sides)?;
        return Ok(());
    }
    take_equal(alloc, terms, board, classes, sides)?;
    Ok(())
}

/// Takes the equality of two numbers under the next number, and joins their classes where that is asked.
fn take_equal(
    alloc: Global,
    terms: &TermTable,
    board: &mut Board,
    classes: &mut Classes,
    sides: &Sides,
) -> Result<(), Memory>
    requires { AreClassesOf terms.now.nodes classes.old.lists }
    ensures { OnOk result (AreClassesOf terms.now.nodes classes.new.lists) }
{
    take_same(alloc, board, sides)?;
    if board.taken != Taken::Apart {
        join(alloc, terms, classes, sides.left, sides.right)?;
    }
    Ok(())
}

/// Takes the equality of two numbers under the next number.
fn take_same(alloc: Global, board: &mut Board, sides: &Sides) -> Result<(), Memory> {
    let post = board.next;
    put_same(
        alloc,
        &mut board.said,
        post,
        sides.left.number(),
        sides.right.number(),
    )?;
    board
        .ring
        .take(alloc, post, &Claim::Same(sides.left, sides.right))?;
    board.equalities.push(Equality {
        post,
        left: sides.left,
        right: sides.right,
    })?;
    board.next = post.saturating_add(1);
    Ok(())
}

/// Takes the difference of two numbers as a polynomial that is 0, under the next number.
fn take_zero(
    alloc: Global,
    terms: &TermTable,
    board: &mut Board,
    sides: &Sides,
) -> Result<(), Memory> {
    let Some(poly) = poly_difference(alloc, terms, sides.left, sides.right)? else {
        return Ok(());
    };
    let post = board.next;
    put_zero(alloc, &mut board.said, post, &poly)?;
    board.ring.take(alloc, post, &Claim::Zero(poly))?;
    board.next = post.saturating_add(1);
    Ok(())
}

/// The sides of the equality of that post, if it is one.
fn sides_at(equalities: &[Equality], post: u32) -> Option<Sides> {
    for it in equalities {
        if it.post == post {
            return Some(Sides {
                left: it.left,
                right: it.right,
            });
        }
    }
    None
}

/// Does what an answer asks for, and says whether the solver is to be asked again.
fn follow(
    alloc: Global,
    terms: &TermTable,
    board: &mut Board,
    classes: &mut Classes,
    step: &RingStep,
) -> Result<bool, Memory>
    requires { AreClassesOf terms.now.nodes classes.old.lists }
    ensures { IfOk result (λ again. AreClassesOf terms.now.nodes classes.new.lists) }
{
    match step {
        RingStep::Zeroed { post } => {
            take_difference(alloc, terms, board, *post)?;
            Ok(true)
        }
        RingStep::Equal {
            left,
            right,
            rule,
            ..
        } => {
            let sides = Sides {
                left: *left,
                right: *right,
            };
            count_line(board, rule);
            take_equal(alloc, terms, board, classes, &sides)?;
            Ok(true)
        }
        _ => Ok(counts(board, step)),
    }
}

/// Counts the post that an answer makes, if it makes one, and says whether the solver is to be asked again.
fn counts(board: &mut Board, step: &RingStep) -> bool {
    match step {
        RingStep::Joins(_) => true,
        RingStep::Added { .. } => {
            board.next = board.next.saturating_add(1);
            true
        }
        _ => false,
    }
}

/// Takes the difference of the sides of the equality of that post.
fn take_difference(
    alloc: Global,
    terms: &TermTable,
    board: &mut Board,
    post: u32,
) -> Result<(), Memory> {
    let sides = sides_at(board.equalities.as_slice(), post);
    if let Some(sides) = sides {
        take_zero(alloc, terms, board, &sides)?;
    }
    Ok(())
}

/// Counts the line by which two terms are equal, if it is a new one.
fn count_line(board: &mut Board, rule: &Rule) {
    if let Rule::Ideal { .. } = rule {
        board.next = board.next.saturating_add(1);
    }
}
