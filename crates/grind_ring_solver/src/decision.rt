//! The first of the answers that stands.
ghost use Rattle.std.specs.Prelude.{◌≡◌, IfOk, OnOk, length};
ghost use Rattle.grind_ring_basis.specs.Bases.{IsBasis};
ghost use Rattle.grind_ring_units.specs.Zeroed.{NoneZeroed, AllRead};
ghost use Rattle.grind_ring_units.specs.Conflicts.{NoContradiction};
ghost use Rattle.grind_ring_units.specs.EqualTerms.{NoEqualTerms};
ghost use Rattle.grind_ring_units.specs.Scans.{AreMarkedPosts, no_posts};
ghost use Rattle.grind_ring_units.specs.Agendas.{IsAgenda};
ghost use Rattle.grind_ring_solver.specs.Decisions.{first_of, both_of, AreBlocked, IsDecision, IsDecisionAtEnd};

use grind_classes::Classes;
use grind_outside::Memory;
use grind_polynomials::Poly;
use grind_ring_basis::{Combination, Fact};
use grind_ring_units::{
    Agenda, EqualTerms, Marks, Posts, Scan, State, first_conflict, first_equal, first_unread,
    first_zeroed, scan_pairs, scan_posts,
};
use grind_term_graph::TermTable;
use std::alloc::Global;

// What is to be done.
#[derive(Drop)]
pub(crate) enum Decision {
    // The polynomial of this equality is to be said to be 0.
    Zeroed(u32),
    // The fact joins as it is.
    Joins(Fact),
    // The normal form joins, by this line.
    Adds { rest: Poly, line: Combination },
    // The element of this post is a contradiction.
    Conflict(u32),
    // Two terms are equal.
    Equal(EqualTerms),
    // A number in what these posts would give does not fit.
    TooLarge(Posts),
    // These posts would give an element, and none may join.
    AtLimit(Posts),
    // Nothing follows.
    Rest,
}

// The terms and their classes.
#[derive(Drop)]
pub(crate) struct Setting<'a> {
    pub(crate) terms: &'a TermTable,
    pub(crate) classes: &'a Classes,
}

// The first of the answers that stands.
pub(crate) fn decide(
    alloc: Global,
    state: &State,
    agenda: &mut Agenda,
    setting: &Setting,
) -> Result<Decision, Memory>
    requires basis { IsBasis state.now.basis }
    requires agenda { IsAgenda state.now.basis agenda.old }
    ensures decision { IfOk result (λ decision. IsDecision state.now setting.now.terms.now.nodes setting.now.classes.now.lists decision) }
    ensures agenda { OnOk result (IsAgenda state.now.basis agenda.new) }
{
    let zeroed = first_zeroed(alloc, state, setting.terms)?;
    if let Some(post) = zeroed {
        return Ok(Decision::Zeroed(post));
    }
    let scan = scan_posts(alloc, state)?;
    match scan {
        Scan::Own(it) => Ok(Decision::Joins(it)),
        Scan::Form { rest, line } => Ok(Decision::Adds { rest, line }),
        Scan::Nothing(posts) => {
            let decision = decide_at_pairs(alloc, state, agenda, setting, posts)?;
            Ok(decision)
        }
    }
}

// The answer where no fact that was taken has one.
fn decide_at_pairs(
    alloc: Global,
    state: &State,
    agenda: &mut Agenda,
    setting: &Setting,
    posts: Marks,
) -> Result<Decision, Memory>
    requires basis { IsBasis state.now.basis }
    requires agenda { IsAgenda state.now.basis agenda.old }
    requires zeroed { NoneZeroed state.now setting.now.terms.now.nodes }
    requires posts { AreMarkedPosts state.now no_posts posts }
    ensures decision { IfOk result (λ decision. IsDecision state.now setting.now.terms.now.nodes setting.now.classes.now.lists decision) }
    ensures agenda { OnOk result (IsAgenda state.now.basis agenda.new) }
{
    let scan = scan_pairs(alloc, state, agenda)?;
    match scan {
        Scan::Own(_) => Ok(Decision::Rest),
        Scan::Form { rest, line } => Ok(Decision::Adds { rest, line }),
        Scan::Nothing(pairs) => {
            let marks = both_of(posts, pairs);
            let decision = decide_at_terms(alloc, state, setting.terms, setting.classes, marks)?;
            Ok(decision)
        }
    }
}

// The answer where nothing joins.
fn decide_at_terms(
    alloc: Global,
    state: &State,
    terms: &TermTable,
    classes: &Classes,
    marks: Marks,
) -> Result<Decision, Memory>
    requires basis { IsBasis state.now.basis }
    requires zeroed { NoneZeroed state.now terms.now.nodes }
    requires blocked { AreBlocked state.now marks }
    ensures { IfOk result (λ decision. IsDecision state.now terms.now.nodes classes.now.lists decision) }
{
    let conflict = first_conflict(state);
    if let Some(post) = conflict {
        return Ok(Decision::Conflict(post));
    }
    let equal = first_equal(alloc, state, terms, classes)?;
    if let Some(it) = equal {
        return Ok(Decision::Equal(it));
    }
    let decision = decide_at_end(alloc, state, terms, marks)?;
    Ok(decision)
}

// The answer where no unit applies.
fn decide_at_end(
    alloc: Global,
    state: &State,
    terms: &TermTable,
    marks: Marks,
) -> Result<Decision, Memory>
    requires blocked { AreBlocked state.now marks }
    ensures { IfOk result (λ decision. IsDecisionAtEnd state.now terms.now.nodes decision) }
{
    let unread = first_unread(alloc, state, terms)?;
    if let Some(post) = unread {
        let posts = Posts {
            first: post,
            second: post,
        };
        return Ok(Decision::TooLarge(posts));
    }
    let large = marks.too_large;
    if let Some(posts) = large {
        return Ok(Decision::TooLarge(posts));
    }
    let left = marks.left;
    if let Some(posts) = left {
        return Ok(Decision::AtLimit(posts));
    }
    Ok(Decision::Rest)
}

// The marks of the facts, or those of the pairs where these have none.
fn both_of(posts: Marks, pairs: Marks) -> Marks
    ensures { result ≡ both_of posts pairs }
{
    Marks {
        too_large: first_of(posts.too_large, pairs.too_large),
        left: first_of(posts.left, pairs.left),
    }
}

// The first, or the second where there is no first.
fn first_of(one: Option<Posts>, other: Option<Posts>) -> Option<Posts>
    ensures { result ≡ first_of one other }
{
    match one {
        Some(posts) => Some(posts),
        None => other,
    }
}
