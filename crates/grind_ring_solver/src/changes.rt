//! What changes in what the solver knows.
ghost use Rattle.std.specs.Prelude.{◌≡◌, ◌≢◌, ◌+◌, ◌<◌, [], true, false, IfOk, OnOk, OnErr};
ghost use Rattle.grind_arithmetic_rules.specs.PolyRules.{CoefficientsFit};
ghost use Rattle.grind_ring_basis.specs.Bases.{fact, ReducesToZero};
ghost use Rattle.grind_ring_units.specs.Given.{Knows};
ghost use Rattle.grind_ring_units.specs.Scans.{MayJoin};
ghost use Rattle.grind_ring_units.specs.Agendas.{IsAgenda};
ghost use Rattle.grind_ring_solver.specs.Given.{IsIrreducible, IsState, with_equality, with_fact, IsTaken};
ghost use Rattle.grind_ring_solver.specs.Steps.{with_element, joined, added, noted, IsStep};
ghost use Rattle.grind_ring_solver.specs.Decisions.{is_ideal_rule, added_step, equal_step};

use crate::decision::{Decision, Setting, decide};
use crate::types::RingStep;
use grind_claims::{Claim, Rule};
use grind_outside::Memory;
use grind_polynomials::Poly;
use grind_ring_basis::{Basis, Combination, Fact};
use grind_ring_units::{Agenda, EqualTerms, Equality, State};
use std::alloc::Global;

// The element joins the basis; where memory was wanted, the basis is as it was.
fn join_basis(basis: &mut Basis, it: Fact) -> Result<(), Memory>
    ensures ok { OnOk result (basis.new ≡ with_element basis.old it) }
    ensures err { OnErr result (basis.new ≡ basis.old) }
{
    let Fact { post, poly } = it;
    let count = basis.posts.len();
    basis.posts.push(post)?;
    let pushed = basis.elements.push(poly);
    let Ok(()) = pushed else {
        basis.posts.truncate(count);
        return Err(Memory);
    };
    Ok(())
}

// The fact joins the basis as it is.
fn join(state: &mut State, it: Fact) -> Result<(), Memory>
    requires state { IsState state.old }
    requires nonzero { it.poly ≢ [] }
    requires known { Knows state.old it }
    ensures ok { OnOk result (state.new ≡ joined state.old it) }
    ensures keeps { IsState state.new }
{
    let _terms = it.poly.terms();
    join_basis(&mut state.basis, it)?;
    Ok(())
}

// The fact is known besides.
fn know(state: &mut State, it: Fact) -> Result<(), Memory>
    requires state { IsState state.old }
    requires zero { ReducesToZero state.old.basis it.poly }
    ensures ok { OnOk result (state.new ≡ noted state.old it) }
    ensures keeps { IsState state.new }
{
    let _terms = it.poly.terms();
    state.own.push(it)?;
    Ok(())
}

// The next number, where it is at most the limit.
fn one_more(made: u32, limit: u32) -> u32
    requires { made < limit }
    ensures { result ≡ made + 1 }
{
    made + 1
}

// The normal form joins the basis under the number of the next post, and is known. Both are the same fact.
fn add(state: &mut State, it: Fact, known: Fact) -> Result<(), Memory>
    requires state { IsState state.old }
    requires same { known ≡ it }
    requires nonzero { it.poly ≢ [] }
    requires fits { CoefficientsFit it.poly }
    requires irreducible { IsIrreducible state.old.basis it.poly }
    requires free { MayJoin state.old }
    ensures ok { OnOk result (state.new ≡ added state.old it) }
    ensures keeps { IsState state.new }
{
    let _terms = it.poly.terms();
    let count = state.own.len();
    state.own.push(known)?;
    let joined = join_basis(&mut state.basis, it);
    let Ok(()) = joined else {
        state.own.truncate(count);
        return Err(Memory);
    };
    let limit = state.limit;
    state.made = one_more(state.made, limit);
    Ok(())
}

// The normal form joins the basis under the number of the next post.
fn add_form(alloc: Global, state: &mut State, next: u32, rest: &Poly) -> Result<(), Memory>
    requires state { IsState state.old }
    requires nonzero { rest.now ≢ [] }
    requires fits { CoefficientsFit rest.now }
    requires irreducible { IsIrreducible state.old.basis rest.now }
    requires free { MayJoin state.old }
    ensures ok { OnOk result (state.new ≡ added state.old (fact next rest.now)) }
    ensures keeps { IsState state.new }
{
    let poly = rest.copy(alloc)?;
    let it = Fact { post: next, poly };
    let poly = rest.copy(alloc)?;
    let known = Fact { post: next, poly };
    add(state, it, known)?;
    Ok(())
}

// Whether the rule is `ideal`.
fn is_ideal_rule(rule: &Rule) -> bool
    ensures { result ≡ is_ideal_rule rule.now }
{
    matches!(
        rule,
        Rule::Ideal {
            divisor: _,
            factors: _
        }
    )
}

// The polynomial of two equal terms is known under the number of the next post, where no post said before that it is 0.
fn note(alloc: Global, state: &mut State, next: u32, poly: &Poly, rule: &Rule) -> Result<(), Memory>
    requires state { IsState state.old }
    requires zero { is_ideal_rule rule.now ≡ true → ReducesToZero state.old.basis poly.now }
    ensures ideal { OnOk result (is_ideal_rule rule.now ≡ true → state.new ≡ noted state.old (fact next poly.now)) }
    ensures other { OnOk result (is_ideal_rule rule.now ≡ false → state.new ≡ state.old) }
    ensures keeps { IsState state.new }
{
    if !is_ideal_rule(rule) {
        return Ok(());
    }
    let poly = poly.copy(alloc)?;
    know(state, Fact { post: next, poly })?;
    Ok(())
}

// The equality is taken.
fn take_equality(state: &mut State, it: Equality) -> Result<(), Memory>
    requires { IsState state.old }
    ensures ok { OnOk result (state.new ≡ with_equality state.old it.post it.left it.right) }
    ensures keeps { IsState state.new }
{
    state.equalities.push(it)?;
    Ok(())
}

// The fact is taken.
fn take_fact(state: &mut State, it: Fact) -> Result<(), Memory>
    requires { IsState state.old }
    ensures ok { OnOk result (state.new ≡ with_fact state.old it) }
    ensures keeps { IsState state.new }
{
    state.taken.push(it)?;
    Ok(())
}

// The claim of a post is taken.
pub(crate) fn take(alloc: Global, state: &mut State, post: u32, claim: &Claim) -> Result<(), Memory>
    requires { IsState state.old }
    ensures ok { OnOk result (IsTaken state.old post claim.now state.new) }
    ensures keeps { IsState state.new }
{
    match claim {
        Claim::Same(left, right) => {
            let it = Equality {
                post,
                left: *left,
                right: *right,
            };
            take_equality(state, it)?;
            Ok(())
        }
        Claim::Zero(poly) => {
            let poly = poly.copy(alloc)?;
            take_fact(state, Fact { post, poly })?;
            Ok(())
        }
        Claim::Holds(_) => Ok(()),
        Claim::Fails(_) => Ok(()),
        Claim::Differ(_, _) => Ok(()),
        Claim::AtMost(_) => Ok(()),
        Claim::Absurd => Ok(()),
    }
}

// The next answer, and what is known after it.
pub(crate) fn answer(
    alloc: Global,
    state: &mut State,
    agenda: &mut Agenda,
    setting: &Setting,
    next: u32,
) -> Result<RingStep, Memory>
    requires state { IsState state.old }
    requires agenda { IsAgenda state.old.basis agenda.old }
    ensures ok { IfOk result (λ step. IsStep state.old setting.now.terms.now.nodes setting.now.classes.now.lists next step state.new) }
    ensures keeps { IsState state.new }
    ensures agenda { OnOk result (IsAgenda state.old.basis agenda.new) }
{
    let decision = decide(alloc, state, agenda, setting)?;
    match decision {
        Decision::Zeroed(post) => Ok(RingStep::Zeroed { post }),
        Decision::Joins(it) => {
            let post = it.post;
            join(state, it)?;
            Ok(RingStep::Joins(post))
        }
        Decision::Adds { rest, line } => {
            add_form(alloc, state, next, &rest)?;
            Ok(added_step(rest, line))
        }
        Decision::Conflict(post) => Ok(RingStep::Conflict(post)),
        Decision::Equal(it) => {
            note(alloc, state, next, &it.poly, &it.rule)?;
            Ok(equal_step(it))
        }
        Decision::TooLarge(posts) => Ok(RingStep::Overflow {
            first: posts.first,
            second: posts.second,
        }),
        Decision::AtLimit(posts) => Ok(RingStep::AtLimit {
            first: posts.first,
            second: posts.second,
        }),
        Decision::Rest => Ok(RingStep::Rest),
    }
}

// The answer that this normal form joins by this line.
fn added_step(rest: Poly, line: Combination) -> RingStep
    ensures { result ≡ added_step rest line }
{
    let Combination {
        divisor,
        factors,
        from,
    } = line;
    let rule = Rule::Ideal { divisor, factors };
    RingStep::Added { rest, rule, from }
}

// The answer that these terms are equal.
fn equal_step(it: EqualTerms) -> RingStep
    ensures { result ≡ equal_step it }
{
    let EqualTerms {
        left,
        right,
        poly,
        rule,
        from,
    } = it;
    RingStep::Equal {
        left,
        right,
        rest: poly,
        rule,
        from,
    }
}
