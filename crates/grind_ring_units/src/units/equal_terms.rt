//! Terms in different classes whose polynomials have the same normal form.
ghost use Rattle.std.specs.Prelude.{◌≡◌, ◌↔◌, ◌<◌, IfOk, OnOk, IsTrue, MatchOption, length};
ghost use Rattle.grind_differences.specs.Differences.{poly_reading};
ghost use Rattle.grind_ring_basis.specs.Bases.{IsBasis};
ghost use Rattle.grind_ring_basis.specs.Lines.{IsDifferenceLine};
ghost use Rattle.grind_ring_units.specs.Given.{IsClaimed};
ghost use Rattle.grind_ring_units.specs.EqualTerms.{HasNormalTerm, IsTakenAsEqual, AreAlike, IsEqualLine, AreEqualTerms, NoEqualTerms};
ghost use Rattle.grind_ring_units.specs.NormalTerms.{with_found, IsNormalTermOf, NoneAt, AreNormalTerms, NoneEqualTo, NoneAmong};

use crate::known::{claimed_by, is_zero};
use crate::types::{Equality, State};
use grind_claims::Rule;
use grind_classes::Classes;
use grind_differences::{is_number, is_same_poly, poly_difference};
use grind_normal_forms::Reduced;
use grind_outside::{List, Memory};
use grind_polynomials::{Poly, PolyRefusal, poly_of};
use grind_ring_basis::{Combination, difference_line, normal_form};
use grind_term_graph::{NodeId, TermTable};
use std::alloc::Global;

// What is looked at: what the solver knows, the terms and the classes.
#[derive(Drop)]
struct Setting<'a> {
    state: &'a State,
    terms: &'a TermTable,
    classes: &'a Classes,
}

// A term and the normal form of its polynomial.
#[derive(Drop)]
pub(crate) struct NormalTerm {
    pub(crate) node: NodeId,
    pub(crate) normal: Reduced,
}

// Two terms with their normal forms.
#[derive(Drop)]
struct TwoTerms<'a> {
    first: &'a NormalTerm,
    second: &'a NormalTerm,
}

// A rule, and the posts that a line by it rests on.
#[derive(Drop)]
struct EqualLine {
    rule: Rule,
    from: List<u32>,
}

/// Two terms that are equal, and the line by which they are.
#[derive(Drop)]
pub struct EqualTerms {
    /// The first term.
    pub left: NodeId,
    /// The second term.
    pub right: NodeId,
    /// The polynomial of the first, less that of the second.
    pub poly: Poly,
    /// The rule.
    pub rule: Rule,
    /// The posts that it rests on.
    pub from: List<u32>,
}

// The polynomial of a whole number, where it is defined.
fn poly_reading(alloc: Global, terms: &TermTable, node: NodeId) -> Result<Option<Poly>, Memory>
    ensures { IfOk result (λ found. found ≡ poly_reading terms.now.nodes node) }
{
    if !is_number(terms, node) {
        return Ok(None);
    }
    match poly_of(alloc, terms, node) {
        Ok(poly) => Ok(Some(poly)),
        Err(PolyRefusal::Overflow) => Ok(None),
        Err(PolyRefusal::Degree) => Ok(None),
        Err(PolyRefusal::Memory) => Err(Memory),
    }
}

// The normal form of the polynomial of an active term, where there is one.
fn normal_term(alloc: Global, setting: &Setting, node: NodeId) -> Result<Option<NormalTerm>, Memory>
    requires { IsBasis setting.now.state.now.basis }
    ensures { IfOk result (λ found. MatchOption found
        (NoneAt setting.now.state.now setting.now.terms.now.nodes setting.now.classes.now.lists node)
        (λ it. IsNormalTermOf setting.now.state.now setting.now.terms.now.nodes setting.now.classes.now.lists node it)) }
{
    if !setting.classes.is_active(node) {
        return Ok(None);
    }
    let reading = poly_reading(alloc, setting.terms, node)?;
    let Some(poly) = reading else {
        return Ok(None);
    };
    let found = normal_form(alloc, &poly, &setting.state.basis)?;
    let Some(normal) = found else {
        return Ok(None);
    };
    Ok(Some(NormalTerm { node, normal }))
}

// Puts what was found at the end of the list.
fn put_found(all: &mut List<NormalTerm>, found: Option<NormalTerm>) -> Result<(), Memory>
    ensures { OnOk result (all.new ≡ with_found all.old found) }
{
    match found {
        Some(it) => {
            all.push(it)?;
            Ok(())
        }
        None => Ok(()),
    }
}

// The active terms that have normal forms.
fn normal_terms(alloc: Global, setting: &Setting) -> Result<List<NormalTerm>, Memory>
    requires { IsBasis setting.now.state.now.basis }
    ensures { IfOk result (λ all. AreNormalTerms setting.now.state.now setting.now.terms.now.nodes setting.now.classes.now.lists
        (length setting.now.terms.now.nodes) all) }
{
    let mut all = List::new(alloc);
    for number in 0..setting.terms.len() {
        let node = NodeId::new(number);
        let found = normal_term(alloc, setting, node)?;
        put_found(&mut all, found)?;
    }
    Ok(all)
}

// Whether the equality is of these two, in this order.
fn is_between(it: &Equality, a: NodeId, b: NodeId) -> bool
    ensures { IsTrue result ↔ ((it.now.left ≡ a) × (it.now.right ≡ b)) }
{
    it.left == a && it.right == b
}

// Whether a post that was taken says that the two are equal, in this order.
fn is_taken_as_equal(state: &State, a: NodeId, b: NodeId) -> bool
    ensures { IsTrue result ↔ IsTakenAsEqual state.now a b }
{
    let mut rest = state.equalities.as_slice();
    while let Some((it, tail)) = rest.split_first() {
        if is_between(it, a, b) {
            return true;
        }
        rest = tail;
    }
    false
}

// Whether the two normal forms are one.
fn is_same_normal(one: &Reduced, other: &Reduced) -> bool
    ensures { IsTrue result ↔ (one.now ≡ other.now) }
{
    if one.factor != other.factor {
        return false;
    }
    is_same_poly(&one.rest, &other.rest)
}

// The polynomial of the first term less that of the second, where they are alike: in different classes, with one normal
// form, and not taken as equal.
fn alike(alloc: Global, setting: &Setting, pair: &TwoTerms) -> Result<Option<Poly>, Memory>
    requires first { HasNormalTerm setting.now.state.now setting.now.terms.now.nodes setting.now.classes.now.lists
        pair.now.first.now.node pair.now.first.now.normal }
    requires second { HasNormalTerm setting.now.state.now setting.now.terms.now.nodes setting.now.classes.now.lists
        pair.now.second.now.node pair.now.second.now.normal }
    ensures { IfOk result (λ found. MatchOption found
        ((poly : _) → ¬ AreAlike setting.now.state.now setting.now.terms.now.nodes setting.now.classes.now.lists
        pair.now.first.now.node pair.now.second.now.node poly)
        (λ poly. AreAlike setting.now.state.now setting.now.terms.now.nodes setting.now.classes.now.lists
        pair.now.first.now.node pair.now.second.now.node poly)) }
{
    let a = pair.first.node;
    let b = pair.second.node;
    if setting.classes.same(a, b) {
        return Ok(None);
    }
    if is_taken_as_equal(setting.state, a, b) {
        return Ok(None);
    }
    if !is_same_normal(&pair.first.normal, &pair.second.normal) {
        return Ok(None);
    }
    let found = poly_difference(alloc, setting.terms, a, b)?;
    Ok(found)
}

// The line by which the polynomial is 0: from a post that says so, or over the basis; None exactly where there is none.
fn equal_line(alloc: Global, state: &State, poly: &Poly) -> Result<Option<EqualLine>, Memory>
    requires { IsBasis state.now.basis }
    ensures { IfOk result (λ found. MatchOption found
        ((rule : _) (from : _) → ¬ IsEqualLine state.now poly.now rule from)
        (λ line. IsEqualLine state.now poly.now line.rule line.from)) }
{
    let claimed = claimed_by(state, poly);
    let Some(post) = claimed else {
        let line = ideal_line(alloc, state, poly)?;
        return Ok(line);
    };
    let mut from = List::new(alloc);
    from.push(post)?;
    let rule = Rule::Equal;
    Ok(Some(EqualLine { rule, from }))
}

// The line over the basis, where no post says that the polynomial is 0.
fn ideal_line(alloc: Global, state: &State, poly: &Poly) -> Result<Option<EqualLine>, Memory>
    requires basis { IsBasis state.now.basis }
    requires none { ¬ IsClaimed state.now poly.now }
    ensures { IfOk result (λ found. MatchOption found
        ((rule : _) (from : _) → ¬ IsEqualLine state.now poly.now rule from)
        (λ line. IsEqualLine state.now poly.now line.rule line.from)) }
{
    let found = zero_line(alloc, state, poly)?;
    let Some(line) = found else {
        return Ok(None);
    };
    let Combination {
        divisor,
        factors,
        from,
    } = line;
    let rule = Rule::Ideal { divisor, factors };
    Ok(Some(EqualLine { rule, from }))
}

// The line over the basis by which a polynomial with the normal form 0 is 0.
fn zero_line(alloc: Global, state: &State, poly: &Poly) -> Result<Option<Combination>, Memory>
    requires { IsBasis state.now.basis }
    ensures { IfOk result (λ found. MatchOption found
        ((line : _) → ¬ IsDifferenceLine state.now.basis poly.now line)
        (λ line. IsDifferenceLine state.now.basis poly.now line)) }
{
    let found = normal_form(alloc, poly, &state.basis)?;
    let Some(normal) = found else {
        return Ok(None);
    };
    if !is_zero(&normal.rest) {
        return Ok(None);
    }
    let line = difference_line(alloc, &state.basis, poly)?;
    Ok(line)
}

// The two as equal terms, where they are alike and there is a line.
fn equal_at(alloc: Global, setting: &Setting, pair: &TwoTerms) -> Result<Option<EqualTerms>, Memory>
    requires basis { IsBasis setting.now.state.now.basis }
    requires first { HasNormalTerm setting.now.state.now setting.now.terms.now.nodes setting.now.classes.now.lists
        pair.now.first.now.node pair.now.first.now.normal }
    requires second { HasNormalTerm setting.now.state.now setting.now.terms.now.nodes setting.now.classes.now.lists
        pair.now.second.now.node pair.now.second.now.normal }
    ensures { IfOk result (λ found. MatchOption found
        (NoneEqualTo setting.now.state.now setting.now.terms.now.nodes setting.now.classes.now.lists
        pair.now.first.now.node pair.now.second.now.node)
        (λ it. (it.left ≡ pair.now.first.now.node) × (it.right ≡ pair.now.second.now.node)
        × AreEqualTerms setting.now.state.now setting.now.terms.now.nodes setting.now.classes.now.lists
        it.left it.right it.poly it.rule it.from)) }
{
    let found = alike(alloc, setting, pair)?;
    let Some(poly) = found else {
        return Ok(None);
    };
    let line = equal_line(alloc, setting.state, &poly)?;
    let Some(line) = line else {
        return Ok(None);
    };
    let EqualLine { rule, from } = line;
    Ok(Some(EqualTerms {
        left: pair.first.node,
        right: pair.second.node,
        poly,
        rule,
        from,
    }))
}

// The first term of the list that is equal to this one, with the line by which they are.
fn equal_to(
    alloc: Global,
    setting: &Setting,
    first: &NormalTerm,
    all: &List<NormalTerm>,
) -> Result<Option<EqualTerms>, Memory>
    requires basis { IsBasis setting.now.state.now.basis }
    requires first { HasNormalTerm setting.now.state.now setting.now.terms.now.nodes setting.now.classes.now.lists
        first.now.node first.now.normal }
    requires all { AreNormalTerms setting.now.state.now setting.now.terms.now.nodes setting.now.classes.now.lists
        (length setting.now.terms.now.nodes) all.now }
    ensures { IfOk result (λ found. MatchOption found
        (NoneAmong setting.now.state.now setting.now.terms.now.nodes setting.now.classes.now.lists first.now.node all.now)
        (λ it. AreEqualTerms setting.now.state.now setting.now.terms.now.nodes setting.now.classes.now.lists
        it.left it.right it.poly it.rule it.from)) }
{
    let mut rest = all.as_slice();
    while let Some((second, tail)) = rest.split_first() {
        let pair = TwoTerms { first, second };
        let found = equal_at(alloc, setting, &pair)?;
        if let Some(it) = found {
            return Ok(Some(it));
        }
        rest = tail;
    }
    Ok(None)
}

// The first two terms of the list that are equal, with the line by which they are.
fn equal_among(
    alloc: Global,
    setting: &Setting,
    all: &List<NormalTerm>,
) -> Result<Option<EqualTerms>, Memory>
    requires basis { IsBasis setting.now.state.now.basis }
    requires all { AreNormalTerms setting.now.state.now setting.now.terms.now.nodes setting.now.classes.now.lists
        (length setting.now.terms.now.nodes) all.now }
    ensures { IfOk result (λ found. MatchOption found
        (NoEqualTerms setting.now.state.now setting.now.terms.now.nodes setting.now.classes.now.lists)
        (λ it. AreEqualTerms setting.now.state.now setting.now.terms.now.nodes setting.now.classes.now.lists
        it.left it.right it.poly it.rule it.from)) }
{
    let mut rest = all.as_slice();
    while let Some((first, tail)) = rest.split_first() {
        let found = equal_to(alloc, setting, first, all)?;
        if let Some(it) = found {
            return Ok(Some(it));
        }
        rest = tail;
    }
    Ok(None)
}

/// The first two terms in different classes that have one normal form, with the line by which they are equal.
///
/// # Errors
///
/// `Memory` if out of memory.
pub fn first_equal(
    alloc: Global,
    state: &State,
    terms: &TermTable,
    classes: &Classes,
) -> Result<Option<EqualTerms>, Memory>
    requires { IsBasis state.now.basis }
    ensures { IfOk result (λ found. MatchOption found
        (NoEqualTerms state.now terms.now.nodes classes.now.lists)
        (λ it. AreEqualTerms state.now terms.now.nodes classes.now.lists it.left it.right it.poly it.rule it.from)) }
{
    let setting = Setting {
        state,
        terms,
        classes,
    };
    let all = normal_terms(alloc, &setting)?;
    let found = equal_among(alloc, &setting, &all)?;
    Ok(found)
}
