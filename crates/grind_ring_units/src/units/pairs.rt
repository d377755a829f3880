//! Pairs of basis elements, and the normal forms of their S-polynomials.
ghost use Rattle.std.specs.Prelude.{◌≡◌, ◌<◌, length, IfOk, OnOk, Some, slice_get};
ghost use Rattle.grind_ring_basis.specs.Bases.{IsBasis, HasNormalForm};
ghost use Rattle.grind_ring_basis.specs.Pairs.{IsPairAt};
ghost use Rattle.grind_ring_units.specs.PairUnits.{ArePostsAt};
ghost use Rattle.grind_ring_units.specs.Findings.{kept, IsFoundAtPair, IsRowEntered};
ghost use Rattle.grind_ring_units.specs.Scans.{IsPairScan, no_pairs};
ghost use Rattle.grind_ring_units.specs.Agendas.{AreLeft, IsAgenda};

use crate::findings::{Finding, Posts, Scan, form_of, is_case, marked, may_join, no_marks};
use crate::known::{is_claimed, is_zero};
use crate::types::{Agenda, State};
use grind_normal_forms::Reduced;
use grind_outside::{List, Memory};
use grind_polynomials::Poly;
use grind_ring_basis::{Cancelled, Pair, Places, normal_form, pair_line, s_polynomial};
use std::alloc::Global;

// The element at a place.
fn element_at(elements: &[Poly], place: u32) -> &Poly
    requires { place < length elements.now }
    ensures { slice_get elements.now place ≡ Some result.now }
{
    &elements[place as usize]
}

// The post at a place.
fn post_at(posts: &[u32], place: u32) -> u32
    requires { place < length posts.now }
    ensures { slice_get posts.now place ≡ Some result }
{
    posts[place as usize]
}

// What is found at two elements of the basis, the earlier first.
fn found_at_pair(alloc: Global, state: &State, places: Places) -> Result<Finding, Memory>
    requires basis { IsBasis state.now.basis }
    requires rising { places.first < places.second }
    requires within { places.second < length state.now.basis.elements }
    ensures { IfOk result (λ finding. IsFoundAtPair state.now places finding) }
{
    let elements = state.basis.elements.as_slice();
    let first = element_at(elements, places.first);
    let second = element_at(elements, places.second);
    match s_polynomial(alloc, first, second)? {
        Cancelled::TooHigh => Ok(Finding::Settled),
        Cancelled::TooLarge => Ok(Finding::TooLarge),
        Cancelled::Made(pair) => {
            let finding = found_at_polynomial(alloc, state, places, &pair)?;
            Ok(finding)
        }
    }
}

// What is found at the S-polynomial of the two.
fn found_at_polynomial(
    alloc: Global,
    state: &State,
    places: Places,
    pair: &Pair,
) -> Result<Finding, Memory>
    requires basis { IsBasis state.now.basis }
    requires rising { places.first < places.second }
    requires pair { IsPairAt state.now.basis places pair.now }
    ensures { IfOk result (λ finding. IsFoundAtPair state.now places finding) }
{
    let found = normal_form(alloc, &pair.poly, &state.basis)?;
    let Some(normal) = found else {
        return Ok(Finding::TooLarge);
    };
    let finding = found_by_form(alloc, state, places, pair, normal)?;
    Ok(finding)
}

// What is found at the S-polynomial, which has this normal form.
fn found_by_form(
    alloc: Global,
    state: &State,
    places: Places,
    pair: &Pair,
    normal: Reduced,
) -> Result<Finding, Memory>
    requires basis { IsBasis state.now.basis }
    requires rising { places.first < places.second }
    requires pair { IsPairAt state.now.basis places pair.now }
    requires normal { HasNormalForm state.now.basis pair.now.poly normal }
    ensures { IfOk result (λ finding. IsFoundAtPair state.now places finding) }
{
    let Reduced { factor: _, rest } = normal;
    let _terms = pair.poly.terms();
    if is_zero(&rest) {
        return Ok(Finding::Settled);
    }
    if is_claimed(state, &rest) {
        return Ok(Finding::Done);
    }
    let line = pair_line(alloc, &state.basis, places, pair, &rest)?;
    let Some(line) = line else {
        return Ok(Finding::TooLarge);
    };
    Ok(Finding::Form { rest, line })
}

// The posts of the elements at these places.
fn posts_at(state: &State, places: Places) -> Posts
    requires basis { IsBasis state.now.basis }
    requires rising { places.first < places.second }
    requires within { places.second < length state.now.basis.elements }
    ensures { ArePostsAt state.now places result.first result.second }
{
    let posts = state.basis.posts.as_slice();
    let first = post_at(posts, places.first);
    let second = post_at(posts, places.second);
    Posts { first, second }
}

// What comes of the pairs that were left, and which of them are left then.
#[derive(Drop)]
struct Looked {
    scan: Scan,
    pairs: List<Places>,
}

// Puts the pair among those that are left, unless it need not be looked at again.
fn keep(left: &mut List<Places>, places: Places, finding: &Finding) -> Result<(), Memory>
    ensures { OnOk result (left.new ≡ kept left.old places finding.now) }
{
    match finding {
        Finding::Settled => Ok(()),
        _ => {
            left.push(places)?;
            Ok(())
        }
    }
}

// What comes of these pairs: the first whose normal form joins, or what stands in the way.
fn look(alloc: Global, state: &State, pairs: &[Places]) -> Result<Looked, Memory>
    requires basis { IsBasis state.now.basis }
    requires left { AreLeft state.now.basis (length state.now.basis.elements) pairs.now }
    ensures scan { IfOk result (λ it. IsPairScan state.now (length state.now.basis.elements) no_pairs it.scan) }
    ensures left { IfOk result (λ it. AreLeft state.now.basis (length state.now.basis.elements) it.pairs) }
{
    let free = may_join(state);
    let mut marks = no_marks();
    let mut left = List::new(alloc);
    let mut rest = pairs;
    while let Some((places, tail)) = rest.split_first() {
        let finding = found_at_pair(alloc, state, *places)?;
        if is_case(free, &finding) {
            left.extend(rest)?;
            let scan = form_of(finding);
            return Ok(Looked { scan, pairs: left });
        }
        let posts = posts_at(state, *places);
        marks = marked(marks, &finding, posts);
        keep(&mut left, *places, &finding)?;
        rest = tail;
    }
    let scan = Scan::Nothing(marks);
    Ok(Looked { scan, pairs: left })
}

// Enters the pairs of one element with the earlier ones.
fn enter_row(pairs: &mut List<Places>, second: u32) -> Result<(), Memory>
    ensures { OnOk result (IsRowEntered pairs.old second second pairs.new) }
{
    for first in 0..second {
        pairs.push(Places { first, second })?;
    }
    Ok(())
}

// Enters the pairs of the elements from this row on.
fn enter_rows(state: &State, rows: u32, pairs: &mut List<Places>) -> Result<(), Memory>
    requires { AreLeft state.now.basis rows pairs.old }
    ensures { OnOk result (AreLeft state.now.basis (length state.now.basis.elements) pairs.new) }
{
    let count = state.basis.elements.len() as u32;
    for second in rows..count {
        enter_row(pairs, second)?;
    }
    Ok(())
}

/// What comes of all pairs: the first whose normal form joins, or what stands in the way. The agenda says which need not be
/// looked at, and does so after this as well.
///
/// # Errors
///
/// `Memory` if out of memory.
pub fn scan_pairs(alloc: Global, state: &State, agenda: &mut Agenda) -> Result<Scan, Memory>
    requires basis { IsBasis state.now.basis }
    requires agenda { IsAgenda state.now.basis agenda.old }
    ensures scan { IfOk result (λ scan. IsPairScan state.now (length state.now.basis.elements) no_pairs scan) }
    ensures agenda { OnOk result (IsAgenda state.now.basis agenda.new) }
{
    let rows = agenda.rows;
    enter_rows(state, rows, &mut agenda.pairs)?;
    let looked = look(alloc, state, agenda.pairs.as_slice())?;
    let Looked { scan, pairs } = looked;
    agenda.rows = state.basis.elements.len() as u32;
    agenda.pairs = pairs;
    Ok(scan)
}
