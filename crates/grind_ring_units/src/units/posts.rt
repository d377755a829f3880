//! Polynomials that were taken, and their normal forms.
ghost use Rattle.std.specs.Prelude.{IfOk};
ghost use Rattle.grind_ring_basis.specs.Bases.{IsBasis, HasNormalForm};
ghost use Rattle.grind_ring_units.specs.Findings.{IsFoundAtPost, IsCaseScan};
ghost use Rattle.grind_ring_units.specs.Scans.{IsPostScan};

use crate::findings::{Finding, Posts, Scan, is_case, marked, may_join, no_marks};
use crate::known::{is_claimed, is_zero};
use crate::types::State;
use grind_differences::is_same_poly;
use grind_normal_forms::Reduced;
use grind_outside::Memory;
use grind_ring_basis::{Fact, normal_form, post_line};
use std::alloc::Global;

// What is found at a fact.
fn found_at_post(alloc: Global, state: &State, it: &Fact) -> Result<Finding, Memory>
    requires { IsBasis state.now.basis }
    ensures { IfOk result (λ finding. IsFoundAtPost state.now it.now finding) }
{
    let found = normal_form(alloc, &it.poly, &state.basis)?;
    let Some(normal) = found else {
        return Ok(Finding::TooLarge);
    };
    let finding = found_by_form(alloc, state, it, normal)?;
    Ok(finding)
}

// What is found at a fact with this normal form.
fn found_by_form(
    alloc: Global,
    state: &State,
    it: &Fact,
    normal: Reduced,
) -> Result<Finding, Memory>
    requires basis { IsBasis state.now.basis }
    requires normal { HasNormalForm state.now.basis it.now.poly normal }
    ensures { IfOk result (λ finding. IsFoundAtPost state.now it.now finding) }
{
    let Reduced { factor: _, rest } = normal;
    if is_zero(&rest) {
        return Ok(Finding::Done);
    }
    if is_same_poly(&rest, &it.poly) {
        return Ok(Finding::Own);
    }
    if is_claimed(state, &rest) {
        return Ok(Finding::Done);
    }
    let line = post_line(alloc, &state.basis, it, &rest)?;
    let Some(line) = line else {
        return Ok(Finding::TooLarge);
    };
    Ok(Finding::Form { rest, line })
}

/// What comes of the facts that were taken: the first that joins as it is or whose normal form joins, or what stands in the
/// way.
///
/// # Errors
///
/// `Memory` if out of memory.
pub fn scan_posts(alloc: Global, state: &State) -> Result<Scan, Memory>
    requires { IsBasis state.now.basis }
    ensures { IfOk result (λ scan. IsPostScan state.now scan) }
{
    let free = may_join(state);
    let mut marks = no_marks();
    let mut rest = state.taken.as_slice();
    while let Some((it, tail)) = rest.split_first() {
        let finding = found_at_post(alloc, state, it)?;
        if is_case(free, &finding) {
            let scan = case_at(alloc, finding, it)?;
            return Ok(scan);
        }
        let posts = Posts {
            first: it.post,
            second: it.post,
        };
        marks = marked(marks, &finding, posts);
        rest = tail;
    }
    Ok(Scan::Nothing(marks))
}

// The scan that ends with what is found at the fact.
fn case_at(alloc: Global, finding: Finding, it: &Fact) -> Result<Scan, Memory>
    ensures { IfOk result (λ scan. IsCaseScan finding it.now scan) }
{
    match finding {
        Finding::Own => {
            let poly = it.poly.copy(alloc)?;
            Ok(Scan::Own(Fact {
                post: it.post,
                poly,
            }))
        }
        Finding::Form { rest, line } => Ok(Scan::Form { rest, line }),
        Finding::Done => Ok(Scan::Nothing(no_marks())),
        Finding::Settled => Ok(Scan::Nothing(no_marks())),
        Finding::TooLarge => Ok(Scan::Nothing(no_marks())),
    }
}
