//! Products, quotients and multiples of monomials.
ghost use Rattle.std.specs.Prelude.{◌≡◌, ◌↔◌, IsTrue, IfOk};
ghost use Rattle.grind_monomials.specs.Monomials as monomials;

use grind_outside::{List, Memory};
use grind_term_graph::NodeId;
use std::alloc::Global;

/// The product of two monomials.
pub fn product(alloc: Global, a: &[NodeId], b: &[NodeId]) -> Result<List<NodeId>, Memory>
    ensures { IfOk result (λ all. all ≡ monomials.product a.now b.now) }
{
    let mut all = List::new(alloc);
    let mut rest = a;
    let mut others = b;
    while let Some((x, xs)) = rest.split_first() {
        let Some((y, ys)) = others.split_first() else {
            all.extend(rest)?;
            return Ok(all);
        };
        if *y < *x {
            all.push(*y)?;
            others = ys;
        } else {
            all.push(*x)?;
            rest = xs;
        }
    }
    all.extend(others)?;
    Ok(all)
}

/// Whether the first monomial divides the second.
pub fn divides(a: &[NodeId], b: &[NodeId]) -> bool
    ensures { IsTrue result ↔ monomials.Divides a.now b.now }
{
    let mut rest = a;
    let mut others = b;
    while let Some((x, xs)) = rest.split_first() {
        let Some((y, ys)) = others.split_first() else {
            return false;
        };
        if *x < *y {
            return false;
        }
        if *y < *x {
            others = ys;
        } else {
            rest = xs;
            others = ys;
        }
    }
    true
}

/// The first monomial without the nodes of the second: the quotient, where the second divides it.
pub fn quotient(alloc: Global, a: &[NodeId], b: &[NodeId]) -> Result<List<NodeId>, Memory>
    ensures { IfOk result (λ all. all ≡ monomials.quotient a.now b.now) }
{
    let mut all = List::new(alloc);
    let mut rest = a;
    let mut others = b;
    while let Some((x, xs)) = rest.split_first() {
        let Some((y, ys)) = others.split_first() else {
            all.extend(rest)?;
            return Ok(all);
        };
        if *y < *x {
            others = ys;
        } else if *x < *y {
            all.push(*x)?;
            rest = xs;
        } else {
            rest = xs;
            others = ys;
        }
    }
    Ok(all)
}

/// The least common multiple of two monomials.
pub fn least_common_multiple(
    alloc: Global,
    a: &[NodeId],
    b: &[NodeId],
) -> Result<List<NodeId>, Memory>
    ensures { IfOk result (λ all. all ≡ monomials.least_common_multiple a.now b.now) }
{
    let more = quotient(alloc, b, a)?;
    let all = product(alloc, a, more.as_slice())?;
    Ok(all)
}
