//! Premises with their factors, put into the order of their posts.
ghost use Rattle.std.specs.Prelude.{◌≡◌, IfOk, OnOk};
ghost use Rattle.grind_normal_forms.specs.Gathering.{has_terms};
ghost use Rattle.grind_ring_basis.specs.Shares.{share, shares_of, with_share, with_shares};

use crate::types::{Basis, Share};
use grind_outside::{List, Memory};
use grind_polynomials::Poly;
use std::alloc::Global;
use std::collections::BTreeMap;

// The premises by their posts, the least first.
pub(crate) type Ordered = BTreeMap<u32, Share>;

// Puts one more premise at its place, if its factor is not 0.
pub(crate) fn put_share(
    alloc: Global,
    all: &mut Ordered,
    post: u32,
    poly: &Poly,
    factor: &Poly,
) -> Result<(), Memory>
    ensures { OnOk result (all.new.entries ≡ with_share all.old.entries (share post poly.now factor.now)) }
{
    if factor.terms().is_empty() {
        return Ok(());
    }
    let poly = poly.copy(alloc)?;
    let factor = factor.copy(alloc)?;
    all.insert(post, Share { poly, factor })?;
    Ok(())
}

// Puts the elements of a basis at their places, each with its factor.
pub(crate) fn put_elements(
    alloc: Global,
    all: &mut Ordered,
    basis: &Basis,
    list: &List<Poly>,
) -> Result<(), Memory>
    ensures { OnOk result (all.new.entries
        ≡ with_shares all.old.entries (shares_of basis.now.posts basis.now.elements list.now)) }
{
    let mut posts = basis.posts.as_slice();
    let mut elements = basis.elements.as_slice();
    let mut factors = list.as_slice();
    while let Some((post, posts_tail)) = posts.split_first() {
        let Some((element, elements_tail)) = elements.split_first() else {
            return Ok(());
        };
        let Some((factor, factors_tail)) = factors.split_first() else {
            return Ok(());
        };
        put_share(alloc, all, *post, element, factor)?;
        posts = posts_tail;
        elements = elements_tail;
        factors = factors_tail;
    }
    Ok(())
}
