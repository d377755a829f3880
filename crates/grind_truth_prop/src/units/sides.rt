//! The sides of an equation that is known.
ghost use Rattle.std.specs.Prelude.{◌≡◌, ◌<◌, ◌⊎◌, false, Contains, length, IfSome, IsNone, IsTrue};
ghost use Rattle.indexmap.specs.IndexMap.{get};
ghost use Rattle.grind_classes.specs.Classes.{AreTogether};
ghost use Rattle.grind_truth_prop.specs.Kernel.{IsEquation};
ghost use Rattle.grind_truth_prop.specs.Given.{Fits, KnownToHold, KnownToFail};
ghost use Rattle.grind_truth_prop.specs.Pairs.{couple_eq, Finds};
ghost use Rattle.grind_truth_prop.specs.Sides.{HasToJoin, HasToPart, HasSides, HasNoSides, NoSides};

use crate::known::{fails, holds};
use crate::pairs::stands_in;
use crate::terms::sides_of;
use crate::types::{Couple, Known};
use grind_classes::Classes;
use grind_term_graph::NodeId;
use indexmap::IndexMap;

/// Whether the equation of that number holds and its sides are to be joined.
fn has_to_join(
    known: &Known,
    classes: &Classes,
    same: &IndexMap<Couple, u32>,
    n: NodeId,
    sides: &Couple,
) -> bool
    requires fits { Fits known.now classes.now.lists }
    requires same { Finds (λ pair. get couple_eq same.now pair) known.now.same }
    requires equation { IsEquation known.now.terms.nodes n sides.now.left sides.now.right }
    ensures yes { IsTrue result → HasToJoin known.now classes.now.lists n sides.now.left sides.now.right }
    ensures no { result ≡ false → KnownToHold known.now n
        → AreTogether classes.now.lists sides.now.left sides.now.right ⊎ Contains known.now.same sides.now }
{
    if !holds(known, n) {
        return false;
    }
    if classes.same(sides.left, sides.right) {
        return false;
    }
    !stands_in(same, known.same.as_slice(), sides)
}

/// Whether the equation of that number fails and its sides are to be parted.
fn has_to_part(known: &Known, apart: &IndexMap<Couple, u32>, n: NodeId, sides: &Couple) -> bool
    requires apart { Finds (λ pair. get couple_eq apart.now pair) known.now.apart }
    ensures yes { IsTrue result → HasToPart known.now n sides.now.left sides.now.right }
    ensures no { result ≡ false → KnownToFail known.now n → Contains known.now.apart sides.now }
{
    if !fails(known, n) {
        return false;
    }
    !stands_in(apart, known.apart.as_slice(), sides)
}

/// Whether something follows for the sides of the equation of that number.
pub fn has_sides(
    known: &Known,
    classes: &Classes,
    same: &IndexMap<Couple, u32>,
    apart: &IndexMap<Couple, u32>,
    n: NodeId,
) -> bool
    requires fits { Fits known.now classes.now.lists }
    requires within { n < length known.now.terms.nodes }
    requires same { Finds (λ pair. get couple_eq same.now pair) known.now.same }
    requires apart { Finds (λ pair. get couple_eq apart.now pair) known.now.apart }
    ensures yes { IsTrue result → HasSides known.now classes.now.lists n }
    ensures no { result ≡ false → HasNoSides known.now classes.now.lists n }
{
    let Some(sides) = sides_of(&known.terms, n) else {
        return false;
    };
    if has_to_join(known, classes, same, n, &sides) {
        return true;
    }
    has_to_part(known, apart, n, &sides)
}

/// The first known equation for whose sides something follows.
pub fn first_sides(
    known: &Known,
    classes: &Classes,
    same: &IndexMap<Couple, u32>,
    apart: &IndexMap<Couple, u32>,
) -> Option<NodeId>
    requires fits { Fits known.now classes.now.lists }
    requires same { Finds (λ pair. get couple_eq same.now pair) known.now.same }
    requires apart { Finds (λ pair. get couple_eq apart.now pair) known.now.apart }
    ensures found { IfSome result (λ node. HasSides known.now classes.now.lists node) }
    ensures none { IsNone result → NoSides known.now classes.now.lists }
{
    for number in 0..known.terms.len() {
        let node = NodeId::new(number);
        if has_sides(known, classes, same, apart, node) {
            return Some(node);
        }
    }
    None
}
