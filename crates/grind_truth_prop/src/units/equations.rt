//! Equations that are not known, between sides of which it is known whether they are equal.
ghost use Rattle.std.specs.Prelude.{◌<◌, length, IfSome, IsNone};
ghost use Rattle.indexmap.specs.IndexMap.{get};
ghost use Rattle.grind_classes.specs.Classes.{IsActive, IsPartition};
ghost use Rattle.grind_truth_prop.specs.Given.{Fits};
ghost use Rattle.grind_truth_prop.specs.Pairs.{couple_eq, FindsParted, IsPartedPlace};
ghost use Rattle.grind_truth_prop.specs.Equations.{AreNotParted, HasNoEquation, NoEquation};
ghost use Rattle.grind_truth_prop.specs.Findings.{IsEquated};

use crate::known::is_known;
use crate::pairs::{place_of, roots_of_pair};
use crate::terms::sides_of;
use crate::types::{Couple, Known};
use grind_classes::Classes;
use grind_term_graph::NodeId;
use indexmap::IndexMap;

/// What is known of the sides of an equation.
#[derive(Clone, Copy, Debug)]
pub enum Equated {
    /// They are in one class.
    Joined,
    /// They are up to class the different nodes at that place.
    Parted(u32),
}

/// An unknown equation, and what is known of its sides.
#[derive(Clone, Copy, Debug)]
pub struct Equation {
    /// The equation.
    pub node: NodeId,
    /// What is known of its sides.
    pub equated: Equated,
}

/// The place of two different nodes that are the two of the pair up to class, in this order or the other.
fn parted_place(
    known: &Known,
    classes: &Classes,
    parted: &IndexMap<Couple, u32>,
    sides: &Couple,
) -> Option<u32>
    requires partition { IsPartition classes.now.lists }
    requires parted { FindsParted known.now classes.now.lists (λ pair. get couple_eq parted.now pair) }
    requires left { IsActive classes.now.lists sides.now.left }
    requires right { IsActive classes.now.lists sides.now.right }
    ensures found { IfSome result (λ place. IsPartedPlace known.now classes.now.lists sides.now.left sides.now.right place) }
    ensures none { IsNone result → AreNotParted known.now classes.now.lists sides.now.left sides.now.right }
{
    let roots = roots_of_pair(classes, sides);
    if let Some(place) = place_of(parted, &roots) {
        return Some(place);
    }
    let turned = Couple {
        left: roots.right,
        right: roots.left,
    };
    place_of(parted, &turned)
}

/// What is known of the sides of the equation of that number, if it is an unknown one.
pub fn equated_at(
    known: &Known,
    classes: &Classes,
    parted: &IndexMap<Couple, u32>,
    n: NodeId,
) -> Option<Equated>
    requires fits { Fits known.now classes.now.lists }
    requires partition { IsPartition classes.now.lists }
    requires parted { FindsParted known.now classes.now.lists (λ pair. get couple_eq parted.now pair) }
    requires within { n < length known.now.terms.nodes }
    ensures found { IfSome result (λ equated. IsEquated known.now classes.now.lists n equated) }
    ensures none { IsNone result → HasNoEquation known.now classes.now.lists n }
{
    if !classes.is_active(n) {
        return None;
    }
    if is_known(known, n) {
        return None;
    }
    let Some(sides) = sides_of(&known.terms, n) else {
        return None;
    };
    if classes.same(sides.left, sides.right) {
        return Some(Equated::Joined);
    }
    let Some(place) = parted_place(known, classes, parted, &sides) else {
        return None;
    };
    Some(Equated::Parted(place))
}

/// The first unknown equation of whose sides it is known whether they are equal.
pub fn first_equation(
    known: &Known,
    classes: &Classes,
    parted: &IndexMap<Couple, u32>,
) -> Option<Equation>
    requires fits { Fits known.now classes.now.lists }
    requires partition { IsPartition classes.now.lists }
    requires parted { FindsParted known.now classes.now.lists (λ pair. get couple_eq parted.now pair) }
    ensures found { IfSome result (λ it. IsEquated known.now classes.now.lists it.node it.equated) }
    ensures none { IsNone result → NoEquation known.now classes.now.lists }
{
    for number in 0..known.terms.len() {
        let node = NodeId::new(number);
        if let Some(equated) = equated_at(known, classes, parted, node) {
            return Some(Equation { node, equated });
        }
    }
    None
}
