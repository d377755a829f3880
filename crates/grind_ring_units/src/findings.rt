//! What is found at polynomials that are to be reduced, and what a pass over all of them tells.
ghost use Rattle.std.specs.Prelude.{◌≡◌, ◌↔◌, IsTrue};
ghost use Rattle.grind_ring_units.specs.Scans.{no_marks, MayJoin};
ghost use Rattle.grind_ring_units.specs.Findings.{marked, IsCase, IsCaseScan, IsFormScan};

use crate::types::State;
use grind_polynomials::Poly;
use grind_ring_basis::{Combination, Fact};

// What is found at one polynomial.
#[derive(Drop)]
pub(crate) enum Finding {
    // Its normal form is 0, or a post says that it is.
    Done,
    // It is reduced to 0, or its degree is too high: it stays so.
    Settled,
    // It is its own normal form.
    Own,
    // Its normal form, and the line by which that is 0.
    Form { rest: Poly, line: Combination },
    // A number on the way to its normal form, or in the line, does not fit in 128 bits.
    TooLarge,
}

/// What is found at all of them.
#[derive(Drop)]
pub enum Scan {
    /// This fact joins as it is.
    Own(Fact),
    /// A normal form that may join.
    Form {
        /// The normal form.
        rest: Poly,
        /// The line by which it is 0.
        line: Combination,
    },
    /// Nothing joins.
    Nothing(Marks),
}

/// Two posts; one that stands alone is given twice.
#[derive(Clone, Copy)]
pub struct Posts {
    /// The first post.
    pub first: u32,
    /// The second post.
    pub second: u32,
}

/// What stands in the way where nothing joins.
#[derive(Clone, Copy)]
pub struct Marks {
    /// Posts of which a number does not fit.
    pub too_large: Option<Posts>,
    /// Posts whose normal form would join, if one more might.
    pub left: Option<Posts>,
}

// Whether one more normal form may join.
pub(crate) fn may_join(state: &State) -> bool
    ensures { IsTrue result ↔ MayJoin state.now }
{
    state.made < state.limit
}

// The marks, with what is found at these posts, where it is no case.
pub(crate) fn marked(marks: Marks, finding: &Finding, posts: Posts) -> Marks
    ensures { result ≡ marked marks finding.now posts }
{
    match finding {
        Finding::Done => marks,
        Finding::Settled => marks,
        Finding::Own => marks,
        Finding::Form { rest: _, line: _ } => Marks {
            too_large: marks.too_large,
            left: Some(posts),
        },
        Finding::TooLarge => Marks {
            too_large: Some(posts),
            left: marks.left,
        },
    }
}

// No marks.
pub(crate) fn no_marks() -> Marks
    ensures { result ≡ no_marks }
{
    Marks {
        too_large: None,
        left: None,
    }
}

// Whether what is found joins: a fact as it is, or a normal form, where one more may join.
pub(crate) fn is_case(free: bool, finding: &Finding) -> bool
    ensures { IsTrue result ↔ IsCase free finding.now }
{
    match finding {
        Finding::Own => true,
        Finding::Form { rest: _, line: _ } => free,
        _ => false,
    }
}

// The scan that ends with this normal form.
pub(crate) fn form_of(finding: Finding) -> Scan
    ensures { IsFormScan finding result }
{
    match finding {
        Finding::Form { rest, line } => Scan::Form { rest, line },
        _ => Scan::Nothing(no_marks()),
    }
}
