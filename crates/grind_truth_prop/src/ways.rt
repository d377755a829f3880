//! Which truths a connective and its arguments can have.
ghost use Rattle.std.specs.Prelude.{◌≡◌, ◌↔◌, Bool, true, false, IsTrue, IfSome, IsNone};
ghost use Rattle.grind_truth_prop.specs.Ways.{joined, Allows, IsWay, HasWay, truth_in, CanHave, MustHave};

use grind_term_graph::Head;

/// What is known of the truth of a node.
#[derive(Clone, Copy, Debug)]
pub struct Mark {
    /// It is known to hold.
    pub holds: bool,
    /// It is known to fail.
    pub fails: bool,
}

/// A connective of two arguments, which a negation has as one and the same.
#[derive(Clone, Copy, Debug)]
pub struct Joint {
    /// The connective.
    pub head: Head,
    /// Whether the two arguments are one node.
    pub alike: bool,
    /// What is known of the connective.
    pub whole: Mark,
    /// What is known of the first argument.
    pub first: Mark,
    /// What is known of the second argument.
    pub second: Mark,
}

/// The connective, or one of its arguments.
#[derive(Clone, Copy, Debug)]
pub enum Place {
    /// The connective.
    Whole,
    /// The first argument.
    First,
    /// The second argument.
    Second,
}

/// What the connective makes of these truths.
fn joined(head: Head, a: bool, b: bool) -> bool
    ensures { result ≡ joined head a b }
{
    match head {
        Head::Not => !a,
        Head::And => a && b,
        Head::Or => a || b,
        Head::Implies => !a || b,
        Head::Eq => a == b,
        Head::True
        | Head::False
        | Head::Le
        | Head::Int(_)
        | Head::Add
        | Head::Neg
        | Head::Mul
        | Head::Fun(_)
        | Head::Const(_) => false,
    }
}

/// Whether the mark lets the truth be this.
fn allows(mark: Mark, truth: bool) -> bool
    ensures { IsTrue result ↔ Allows mark truth }
{
    if truth { !mark.fails } else { !mark.holds }
}

/// Whether the marks let the arguments have these truths.
fn is_way(joint: &Joint, a: bool, b: bool) -> bool
    ensures { IsTrue result ↔ IsWay joint.now a b }
{
    if joint.alike && a != b {
        return false;
    }
    if !allows(joint.first, a) || !allows(joint.second, b) {
        return false;
    }
    allows(joint.whole, joined(joint.head, a, b))
}

/// The truth at that place.
fn truth_in(head: Head, place: Place, a: bool, b: bool) -> bool
    ensures { result ≡ truth_in head place a b }
{
    match place {
        Place::Whole => joined(head, a, b),
        Place::First => a,
        Place::Second => b,
    }
}

/// Whether the arguments can have these truths, and this is then the truth at the place.
fn gives(joint: &Joint, place: Place, value: bool, a: bool, b: bool) -> bool
    ensures yes { IsTrue result → IsWay joint.now a b × (truth_in joint.now.head place a b ≡ value) }
    ensures no { IsWay joint.now a b → truth_in joint.now.head place a b ≡ value → IsTrue result }
{
    is_way(joint, a, b) && truth_in(joint.head, place, a, b) == value
}

/// Whether the truth at the place can be this.
pub(crate) fn can_have(joint: &Joint, place: Place, value: bool) -> bool
    ensures { IsTrue result ↔ CanHave joint.now place value }
{
    gives(joint, place, value, true, true)
        || gives(joint, place, value, true, false)
        || gives(joint, place, value, false, true)
        || gives(joint, place, value, false, false)
}

/// Whether the connective and its arguments can have any truths.
pub(crate) fn has_way(joint: &Joint) -> bool
    ensures { IsTrue result ↔ HasWay joint.now }
{
    can_have(joint, Place::First, true) || can_have(joint, Place::First, false)
}

/// The only truth that the place can have, if there is only one.
pub(crate) fn forced(joint: &Joint, place: Place) -> Option<bool>
    requires { HasWay joint.now }
    ensures can { IfSome result (λ value. CanHave joint.now place value) }
    ensures must { IfSome result (λ value. MustHave joint.now place value) }
    ensures none { IsNone result → (value : Bool) → CanHave joint.now place value }
{
    if !can_have(joint, place, true) {
        return Some(false);
    }
    if !can_have(joint, place, false) {
        return Some(true);
    }
    None
}
