//! What is kept of the bounds of an atom.
ghost use Rattle.std.specs.Prelude.{◌≡◌, ◌≢◌, ◌↔◌, Some, ℤ, pos, ◌≤ℤ◌, ◌<ℤ◌, ◌+ℤ◌, ◌*ℤ◌};
ghost use Rattle.grind_cutsat_bounds.specs.Limits.{limits_of, AtLeast, IsUnder, IsWithin, IsNearestOf};

use crate::numbers::ceiling;

/// What is kept of the bounds of an atom: the greatest of the lower bounds, and the greatest of the negations of the upper
/// bounds. So each is a number of 128 bits.
#[derive(Clone, Copy)]
pub(crate) struct Limits {
    /// The atom is at least this.
    pub low: Option<i128>,
    /// The negation of the atom is at least this.
    pub high: Option<i128>,
}

/// The number nearest to 0, or the greatest that upper bounds allow where no number is between the bounds.
#[derive(Clone, Copy)]
pub(crate) enum Nearest {
    /// The number nearest to 0.
    Value(i128),
    /// There is none. This is the greatest number that upper bounds allow.
    Gap(i128),
}

/// The limits, where a bound says besides that so often the atom, and the rest, is at most 0.
pub(crate) fn with_bound(limits: &Limits, coefficient: i128, rest: i128) -> Limits
    requires { coefficient ≢ pos 0 }
    ensures within { (number : ℤ) → IsWithin result number
        ↔ (IsWithin limits.now number × ((coefficient *ℤ number +ℤ rest) ≤ℤ pos 0)) }
    ensures under { (number : ℤ) → IsUnder result number
        ↔ (IsUnder limits.now number × (pos 0 <ℤ coefficient → (coefficient *ℤ number +ℤ rest) ≤ℤ pos 0)) }
{
    let least = ceiling(rest, coefficient);
    if coefficient > 0 {
        return Limits {
            low: limits.low,
            high: greater(limits.high, least),
        };
    }
    Limits {
        low: greater(limits.low, least),
        high: limits.high,
    }
}

/// The greater of what is known and another number.
fn greater(known: Option<i128>, least: i128) -> Option<i128>
    ensures { (number : ℤ) → AtLeast result number ↔ (AtLeast known number × (least ≤ℤ number)) }
{
    match known {
        Some(other) => Some(greater_of(other, least)),
        None => Some(least),
    }
}

/// The greater of two numbers.
fn greater_of(one: i128, other: i128) -> i128
    ensures { (number : ℤ) → (result ≤ℤ number) ↔ ((one ≤ℤ number) × (other ≤ℤ number)) }
{
    if one < other { other } else { one }
}

/// The number nearest to 0 within the limits, if there is any.
pub(crate) fn nearest_within(limits: &Limits) -> Nearest
    ensures { IsNearestOf limits.now result }
{
    if let Some(low) = limits.low {
        if low > 0 {
            return above_zero(low, limits.high);
        }
    }
    if let Some(high) = limits.high {
        if high > 0 {
            return below_zero(limits.low, high);
        }
    }
    Nearest::Value(0)
}

/// The same, where a lower bound is over 0.
fn above_zero(low: i128, high: Option<i128>) -> Nearest
    requires { pos 0 <ℤ low }
    ensures { IsNearestOf (limits_of (Some low) high) result }
{
    let Some(high) = high else {
        return Nearest::Value(low);
    };
    if high > -low {
        return Nearest::Gap(-high);
    }
    Nearest::Value(low)
}

/// The same, where an upper bound is below 0.
fn below_zero(low: Option<i128>, high: i128) -> Nearest
    requires { pos 0 <ℤ high }
    ensures { IsNearestOf (limits_of low (Some high)) result }
{
    let Some(low) = low else {
        return Nearest::Value(-high);
    };
    if low > -high {
        return Nearest::Gap(-high);
    }
    Nearest::Value(-high)
}
