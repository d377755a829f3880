//! The least factors by which two coefficients cancel.
ghost use Rattle.std.specs.Prelude.{◌≡◌, ◌≢◌, ◌<◌, ◌/◌, ℤ, pos, ◌<ℤ◌, FitsSigned, MatchOption, unsigned_abs};
ghost use Rattle.std.specs.Int.{w128, IsGcd};
ghost use Rattle.grind_cutsat_cuts.specs.Factors.{IsShare, IsNoShare, AreFittingFactors, HaveUnfitFactors};

use crate::divisor::{as_positive, gcd, size};

/// How often the first and the second of two are taken.
#[derive(Clone, Copy)]
pub struct Factors {
    /// How often the first is.
    pub first: i128,
    /// How often the second is.
    pub second: i128,
}

/// The least factors, above 0, by which a positive and a negative coefficient cancel, where they fit.
pub fn factors_of(over: i128, under: i128) -> Option<Factors>
    requires over { pos 0 <ℤ over }
    requires under { under <ℤ pos 0 }
    ensures { MatchOption result (HaveUnfitFactors over under) (λ it. AreFittingFactors over under it.first it.second) }
{
    let shared = gcd(size(over), size(under));
    let Some(first) = share_of(under, shared) else {
        return None;
    };
    let Some(second) = share_of(over, shared) else {
        return None;
    };
    Some(Factors { first, second })
}

// How often a number is in the size of another, where that is not 0 and fits.
fn share_of(number: i128, divisor: u128) -> Option<i128>
    requires { 0 < divisor }
    ensures { MatchOption result (IsNoShare number divisor) (IsShare number divisor) }
{
    as_positive(size(number) / divisor)
}
