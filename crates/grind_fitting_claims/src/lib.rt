//! Which claims fit in 128 bits: over terms whose numbers fit, what a rule other than `combine` allows fits. So where the result of
//! such a rule does not fit, the rule allows no claim. And which claim a rule that computes would allow over whole numbers without
//! bounds, its result: the rule allows a claim exactly where there is a result and each number on the way to it fits, and that claim
//! is the result, or for `combine` also a weaker one. The readings with which a result begins are told in the same way: each is defined
//! exactly where the term is read so and each number on the way fits.
#![tactic(auto)]

ghost use Rattle.grind_fitting_claims.specs.Fitting.{AllowedFits};
ghost use Rattle.grind_fitting_claims.specs.LinearReadings.{LinearReadingsAreExact, LinearReadingsAreOne, BoundsOnlyRefuse};
ghost use Rattle.grind_fitting_claims.specs.PolyReadings.{PolyReadingsAreExact, PolyReadingsAreOne, PolyBoundsOnlyRefuse};
ghost use Rattle.grind_fitting_claims.specs.PolyResults.{IdealAllowsItsResult, PolyDifferencesAreExact, PolyAllowsItsResult};
ghost use Rattle.grind_fitting_claims.specs.Results.{DifferencesAreExact, LineAllowsItsResult, ReadAllowsItsResult, StrictAllowsItsResult, CombineAllowsItsResult};

use grind_lemmas::products_cancel;
use grind_linear_forms::one_cut;

/// Over terms whose numbers fit, in a branch whose literal fits, what a rule other than `combine` allows fits. The law is a call
/// without a body: its caller knows it.
pub fn allowed_fits()
    ensures { AllowedFits }
{}

/// The difference of the readings of two terms is defined exactly where both are and each number on the way to it fits.
pub fn differences_are_exact()
    ensures { DifferencesAreExact }
{}

/// `line` allows exactly its result, where that fits: the difference of two equal whole numbers is at most 0.
pub fn line_allows_its_result()
    ensures { LineAllowsItsResult }
{}

/// `read` allows exactly its result, where that fits: the bound that a comparison is.
pub fn read_allows_its_result()
    ensures { ReadAllowsItsResult }
{}

/// `strict` allows exactly its result, where that fits: the bound of its premise, and 1.
pub fn strict_allows_its_result()
    ensures { StrictAllowsItsResult }
{}

/// `combine` allows exactly its result and each bound with a lower constant, where each number on the way fits.
pub fn combine_allows_its_result()
    ensures { CombineAllowsItsResult }
{
    one_cut();
}

/// `ideal` allows exactly its result, where each number on the way fits and each quotient does.
pub fn ideal_allows_its_result()
    ensures { IdealAllowsItsResult }
{
    products_cancel();
}

/// The difference of the polynomials that two terms are read as is defined exactly where both are and each number on the way to it fits.
pub fn poly_differences_are_exact()
    ensures { PolyDifferencesAreExact }
{}

/// `poly` allows exactly its result, where each number on the way fits: the difference of two equal whole numbers is 0.
pub fn poly_allows_its_result()
    ensures { PolyAllowsItsResult }
{}

/// The reading of a term as a linear form is defined exactly where it is a whole number, is read so, and each number on the way fits.
pub fn linear_readings_are_exact()
    ensures { LinearReadingsAreExact }
{}

/// Over whole numbers without bounds a term is read as at most one linear form.
pub fn linear_readings_are_one()
    ensures { LinearReadingsAreOne }
{}

/// What a term is read as where each number on the way fits, it is read as over whole numbers without bounds too.
pub fn bounds_only_refuse()
    ensures { BoundsOnlyRefuse }
{}

/// The reading of a term as a polynomial is defined exactly where it is a whole number, is read so, and each number on the way fits.
pub fn poly_readings_are_exact()
    ensures { PolyReadingsAreExact }
{}

/// Over whole numbers without bounds a term is read as at most one polynomial.
pub fn poly_readings_are_one()
    ensures { PolyReadingsAreOne }
{}

/// What a term is read as, as a polynomial, where each number on the way fits, it is read as over whole numbers without bounds too.
pub fn poly_bounds_only_refuse()
    ensures { PolyBoundsOnlyRefuse }
{}
