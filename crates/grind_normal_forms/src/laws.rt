//! What S-polynomials and normal forms mean. Each law is a call without an answer: who makes the call knows the law.
ghost use Rattle.grind_normal_forms.specs.Laws as laws;

/// The value of an S-polynomial is that of the first times its factor, less that of the second times its factor.
pub fn s_polynomials_have_their_values()
    ensures { laws.SPolynomialsHaveTheirValues }
{}

/// Two polynomials have one S-polynomial, or none for one cause.
pub fn s_polynomials_are_one()
    ensures { laws.SPolynomialsAreOne }
{}

/// Where each basis element has the value 0, the factor times the polynomial has the value of the normal form's rest.
pub fn normal_forms_have_their_values()
    ensures { laws.NormalFormsHaveTheirValues }
{}

/// A rest without terms has the factor 1.
pub fn zero_rests_have_factor_one()
    ensures { laws.ZeroRestsHaveFactorOne }
{}

/// A reduction has one answer.
pub fn reductions_have_one_answer()
    ensures { laws.ReductionsHaveOneAnswer }
{}

/// A polynomial has one normal form by a basis.
pub fn normal_forms_are_one()
    ensures { laws.NormalFormsAreOne }
{}

/// Where there is a normal form, each coefficient on the way to it fits.
pub fn normal_forms_fit()
    ensures { laws.NormalFormsFit }
{}

/// What factors are for: where there is a rest, the divisor times the rest is `own` times the polynomial and the sum of
/// the products; else `own` is 0, and the divisor times the polynomial is the sum of the products.
pub fn factors_have_their_values()
    ensures { laws.FactorsHaveTheirValues }
{}

/// A reduction has one list of factors, over whole numbers without bound.
pub fn final_factors_are_one()
    ensures { laws.FinalFactorsAreOne }
{}
