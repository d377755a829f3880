//! What a typed proof means. Each law is a call that does nothing but call the laws that it rests on: who makes the call knows
//! the law.
ghost use Rattle.grind_value_tables.specs.Laws.{Sound, TypedIsTrue};

use grind_differences::{
    differences_have_their_values, forms_of_polys_have_their_values, multiples_have_their_values,
    opposites_have_their_values, poly_differences_have_their_values,
};
use grind_linear_forms::cuts_stay_below;

/// In a table of values that respects the terms of a proof, with true hypotheses, true listed instances of theorems and a
/// false conclusion, each line of typed lines claims what is true, where all that its branch assumes is.
pub fn sound()
    ensures { Sound }
{
    differences_have_their_values();
    poly_differences_have_their_values();
    multiples_have_their_values();
    forms_of_polys_have_their_values();
    cuts_stay_below();
    grind_linear_forms::sums_have_their_values();
    grind_polynomials::sums_have_their_values();
}

/// A typed proof makes its goal true in each table of values that respects its terms: where the hypotheses and the
/// listed instances of theorems are true, so is the conclusion.
pub fn typed_is_true()
    ensures { TypedIsTrue }
{
    sound();
    opposites_have_their_values();
}
