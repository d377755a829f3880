//! What differences, opposites and multiples mean, over whole numbers without bound. Each law is a call that ensures it.
ghost use Rattle.grind_differences.specs.Laws as laws;

/// Where a table of values respects arithmetic, the difference of two terms has the difference of their values.
pub fn differences_have_their_values()
    ensures { laws.DifferencesHaveTheirValues }
{
    grind_linear_forms::readings_have_their_values();
    grind_linear_forms::sums_have_their_values();
}

/// And so it is with polynomials.
pub fn poly_differences_have_their_values()
    ensures { laws.PolyDifferencesHaveTheirValues }
{
    grind_polynomials::readings_have_their_values();
    grind_polynomials::sums_have_their_values();
}

/// A difference stays the same where the table grows.
pub fn differences_stay()
    ensures { laws.DifferencesStay }
{
    grind_linear_forms::readings_stay();
}

/// And so it is with polynomials.
pub fn poly_differences_stay()
    ensures { laws.PolyDifferencesStay }
{
    grind_polynomials::readings_stay();
}

/// The opposite of a form has 1 less the value of the form.
pub fn opposites_have_their_values()
    ensures { laws.OppositesHaveTheirValues }
{}

/// k times a polynomial has k times its value.
pub fn multiples_have_their_values()
    ensures { laws.MultiplesHaveTheirValues }
{}

/// A polynomial has the value of its linear form.
pub fn forms_of_polys_have_their_values()
    ensures { laws.FormsOfPolysHaveTheirValues }
{}
