//! What polynomials mean. Each law is a call without an answer: who makes the call knows the law.
ghost use Rattle.grind_polynomials.specs.Laws as laws;

/// The value of a polynomial and a product is the value of the one and the product of the values of the factors.
pub fn sums_have_their_values()
    ensures { laws.SumsHaveTheirValues }
{}

/// Where a table of values respects arithmetic, a term has the value of its reading.
pub fn readings_have_their_values()
    ensures { laws.ReadingsHaveTheirValues }
{}

/// The reading of a term stays the same where the table grows.
pub fn readings_stay()
    ensures { laws.ReadingsStay }
{}
