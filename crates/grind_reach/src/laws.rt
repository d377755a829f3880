//! What readings mean, whatever terms are read as. Each law is a call without an answer: who makes the call knows the law.
ghost use Rattle.grind_reach.specs.Laws.{EachReadingStays, EachReadingHasItsValue};

use crate::algebra::Algebra;

/// The reading of a term stays the same where the table grows.
pub fn readings_stay<R: Algebra>()
    ensures { EachReadingStays R.operations }
{}

/// Where the operations keep values, and a table of values respects arithmetic, a term has the value of its reading.
pub fn readings_have_their_values<R: Algebra>()
    ensures { EachReadingHasItsValue R.operations }
{}
