//! Quotients and remainders, which round toward 0.
ghost use Rattle.grind_lemmas.specs.Division as division;

/// A multiple of a positive divisor is the divisor times the quotient.
pub fn multiples_divide()
    ensures { division.MultiplesDivide }
{}

/// A number is a multiple of a positive divisor exactly where its remainder is 0.
pub fn multiples_leave_nothing()
    ensures { division.MultiplesLeaveNothing }
{}

/// Where the remainder by a positive divisor is not positive, the quotient is the one that is rounded up.
pub fn quotients_round_up()
    ensures { division.QuotientsRoundUp }
{}

/// Where the remainder by a positive divisor is positive, the number after the quotient is the one that is rounded up.
pub fn next_quotients_round_up()
    ensures { division.NextQuotientsRoundUp }
{}

/// A quotient that is rounded up stays below a bound that is not negative and not below the number.
pub fn ceilings_stay_below()
    ensures { division.CeilingsStayBelow }
{}
