//! Quotients that are rounded up.
ghost use Rattle.grind_lemmas.specs.Rounding as rounding;

/// A number has one quotient that is rounded up.
pub fn one_ceiling()
    ensures { rounding.OneCeiling }
{}

/// Where a multiple of a positive number and a number are together at most 0, so are the multiplied number and the
/// quotient, rounded up.
pub fn ceilings_bound()
    ensures { rounding.CeilingsBound }
{}

/// Rounding up keeps order.
pub fn ceilings_keep_order()
    ensures { rounding.CeilingsKeepOrder }
{}
