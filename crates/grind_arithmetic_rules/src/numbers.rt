//! Numbers that fit in 128 bits.
ghost use Rattle.std.specs.Prelude.{IsTrue, ◌↔◌, FitsSigned};
ghost use Rattle.std.specs.Int.{w128};
ghost use Rattle.grind_arithmetic_rules.specs.PolyRules.{CoefficientsFit};

use grind_polynomials::Poly;

/// Whether the number fits in 128 bits, as each number of a claim does.
pub fn fits(number: i128) -> bool
    ensures { IsTrue result ↔ FitsSigned w128 number }
{
    let _number = number;
    true
}

/// Whether each coefficient of the polynomial fits in 128 bits.
pub fn coefficients_fit(poly: &Poly) -> bool
    ensures { IsTrue result ↔ CoefficientsFit poly.now }
{
    poly.terms().iter().all(|term| fits(term.coefficient))
}
