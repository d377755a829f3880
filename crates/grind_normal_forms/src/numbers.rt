//! Common divisors of numbers of 128 bits, and quotients by them.
ghost use Rattle.std.specs.Prelude.{◌≡◌, ◌≢◌, ◌<◌, ◌≤◌, ◌/◌, pos, unsigned_abs, Ok, Err, MatchOption};
ghost use Rattle.std.specs.Int.{IsGcd};
ghost use Rattle.grind_polynomials.specs.declared.poly.PolyRefusal.TheVariants.{Overflow};
ghost use Rattle.grind_polynomials.specs.Polynomials.{fit_or_refuse};
ghost use Rattle.grind_polynomials.specs.Sums.{signed};
ghost use Rattle.grind_normal_forms.specs.Pairs.{divided_by};
ghost use Rattle.grind_normal_forms.specs.Reduction.{is_negative};

use grind_polynomials::sum_of;

// The greatest common divisor of two numbers.
pub(crate) fn gcd(a: u128, b: u128) -> u128
    ensures { IsGcd a b result }
{
    let mut large = a;
    let mut small = b;
    while small > 0 {
        let next = large % small;
        large = small;
        small = next;
    }
    large
}

// The greatest common divisor of two numbers, of which the first is not 0.
pub(crate) fn common_divisor(a: i128, b: i128) -> u128
    requires { a ≢ pos 0 }
    ensures divisor { IsGcd (unsigned_abs a) (unsigned_abs b) result }
    ensures positive { 0 < result }
{
    gcd(a.unsigned_abs(), b.unsigned_abs())
}

/// A number divided by a positive one, rounded toward 0.
pub fn divided(number: i128, divisor: u128) -> i128
    requires { 0 < divisor }
    ensures { result ≡ divided_by divisor number }
{
    if divisor == 1 {
        return number;
    }
    let size = magnitude(number, divisor);
    if number < 0 {
        return -size;
    }
    size
}

// How large the quotient of a number by another is, which is at least 2.
fn magnitude(number: i128, divisor: u128) -> i128
    requires { 2 ≤ divisor }
    ensures { result ≡ pos (unsigned_abs number / divisor) }
{
    (number.unsigned_abs() / divisor) as i128
}

// How large the quotient of a number by another is, where that fits.
pub(crate) fn unit_of(lead: i128, divisor: u128) -> Option<i128>
    requires { 0 < divisor }
    ensures { MatchOption result (fit_or_refuse (pos (unsigned_abs lead / divisor)) ≡ Err Overflow) (λ u. fit_or_refuse (pos (unsigned_abs lead / divisor)) ≡ Ok u) }
{
    let size = lead.unsigned_abs() / divisor;
    if size > 0x7fff_ffff_ffff_ffff_ffff_ffff_ffff_ffff {
        return None;
    }
    Some(size as i128)
}

// The quotient of a number by another, with its sign turned where the leading coefficient is negative.
pub(crate) fn weight_of(lead: i128, number: i128, divisor: u128) -> Option<i128>
    requires { 0 < divisor }
    ensures { MatchOption result (fit_or_refuse (signed (is_negative lead) (divided_by divisor number)) ≡ Err Overflow)
        (λ w. fit_or_refuse (signed (is_negative lead) (divided_by divisor number)) ≡ Ok w) }
{
    let quotient = divided(number, divisor);
    sum_of(lead < 0, 0, quotient)
}
