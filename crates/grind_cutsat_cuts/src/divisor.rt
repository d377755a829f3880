//! The greatest common divisor of coefficients.
ghost use Rattle.std.specs.Prelude.{◌≡◌, ◌<◌, ◌≤◌, ◌^◌, ◌⊎◌, ◌↔◌, ℕ, pos, unsigned_abs, FitsSigned, MatchOption};
ghost use Rattle.std.specs.Int.{w128, IsGcd, ◌∣◌};
ghost use Rattle.grind_cutsat_cuts.specs.Divisors.{DividesSizes, IsFittingDivisor, NoFittingDivisor};

use grind_linear_forms::Part;

/// The greatest common divisor of two numbers.
pub fn gcd(a: u128, b: u128) -> u128
    ensures { IsGcd a b result }
{
    let mut large = a;
    let mut small = b;
    while small > 0 {
        let next = large % small;
        large = small;
        small = next;
    }
    large
}

/// The number that exactly the common divisors of all coefficients divide.
pub fn shared(parts: &[Part]) -> u128
    ensures { (d : ℕ) → (d ∣ result) ↔ DividesSizes d parts.now }
{
    let mut all = 0;
    let mut rest = parts;
    while let Some((part, tail)) = rest.split_first() {
        all = gcd(all, size(part.coefficient));
        rest = tail;
    }
    all
}

/// How large a number is, whatever its sign.
pub fn size(number: i128) -> u128
    ensures { result ≡ unsigned_abs number }
{
    number.unsigned_abs()
}

/// The greatest common divisor of the coefficients, where it fits; 1 where there are none.
pub fn divisor_of(parts: &[Part]) -> Option<i128>
    ensures { MatchOption result (NoFittingDivisor parts.now) (IsFittingDivisor parts.now) }
{
    if parts.is_empty() {
        return Some(1);
    }
    as_positive(shared(parts))
}

/// The number as one with a sign, where it is not 0 and fits.
pub fn as_positive(number: u128) -> Option<i128>
    ensures { MatchOption result ((number ≡ 0) ⊎ (2 ^ 127 ≤ number)) (λ it. (it ≡ pos number) × (0 < number) × FitsSigned w128 it) }
{
    if number == 0 {
        return None;
    }
    if number > 170141183460469231731687303715884105727 {
        return None;
    }
    Some(number as i128)
}
