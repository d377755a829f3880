//! Quotients that are rounded up.
ghost use Rattle.std.specs.Prelude.{◌≡◌, ◌≢◌, ◌^◌, ◌<ℤ◌, pos, int_div, int_rem};
ghost use Rattle.grind_lemmas.specs.Rounding.{IsCeil};
ghost use Rattle.grind_cutsat_bounds.specs.Limits.{magnitude};

use grind_lemmas::{ceilings_stay_below, next_quotients_round_up, quotients_round_up};

/// A number divided by another without its sign, rounded up.
pub(crate) fn ceiling(number: i128, divisor: i128) -> i128
    requires { divisor ≢ pos 0 }
    ensures { IsCeil number (magnitude divisor) result }
{
    if divisor > 0 {
        return rounded_up(number, divisor);
    }
    match divisor.checked_neg() {
        Some(positive) => rounded_up(number, positive),
        None => rounded_up_by_most(number),
    }
}

/// The quotient by a positive number, rounded up.
fn rounded_up(number: i128, divisor: i128) -> i128
    requires { pos 0 <ℤ divisor }
    ensures { IsCeil number divisor result }
{
    quotients_round_up();
    next_quotients_round_up();
    ceilings_stay_below();
    let quotient = whole_quotient(number, divisor);
    if remainder(number, divisor) > 0 {
        return quotient + 1;
    }
    quotient
}

/// The quotient by 2^127, which is no number of 128 bits, rounded up.
fn rounded_up_by_most(number: i128) -> i128
    ensures { IsCeil number (pos (2 ^ 127)) result }
{
    if number > 0 {
        return 1;
    }
    if number == i128::MIN {
        return -1;
    }
    0
}

/// The quotient by a positive number, rounded toward 0.
fn whole_quotient(number: i128, divisor: i128) -> i128
    requires { pos 0 <ℤ divisor }
    ensures { result ≡ int_div number divisor }
{
    number / divisor
}

/// What that quotient leaves.
fn remainder(number: i128, divisor: i128) -> i128
    requires { pos 0 <ℤ divisor }
    ensures { result ≡ int_rem number divisor }
{
    number % divisor
}
