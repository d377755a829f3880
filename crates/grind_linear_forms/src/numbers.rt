//! Products, sums and quotients of numbers of 128 bits.
ghost use Rattle.std.specs.Prelude.{◌≡◌, ◌*ℤ◌, ◌<ℤ◌, pos, IsTrue, ◌↔◌, int_div, int_rem};
ghost use Rattle.grind_lemmas.specs.Division.{IsMultiple};
ghost use Rattle.grind_lemmas.specs.Rounding.{IsCeil};
ghost use Rattle.grind_linear_forms.specs.Sums.{multiple, combination};

use grind_lemmas::{
    ceilings_stay_below, multiples_divide, multiples_leave_nothing, next_quotients_round_up,
    quotients_round_up,
};

// x taken m times, where that fits.
pub(crate) fn multiple_of(m: i128, x: i128) -> Option<i128>
    ensures { result ≡ multiple m x }
{
    m.checked_mul(x)
}

// x taken m times and y taken k times, where both and their sum fit.
pub(crate) fn combination_of(m: i128, x: i128, k: i128, y: i128) -> Option<i128>
    ensures { result ≡ combination m x k y }
{
    let Some(left) = multiple_of(m, x) else {
        return None;
    };
    let Some(right) = multiple_of(k, y) else {
        return None;
    };
    left.checked_add(right)
}

// Whether a positive number divides the other.
pub(crate) fn is_multiple(number: i128, divisor: i128) -> bool
    requires { pos 0 <ℤ divisor }
    ensures { IsTrue result ↔ IsMultiple number divisor }
{
    multiples_leave_nothing();
    let rest = remainder(number, divisor);
    rest == 0
}

// The quotient by a positive number that divides the other.
pub(crate) fn quotient(number: i128, divisor: i128) -> i128
    requires positive { pos 0 <ℤ divisor }
    requires multiple { IsMultiple number divisor }
    ensures { number ≡ divisor *ℤ result }
{
    multiples_divide();
    whole_quotient(number, divisor)
}

// The quotient by a positive number, rounded up.
pub(crate) fn rounded_up(number: i128, divisor: i128) -> i128
    requires { pos 0 <ℤ divisor }
    ensures { IsCeil number divisor result }
{
    quotients_round_up();
    next_quotients_round_up();
    ceilings_stay_below();
    let quotient = whole_quotient(number, divisor);
    if remainder(number, divisor) > 0 {
        return quotient + 1;
    }
    quotient
}

// The quotient by a positive number, rounded toward 0.
fn whole_quotient(number: i128, divisor: i128) -> i128
    requires { pos 0 <ℤ divisor }
    ensures { result ≡ int_div number divisor }
{
    number / divisor
}

// What that quotient leaves.
fn remainder(number: i128, divisor: i128) -> i128
    requires { pos 0 <ℤ divisor }
    ensures { result ≡ int_rem number divisor }
{
    number % divisor
}
