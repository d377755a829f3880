//! Products and sums of numbers of 128 bits.
ghost use Rattle.std.specs.Prelude.{◌≡◌, ◌*ℤ◌, ◌+ℤ◌, Ok, Err, MatchOption};
ghost use Rattle.grind_polynomials.specs.declared.poly.PolyRefusal.TheVariants.{Overflow};
ghost use Rattle.grind_polynomials.specs.Polynomials.{fit_or_refuse};
ghost use Rattle.grind_polynomials.specs.Sums.{signed};

/// The product of two numbers, where it fits.
pub fn product_of(x: i128, y: i128) -> Option<i128>
    ensures { MatchOption result (fit_or_refuse (x *ℤ y) ≡ Err Overflow) (λ z. fit_or_refuse (x *ℤ y) ≡ Ok z) }
{
    x.checked_mul(y)
}

/// The sum of two numbers, or their difference, where it fits.
pub fn sum_of(minus: bool, x: i128, y: i128) -> Option<i128>
    ensures { MatchOption result (fit_or_refuse (x +ℤ signed minus y) ≡ Err Overflow) (λ z. fit_or_refuse (x +ℤ signed minus y) ≡ Ok z) }
{
    if minus {
        return x.checked_sub(y);
    }
    x.checked_add(y)
}
