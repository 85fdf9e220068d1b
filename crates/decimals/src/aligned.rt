//! Sums and rests at one exponent.

ghost use Rattle.std.specs.Prelude.{ℕ, ◌≤◌, ◌+◌, ◌-◌, ◌^◌};
ghost use Rattle.decimals.specs.Decimals.{parts, HasPlaces, HavePlaces};
ghost use Rattle.decimals.specs.inner.Aligned.{IsAligned};

use crate::decimal::Decimal;
use crate::rounding::{Side, power, wide_power};

/// A number with so many zeros behind it.
#[derive(Clone, Copy)]
pub struct Aligned {
    pub number: u128,
    pub exponent: u32,
}

/// The sum, rounded to one side, of which the first has no smaller exponent.
fn sum_from(side: Side, high: Decimal, low: Decimal) -> Aligned
    requires { low.exponent ≤ high.exponent }
    ensures value { IsAligned side (parts high + parts low) result }
    ensures places { (whole places : ℕ) → HasPlaces whole places high → HasPlaces whole places low → HavePlaces whole places result.number result.exponent }
{
    if high.mantissa == 0 {
        return Aligned {
            number: low.mantissa as u128,
            exponent: low.exponent,
        };
    }
    if low.mantissa == 0 {
        return Aligned {
            number: high.mantissa as u128,
            exponent: high.exponent,
        };
    }
    let gap = high.exponent - low.exponent;
    let lift = gap.min(18);
    let rest = side.cut(low.mantissa, gap - lift);
    let number = high.mantissa as u128 * power(lift) as u128 + rest as u128;
    Aligned {
        number,
        exponent: high.exponent - lift,
    }
}

/// The sum, rounded to one side.
pub fn sum(side: Side, one: Decimal, other: Decimal) -> Aligned
    ensures value { IsAligned side (parts one + parts other) result }
    ensures places { (whole places : ℕ) → HasPlaces whole places one → HasPlaces whole places other → HavePlaces whole places result.number result.exponent }
{
    if one.exponent < other.exponent {
        return sum_from(side, other, one);
    }
    sum_from(side, one, other)
}

/// What is left of the whole, rounded to one side.
pub fn left(side: Side, taken: Decimal, whole: u32) -> Aligned
    requires { parts taken ≤ 10 ^ whole }
    ensures value { IsAligned side (10 ^ whole - parts taken) result }
    ensures places { whole ≤ result.exponent + 36 }
{
    if taken.mantissa == 0 {
        return Aligned {
            number: 1,
            exponent: whole,
        };
    }
    let gap = whole - taken.exponent;
    let lift = gap.min(36);
    let part = side.opposite().cut(taken.mantissa, gap - lift);
    Aligned {
        number: wide_power(lift) - part as u128,
        exponent: whole - lift,
    }
}
