//! Numbers as they are written: digits, of which so many stand behind the point.

ghost use Rattle.std.specs.Prelude.{◌≤◌, ◌≡◌, ◌*◌, ◌^◌, ◌<◌, ◌+◌};
ghost use Rattle.decimals.specs.Decimals.{parts, HasPlaces};
ghost use Rattle.decimals.specs.inner.Decimals.{IsCut};

use crate::decimal::Decimal;
use crate::rounding::Side;

impl Decimal {
    /// At most the number of these digits, of which so many stand behind the point; exactly it where the whole has as many
    /// zeros.
    pub fn written_down(digits: u64, places: u32, whole: u32) -> Decimal
        requires { digits ≤ 1000000000000000000 }
        ensures down { parts result * 10 ^ places ≤ digits * 10 ^ whole }
        ensures exact { places ≤ whole → parts result * 10 ^ places ≡ digits * 10 ^ whole }
        ensures places { places ≤ whole → HasPlaces whole places result }
        ensures above { digits * 10 ^ whole < (parts result + 1) * 10 ^ places }
    {
        written(Side::Down, digits, places, whole)
    }

    /// At least the same number; exactly it where the whole has as many zeros.
    pub fn written_up(digits: u64, places: u32, whole: u32) -> Decimal
        requires { digits ≤ 1000000000000000000 }
        ensures up { digits * 10 ^ whole ≤ parts result * 10 ^ places }
        ensures exact { places ≤ whole → parts result * 10 ^ places ≡ digits * 10 ^ whole }
        ensures places { places ≤ whole → HasPlaces whole places result }
        ensures below { parts result * 10 ^ places < digits * 10 ^ whole + 10 ^ places }
    {
        written(Side::Up, digits, places, whole)
    }
}

/// The number of these digits, of which so many stand behind the point, rounded to one side.
fn written(side: Side, digits: u64, places: u32, whole: u32) -> Decimal
    requires { digits ≤ 1000000000000000000 }
    ensures cut { IsCut side (digits * 10 ^ whole) (parts result) (10 ^ places) }
    ensures exact { places ≤ whole → parts result * 10 ^ places ≡ digits * 10 ^ whole }
    ensures places { places ≤ whole → HasPlaces whole places result }
{
    if places <= whole {
        return Decimal {
            mantissa: digits,
            exponent: whole - places,
        };
    }
    Decimal {
        mantissa: side.cut(digits, places - whole),
        exponent: 0,
    }
}
