//! Products, sums and rests of decimals, rounded down and up.

ghost use Rattle.std.specs.Prelude.{ℕ, ◌≤◌, ◌*◌, ◌+◌, ◌-◌, ◌^◌, min};
ghost use Rattle.decimals.specs.Decimals.{parts, HasPlaces, HavePlaces};
ghost use Rattle.decimals.specs.inner.Decimals.{IsBound, IsHeld, IsNear, IsNearBound};
ghost use Rattle.decimals.specs.inner.Aligned.{IsAligned};

use crate::aligned::{Aligned, left, sum};
use crate::decimal::Decimal;
use crate::rounding::Side;

impl Decimal {
    /// At most the product, where the whole has `whole` zeros. It is near where the places of the two fit the whole, and the product is
    /// twice the whole at most.
    pub fn times_down(self, other: Decimal, whole: u32) -> Decimal
        ensures down { 10 ^ whole * parts result ≤ parts self * parts other }
        ensures near { (p q : ℕ) → HasPlaces whole p self → HasPlaces whole q other → p + q ≤ whole
            → parts self * parts other ≤ 2 * (10 ^ whole * 10 ^ whole) → IsNear (parts self * parts other) (10 ^ whole * parts result) }
        ensures places { (p q : ℕ) → HasPlaces whole p self → HasPlaces whole q other → p + q ≤ whole → HasPlaces whole (p + q) result }
    {
        product(Side::Down, self, other, whole)
    }

    /// At least the product, or the whole. It is near where the places of the two fit the whole.
    pub fn times_up(self, other: Decimal, whole: u32) -> Decimal
        ensures up { min (10 ^ whole * 10 ^ whole) (parts self * parts other) ≤ 10 ^ whole * parts result }
        ensures near { (p q : ℕ) → HasPlaces whole p self → HasPlaces whole q other → p + q ≤ whole
            → IsNear (10 ^ whole * parts result) (parts self * parts other) }
        ensures places { (p q : ℕ) → HasPlaces whole p self → HasPlaces whole q other → p + q ≤ whole → HasPlaces whole (p + q) result }
    {
        product(Side::Up, self, other, whole)
    }

    /// At most the sum. It is near where the sum is twice the whole at most.
    pub fn plus_down(self, other: Decimal, whole: u32) -> Decimal
        ensures down { parts result ≤ parts self + parts other }
        ensures near { parts self + parts other ≤ 2 * 10 ^ whole → IsNear (parts self + parts other) (parts result) }
        ensures places { (places : ℕ) → HasPlaces whole places self → HasPlaces whole places other → HasPlaces whole places result }
    {
        rounded(Side::Down, sum(Side::Down, self, other), whole)
    }

    /// At least the sum, or the whole.
    pub fn plus_up(self, other: Decimal, whole: u32) -> Decimal
        ensures up { min (10 ^ whole) (parts self + parts other) ≤ parts result }
        ensures near { IsNear (parts result) (parts self + parts other) }
        ensures places { (places : ℕ) → HasPlaces whole places self → HasPlaces whole places other → HasPlaces whole places result }
    {
        rounded(Side::Up, sum(Side::Up, self, other), whole)
    }

    /// At most what is left of the whole.
    pub fn rest_down(self, whole: u32) -> Decimal
        requires { parts self ≤ 10 ^ whole }
        ensures down { parts result + parts self ≤ 10 ^ whole }
        ensures near { IsNear (10 ^ whole - parts self) (parts result) }
        ensures places { HasPlaces whole 36 result }
    {
        rounded(Side::Down, left(Side::Down, self, whole), whole)
    }

    /// At least what is left of the whole.
    pub fn rest_up(self, whole: u32) -> Decimal
        requires { parts self ≤ 10 ^ whole }
        ensures up { 10 ^ whole ≤ parts result + parts self }
        ensures near { IsNear (parts result) (10 ^ whole - parts self) }
        ensures places { HasPlaces whole 36 result }
    {
        rounded(Side::Up, left(Side::Up, self, whole), whole)
    }
}

/// The product, rounded to one side, or the whole.
fn product(side: Side, one: Decimal, other: Decimal, whole: u32) -> Decimal
    ensures bound { IsBound side (10 ^ whole * 10 ^ whole) (parts one * parts other) (10 ^ whole * parts result) }
    ensures near { (p q : ℕ) → HasPlaces whole p one → HasPlaces whole q other → p + q ≤ whole
        → IsNearBound side (10 ^ whole * 10 ^ whole) (parts one * parts other) (10 ^ whole * parts result) }
    ensures places { (p q : ℕ) → HasPlaces whole p one → HasPlaces whole q other → p + q ≤ whole → HasPlaces whole (p + q) result }
{
    let short = side.shortened(one.mantissa as u128 * other.mantissa as u128);
    let total = one.exponent as u64 + other.exponent as u64 + short.dropped as u64;
    if total < (whole as u64) {
        return Decimal {
            mantissa: side.least(short.mantissa),
            exponent: 0,
        };
    }
    held(side, short.mantissa, total - whole as u64, whole)
}

/// A number with zeros behind it, rounded to one side, or the whole. It is near what that stands for.
fn rounded(side: Side, exact: Aligned, whole: u32) -> Decimal
    requires { exact.number ≤ 2000000000000000000000000000000000000 }
    ensures value { (n : ℕ) → IsAligned side n exact → IsBound side (10 ^ whole) n (parts result) }
    ensures near { (n : ℕ) → IsAligned side n exact → IsNearBound side (10 ^ whole) n (parts result) }
    ensures places { (places : ℕ) → HavePlaces whole places exact.number exact.exponent → HasPlaces whole places result }
{
    let short = side.shortened(exact.number);
    held(
        side,
        short.mantissa,
        exact.exponent as u64 + short.dropped as u64,
        whole,
    )
}

/// A mantissa with so many zeros behind it, or nothing or the whole where the whole has fewer.
fn held(side: Side, mantissa: u64, exponent: u64, whole: u32) -> Decimal
    requires { mantissa ≤ 1000000000000000000 }
    ensures worth { IsHeld side mantissa exponent whole (parts result) }
    ensures places { (places : ℕ) → HavePlaces whole places mantissa exponent → HasPlaces whole places result }
{
    match side {
        Side::Down => {
            if exponent > whole as u64 {
                return Decimal {
                    mantissa: 0,
                    exponent: 0,
                };
            }
        }
        Side::Up => {
            if mantissa == 0 {
                return Decimal {
                    mantissa: 0,
                    exponent: 0,
                };
            }
            if exponent > whole as u64 {
                return Decimal {
                    mantissa: 1,
                    exponent: whole,
                };
            }
        }
    }
    Decimal {
        mantissa,
        exponent: exponent as u32,
    }
}
