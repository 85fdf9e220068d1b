//! Parts of decimals, and decimals that are no more than the whole.

ghost use Rattle.std.specs.Prelude.{ℕ, ◌≡◌, ◌≤◌, ◌<◌, ◌+◌, ◌*◌, ◌^◌, ◌⊎◌, IsTrue, false, min};
ghost use Rattle.decimals.specs.Decimals.{parts, AreNear, HasPlaces};

use crate::decimal::Decimal;
use crate::rounding::power;

impl Decimal {
    /// Whether it is the whole at most.
    pub fn is_part(self, whole: u32) -> bool
        ensures within { IsTrue result → parts self ≤ 10 ^ whole }
        ensures above { result ≡ false → 10 ^ whole < parts self }
    {
        if self.mantissa == 0 {
            return true;
        }
        if self.exponent > whole {
            return false;
        }
        let gap = whole - self.exponent;
        if gap > 18 {
            return true;
        }
        self.mantissa <= power(gap)
    }

    /// The same, or the whole where it is more.
    pub fn within(self, whole: u32) -> Decimal
        ensures value { parts result ≡ min (parts self) (10 ^ whole) }
        ensures places { (places : ℕ) → HasPlaces whole places self → HasPlaces whole places result }
    {
        if self.is_part(whole) {
            return self;
        }
        Decimal {
            mantissa: 1,
            exponent: whole,
        }
    }

    /// The same with a digit more, where there is room.
    fn lifted_once(self) -> Decimal
        ensures same { parts result ≡ parts self }
        ensures room { self.exponent ≤ result.exponent + 1 }
        ensures none { self.mantissa ≡ 0 → result.mantissa ≡ 0 }
        ensures more { 0 < self.exponent → self.mantissa ≤ 100000000000000000 → result.mantissa ≡ self.mantissa * 10 }
        ensures full { 100000000000000000 < self.mantissa → result.mantissa ≡ self.mantissa }
    {
        if self.mantissa <= 100_000_000_000_000_000 && self.exponent > 0 {
            return Decimal {
                mantissa: self.mantissa * 10,
                exponent: self.exponent - 1,
            };
        }
        self
    }

    /// The same with as many digits as there may be.
    fn lifted(self) -> Decimal
        ensures same { parts result ≡ parts self }
        ensures room { self.exponent ≤ result.exponent + 18 }
        ensures none { self.mantissa ≡ 0 → result.mantissa ≡ 0 }
        ensures full { 18 ≤ self.exponent → (self.mantissa ≡ 0) ⊎ (100000000000000000 < result.mantissa) }
    {
        let mut lifted = self;
        for _step in 0..18_u32 {
            lifted = lifted.lifted_once();
        }
        lifted
    }

    /// At most one of so many equal parts. It is near where there is room for 18 places more.
    pub fn over_down(self, count: u32) -> Decimal
        requires { 0 < count }
        ensures down { parts result * count ≤ parts self }
        ensures near { (whole places : ℕ) → HasPlaces whole places self → places + 18 ≤ whole → count ≤ 1000 → AreNear count (parts self) (parts result * count) }
        ensures places { (whole places : ℕ) → HasPlaces whole places self → HasPlaces whole (places + 18) result }
    {
        let lifted = self.lifted();
        Decimal {
            mantissa: lifted.mantissa / count as u64,
            exponent: lifted.exponent,
        }
    }

    /// At least one of so many equal parts. It is near where there is room for 18 places more.
    pub fn over_up(self, count: u32) -> Decimal
        requires { 0 < count }
        ensures up { parts self ≤ parts result * count }
        ensures near { (whole places : ℕ) → HasPlaces whole places self → places + 18 ≤ whole → AreNear count (parts result * count) (parts self) }
        ensures places { (whole places : ℕ) → HasPlaces whole places self → HasPlaces whole (places + 18) result }
    {
        let lifted = self.lifted();
        Decimal {
            mantissa: lifted.mantissa.div_ceil(count as u64),
            exponent: lifted.exponent,
        }
    }
}
