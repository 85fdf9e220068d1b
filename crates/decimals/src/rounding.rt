//! Numbers without their last digits.

ghost use Rattle.std.specs.Prelude.{◌≤◌, ◌^◌, ◌≡◌};
ghost use Rattle.decimals.specs.inner.Decimals.{IsCut, IsShortened, least, opposite};

/// The side to which a number is rounded.
#[derive(Clone, Copy)]
pub enum Side {
    /// At most the number.
    Down,
    /// At least the number.
    Up,
}

/// A number of which so many last digits were dropped.
#[derive(Clone, Copy)]
pub struct Shortened {
    pub mantissa: u64,
    pub dropped: u32,
}

/// The greatest mantissa.
const MOST: u128 = 1_000_000_000_000_000_000;

impl Side {
    /// The side to which a part is rounded so that what is left of the whole is rounded to this one.
    pub fn opposite(self) -> Side
        ensures { result ≡ opposite self }
    {
        match self {
            Side::Down => Side::Up,
            Side::Up => Side::Down,
        }
    }

    /// What stands for so many parts of which all are too little.
    pub fn least(self, mantissa: u64) -> u64
        ensures { result ≡ least self mantissa }
    {
        match self {
            Side::Down => 0,
            Side::Up => mantissa,
        }
    }

    /// A number without its last digit, rounded to this side.
    fn tenth(self, number: u128) -> u128
        requires { number ≤ 2000000000000000000000000000000000000 }
        ensures few { result ≤ number }
        ensures cut { IsCut self number result 10 }
    {
        match self {
            Side::Down => number / 10,
            Side::Up => (number + 9) / 10,
        }
    }

    /// The first 18 digits of a number, rounded to this side.
    pub fn shortened(self, number: u128) -> Shortened
        requires { number ≤ 2000000000000000000000000000000000000 }
        ensures { IsShortened self number result }
    {
        let mut rest = number;
        let mut dropped = 0_u32;
        while rest > MOST && dropped < 19 {
            rest = self.tenth(rest);
            dropped += 1;
        }
        Shortened {
            mantissa: rest as u64,
            dropped,
        }
    }

    /// A mantissa without so many digits, rounded to this side.
    pub fn cut(self, number: u64, count: u32) -> u64
        requires { number ≤ 1000000000000000000 }
        ensures few { result ≤ number }
        ensures cut { IsCut self number result (10 ^ count) }
    {
        if number == 0 {
            return 0;
        }
        if count > 18 {
            return self.least(1);
        }
        let part = power(count);
        match self {
            Side::Down => number / part,
            Side::Up => number.div_ceil(part),
        }
    }
}

/// A power of ten.
pub fn power(count: u32) -> u64
    requires { count ≤ 18 }
    ensures { result ≡ 10 ^ count }
{
    let mut value = 1_u64;
    for _step in 0..count {
        value *= 10;
    }
    value
}

/// A power of ten, up to twice as many zeros.
pub fn wide_power(count: u32) -> u128
    requires { count ≤ 36 }
    ensures value { result ≡ 10 ^ count }
    ensures most { result ≤ 1000000000000000000000000000000000000 }
{
    let half = count.min(18);
    power(half) as u128 * power(count - half) as u128
}
