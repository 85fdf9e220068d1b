//! The first digits of a number.

ghost use Rattle.std.specs.Prelude.{ℕ, ◌≡◌, ◌≤◌, ◌<◌, ◌+◌, ◌*◌, ◌^◌, false, length};
ghost use Rattle.decimals.specs.Numerals.{behind, worth};
ghost use Rattle.decimals.specs.inner.Figures.{AreFigures};

use crate::digits::{digit_of, is_digit};

/// The first 18 digits of a number, how many are dropped behind them, and whether one of these is not 0.
#[derive(Clone, Copy)]
pub struct Figures {
    pub mantissa: u64,
    pub dropped: u64,
    pub more: bool,
}

impl Figures {
    /// No digits.
    fn new() -> Figures
        ensures figures { AreFigures 0 result }
        ensures dropped { result.dropped ≡ 0 }
    {
        Figures {
            mantissa: 0,
            dropped: 0,
            more: false,
        }
    }

    /// These and a digit behind them.
    fn with(self, digit: u8) -> Figures
        requires digit { digit ≤ 9 }
        requires dropped { self.dropped + 1 < 2 ^ 64 }
        ensures dropped { result.dropped ≤ self.dropped + 1 }
        ensures figures { (n : ℕ) → AreFigures n self → AreFigures (n * 10 + digit) result }
    {
        if self.mantissa < 100_000_000_000_000_000 {
            return Figures {
                mantissa: self.mantissa * 10 + digit as u64,
                dropped: self.dropped,
                more: self.more,
            };
        }
        if digit == 0 {
            return Figures {
                mantissa: self.mantissa,
                dropped: self.dropped + 1,
                more: self.more,
            };
        }
        Figures {
            mantissa: self.mantissa,
            dropped: self.dropped + 1,
            more: true,
        }
    }

    /// These and a byte behind them.
    fn behind(self, byte: u8) -> Figures
        requires { self.dropped + 1 < 2 ^ 64 }
        ensures dropped { result.dropped ≤ self.dropped + 1 }
        ensures figures { (n : ℕ) → AreFigures n self → AreFigures (behind 10 n byte) result }
    {
        if is_digit(byte, 10) {
            return self.with(digit_of(byte));
        }
        self
    }

    /// Those of a text.
    pub fn of(text: &[u8]) -> Figures
        ensures figures { AreFigures (worth 10 text.now) result }
        ensures dropped { result.dropped ≤ length text.now }
    {
        let mut figures = Figures::new();
        for byte in text {
            figures = figures.behind(*byte);
        }
        figures
    }

    /// The digits, or one more where others than zeros were dropped.
    pub fn above(self) -> u64
        requires { self.mantissa ≤ 999999999999999999 }
        ensures few { result ≤ self.mantissa + 1 }
        ensures least { (n : ℕ) → AreFigures n self → n ≤ result * 10 ^ self.dropped }
        ensures kept { self.more ≡ false → result ≡ self.mantissa }
    {
        if self.more {
            return self.mantissa + 1;
        }
        self.mantissa
    }

    /// Those of a number of at most 18 zeros.
    pub fn small(number: u64) -> Figures
        requires { number ≤ 1000000000000000000 }
        ensures figures { AreFigures number result }
        ensures dropped { result.dropped ≤ 1 }
    {
        if number == 1_000_000_000_000_000_000 {
            return Figures {
                mantissa: 100_000_000_000_000_000,
                dropped: 1,
                more: false,
            };
        }
        Figures {
            mantissa: number,
            dropped: 0,
            more: false,
        }
    }
}
