//! Numbers as texts have them.

ghost use Rattle.std.specs.Prelude.{◌≤◌};

use crate::figures::Figures;

/// A number as a text has it: its first digits, times ten to the one power, divided by ten to the other.
#[derive(Clone, Copy)]
pub struct Numeral {
    pub figures: Figures,
    pub raised: u64,
    pub lowered: u64,
    ghost few_digits: { figures.mantissa ≤ 999999999999999999 },
    ghost few_raised: { raised ≤ 10000000000 },
    ghost few_lowered: { lowered ≤ 10000000000000000000 },
    ghost few_dropped: { figures.dropped ≤ 10000000000000000000 },
}
