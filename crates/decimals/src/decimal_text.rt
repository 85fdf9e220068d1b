//! Decimals as texts.

ghost use Rattle.std.specs.Prelude.{◌≡◌, ◌≤◌, ◌<◌, ◌+◌, ◌-◌, ◌++◌, ◌^◌, ℕ, OnOk, decimal};
ghost use Rattle.decimals.specs.declared.decimal.Decimal.{Decimal};
ghost use Rattle.decimals.specs.DecimalTexts.{decimal_text, figures_text, fraction_text, power_text, trimmed};
ghost use Rattle.decimals.specs.inner.DecimalTexts.{ReadsBack};

use crate::decimal::Decimal;
use itoa::Buffer;
use std::alloc::AllocError;

/// Digits, and how many zeros stand behind them.
#[derive(Clone, Copy)]
struct Trim {
    digits: u64,
    zeros: u32,
}

impl Trim {
    /// Without one zero more, where there is one.
    #[tactic(auto, using(crate::proofs::Trimming::trimmed_step, crate::proofs::Trimming::trimmed_stays))]
    fn once(self) -> Trim
        requires { self.zeros ≤ 100 }
        ensures few { result.zeros ≤ self.zeros + 1 }
        ensures trimmed { (k : ℕ) → 0 < k → trimmed k self.zeros self.digits ≡ trimmed (k - 1) result.zeros result.digits }
    {
        if self.digits % 10 == 0 {
            return Trim {
                digits: self.digits / 10,
                zeros: self.zeros + 1,
            };
        }
        self
    }
}

/// Some digits without the zeros at their end.
fn trimmed(mantissa: u64) -> Trim
    ensures digits { result.digits ≡ (trimmed 18 0 mantissa).digits }
    ensures zeros { result.zeros ≡ (trimmed 18 0 mantissa).zeros }
    ensures few { result.zeros ≤ 18 }
{
    let mut trim = Trim {
        digits: mantissa,
        zeros: 0,
    };
    for _step in 0..18_u32 {
        trim = trim.once();
    }
    trim
}

/// Adds a number.
fn push_number(line: &mut Vec<u8>, number: u64) -> Result<(), AllocError>
    ensures { OnOk result (line.new.items ≡ line.old.items ++ decimal number) }
{
    let mut buffer = Buffer::new();
    line.extend_from_slice(buffer.format(number).as_bytes())?;
    Ok(())
}

/// Adds a power of ten.
fn push_power(line: &mut Vec<u8>, whole: u32, power: u64) -> Result<(), AllocError>
    ensures { OnOk result (line.new.items ≡ line.old.items ++ power_text whole power) }
{
    let all = whole as u64;
    if power == all {
        return Ok(());
    }
    if all < power {
        line.push(b'e')?;
        return push_number(line, power - all);
    }
    line.push(b'e')?;
    line.push(b'-')?;
    push_number(line, all - power)
}

/// Adds the digits behind the first.
fn push_fraction(line: &mut Vec<u8>, figures: &[u8]) -> Result<(), AllocError>
    ensures { OnOk result (line.new.items ≡ line.old.items ++ fraction_text figures.now) }
{
    if figures.is_empty() {
        return Ok(());
    }
    line.push(b'.')?;
    line.extend_from_slice(figures)?;
    Ok(())
}

/// Adds digits with so many zeros behind them.
fn push_figures(
    line: &mut Vec<u8>,
    whole: u32,
    zeros: u64,
    figures: &[u8],
) -> Result<(), AllocError>
    requires { zeros ≤ 4294967313 }
    ensures { OnOk result (line.new.items ≡ line.old.items ++ figures_text whole zeros figures.now) }
{
    match figures.split_first() {
        Some((first, rest)) => {
            line.push(*first)?;
            push_fraction(line, rest)?;
            push_power(line, whole, rest.len() as u64 + zeros)
        }
        None => Ok(()),
    }
}

impl Decimal {
    /// Adds the decimal to a text: its digits without zeros at the end, with a point behind the first, and a power of ten, as
    /// `4.28980310793906943e-3`, `1` and `0`.
    pub fn push_to(self, line: &mut Vec<u8>, whole: u32) -> Result<(), AllocError>
        ensures { OnOk result (line.new.items ≡ line.old.items ++ decimal_text whole self) }
    {
        if self.mantissa == 0 {
            line.push(b'0')?;
            return Ok(());
        }
        let found = trimmed(self.mantissa);
        let mut buffer = Buffer::new();
        push_figures(
            line,
            whole,
            self.exponent as u64 + found.zeros as u64,
            buffer.format(found.digits).as_bytes(),
        )
    }
}

/// The text of a decimal is a number of the same worth.
pub fn text_reads_back()
    ensures { (whole : ℕ) (x : Decimal) → whole < 2 ^ 32 → x.exponent < 2 ^ 32 → x.mantissa ≤ 1000000000000000000 → ReadsBack whole x (decimal_text whole x) }
{}
