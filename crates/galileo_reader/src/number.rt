//! The number that digits are.

ghost use Rattle.std.specs.Prelude.{◌≡◌, ◌≤◌, length};
ghost use Rattle.galileo_reader.specs.Statements.{digit_value, value_from};

fn digit_value(b: u8) -> u8
    ensures value { result ≡ digit_value b }
    ensures small { result ≤ 9 }
{
    let value = b.saturating_sub(b'0');
    if value > 9 { 9 } else { value }
}

/// The number that up to nine digits are.
pub(crate) fn number(text: &[u8]) -> u32
    requires { length text.now ≤ 9 }
    ensures { result ≡ value_from 0 text.now }
{
    let mut value = 0u32;
    for b in text {
        value = value * 10 + u32::from(digit_value(*b));
    }
    value
}
