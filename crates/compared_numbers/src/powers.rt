//! Digits with zeros behind them, compared.

ghost use Rattle.std.specs.Prelude.{◌≡◌, ◌≤◌, ◌<◌, ◌*◌, ◌^◌, ◌↔◌, IsTrue};

/// Whether some digits with so many zeros behind them are less than others.
pub(crate) fn is_less(one: u64, first: u64, other: u64, second: u64) -> bool
    requires one { one ≤ 1000000000000000000 }
    requires other { other ≤ 1000000000000000000 }
    ensures { IsTrue result ↔ one * 10 ^ first < other * 10 ^ second }
{
    if other == 0 {
        return false;
    }
    if one == 0 {
        return true;
    }
    if first >= second {
        is_raised_less(one, first - second, other)
    } else {
        is_less_raised(one, other, second - first)
    }
}

/// Whether digits with so many zeros behind them are less than a number.
fn is_raised_less(one: u64, zeros: u64, other: u64) -> bool
    requires some { 0 < one }
    requires one { one ≤ 1000000000000000000 }
    requires other { other ≤ 1000000000000000000 }
    ensures { IsTrue result ↔ one * 10 ^ zeros < other }
{
    if zeros > 18 {
        return false;
    }
    one as u128 * (power(zeros) as u128) < (other as u128)
}

/// Whether a number is less than digits with so many zeros behind them.
fn is_less_raised(one: u64, other: u64, zeros: u64) -> bool
    requires some { 0 < other }
    requires one { one ≤ 1000000000000000000 }
    requires other { other ≤ 1000000000000000000 }
    ensures { IsTrue result ↔ one < other * 10 ^ zeros }
{
    if zeros > 18 {
        return true;
    }
    (one as u128) < other as u128 * (power(zeros) as u128)
}

/// A power of ten.
fn power(count: u64) -> u64
    requires { count ≤ 18 }
    ensures value { result ≡ 10 ^ count }
    ensures most { result ≤ 1000000000000000000 }
{
    let mut value = 1_u64;
    for _step in 0..count {
        value *= 10;
    }
    value
}
