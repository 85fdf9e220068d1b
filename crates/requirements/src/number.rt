//! Numbers of requirements.

ghost use Rattle.std.specs.Prelude.{◌≡◌, ◌≤◌, length};
ghost use Rattle.requirements.specs.Sentences.{digits_from, is_digit, number_of};

/// The number of one to nine decimal digits, if the text has that form.
pub(crate) fn number_of(text: &[u8]) -> Option<u32>
    ensures { result ≡ number_of text.now }
{
    if text.len() >= 1 && text.len() <= 9 {
        digits_of(text)
    } else {
        None
    }
}

/// The number of at most nine decimal digits, if each byte is one.
fn digits_of(text: &[u8]) -> Option<u32>
    requires { length text.now ≤ 9 }
    ensures { result ≡ digits_from 0 text.now }
{
    let mut number: u32 = 0;
    for digit in text {
        if !is_digit(*digit) {
            return None;
        }
        number = number * 10 + u32::from(*digit - b'0');
    }
    Some(number)
}

fn is_digit(byte: u8) -> bool
    ensures { result ≡ is_digit byte }
{
    byte >= b'0' && byte <= b'9'
}
