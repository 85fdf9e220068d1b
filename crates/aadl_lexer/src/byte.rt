//! Classes of bytes.

ghost use Rattle.std.specs.Prelude.{◌≡◌};
ghost use Rattle.aadl_syntax.specs.Form.{is_blank, is_letter, is_digit, is_letter_or_digit, is_hexadecimal, is_sign_byte};

/// Whether a byte is a tab, a line feed, a carriage return or a space.
pub fn is_blank(b: u8) -> bool
    ensures { result ≡ is_blank b }
{
    b == 9 || b == 10 || b == 13 || b == 32
}

/// Whether a byte is an ASCII letter.
pub fn is_letter(b: u8) -> bool
    ensures { result ≡ is_letter b }
{
    (b >= b'A' && b <= b'Z') || (b >= b'a' && b <= b'z')
}

/// Whether a byte is a decimal digit.
pub fn is_digit(b: u8) -> bool
    ensures { result ≡ is_digit b }
{
    b >= b'0' && b <= b'9'
}

/// Whether a byte is an ASCII letter or a decimal digit.
pub fn is_letter_or_digit(b: u8) -> bool
    ensures { result ≡ is_letter_or_digit b }
{
    is_letter(b) || is_digit(b)
}

/// Whether a byte is a hexadecimal digit.
pub fn is_hexadecimal(b: u8) -> bool
    ensures { result ≡ is_hexadecimal b }
{
    is_digit(b) || (b >= b'A' && b <= b'F') || (b >= b'a' && b <= b'f')
}

/// Whether a byte is a sign by itself.
pub fn is_sign_byte(b: u8) -> bool
    ensures { result ≡ is_sign_byte b }
{
    match b {
        b';' | b':' | b',' | b'.' | b'(' | b')' | b'[' | b']' | b'{' | b'}' | b'-' | b'+' | b'*' =>
            { true }
        b'/' | b'=' | b'<' | b'>' | b'^' | b'@' | b'!' | b'&' | b'|' => true,
        _ => false,
    }
}
