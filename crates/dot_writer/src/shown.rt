//! Bytes as a DOT text shows them.

ghost use Rattle.std.specs.Prelude.{◌≡◌, ◌<◌, ◌++◌, OnOk, false};
ghost use Rattle.std.specs.Fmt.{digit_glyph};
ghost use Rattle.dot_writer.specs.Shown.{is_plain, is_sign, shown, shown_byte};

use plain_values::Mem;

/// Adds a text as it is shown: each byte itself, or `%` and its two hexadecimal digits.
pub(crate) fn push_shown(line: &mut Vec<u8>, text: &[u8]) -> Mem<()>
    ensures { OnOk result (line.new.items ≡ line.old.items ++ shown text.now) }
{
    for byte in text {
        push_byte(line, *byte)?;
    }
    Ok(())
}

/// Adds a byte as it is shown.
fn push_byte(line: &mut Vec<u8>, byte: u8) -> Mem<()>
    ensures { OnOk result (line.new.items ≡ line.old.items ++ shown_byte byte) }
{
    if is_plain(byte) {
        line.push(byte)?;
        return Ok(());
    }
    line.push(b'%')?;
    line.push(glyph(byte / 16))?;
    line.push(glyph(byte % 16))?;
    Ok(())
}

/// Whether a byte stands for itself.
fn is_plain(byte: u8) -> bool
    ensures { result ≡ is_plain byte }
{
    (byte >= 32 && byte <= 126) && !is_sign(byte)
}

/// Whether a byte is one of `"`, `%`, `&`, `<`, `>` and `\`.
fn is_sign(byte: u8) -> bool
    ensures { result ≡ is_sign byte }
{
    byte == b'"' || byte == b'%' || byte == b'&' || byte == b'<' || byte == b'>' || byte == b'\\'
}

/// The hexadecimal digit of a number below 16.
fn glyph(digit: u8) -> u8
    requires { digit < 16 }
    ensures { result ≡ digit_glyph false digit }
{
    if digit < 10 { 48 + digit } else { 87 + digit }
}
