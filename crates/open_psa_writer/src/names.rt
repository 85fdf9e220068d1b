//! Names and numbers as bytes of a text.

ghost use Rattle.std.specs.Prelude.{◌≡◌, ◌++◌, ◌<◌, OnOk, decimal, false};
ghost use Rattle.std.specs.Fmt.{digit_glyph};
ghost use Rattle.std.specs.List.{flat_map};
ghost use Rattle.open_psa_writer.specs.Mef.{byte_text, hex_text, label_text};

use itoa::Buffer;
use plain_values::Mem;

/// Adds a number.
pub(crate) fn push_number(line: &mut Vec<u8>, number: u64) -> Mem<()>
    ensures { OnOk result (line.new.items ≡ line.old.items ++ decimal number) }
{
    let mut buffer = Buffer::new();
    line.extend_from_slice(buffer.format(number).as_bytes())?;
    Ok(())
}

/// A hexadecimal digit.
fn glyph(digit: u8) -> u8
    requires { digit < 16 }
    ensures { result ≡ digit_glyph false digit }
{
    if digit < 10 { 48 + digit } else { 87 + digit }
}

/// Adds a backslash, `x` and the two hexadecimal digits of a byte.
fn push_hex(line: &mut Vec<u8>, byte: u8) -> Mem<()>
    ensures { OnOk result (line.new.items ≡ line.old.items ++ hex_text byte) }
{
    line.extend_from_slice(b"\\x")?;
    line.push(glyph(byte / 16))?;
    line.push(glyph(byte % 16))?;
    Ok(())
}

/// Adds a byte of a name.
fn push_byte(line: &mut Vec<u8>, byte: u8) -> Mem<()>
    ensures { OnOk result (line.new.items ≡ line.old.items ++ byte_text byte) }
{
    if byte == b'&' {
        line.extend_from_slice(b"&amp;")?;
    } else if byte == b'<' {
        line.extend_from_slice(b"&lt;")?;
    } else if byte == b'>' {
        line.extend_from_slice(b"&gt;")?;
    } else if byte == b'\\' {
        line.extend_from_slice(b"\\\\")?;
    } else if byte >= 32 && byte <= 126 {
        line.push(byte)?;
    } else {
        push_hex(line, byte)?;
    }
    Ok(())
}

/// Adds the bytes of a name.
fn push_name(line: &mut Vec<u8>, name: &[u8]) -> Mem<()>
    ensures { OnOk result (line.new.items ≡ line.old.items ++ flat_map byte_text name.now) }
{
    for byte in name {
        push_byte(line, *byte)?;
    }
    Ok(())
}

/// Adds the element that tells a name.
pub(crate) fn push_label(line: &mut Vec<u8>, name: &[u8]) -> Mem<()>
    ensures { OnOk result (line.new.items ≡ line.old.items ++ label_text name.now) }
{
    line.extend_from_slice(b"<label>")?;
    push_name(line, name)?;
    line.extend_from_slice(b"</label>\n")?;
    Ok(())
}
