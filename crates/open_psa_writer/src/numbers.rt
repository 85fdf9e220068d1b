//! The definitions of basic events, with their rates.

ghost use Rattle.std.specs.Prelude.{◌≡◌, ◌++◌, ◌+◌, ◌≤◌, ◌==◌, OnOk, codes, decimal, drop, filter, length, not, take};
ghost use Rattle.std.specs.List.{flat_map, prefix_len};
ghost use Rattle.aadl_syntax.specs.Form.{is_hexadecimal};
ghost use Rattle.fault_system.specs.Systems.{event_name};
ghost use Rattle.property_reader.specs.declared.rate.RateKind.TheVariants.{Lambda};
ghost use Rattle.galileo_writer.specs.TreeText.{rate_of};
ghost use Rattle.open_psa_writer.specs.Mef.{Figures, event_text, figures_text, label_text, number_text, rate_text};
ghost use Rattle.open_psa_writer.specs.Numbers.{base_len, digit_of, digits_behind, number_of, plain};
ghost use Rattle.open_psa_writer.specs.TreeMef.{mef_event};
ghost use Rattle.open_psa_writer.specs.inner.Based.{digit_text, digits_in, opened};

use crate::gates::push_element;
use crate::names::push_label;
use fault_system::FaultSystem;
use plain_values::Mem;
use property_reader::{Rate, RateKind};

/// Whether a byte is a digit of a number to a base.
fn is_hexadecimal(byte: u8) -> bool
    ensures { result ≡ is_hexadecimal byte }
{
    (byte >= b'0' && byte <= b'9')
        || (byte >= b'A' && byte <= b'F')
        || (byte >= b'a' && byte <= b'f')
}

/// What a hexadecimal digit means.
fn digit_of(byte: u8) -> u8
    requires { 48 ≤ byte }
    ensures { result ≡ digit_of byte }
{
    if byte <= b'9' {
        byte - 48
    } else if byte <= b'F' {
        byte.saturating_sub(55)
    } else {
        byte.saturating_sub(87)
    }
}

/// Adds a number without the underscores between its figures.
fn push_plain(line: &mut Vec<u8>, text: &[u8]) -> Mem<()>
    ensures { OnOk result (line.new.items ≡ line.old.items ++ plain text.now) }
{
    for byte in text {
        if *byte != b'_' {
            line.push(*byte)?;
        }
    }
    Ok(())
}

/// Adds a number by its figures.
fn push_figures(line: &mut Vec<u8>, text: &[u8]) -> Mem<()>
    ensures { OnOk result (line.new.items ≡ line.old.items ++ figures_text (plain text.now)) }
{
    line.extend_from_slice(b"<float value=\"")?;
    push_plain(line, text)?;
    line.extend_from_slice(b"\"/>\n")?;
    Ok(())
}

/// Adds what begins a number to a base, for each digit.
fn push_opened(line: &mut Vec<u8>, text: &[u8]) -> Mem<()>
    ensures { OnOk result (line.new.items ≡ line.old.items ++ opened (digits_in text.now)) }
{
    for byte in text {
        if is_hexadecimal(*byte) {
            line.extend_from_slice(b"<add>\n<mul>\n")?;
        }
    }
    Ok(())
}

/// Adds what a digit means.
fn push_meant(line: &mut Vec<u8>, byte: u8) -> Mem<()>
    requires { 48 ≤ byte }
    ensures { OnOk result (line.new.items ≡ line.old.items ++ figures_text (decimal (digit_of byte))) }
{
    push_element(
        line,
        b"<float value=\"",
        u64::from(digit_of(byte)),
        b"\"/>\n",
    )
}

/// Adds a digit behind those before.
fn push_digit(line: &mut Vec<u8>, base: &[u8], byte: u8) -> Mem<()>
    requires { 48 ≤ byte }
    ensures { OnOk result (line.new.items ≡ line.old.items ++ digit_text (plain base.now) byte) }
{
    push_figures(line, base)?;
    line.extend_from_slice(b"</mul>\n")?;
    push_meant(line, byte)?;
    line.extend_from_slice(b"</add>\n")?;
    Ok(())
}

/// Adds digits behind those before.
fn push_digits(line: &mut Vec<u8>, base: &[u8], text: &[u8]) -> Mem<()>
    ensures { OnOk result (line.new.items ≡ line.old.items ++ flat_map (digit_text (plain base.now)) (digits_in text.now)) }
{
    for byte in text {
        if is_hexadecimal(*byte) {
            push_digit(line, base, *byte)?;
        }
    }
    Ok(())
}

/// How many bytes stand before the base's end.
fn base_len(text: &[u8]) -> usize
    ensures within { result ≤ length text.now }
    ensures value { result ≡ base_len text.now }
{
    text.iter().take_while(|byte| **byte != b'#').count()
}

/// Adds a number of AADL.
fn push_value(line: &mut Vec<u8>, text: &[u8]) -> Mem<()>
    ensures { OnOk result (line.new.items ≡ line.old.items ++ number_text (number_of text.now)) }
{
    let len = base_len(text);
    if len == text.len() {
        return push_figures(line, text);
    }
    let (base, digits) = text.split_at(len);
    push_based(line, base, digits)
}

/// Adds a number by its base and its digits.
fn push_based(line: &mut Vec<u8>, base: &[u8], text: &[u8]) -> Mem<()>
    ensures { OnOk result (line.new.items ≡ line.old.items ++ number_text (digits_behind (plain base.now) (Figures (codes "0")) (digits_in text.now))) }
{
    push_opened(line, text)?;
    line.extend_from_slice(b"<float value=\"0\"/>\n")?;
    push_digits(line, base, text)?;
    Ok(())
}

/// Adds a failure rate.
fn push_exponential(line: &mut Vec<u8>, text: &[u8]) -> Mem<()>
    ensures { OnOk result (line.new.items ≡ line.old.items ++ rate_text Lambda (number_of text.now)) }
{
    line.extend_from_slice(b"<exponential>\n")?;
    push_value(line, text)?;
    line.extend_from_slice(b"<system-mission-time/>\n</exponential>\n")?;
    Ok(())
}

/// Adds a rate of a kind.
fn push_rate(line: &mut Vec<u8>, kind: RateKind, text: &[u8]) -> Mem<()>
    ensures { OnOk result (line.new.items ≡ line.old.items ++ rate_text kind (number_of text.now)) }
{
    match kind {
        RateKind::Prob => push_value(line, text),
        RateKind::Lambda => push_exponential(line, text),
    }
}

/// Adds the rate of an event; one that has none has the conservative one.
fn push_rate_of(line: &mut Vec<u8>, rates: &[Rate], number: u32) -> Mem<()>
    ensures { OnOk result (line.new.items
        ≡ line.old.items ++ rate_text (rate_of rates.now number).kind (number_of (rate_of rates.now number).text)) }
{
    match rates.get(number as usize) {
        Some(rate) => push_rate(line, rate.kind, rate.text.items()),
        None => push_rate(line, RateKind::Prob, b"1"),
    }
}

/// Adds what begins the definition of an event.
fn push_event_head(line: &mut Vec<u8>, number: u32) -> Mem<()>
    ensures { OnOk result (line.new.items ≡ line.old.items ++ (codes "<define-basic-event name=\"e" ++ (decimal (number + 1) ++ codes "\">\n"))) }
{
    push_element(
        line,
        b"<define-basic-event name=\"e",
        u64::from(number) + 1,
        b"\">\n",
    )
}

/// Adds the element that tells the name of an event.
fn push_event_label(line: &mut Vec<u8>, system: &FaultSystem, number: u32) -> Mem<()>
    ensures { OnOk result (line.new.items ≡ line.old.items ++ label_text (event_name system.now number)) }
{
    push_label(line, system.event_name(number))
}

/// Adds the definition of an event.
pub(crate) fn push_event(
    line: &mut Vec<u8>,
    system: &FaultSystem,
    rates: &[Rate],
    number: u32,
) -> Mem<()>
    ensures { OnOk result (line.new.items ≡ line.old.items ++ event_text (mef_event system.now rates.now number)) }
{
    push_event_head(line, number)?;
    push_event_label(line, system, number)?;
    push_rate_of(line, rates, number)?;
    line.extend_from_slice(b"</define-basic-event>\n")?;
    Ok(())
}
