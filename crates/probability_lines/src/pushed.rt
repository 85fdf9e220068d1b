//! Lines as bytes.

ghost use Rattle.std.specs.Prelude.{◌≡◌, ◌++◌, IfOk, OnOk, codes, decimal};
ghost use Rattle.decimals.specs.DecimalTexts.{decimal_text};
ghost use Rattle.probability_lines.specs.ProbabilityText.{bounds_text, line_text, lines_text, name_text, reason_text};

use crate::line::Line;
use decimals::Decimal;
use event_probabilities::Found;
use itoa::Buffer;
use plain_values::Mem;
use probabilities::Bounds;
use std::alloc::Global;

/// Adds why an event has no probability.
fn push_reason(text: &mut Vec<u8>, found: Found) -> Mem<()>
    ensures { OnOk result (text.new.items ≡ text.old.items ++ reason_text found) }
{
    match found {
        Found::NoProbability => {
            text.extend_from_slice(b" not-a-probability")?;
            Ok(())
        }
        Found::WithoutHours => {
            text.extend_from_slice(b" without-hours")?;
            Ok(())
        }
        _ => Ok(()),
    }
}

/// Adds a blank and a decimal.
fn push_next(text: &mut Vec<u8>, whole: u32, bound: Decimal) -> Mem<()>
    ensures { OnOk result (text.new.items ≡ text.old.items ++ (codes " " ++ decimal_text whole bound)) }
{
    text.extend_from_slice(b" ")?;
    bound.push_to(text, whole)
}

/// Adds the bounds of a probability.
fn push_bounds(text: &mut Vec<u8>, whole: u32, bounds: &Bounds) -> Mem<()>
    ensures { OnOk result (text.new.items ≡ text.old.items ++ bounds_text whole bounds.now) }
{
    bounds.lower.push_to(text, whole)?;
    push_next(text, whole, bounds.upper)
}

/// Adds a word, a decimal and the end of the line.
fn push_bound(text: &mut Vec<u8>, word: &[u8], whole: u32, bound: Decimal) -> Mem<()>
    ensures { OnOk result (text.new.items ≡ text.old.items ++ (word.now ++ (decimal_text whole bound ++ codes "\n"))) }
{
    text.extend_from_slice(word)?;
    bound.push_to(text, whole)?;
    text.push(b'\n')?;
    Ok(())
}

/// Adds the end of a line of an event.
fn push_always(text: &mut Vec<u8>, whole: u32, always: &Bounds) -> Mem<()>
    ensures { OnOk result (text.new.items ≡ text.old.items ++ (codes " always " ++ (bounds_text whole always.now ++ codes "\n"))) }
{
    text.extend_from_slice(b" always ")?;
    push_bounds(text, whole, always)?;
    text.push(b'\n')?;
    Ok(())
}

/// Adds what a line of an event has behind the name.
fn push_both(text: &mut Vec<u8>, whole: u32, never: &Bounds, always: &Bounds) -> Mem<()>
    ensures { OnOk result (text.new.items ≡ text.old.items ++ (codes " never " ++ (bounds_text whole never.now ++ (codes " always " ++ (bounds_text whole always.now ++ codes "\n"))))) }
{
    text.extend_from_slice(b" never ")?;
    push_bounds(text, whole, never)?;
    push_always(text, whole, always)
}

/// Adds a word and a name.
fn push_named(text: &mut Vec<u8>, word: &[u8], name: &[u8]) -> Mem<()>
    ensures { OnOk result (text.new.items ≡ text.old.items ++ (word.now ++ name.now)) }
{
    text.extend_from_slice(word)?;
    text.extend_from_slice(name)?;
    Ok(())
}

/// Adds a name as it is, or in quotes.
fn push_name(text: &mut Vec<u8>, name: &[u8], quoted: bool) -> Mem<()>
    ensures { OnOk result (text.new.items ≡ text.old.items ++ name_text quoted name.now) }
{
    if quoted {
        push_named(text, b"\"", name)?;
        text.push(b'"')?;
    } else {
        text.extend_from_slice(name)?;
    }
    Ok(())
}

/// Adds the line of an event's importance.
fn push_event(
    text: &mut Vec<u8>,
    quoted: bool,
    whole: u32,
    name: &[u8],
    never: &Bounds,
    always: &Bounds,
) -> Mem<()>
    ensures { OnOk result (text.new.items ≡ text.old.items ++ (codes "event " ++ (name_text quoted name.now ++ (codes " never " ++ (bounds_text whole never.now ++ (codes " always " ++ (bounds_text whole always.now ++ codes "\n"))))))) }
{
    text.extend_from_slice(b"event ")?;
    push_name(text, name, quoted)?;
    push_both(text, whole, never, always)
}

/// Adds the line of an event without a probability.
fn push_unrated(text: &mut Vec<u8>, quoted: bool, name: &[u8], found: Found) -> Mem<()>
    ensures { OnOk result (text.new.items ≡ text.old.items ++ (codes "unrated " ++ (name_text quoted name.now ++ (reason_text found ++ codes "\n")))) }
{
    text.extend_from_slice(b"unrated ")?;
    push_name(text, name, quoted)?;
    push_reason(text, found)?;
    text.push(b'\n')?;
    Ok(())
}

/// Adds the line of the hours.
fn push_hours(text: &mut Vec<u8>, hours: &[u8]) -> Mem<()>
    ensures { OnOk result (text.new.items ≡ text.old.items ++ (codes "hours " ++ (hours.now ++ codes "\n"))) }
{
    push_named(text, b"hours ", hours)?;
    text.push(b'\n')?;
    Ok(())
}

/// Adds the line of the greatest number of events of a set.
fn push_order(text: &mut Vec<u8>, most: u32) -> Mem<()>
    ensures { OnOk result (text.new.items ≡ text.old.items ++ (codes "by sets of at most " ++ (decimal most ++ codes " events\n"))) }
{
    let mut digits = Buffer::new();
    text.extend_from_slice(b"by sets of at most ")?;
    text.extend_from_slice(digits.format(most).as_bytes())?;
    text.extend_from_slice(b" events\n")?;
    Ok(())
}

/// Adds a line.
fn push_line(text: &mut Vec<u8>, quoted: bool, whole: u32, line: &Line) -> Mem<()>
    ensures { OnOk result (text.new.items ≡ text.old.items ++ line_text quoted whole line.now) }
{
    match line {
        Line::Hours(hours) => push_hours(text, hours.items()),
        Line::Unrated(name, found) => push_unrated(text, quoted, name.items(), *found),
        Line::ByOrder(most) => push_order(text, *most),
        Line::Large => {
            text.extend_from_slice(b"large\nat-least 0\nat-most 1\n")?;
            Ok(())
        }
        Line::AtLeast(bound) => push_bound(text, b"at-least ", whole, *bound),
        Line::AtMost(bound) => push_bound(text, b"at-most ", whole, *bound),
        Line::Event(name, never, always) => {
            push_event(text, quoted, whole, name.items(), never, always)
        }
        Line::End => {
            text.extend_from_slice(b"end\n")?;
            Ok(())
        }
    }
}

/// The text of some lines, with decimals as parts of the whole; names of events may stand in quotes.
pub fn text_of(alloc: Global, lines: &[Line], whole: u32, quoted: bool) -> Mem<Vec<u8>>
    ensures { IfOk result (λ text. text.items ≡ lines_text quoted whole lines.now) }
{
    let mut text = Vec::new(alloc);
    for line in lines {
        push_line(&mut text, quoted, whole, line)?;
    }
    Ok(text)
}
