//! The lines of what is below a box.

ghost use Rattle.std.specs.Prelude.{◌≡◌, ◌+◌, ◌++◌, OnOk, [], decimal, unwrap_or};
ghost use Rattle.fault_system.specs.Systems.{event_name};
ghost use Rattle.galileo_writer.specs.TreeText.{name_at, rate_of};
ghost use Rattle.dot_writer.specs.Picture.{arc_line, edge_line, event_form, event_line, event_look, is_mark, leaf, leaf_edge, leaf_head, number, rate_sign, rate_told, rate_words, shape, tooltip, transfer_line, transfer_look};
ghost use Rattle.dot_writer.specs.TreePicture.{arc_of, is_below, usage_at};
ghost use Rattle.dot_writer.specs.Words.{behind};

use crate::gates::name_at;
use crate::parts::is_parted;
use crate::sheet::Sheet;
use crate::shown::push_shown;
use crate::usages::Usage;
use crate::words::{behind, push_words, until};
use itoa::Buffer;
use plain_values::{Mem, is_same};
use property_reader::{Rate, RateKind, rate_word};
use round_gates::Input;
use std::alloc::Global;

/// Adds a decimal number.
pub(crate) fn push_decimal(line: &mut Vec<u8>, number: u64) -> Mem<()>
    ensures { OnOk result (line.new.items ≡ line.old.items ++ decimal number) }
{
    let mut buffer = Buffer::new();
    line.extend_from_slice(buffer.format(number).as_bytes())?;
    Ok(())
}

/// Adds the number of what is at a position.
pub(crate) fn push_number(line: &mut Vec<u8>, position: u32) -> Mem<()>
    ensures { OnOk result (line.new.items ≡ line.old.items ++ number position) }
{
    push_decimal(line, u64::from(position) + 1)
}

/// Adds the line of what is at a place below the gate at a position, for an input.
pub(crate) fn push_arc(
    alloc: Global,
    line: &mut Vec<u8>,
    sheet: &Sheet,
    position: u32,
    place: u32,
    input: Input,
) -> Mem<()>
    ensures { OnOk result (line.new.items ≡ line.old.items ++ arc_line position place (arc_of sheet.now position input)) }
{
    match input {
        Input::Event(number) => push_event(line, sheet, position, place, number),
        Input::Gate(number) => {
            let parted = is_parted(&sheet.tree.gates);
            if is_below(parted, position, usage_at(sheet.usages.items(), number)) {
                push_edge(line, position, number)
            } else {
                push_transfer(alloc, line, sheet, position, place, number)
            }
        }
    }
}

/// Adds the edge to a gate that is drawn below.
fn push_edge(line: &mut Vec<u8>, position: u32, to: u32) -> Mem<()>
    ensures { OnOk result (line.new.items ≡ line.old.items ++ edge_line position to) }
{
    line.extend_from_slice(b"\tg")?;
    push_number(line, position)?;
    line.extend_from_slice(b" -> g")?;
    push_number(line, to)?;
    line.extend_from_slice(b";\n")?;
    Ok(())
}

/// Adds the line of an event.
fn push_event(line: &mut Vec<u8>, sheet: &Sheet, position: u32, place: u32, number: u32) -> Mem<()>
    ensures { OnOk result (line.new.items ≡ line.old.items
        ++ event_line position place (event_name sheet.now.system number) (rate_of sheet.now.rates number)) }
{
    let name = sheet.system.event_name(number);
    push_event_line(line, position, place, name, sheet.rates.items(), number)
}

/// Adds the line of an event of a name.
fn push_event_line(
    line: &mut Vec<u8>,
    position: u32,
    place: u32,
    name: &[u8],
    rates: &[Rate],
    number: u32,
) -> Mem<()>
    ensures { OnOk result (line.new.items ≡ line.old.items ++ event_line position place name.now (rate_of rates.now number)) }
{
    push_leaf_head(line, b'e', position, place, name)?;
    push_event_form(line, name, rates, number)?;
    push_event_look(line, name, rates, number)?;
    push_leaf_edge(line, b'e', position, place)?;
    Ok(())
}

/// Adds the line of a transfer.
fn push_transfer(
    alloc: Global,
    line: &mut Vec<u8>,
    sheet: &Sheet,
    position: u32,
    place: u32,
    number: u32,
) -> Mem<()>
    ensures { OnOk result (line.new.items ≡ line.old.items
        ++ transfer_line position place number (name_at sheet.now.system sheet.now.tree.gates number)) }
{
    let name = name_at(alloc, &sheet.system, sheet.tree.gates.items(), number)?;
    push_leaf_head(line, b't', position, place, name.items())?;
    push_transfer_look(line, number)?;
    push_leaf_edge(line, b't', position, place)
}

/// Adds what is seen of a transfer: a triangle with the number of the box to which it leads.
fn push_transfer_look(line: &mut Vec<u8>, number: u32) -> Mem<()>
    ensures { OnOk result (line.new.items ≡ line.old.items ++ transfer_look number) }
{
    line.extend_from_slice(
        b",shape=triangle,height=0.45,width=0.6,fixedsize=true,fontsize=9,label=\"T",
    )?;
    push_number(line, number)?;
    line.push(b'"')?;
    Ok(())
}

/// How the gate at a position is used.
pub(crate) fn usage_at(usages: &[Usage], position: u32) -> Usage
    ensures { result ≡ usage_at usages.now position }
{
    match usages.get(position as usize) {
        Some(usage) => *usage,
        None => Usage::Unused,
    }
}

/// Whether a gate that is used so is drawn below the gate at a position: that is the first which uses it; one to which transfers
/// lead is drawn below none, where the tree is drawn in parts.
fn is_below(parted: bool, position: u32, usage: Usage) -> bool
    ensures { result ≡ is_below parted position usage }
{
    match usage {
        Usage::Unused => false,
        Usage::Once(first) => first == position,
        Usage::Shared(first) => !parted && first == position,
    }
}

/// Adds what the line of an event or of a transfer begins with: its node and a full name.
fn push_leaf_head(line: &mut Vec<u8>, letter: u8, position: u32, place: u32, name: &[u8]) -> Mem<()>
    ensures { OnOk result (line.new.items ≡ line.old.items ++ leaf_head letter position place name.now) }
{
    line.push(b'\t')?;
    push_leaf(line, letter, position, place)?;
    push_tooltip(line, name)
}

/// Adds the full name of a node.
pub(crate) fn push_tooltip(line: &mut Vec<u8>, name: &[u8]) -> Mem<()>
    ensures { OnOk result (line.new.items ≡ line.old.items ++ tooltip name.now) }
{
    line.extend_from_slice(b" [tooltip=\"")?;
    push_shown(line, name)?;
    line.push(b'"')?;
    Ok(())
}

/// Adds what it ends with: the edge that leads to it.
fn push_leaf_edge(line: &mut Vec<u8>, letter: u8, position: u32, place: u32) -> Mem<()>
    ensures { OnOk result (line.new.items ≡ line.old.items ++ leaf_edge letter position place) }
{
    line.extend_from_slice(b"]; g")?;
    push_number(line, position)?;
    line.extend_from_slice(b" -> ")?;
    push_leaf(line, letter, position, place)?;
    line.extend_from_slice(b";\n")?;
    Ok(())
}

/// Adds the node of what is below a box: a letter, and the numbers of the box and of the place below it.
fn push_leaf(line: &mut Vec<u8>, letter: u8, position: u32, place: u32) -> Mem<()>
    ensures { OnOk result (line.new.items ≡ line.old.items ++ leaf letter position place) }
{
    line.push(letter)?;
    push_number(line, position)?;
    line.push(b'_')?;
    push_number(line, place)
}

/// Adds the rate of an event, and its shape.
fn push_event_form(line: &mut Vec<u8>, name: &[u8], rates: &[Rate], number: u32) -> Mem<()>
    ensures { OnOk result (line.new.items ≡ line.old.items ++ event_form name.now (rate_of rates.now number)) }
{
    line.extend_from_slice(b",rate=\"")?;
    push_told(line, rates, number)?;
    line.extend_from_slice(b"\",shape=")?;
    line.extend_from_slice(shape(name))?;
    Ok(())
}

/// Adds what is seen of an event: its words, and its rate.
fn push_event_look(line: &mut Vec<u8>, name: &[u8], rates: &[Rate], number: u32) -> Mem<()>
    ensures { OnOk result (line.new.items ≡ line.old.items ++ event_look name.now (rate_of rates.now number)) }
{
    line.extend_from_slice(b",label=<")?;
    push_words(line, name)?;
    line.extend_from_slice(b"<br/><font point-size=\"8\">")?;
    push_rate(line, rates, number)?;
    line.extend_from_slice(b"</font>>")?;
    Ok(())
}

/// The shape of an event: a house where something arrives from outside, and else a circle.
fn shape(name: &[u8]) -> &'static [u8]
    ensures { result.now ≡ shape name.now }
{
    if is_same(until(own_name(name), b':'), b"in") {
        b"house"
    } else {
        b"circle"
    }
}

/// The name of an event behind that of its component; empty where there is none.
fn own_name(name: &[u8]) -> &[u8]
    ensures { result.now ≡ unwrap_or (behind 47 name.now) [] }
{
    match behind(name, b'/') {
        Some(own) => own,
        None => b"",
    }
}

/// Adds the rate of an event as it is told; one that has none has the conservative one.
fn push_told(line: &mut Vec<u8>, rates: &[Rate], number: u32) -> Mem<()>
    ensures { OnOk result (line.new.items ≡ line.old.items ++ rate_told (rate_of rates.now number)) }
{
    match rates.get(number as usize) {
        Some(rate) => {
            line.extend_from_slice(rate_word(rate.kind))?;
            push_shown(line, rate.text.items())
        }
        None => {
            line.extend_from_slice(b"prob=1")?;
            Ok(())
        }
    }
}

/// Adds the words of the rate of an event.
fn push_rate(line: &mut Vec<u8>, rates: &[Rate], number: u32) -> Mem<()>
    ensures { OnOk result (line.new.items ≡ line.old.items ++ rate_words (rate_of rates.now number)) }
{
    match rates.get(number as usize) {
        Some(rate) => push_rate_words(line, rate.kind, rate.text.items()),
        None => {
            line.extend_from_slice(b"no rate")?;
            Ok(())
        }
    }
}

/// Adds the words of a rate.
fn push_rate_words(line: &mut Vec<u8>, kind: RateKind, text: &[u8]) -> Mem<()>
    ensures { OnOk result (line.new.items ≡ line.old.items ++ rate_words (record { kind = kind; text = text.now })) }
{
    if is_mark(kind, text) {
        line.extend_from_slice(b"no rate")?;
        return Ok(());
    }
    line.extend_from_slice(rate_sign(kind))?;
    push_shown(line, text)
}

/// Whether a rate is only the mark of an event that has none: the probability 1.
pub fn is_mark(kind: RateKind, text: &[u8]) -> bool
    ensures { result ≡ is_mark kind text.now }
{
    match kind {
        RateKind::Prob => is_same(text, b"1"),
        RateKind::Lambda => false,
    }
}

/// The sign of a rate's kind.
fn rate_sign(kind: RateKind) -> &'static [u8]
    ensures { result.now ≡ rate_sign kind }
{
    match kind {
        RateKind::Prob => b"p=",
        RateKind::Lambda => b"&lambda;=",
    }
}
