//! The lines of boxes.

ghost use Rattle.std.specs.Prelude.{◌≡◌, ◌++◌, OnOk, flat_map, option_copied};
ghost use Rattle.galileo_writer.specs.TreeText.{gate_name};
ghost use Rattle.dot_writer.specs.Picture.{box_line, box_look, box_start, drawn_text, head_text, kind_told, kind_word, legend_line, pack_text, part_line, style_text, symbol, symbol_row, symbols_text, tooltip, transfer_sign, words_row};
ghost use Rattle.dot_writer.specs.TreePicture.{box_of, box_words, is_inner, is_shared, of_one_formula, usage_at};

use crate::gates::gate_at;
use crate::leaves::{push_decimal, push_number, push_tooltip, usage_at};
use crate::parts::part_of;
use crate::sheet::Sheet;
use crate::shown::push_shown;
use crate::usages::Usage;
use crate::words::push_words;
use fault_system::FaultSystem;
use galileo_writer::gate_name;
use plain_values::{Mem, Name};
use round_gates::{Gate, GateKind};
use std::alloc::Global;

/// Adds the line of the box of the gate at a position, and what stands before it.
pub(crate) fn push_box_start(
    alloc: Global,
    line: &mut Vec<u8>,
    sheet: &Sheet,
    position: u32,
    gate: &Gate,
) -> Mem<()>
    ensures { OnOk result (line.new.items ≡ line.old.items ++ box_start position (box_of sheet.now position gate.now)) }
{
    push_part_line(line, part_of(sheet, position))?;
    push_box(alloc, line, sheet, position, gate)
}

/// Adds the line before a box that stands in a part.
fn push_part_line(line: &mut Vec<u8>, part: Option<u32>) -> Mem<()>
    ensures { OnOk result (line.new.items ≡ line.old.items ++ part_line part) }
{
    match part {
        Some(head) => {
            line.extend_from_slice(b"subgraph cluster_")?;
            push_number(line, head)?;
            line.extend_from_slice(b" {label=\"\";color=gray;\n")?;
            Ok(())
        }
        None => Ok(()),
    }
}

/// Adds the line of the box of the gate at a position.
fn push_box(alloc: Global, line: &mut Vec<u8>, sheet: &Sheet, position: u32, gate: &Gate) -> Mem<()>
    ensures { OnOk result (line.new.items ≡ line.old.items ++ box_line position (box_of sheet.now position gate.now)) }
{
    line.push(b'g')?;
    push_number(line, position)?;
    push_gate_tooltip(alloc, line, &sheet.system, gate)?;
    push_kind_told(line, gate.kind)?;
    push_box_look(line, sheet, position, gate)?;
    line.extend_from_slice(b"];\n")?;
    Ok(())
}

/// Adds the full name of a gate.
fn push_gate_tooltip(
    alloc: Global,
    line: &mut Vec<u8>,
    system: &FaultSystem,
    gate: &Gate,
) -> Mem<()>
    ensures { OnOk result (line.new.items ≡ line.old.items ++ tooltip (gate_name system.now gate.now)) }
{
    let name = gate_name(alloc, system, gate)?;
    push_tooltip(line, name.items())
}

/// Adds the kind of a gate as it is told.
fn push_kind_told(line: &mut Vec<u8>, kind: GateKind) -> Mem<()>
    ensures { OnOk result (line.new.items ≡ line.old.items ++ kind_told kind) }
{
    line.extend_from_slice(b",kind=\"")?;
    push_kind(line, kind)?;
    line.push(b'"')?;
    Ok(())
}

/// Adds what is seen of a box: its words, and below them its symbol.
fn push_box_look(line: &mut Vec<u8>, sheet: &Sheet, position: u32, gate: &Gate) -> Mem<()>
    ensures { OnOk result (line.new.items ≡ line.old.items ++ box_look position (box_of sheet.now position gate.now)) }
{
    line.extend_from_slice(
        b",label=<<table border=\"0\" cellborder=\"1\" cellspacing=\"0\" cellpadding=\"4\">",
    )?;
    push_box_words(line, sheet, position, gate)?;
    push_symbol_row(line, sheet, position, gate)?;
    line.extend_from_slice(b"</table>>")?;
    Ok(())
}

/// Adds the row of a box that has its symbol.
fn push_symbol_row(line: &mut Vec<u8>, sheet: &Sheet, position: u32, gate: &Gate) -> Mem<()>
    ensures { OnOk result (line.new.items ≡ line.old.items ++ symbol_row position (box_of sheet.now position gate.now)) }
{
    line.extend_from_slice(b"<tr><td bgcolor=\"#eeeeee\">")?;
    push_symbol(line, gate.kind)?;
    push_box_sign(line, sheet, position)?;
    line.extend_from_slice(b"</td></tr>")?;
    Ok(())
}

/// Adds the row of the words of the box of the gate at a position.
fn push_box_words(line: &mut Vec<u8>, sheet: &Sheet, position: u32, gate: &Gate) -> Mem<()>
    ensures { OnOk result (line.new.items ≡ line.old.items ++ words_row (box_words sheet.now position gate.now)) }
{
    push_words_row(line, box_words(sheet, position, gate))
}

/// Adds the sign of a transfer, where transfers lead to the gate at a position.
fn push_box_sign(line: &mut Vec<u8>, sheet: &Sheet, position: u32) -> Mem<()>
    ensures { OnOk result (line.new.items ≡ line.old.items ++ transfer_sign (is_shared (usage_at sheet.now.usages position)) position) }
{
    let is_shared = is_shared(usage_at(sheet.usages.items(), position));
    push_transfer_sign(line, is_shared, position)
}

/// Adds the row of a box that has its words.
fn push_words_row(line: &mut Vec<u8>, name: Option<&[u8]>) -> Mem<()>
    ensures { OnOk result (line.new.items ≡ line.old.items ++ words_row (option_copied name.entry)) }
{
    match name {
        Some(name) => {
            line.extend_from_slice(b"<tr><td>")?;
            push_words(line, name)?;
            line.extend_from_slice(b"</td></tr>")?;
            Ok(())
        }
        None => Ok(()),
    }
}

/// Adds the sign of a transfer, where this is so.
fn push_transfer_sign(line: &mut Vec<u8>, is_shared: bool, position: u32) -> Mem<()>
    ensures { OnOk result (line.new.items ≡ line.old.items ++ transfer_sign is_shared position) }
{
    if !is_shared {
        return Ok(());
    }
    line.extend_from_slice(b" &#9651;T")?;
    push_number(line, position)
}

/// Adds the word of a gate's kind.
fn push_kind(line: &mut Vec<u8>, kind: GateKind) -> Mem<()>
    ensures { OnOk result (line.new.items ≡ line.old.items ++ kind_word kind) }
{
    match kind {
        GateKind::And => {
            line.extend_from_slice(b"and")?;
            Ok(())
        }
        GateKind::Or => {
            line.extend_from_slice(b"or")?;
            Ok(())
        }
        GateKind::AtLeast(least) => {
            line.extend_from_slice(b"least ")?;
            push_decimal(line, u64::from(least))
        }
    }
}

/// Adds the symbol of a gate: all, one, or at least so many of its inputs.
fn push_symbol(line: &mut Vec<u8>, kind: GateKind) -> Mem<()>
    ensures { OnOk result (line.new.items ≡ line.old.items ++ symbol kind) }
{
    match kind {
        GateKind::And => {
            line.extend_from_slice(b"&amp;")?;
            Ok(())
        }
        GateKind::Or => {
            line.extend_from_slice(b"&ge;1")?;
            Ok(())
        }
        GateKind::AtLeast(least) => {
            line.extend_from_slice(b"&ge;")?;
            push_decimal(line, u64::from(least))
        }
    }
}

/// The name of which the words of a box are made.
fn box_words<'s>(sheet: &'s Sheet, position: u32, gate: &Gate) -> Option<&'s [u8]>
    ensures { option_copied result ≡ box_words sheet.now position gate.now }
{
    if position == sheet.tree.top {
        return Some(sheet.title.target.items());
    }
    let usage = usage_at(sheet.usages.items(), position);
    if is_inner(sheet.tree.gates.items(), gate, usage) {
        return None;
    }
    Some(sheet.system.fact_name(gate.fact))
}

/// Whether a gate is an inner place of the formula of the one gate that uses it.
fn is_inner(gates: &[Gate], gate: &Gate, usage: Usage) -> bool
    ensures { result ≡ is_inner gates.now gate.now usage }
{
    match usage {
        Usage::Once(above) => match gate_at(gates, above) {
            Some(user) => of_one_formula(user, gate),
            None => false,
        },
        Usage::Unused | Usage::Shared(_) => false,
    }
}

/// Whether gates are of one formula: of one fact and one stage.
fn of_one_formula(a: &Gate, b: &Gate) -> bool
    ensures { result ≡ of_one_formula a.now b.now }
{
    a.fact == b.fact && a.stage == b.stage
}

/// Whether transfers lead to a gate that is used so.
fn is_shared(usage: Usage) -> bool
    ensures { result ≡ is_shared usage }
{
    match usage {
        Usage::Shared(_) => true,
        Usage::Unused | Usage::Once(_) => false,
    }
}

/// Adds the lines before the boxes: how all is drawn, and the legend, which begins with what the symbols mean.
pub(crate) fn push_head_text(line: &mut Vec<u8>, parted: bool, legend: &[Name]) -> Mem<()>
    ensures { OnOk result (line.new.items ≡ line.old.items ++ head_text parted legend.now) }
{
    push_drawn(line, parted)?;
    line.extend_from_slice(symbols_text())?;
    push_legend(line, legend)?;
    line.extend_from_slice(b">;\n")?;
    Ok(())
}

/// Adds how all is drawn, in one part or in several.
fn push_drawn(line: &mut Vec<u8>, parted: bool) -> Mem<()>
    ensures { OnOk result (line.new.items ≡ line.old.items ++ drawn_text parted) }
{
    line.extend_from_slice(style_text())?;
    line.extend_from_slice(pack_text(parted))?;
    Ok(())
}

/// How the parts are put together.
fn pack_text(parted: bool) -> &'static [u8]
    ensures { result.now ≡ pack_text parted }
{
    if parted {
        b"packmode=\"graph\";\n"
    } else {
        b""
    }
}

/// How all is drawn.
fn style_text() -> &'static [u8]
    ensures { result.now ≡ style_text }
{
    b"digraph tree {\ngraph [splines=polyline,nodesep=0.25,ranksep=0.35,fontname=\"Helvetica\",fontsize=9,labelloc=b,labeljust=l];\nnode [fontname=\"Helvetica\",fontsize=10,margin=\"0.02\",shape=plain];\nedge [arrowhead=none,tailport=s,headport=n];\n"
}

/// What the symbols mean.
fn symbols_text() -> &'static [u8]
    ensures { result.now ≡ symbols_text }
{
    b"label=<&amp;: all inputs, &ge;n: at least n inputs; circle: event, house: from outside; triangle T: goes on at the box with &#9651;T<br align=\"left\"/>"
}

/// Adds the lines of the legend.
fn push_legend(line: &mut Vec<u8>, legend: &[Name]) -> Mem<()>
    ensures { OnOk result (line.new.items ≡ line.old.items ++ flat_map legend_line legend.now) }
{
    for told in legend {
        push_legend_line(line, told.items())?;
    }
    Ok(())
}

/// Adds a line of the legend.
fn push_legend_line(line: &mut Vec<u8>, told: &[u8]) -> Mem<()>
    ensures { OnOk result (line.new.items ≡ line.old.items ++ legend_line told.now) }
{
    push_shown(line, told)?;
    line.extend_from_slice(b"<br align=\"left\"/>")?;
    Ok(())
}
