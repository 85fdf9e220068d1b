//! The text of a picture, line by line.

ghost use Rattle.std.specs.Prelude.{◌≡◌, ◌++◌, ◌+◌, ◌<◌, ◌^◌, IfOk, IsTrue, OnOk, [], false, length};
ghost use Rattle.std.specs.Option.{option_map_or};
ghost use Rattle.dot_writer.specs.Picture.{head_text, part_end};
ghost use Rattle.dot_writer.specs.TreePicture.{dot_text, is_parted};
ghost use Rattle.dot_writer.specs.inner.DotText.{below_from, boxes_from, end_of};

use crate::boxes::{push_box_start, push_head_text};
use crate::gates::{gate_in, input_at};
use crate::leaves::push_arc;
use crate::parts::{heads_of, is_parted, part_of};
use crate::sheet::{Sheet, Title};
use crate::usages::usages_of;
use fault_system::FaultSystem;
use fta_outside::Lines;
use plain_values::{List, Mem};
use property_reader::Rate;
use round_gates::Tree;
use std::alloc::Global;
use std::marker::Model;

/// A tree as a picture that is made line by line: how all is drawn and the legend, then a line for each gate, in order, each with
/// a line for each input behind it, and where it stands in a part between the braces of that. Its value is what is left of the text.
#[derive(Drop)]
pub struct DotLines {
    alloc: Global,
    sheet: Sheet,
    // whether the lines before the boxes were made
    begun: bool,
    // the gate whose inputs are made, and how many of them were made
    current: Option<u32>,
    place: u32,
    // of how many gates the boxes were made
    gates: u32,
    // whether the last line was made
    ended: bool,
}

impl Model for DotLines {
    ghost use Rattle.std.specs.Prelude.{List, ℕ};
    ghost use Rattle.dot_writer.specs.inner.DotText.{text_left};

    ghost Value = { List ℕ };

    ghost view = { λ t. text_left t.sheet t.begun t.current t.place t.gates t.ended };
}

impl DotLines {
    /// The picture of a tree.
    ///
    /// A gate is a box with words, made of its fact's name, and a symbol; the top has those of the target; an inner place of a
    /// formula is a bare symbol. A gate that several use is drawn below the first of them, and the others have a transfer. Where
    /// there are more than 40 boxes each such gate is drawn apart, with what is below it as a part, and all have a transfer.
    pub fn new(
        alloc: Global,
        system: FaultSystem,
        tree: Tree,
        rates: List<Rate>,
        title: Title,
    ) -> Mem<DotLines>
        ensures text { IfOk result (λ text. text ≡ dot_text system tree rates title) }
    {
        let usages = usages_of(alloc, &tree.gates)?;
        let heads = heads_of(alloc, &usages)?;
        let sheet = Sheet {
            system,
            tree,
            rates,
            title,
            usages,
            heads,
        };
        Ok(DotLines {
            alloc,
            sheet,
            begun: false,
            current: None,
            place: 0,
            gates: 0,
            ended: false,
        })
    }
}

impl Lines for DotLines {
    ghost left = { λ text. text };

    fn next(&mut self, line: &mut Vec<u8>) -> Mem<bool> {
        if !self.begun {
            push_head(line, &self.sheet)?;
            self.begun = true;
            return Ok(true);
        }
        if put_current(self.alloc, line, &self.sheet, self.current, self.place)? {
            self.place += 1;
            return Ok(true);
        }
        if put_end(line, &self.sheet, self.current)? {
            self.current = None;
            return Ok(true);
        }
        if put_box(self.alloc, line, &self.sheet, self.gates)? {
            self.current = Some(self.gates);
            self.place = 0;
            self.gates += 1;
            return Ok(true);
        }
        if self.ended {
            return Ok(false);
        }
        line.clear();
        line.extend_from_slice(b"}\n")?;
        self.ended = true;
        Ok(true)
    }
}

/// Puts the lines before the boxes into a buffer, in place of what that holds.
fn push_head(line: &mut Vec<u8>, sheet: &Sheet) -> Mem<()>
    ensures text { OnOk result (line.new.items ≡ head_text (is_parted sheet.now.tree.gates) sheet.now.title.legend) }
    ensures some { OnOk result (0 < length line.new.items) }
{
    line.clear();
    push_head_text(
        line,
        is_parted(&sheet.tree.gates),
        sheet.title.legend.items(),
    )
}

/// Puts the line at a place below the gate at hand into a buffer, in place of what that holds, and says whether there is one.
fn put_current(
    alloc: Global,
    line: &mut Vec<u8>,
    sheet: &Sheet,
    current: Option<u32>,
    place: u32,
) -> Mem<bool>
    ensures line { IfOk result (λ there. IsTrue there → option_map_or (λ position. below_from sheet.now position place) current [] ≡ line.new.items ++ option_map_or (λ position. below_from sheet.now position (place + 1)) current []) }
    ensures some { IfOk result (λ there. IsTrue there → 0 < length line.new.items) }
    ensures within { IfOk result (λ there. IsTrue there → place + 1 < 2 ^ 32) }
    ensures none { IfOk result (λ there. there ≡ false → option_map_or (λ position. below_from sheet.now position place) current [] ≡ option_map_or (λ position. end_of sheet.now position) current []) }
{
    match current {
        Some(position) => put_arc(alloc, line, sheet, position, place),
        None => Ok(false),
    }
}

/// Puts what stands behind the lines below the gate at hand into a buffer, in place of what that holds, and says whether there is
/// something.
fn put_end(line: &mut Vec<u8>, sheet: &Sheet, current: Option<u32>) -> Mem<bool>
    ensures line { IfOk result (λ there. IsTrue there → option_map_or (λ position. end_of sheet.now position) current [] ≡ line.new.items) }
    ensures some { IfOk result (λ there. IsTrue there → 0 < length line.new.items) }
    ensures none { IfOk result (λ there. there ≡ false → option_map_or (λ position. end_of sheet.now position) current [] ≡ []) }
{
    match current {
        Some(position) => put_part_end(line, part_of(sheet, position)),
        None => Ok(false),
    }
}

/// Puts the line behind a box that stands in a part, and what is below it, into a buffer, and says whether there is one.
fn put_part_end(line: &mut Vec<u8>, part: Option<u32>) -> Mem<bool>
    ensures line { IfOk result (λ there. IsTrue there → part_end part ≡ line.new.items) }
    ensures some { IfOk result (λ there. IsTrue there → 0 < length line.new.items) }
    ensures none { IfOk result (λ there. there ≡ false → part_end part ≡ []) }
{
    match part {
        Some(_) => {
            line.clear();
            line.extend_from_slice(b"}\n")?;
            Ok(true)
        }
        None => Ok(false),
    }
}

/// Puts the line at a place below the gate at a position into a buffer, and says whether there is one.
#[tactic(auto, using(crate::proofs::Left::below_here, crate::proofs::Left::below_end))]
fn put_arc(alloc: Global, line: &mut Vec<u8>, sheet: &Sheet, position: u32, place: u32) -> Mem<bool>
    ensures line { IfOk result (λ there. IsTrue there → below_from sheet.now position place ≡ line.new.items ++ below_from sheet.now position (place + 1)) }
    ensures some { IfOk result (λ there. IsTrue there → 0 < length line.new.items) }
    ensures within { IfOk result (λ there. IsTrue there → place + 1 < 2 ^ 32) }
    ensures none { IfOk result (λ there. there ≡ false → below_from sheet.now position place ≡ end_of sheet.now position) }
{
    match input_at(sheet.tree.gates.items(), position, place) {
        Some(input) => {
            line.clear();
            push_arc(alloc, line, sheet, position, place, *input)?;
            Ok(true)
        }
        None => Ok(false),
    }
}

/// Puts the line of the box at a position into a buffer, in place of what that holds, and says whether there is one.
#[tactic(auto, using(crate::proofs::Left::boxes_here, crate::proofs::Left::boxes_end))]
fn put_box(alloc: Global, line: &mut Vec<u8>, sheet: &Sheet, position: u32) -> Mem<bool>
    ensures line { IfOk result (λ there. IsTrue there → boxes_from sheet.now position ≡ line.new.items ++ (below_from sheet.now position 0 ++ boxes_from sheet.now (position + 1))) }
    ensures some { IfOk result (λ there. IsTrue there → 0 < length line.new.items) }
    ensures within { IfOk result (λ there. IsTrue there → position + 1 < 2 ^ 32) }
    ensures none { IfOk result (λ there. there ≡ false → boxes_from sheet.now position ≡ []) }
{
    match gate_in(&sheet.tree.gates, position) {
        Some(gate) => {
            line.clear();
            push_box_start(alloc, line, sheet, position, gate)?;
            Ok(true)
        }
        None => Ok(false),
    }
}
