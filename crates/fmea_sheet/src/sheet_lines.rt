//! A sheet as comma-separated values, line by line.

ghost use Rattle.std.specs.Prelude.{◌≡◌, ◌++◌, IfOk, OnOk, length};
ghost use Rattle.csv.specs.Records.{fields_of};
ghost use Rattle.csv.specs.Writing as Csv;
ghost use Rattle.plain_values.specs.Rising.{RisesWithin};
ghost use Rattle.fmea_sheet.specs.Text.{line_text, sheet_text};
ghost use Rattle.fmea_sheet.specs.inner.Written.{IsAtLine};

use crate::entries::{Entry, entries_of};
use crate::fields::{put_fields, put_header};
use csv::{ByteRecord, Writer};
use fta_outside::Lines;
use plain_values::{List, Mem, Name, Word};
use sheet_model::SheetModel;
use std::alloc::{AllocError, Global};
use std::marker::Model;

/// How many bytes of lines are kept before the memory for them is let go.
const MOST_KEPT: usize = 65_536;

/// A sheet that is made line by line: the line of the columns, and then a line for each event, in their order. Its value is what is left
/// of the text.
#[derive(Drop)]
pub struct SheetLines {
    model: SheetModel,
    entries: List<Entry>,
    // whether the line of the columns was made
    begun: bool,
    // of how many events the lines were made
    at: usize,
    alloc: Global,
    writer: Writer<Vec<u8>>,
    record: ByteRecord,
    text: Vec<u8>,
}

impl Model for SheetLines {
    ghost use Rattle.std.specs.Prelude.{List as Items, ℕ};
    ghost use Rattle.fmea_sheet.specs.inner.Written.{IsAtLine, sheet_left};

    ghost Value = { Items ℕ };

    ghost view = { λ s. sheet_left s.model s.entries s.begun s.at };

    ghost invariant = { λ s. IsAtLine s.writer };
}

impl SheetLines {
    /// The sheet of a model in files of these names and texts. Its effects are rising numbers of facts.
    ///
    /// A cell has the names of the effects that the event of its line reaches alone: those that hold under it alone, and not without any
    /// event. They are found for all events at once, as `rows` of `fmea_rows` finds them.
    pub fn new(alloc: Global, files: &[Word], texts: &[Name], model: SheetModel) -> Mem<SheetLines>
        requires { RisesWithin 0 (length model.events.flat.system.facts) model.events.flat.effects }
        ensures { IfOk result (λ lines. lines ≡ sheet_text files.now texts.now model) }
    {
        let entries = entries_of(alloc, files, texts, &model.events)?;
        Ok(SheetLines {
            model,
            entries,
            begun: false,
            at: 0,
            alloc,
            writer: Writer::from_writer(Vec::new(alloc)),
            record: ByteRecord::new(alloc),
            text: Vec::new(alloc),
        })
    }
}

impl Lines for SheetLines {
    ghost left = { λ text. text };

    fn next(&mut self, line: &mut Vec<u8>) -> Mem<bool> {
        if !self.begun {
            put_header(&mut self.record)?;
            put_record(self.alloc, &mut self.writer, &self.record, line)?;
            self.begun = true;
            return Ok(true);
        }
        let Some(entry) = self.entries.items().get(self.at) else {
            return Ok(false);
        };
        renew(self.alloc, &mut self.writer);
        put_fields(
            self.alloc,
            &mut self.record,
            &mut self.text,
            &self.model,
            entry,
        )?;
        put_record(self.alloc, &mut self.writer, &self.record, line)?;
        self.at += 1;
        Ok(true)
    }
}
/// Begins with a writer that keeps nothing, where this one keeps much.
fn renew(alloc: Global, writer: &mut Writer<Vec<u8>>)
    requires { IsAtLine writer.old }
    ensures { IsAtLine writer.new }
{
    if writer.get_ref().len() > MOST_KEPT {
        *writer = Writer::from_writer(Vec::new(alloc));
    }
}

/// Puts the line of a record into a buffer, in place of what that holds.
fn put_record(
    alloc: Global,
    writer: &mut Writer<Vec<u8>>,
    fields: &ByteRecord,
    line: &mut Vec<u8>,
) -> Mem<()>
    requires { IsAtLine writer.old }
    ensures line { OnOk result (line.new.items ≡ line_text (fields_of fields.now)) }
    ensures at_line { IsAtLine writer.new }
{
    line.clear();
    let start = writer.get_ref().len();
    let Ok(()) = add_line(writer, fields) else {
        *writer = Writer::from_writer(Vec::new(alloc));
        return Err(AllocError);
    };
    line.extend_from_slice(&writer.get_ref().as_slice()[start..])?;
    Ok(())
}

/// Adds the line of a record to those that a writer keeps.
fn add_line(writer: &mut Writer<Vec<u8>>, fields: &ByteRecord) -> Mem<()>
    requires { IsAtLine writer.old }
    ensures line { OnOk result ((Csv.writer_under writer.new).items
        ≡ (Csv.writer_under writer.old).items ++ line_text (fields_of fields.now)) }
    ensures at_line { OnOk result (IsAtLine writer.new) }
{
    let Ok(()) = writer.write_byte_record(fields) else {
        return Err(AllocError);
    };
    let Ok(()) = writer.flush() else {
        return Err(AllocError);
    };
    Ok(())
}
