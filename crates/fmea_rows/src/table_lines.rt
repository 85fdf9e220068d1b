//! A table as comma-separated values, line by line.

ghost use Rattle.std.specs.Prelude.{◌≡◌, ◌++◌, ◌+◌, ◌<◌, All, OnOk, false};
ghost use Rattle.aadl_syntax.specs.Form.{IsNumber};
ghost use Rattle.csv.specs.Records.{fields_of};
ghost use Rattle.csv.specs.Writing as Csv;
ghost use Rattle.fmea_rows.specs.Text.{table_text};
ghost use Rattle.fmea_rows.specs.inner.Text.{HasFieldNames};
ghost use Rattle.fmea_rows.specs.inner.Written.{IsAtLine, record_text};

use crate::fields::{put_fields, put_header};
use crate::row::Row;
use csv::{ByteRecord, Writer};
use fault_system::FaultSystem;
use fta_outside::Lines;
use plain_values::{List, Mem};
use property_reader::Rate;
use std::alloc::{AllocError, Global};
use std::marker::Model;

/// How many bytes of lines are kept before the memory for them is let go.
const MOST_KEPT: usize = 65_536;

/// Rows as a table that is made line by line: the line `component,event,rate,effect,round`, and then a line for each row, in their
/// order. Its value is what is left of the text.
#[derive(Drop)]
pub struct TableLines {
    system: FaultSystem,
    rates: List<Rate>,
    rows: List<Row>,
    // whether the line of the columns was made
    begun: bool,
    // of how many rows the lines were made
    at: usize,
    alloc: Global,
    writer: Writer<Vec<u8>>,
    record: ByteRecord,
    number: Vec<u8>,
}

impl Model for TableLines {
    ghost use Rattle.std.specs.Prelude.{List as Items, ℕ};
    ghost use Rattle.fmea_rows.specs.inner.Written.{IsAtLine, table_left};

    ghost Value = { Items ℕ };

    ghost view = { λ t. table_left t.system t.rates t.rows t.begun t.at };

    ghost invariant = { λ t. IsAtLine t.writer };
}

impl TableLines {
    /// The table of some rows.
    ///
    /// There is one rate for each event of the system; an event without one has the conservative rate. Names of facts and events
    /// hold neither a comma nor a quotation mark, a line feed or a carriage return.
    pub fn new(alloc: Global, system: FaultSystem, rows: List<Row>, rates: List<Rate>) -> TableLines
        requires names { HasFieldNames system }
        requires rates { All (λ rate. IsNumber rate.text) rates }
        ensures { result ≡ table_text system rates rows }
    {
        TableLines {
            system,
            rates,
            rows,
            begun: false,
            at: 0,
            alloc,
            writer: Writer::from_writer(Vec::new(alloc)),
            record: ByteRecord::new(alloc),
            number: Vec::new(alloc),
        }
    }
}

impl Lines for TableLines {
    ghost left = { λ text. text };

    fn next(&mut self, line: &mut Vec<u8>) -> Mem<bool> {
        if !self.begun {
            put_header(&mut self.record)?;
            put_record(self.alloc, &mut self.writer, &self.record, line)?;
            self.begun = true;
            return Ok(true);
        }
        let Some(row) = self.rows.items().get(self.at) else {
            return Ok(false);
        };
        renew(self.alloc, &mut self.writer);
        let rates = self.rates.items();
        put_fields(
            &mut self.record,
            &mut self.number,
            &self.system,
            rates,
            *row,
        )?;
        put_record(self.alloc, &mut self.writer, &self.record, line)?;
        self.at += 1;
        Ok(true)
    }
}

/// Begins with a writer that keeps nothing, where this one keeps much.
fn renew(alloc: Global, writer: &mut Writer<Vec<u8>>)
    requires { IsAtLine writer.old }
    ensures { IsAtLine writer.new }
{
    if writer.get_ref().len() > MOST_KEPT {
        *writer = Writer::from_writer(Vec::new(alloc));
    }
}

/// Puts the line of a record into a buffer, in place of what that holds.
fn put_record(
    alloc: Global,
    writer: &mut Writer<Vec<u8>>,
    fields: &ByteRecord,
    line: &mut Vec<u8>,
) -> Mem<()>
    requires { IsAtLine writer.old }
    ensures line { OnOk result (line.new.items ≡ record_text (fields_of fields.now)) }
    ensures at_line { IsAtLine writer.new }
{
    line.clear();
    let start = writer.get_ref().len();
    let Ok(()) = add_line(writer, fields) else {
        *writer = Writer::from_writer(Vec::new(alloc));
        return Err(AllocError);
    };
    line.extend_from_slice(&writer.get_ref().as_slice()[start..])?;
    Ok(())
}

/// Adds the line of a record to those that a writer keeps.
fn add_line(writer: &mut Writer<Vec<u8>>, fields: &ByteRecord) -> Mem<()>
    requires { IsAtLine writer.old }
    ensures line { OnOk result ((Csv.writer_under writer.new).items
        ≡ (Csv.writer_under writer.old).items ++ record_text (fields_of fields.now)) }
    ensures at_line { OnOk result (IsAtLine writer.new) }
{
    let Ok(()) = writer.write_byte_record(fields) else {
        return Err(AllocError);
    };
    let Ok(()) = writer.flush() else {
        return Err(AllocError);
    };
    Ok(())
}
