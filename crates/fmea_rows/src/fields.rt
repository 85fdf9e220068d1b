//! The fields of a row, put into a record.

ghost use Rattle.std.specs.Prelude.{◌≡◌, ◌++◌, ◌∷◌, [], OnOk, decimal};
ghost use Rattle.csv.specs.Records.{fields_of, partial_of};
ghost use Rattle.fault_system.specs.Systems.{event_name};
ghost use Rattle.fmea_rows.specs.Text.{component_of, header, rate_of, rate_text, row_fields};
ghost use Rattle.property_reader.specs.Rates.{rate_word};

use crate::row::Row;
use csv::ByteRecord;
use fault_system::FaultSystem;
use itoa::Buffer;
use plain_values::Mem;
use property_reader::{Rate, rate_word};

/// Puts the names of the columns into a record.
pub(crate) fn put_header(line: &mut ByteRecord) -> Mem<()>
    ensures { OnOk result (fields_of line.new ≡ header) }
{
    line.clear();
    line.push_field(b"component")?;
    line.push_field(b"event")?;
    line.push_field(b"rate")?;
    line.push_field(b"effect")?;
    line.push_field(b"round")?;
    Ok(())
}

/// Puts the fields of a row into a record.
pub(crate) fn put_fields(
    line: &mut ByteRecord,
    text: &mut Vec<u8>,
    system: &FaultSystem,
    rates: &[Rate],
    row: Row,
) -> Mem<()>
    ensures { OnOk result (fields_of line.new ≡ row_fields system.now rates.now row) }
{
    put_event(line, text, system, rates, row.event)?;
    line.push_field(system.fact_name(row.effect))?;
    push_number(line, row.round)
}

// Puts the component of an event into a record, with its name and its rate.
fn put_event(
    line: &mut ByteRecord,
    text: &mut Vec<u8>,
    system: &FaultSystem,
    rates: &[Rate],
    event: u32,
) -> Mem<()>
    ensures fields { OnOk result (fields_of line.new
        ≡ component_of (event_name system.now event) ∷ event_name system.now event
        ∷ rate_text (rate_of rates.now event) ∷ []) }
    ensures partial { OnOk result (partial_of line.new ≡ []) }
{
    let name = system.event_name(event);
    put_rate(text, rates, event)?;
    line.clear();
    line.push_field(component_of(name))?;
    line.push_field(name)?;
    line.push_field(text.as_slice())?;
    Ok(())
}

// What stands before the first `/` of a name.
fn component_of(name: &[u8]) -> &[u8]
    ensures { result.now ≡ component_of name.now }
{
    for (i, byte) in name.iter().enumerate() {
        if *byte == b'/' {
            return &name[..i];
        }
    }
    name
}

// Puts the rate of an event into a text; one that has none has the conservative one.
fn put_rate(text: &mut Vec<u8>, rates: &[Rate], event: u32) -> Mem<()>
    ensures { OnOk result (text.new.items ≡ rate_text (rate_of rates.now event)) }
{
    text.clear();
    match rates.get(event as usize) {
        Some(rate) => {
            text.extend_from_slice(rate_word(rate.kind))?;
            text.extend_from_slice(rate.text.items())?;
            Ok(())
        }
        None => {
            text.extend_from_slice(b"prob=1")?;
            Ok(())
        }
    }
}

fn push_number(line: &mut ByteRecord, number: u32) -> Mem<()>
    requires { partial_of line.old ≡ [] }
    ensures { OnOk result (fields_of line.new ≡ fields_of line.old ++ decimal number ∷ []) }
{
    let mut digits = Buffer::new();
    line.push_field(digits.format(number).as_bytes())?;
    Ok(())
}
